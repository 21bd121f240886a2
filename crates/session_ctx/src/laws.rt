//! Laws of the definitions.
ghost use Rattle.session_ctx.specs.Carrying.{CarriedStandsIn};
ghost use Rattle.session_ctx.specs.Variables.{NamesAreTable};

/// A law: a context made of what an item carries stands in for the one in which its statement ran.
pub fn carried_context_stands_in()
    ensures { CarriedStandsIn }
{}

/// A law: each variable has a name of its own, and beside that of the log's format the names are those of the variables that
/// SET writes.
pub fn names_are_a_table()
    ensures { NamesAreTable }
{}
