//! Laws of the definitions.
ghost use Rattle.statement_names.specs.Naming.{NamesAreInByteOrder};

/// A law: the names of the user variables of nodes, put one after the other where none is, are these names in the order of
/// their bytes, each once.
pub fn names_are_in_byte_order()
    ensures { NamesAreInByteOrder }
{}
