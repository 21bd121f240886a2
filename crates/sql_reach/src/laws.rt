//! Laws of the definitions: what holds of every statement.
ghost use Rattle.sql_reach.specs.Closing.{ClosedIsAsDeep, ClosedIsWell};

/// A law: what the parser can give, it can give with locals closed in, where each holds a value that a
/// literal can say; so its canonical text is read back (`prints_are_read` of `sql_text`). Closing adds no level and takes none away.
pub fn closed_is_well()
    ensures well { ClosedIsWell }
    ensures depth { ClosedIsAsDeep }
{}
