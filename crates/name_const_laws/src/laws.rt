//! What holds of a statement with its locals closed in.
ghost use Rattle.name_const_laws.specs.Laws.{ClosedDoesTheSame, ClosedGivesTheSame, ClosedIsAllowed, ClosedIsRead, FittedIsShort};

use sql_reach::closed_is_well;
use sql_text::prints_are_read;

/// A law: a statement with locals closed in does without locals what it does with them; so it is with
/// expressions.
pub fn closed_does_the_same()
    ensures statements { ClosedDoesTheSame }
    ensures expressions { ClosedGivesTheSame }
{}

/// A law: what refuses a statement with its locals in scope refuses it with them closed in, in a session,
/// where each LIMIT is a number or a local that is a number from 0.
pub fn closed_is_allowed()
    ensures { ClosedIsAllowed }
{}

/// A law: what is put where a type is declared is no text of more than 65,535 bytes.
pub fn fitted_values_are_short()
    ensures { FittedIsShort }
{}

/// A law: the canonical text of a statement with locals closed in is read as it, where the parser can give the
/// statement and each local holds what a literal can say.
pub fn closed_is_read()
    ensures { ClosedIsRead }
{
    closed_is_well();
    prints_are_read();
}
