//! Laws of groups: each function proves one, and does nothing.
ghost use Rattle.log_model.specs.Spelling.{FrontIsNotWhole, FrontsGoOn, NotWholeIsFront, ReadIsSpelled, SpelledIsRead, WholeIsItems};

/// A transaction that is spelled is read, whatever follows it.
pub fn spelled_is_read()
    ensures { SpelledIsRead }
{}

/// What is read as a transaction has the events of one or more items.
pub fn read_is_spelled()
    ensures { ReadIsSpelled }
{}

/// Events that a transaction can begin with can be followed by others that end it.
pub fn fronts_go_on()
    ensures { FrontsGoOn }
{}

/// Events that lead behind an item are those of one or more items.
pub fn whole_is_items()
    ensures { WholeIsItems }
{}

/// No group is whole just where the bytes end within an event that is the first, or that stands behind
/// BEGIN and events that a transaction can begin with.
pub fn not_whole_is_front()
    ensures only { NotWholeIsFront }
    ensures always { FrontIsNotWhole }
{}
