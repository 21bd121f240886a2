//! Laws of logs that are read group by group: each function proves one, and does nothing.
ghost use Rattle.log_file_model.specs.Passing.{AllFromFour, EndIsSeen, FrontIsPassed, FrontsAreDamaged, GroupIsFirst, GroupIsPassed, MagicIsPassed, NothingAbove, NothingBehindNames, OthersAreDamaged, StopIsSeen, TurnsAreEnough};

/// More turns of the walk than there are bytes change nothing.
pub fn turns_are_enough()
    ensures { TurnsAreEnough }
{}

/// A group at the front is the first piece, and what follows it is the walk of the rest.
pub fn group_is_first()
    ensures { GroupIsFirst }
{}

/// Behind the magic the first group begins.
pub fn magic_is_passed()
    ensures { MagicIsPassed }
{}

/// A log without its magic is damaged at its first byte.
pub fn others_are_damaged()
    ensures { OthersAreDamaged }
{}

/// From position 4 a log is read as it is read.
pub fn all_from_four()
    ensures { AllFromFour }
{}

/// Behind the bytes before a position the first group from there on begins.
pub fn front_is_passed()
    ensures { FrontIsPassed }
{}

/// Without its magic a log is damaged at its first byte; with a position in the magic, there; and at its end where that comes before.
pub fn fronts_are_damaged()
    ensures { FrontsAreDamaged }
{}

/// Behind the greatest position that a group may end at, any byte is damaged.
pub fn nothing_above()
    ensures { NothingAbove }
{}

/// Behind groups that were passed, one more is.
pub fn group_is_passed()
    ensures { GroupIsPassed }
{}

/// Where no byte follows the groups that were passed, the log ends.
pub fn end_is_seen()
    ensures { EndIsSeen }
{}

/// What is damaged or not known behind the groups that were passed, or a front of a group at the log's end, ends it.
pub fn stop_is_seen()
    ensures { StopIsSeen }
{}

/// Behind the name of the next log a byte is damaged.
pub fn nothing_behind_names()
    ensures { NothingBehindNames }
{}
