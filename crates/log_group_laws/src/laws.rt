//! Laws of whole groups: each function proves one, and does nothing.
ghost use Rattle.log_group_laws.specs.Laws.{GroupsLieWithin, GroupsStay, NothingIsNotWhole, StopsStay};

/// A group begins at its place and ends within its bytes, and within a log.
pub fn groups_lie_within()
    ensures { GroupsLieWithin }
{}

/// What is read as a group is read as the same group, whatever follows.
pub fn groups_stay()
    ensures { GroupsStay }
{}

/// What is damaged or not known at the front of some bytes is so whatever follows.
pub fn stops_stay()
    ensures { StopsStay }
{}

/// Where there are no bytes, no group is whole.
pub fn nothing_is_not_whole()
    ensures { NothingIsNotWhole }
{}
