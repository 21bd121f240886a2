//! Laws of entries in a log: each function proves one, and does nothing.
ghost use Rattle.log_entry_laws.specs.Laws.{EntriesCanLogOn, EntryIsCut, EntryIsRead, FewAreCut, GroupsHaveBounds, RelayIsRead, StartIsCut, StartIsRead, StartRelayIsRead};

/// The group of an entry begins at its place and has just its bytes.
pub fn groups_have_bounds()
    ensures { GroupsHaveBounds }
{}

/// The first event of a log is read as its start, whatever follows it.
pub fn start_is_read()
    ensures { StartIsRead }
{}

/// An entry that is logged is read as its group, whatever follows it.
pub fn entry_is_read()
    ensures { EntryIsRead }
{}

/// Fewer bytes than a header has are not whole, wherever they stand.
pub fn few_are_cut()
    ensures { FewAreCut }
{}

/// Where some of its bytes are missing, the first event of a log is not whole.
pub fn start_is_cut()
    ensures { StartIsCut }
{}

/// Where some of its bytes are missing, an entry is not whole.
pub fn entry_is_cut()
    ensures { EntryIsCut }
{}

/// Where a log is fetched piece by piece, its start is not whole yet; or it is read, and a front of what
/// follows is there.
pub fn start_relay_is_read()
    ensures { StartRelayIsRead }
{}

/// So it is with an entry.
pub fn relay_is_read()
    ensures { RelayIsRead }
{}

/// Entries can be logged behind others just where they can be behind what those append.
pub fn entries_can_log_on()
    ensures { EntriesCanLogOn }
{}
