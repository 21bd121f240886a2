//! What a source commits, its replica carries out.
ghost use Rattle.apply_laws.specs.Following.{EntriesOfRunsFollow};
ghost use Rattle.apply_laws.specs.Laws.{BasesHold, EntryIsCarried};

use apply_model::session_ctx::carried_context_stands_in;
use session_replays::independence_laws::statements_are_followed;
use statement_names::sql_meaning::statements_end_well;

/// A law: what holds of bases holds with nothing, and behind each entry.
pub fn bases_hold()
    ensures { BasesHold }
{}

/// A law: an entry of a run can follow, where its statements give its changes and its texts say what they are, and where each of
/// its items is logged by its rows or does the same for whoever runs it.
pub fn entries_of_runs_follow()
    ensures { EntriesOfRunsFollow }
{}

/// A law: an entry that can follow, carried out by a replica on the base before it, leaves just the base behind it, whatever
/// identity, draw and counters the replica has.
pub fn entry_is_carried()
    ensures { EntryIsCarried }
{
    statements_are_followed();
    statements_end_well();
    carried_context_stands_in();
}
