//! What the headline says of a log that is replayed.
ghost use Rattle.repl_run.specs.Headline.{ReplaysFollow};

use script_run::run_stores::replica_has_carried;
use script_run::run_stores::run_laws::{fronts_are_read, replays_carry};

/// A law: however the replay of a log ends, where its replica is behind the log's source, and the log is a front of that source's, each image of
/// each moment of its disk has carried out the first of what it owed; and where all of that does the same at every replica, it stops at nothing
/// but the log's end, the place where it was cut, a fault or want of memory, and of a whole log it comes to the source's base.
pub fn replays_follow()
    ensures { ReplaysFollow }
{
    fronts_are_read();
    replays_carry();
    replica_has_carried();
}
