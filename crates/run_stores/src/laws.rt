//! A run begins with a replica's store behind its source's, and ends so.
ghost use Rattle.durable_runs.specs.Laws.{CarriedGoesOn, ReplicasLast};
ghost use Rattle.run_laws.specs.session_replays.Followed.{EntriesFollow};
ghost use Rattle.run_stores.specs.Carried.{CarriedOnTheWay, FollowersAreServed, FollowersHaveCarried, ImagesHaveCarried, ReplayedIsCarried, StatesHaveCarried};
ghost use Rattle.run_stores.specs.Laws.{NothingBegins, RunsEndBehind, StoresBegin, StoresLetBegin, StoresOpen};

use durable_runs::logs_go_on;
use run_laws::log_model::{entries_have_length, heads_have_length};
use run_laws::{replica_follows, runs_open};

/// A law: stores that have nothing let a run begin, and so do stores of which the replica's is behind the source's: the replica follows. In
/// the end of such a run its store is behind the source's again, by what it has not carried out, where each item that it has does the same
/// at every replica.
pub fn behind_goes_on()
    ensures nothing { NothingBegins }
    ensures begins { StoresBegin }
    ensures opens { StoresOpen }
    ensures lets { StoresLetBegin }
    ensures ends { RunsEndBehind }
{
    entries_have_length();
    heads_have_length();
    logs_go_on();
    runs_open();
}

/// A law: whatever a replica is at a moment of a run that began behind its store has carried out a prefix of what its source logged, and no
/// more than it has committed. So each image of each moment of its disk has, where it holds what the replica was at some moment.
pub fn replica_has_carried()
    ensures follows { FollowersHaveCarried }
    ensures served { FollowersAreServed }
    ensures on_the_way { CarriedOnTheWay }
    ensures states { StatesHaveCarried }
    ensures images { ImagesHaveCarried }
    ensures replayed { ReplayedIsCarried }
    ensures goes_on { CarriedGoesOn EntriesFollow }
    ensures last { ReplicasLast EntriesFollow }
{
    entries_have_length();
    heads_have_length();
    replica_follows();
}
