//! How runs come to be, and how they compose: laws, each a function that does nothing.
ghost use Rattle.durable_runs.specs.Laws.{BothCompose, RunsCompose, RunsLast};
ghost use Rattle.durable_runs.specs.Replicas.{replica_side};
ghost use Rattle.durable_runs.specs.Sources.{source_side};

/// How runs of a source and of a replica come to be, and that runs one behind the other are a run.
pub fn runs_compose()
    ensures source { RunsCompose source_side }
    ensures replica { RunsCompose replica_side }
{}

/// A whole run begins on a settled disk, goes on run by run, and claims in the end of each image of each moment what it says. No mark of
/// it says more calls than the disk has had.
pub fn runs_last()
    ensures source { RunsLast source_side }
    ensures replica { RunsLast replica_side }
{}

/// The same over both disks, also where a command calls one of them alone.
pub fn both_compose()
    ensures { BothCompose }
{}
