//! What follows from the definitions: each function proves a law, and does nothing.
ghost use Rattle.replica_model.specs.Replaying.{AllIsReplayed};

/// A replica that has nothing, whose place is before the first event of the first log, carries out the whole of a log.
pub fn all_is_replayed()
    ensures { AllIsReplayed }
{}
