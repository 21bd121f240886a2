//! What follows of the definitions of checkpoints, as contracts of functions that do nothing.
ghost use Rattle.checkpoint_model.specs.Laws.{CheckpointsKeep, CheckpointsLead, GatesClose, NewestCounts, OlderMayChange, OtherIsOlder};

/// Where an image stands for what is held, the other file of snapshots and the other journal do not count, whatever they hold
/// that has no open snapshot of a greater generation; while a gate is closed that is open, neither do they, nor while anything is written
/// behind a closed gate.
pub fn other_generation_does_not_count()
    ensures other { OtherIsOlder }
    ensures changes { OlderMayChange }
    ensures gates { GatesClose }
{}

/// While the gate of the next generation's snapshot is opened, an image stands for the same, at the one generation or at the next.
pub fn newest_generation_counts()
    ensures { NewestCounts }
{}

/// Each image of each moment of a checkpoint stands for what is held, and behind it each does so at the next generation, whose
/// journal has no record.
pub fn checkpoints_keep_what_is_held()
    ensures keep { CheckpointsKeep }
    ensures lead { CheckpointsLead }
{}
