//! Laws of the definitions.
ghost use Rattle.auto_inc.specs.Counting.{StartRises};
ghost use Rattle.auto_inc.specs.Generating.{LeastCongruent};

/// A law: the value that a statement looks for is the least at or above its start that leaves the
/// wanted rest.
pub fn least_congruent_is_least()
    ensures { LeastCongruent }
{}

/// A law: one row more raises what a counter starts with, as its value would raise the counter.
pub fn start_rises()
    ensures { StartRises }
{}
