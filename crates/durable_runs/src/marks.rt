//! What follows of marks: a law, as a function that does nothing.
ghost use Rattle.durable_runs.specs.Laws.{LaterNameNothing, NamedRises, RisesGoOn};

/// What marks name never falls, as more are pushed and more calls return; those of later calls name nothing yet; where they
/// rise by one, the last of them is what is named in the end.
pub fn marks_rise()
    ensures rises { NamedRises }
    ensures later { LaterNameNothing }
    ensures one { RisesGoOn }
{}
