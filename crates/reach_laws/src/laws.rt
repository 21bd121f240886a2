//! What follows from the definitions.
ghost use Rattle.reach_laws.specs.Laws.{BodiesAreReached, CallsAreReached, ReadersChangeNothing, ReachedIsWhatRuns, ReadingChangesNothing, TriggersAreReached};

/// A law: what is called or fired by something that is reached is reached, with all that its body names.
pub fn runs_are_reached()
    ensures calls { CallsAreReached }
    ensures triggers { TriggersAreReached }
    ensures bodies { BodiesAreReached }
{}

/// A law: a statement ends just the same in each setting that is the same to what it reaches, whatever functions and
/// triggers it does not reach, and whatever variables and functions of the session.
pub fn reached_is_what_runs()
    ensures { ReachedIsWhatRuns }
{}

/// A law: a statement that is no change, no definition, and reaches no function that holds a change leaves tables
/// and changes as they were; so do expressions that a session evaluates.
pub fn readers_change_nothing()
    ensures statements { ReadersChangeNothing }
    ensures evaluations { ReadingChangesNothing }
{}
