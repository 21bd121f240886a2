//! What leaves a store as it is, as a contract of a function that does nothing.
ghost use Rattle.commit_store.specs.Laws.{FetchedMayChange, LogsMayGrow};

/// What is put into a file from 8 on, as a source does with a log before it stages, leaves what is held, whichever call fails;
/// so do all calls on what a replica has fetched.
pub fn other_files_leave_the_store()
    ensures logs { LogsMayGrow }
    ensures fetched { FetchedMayChange }
{}
