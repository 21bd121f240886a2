//! What an item carries of the context in which it ran.

use crate::variables::Vars;

/// The parts of a session's context that an item carries with its text.
#[derive(Drop)]
pub struct Carried {
    /// The moment in the headers of its events, in seconds since 1970-01-01 UTC.
    pub stamp: u32,
    /// The number of the session, as thread id.
    pub connection: u32,
    /// The variable auto_increment_increment, at least 1.
    pub inc: u16,
    /// The variable auto_increment_offset, at least 1.
    pub off: u16,
    /// LAST_INSERT_ID() before the statement, where the statement reaches it.
    pub last_id: Option<i64>,
    /// The first value that the statement itself generated.
    pub first: Option<i64>,
    /// The seeds of RAND() before the statement, where it reaches RAND().
    pub seeds: Option<(u64, u64)>,
    /// The user variables that it reaches, with their values before it, in the order of their names' bytes.
    pub vars: Vars,
}
