//! What an entry leaves to be written.

use commit_store::Prepared;
use val_types::Bytes;

/// What an entry leaves to be written to a source's disk, with all the memory that writing it needs.
#[derive(Drop)]
pub struct Waiting {
    /// Its bytes behind the last log.
    pub tail: Bytes,
    /// The head of a log that it begins; no byte where it begins none.
    pub head: Bytes,
    /// Its record.
    pub prepared: Prepared,
    /// Whether it counts as a transaction, so that a mark names it.
    pub counts: bool,
}
