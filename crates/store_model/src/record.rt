//! Records of a store's journal.

use val_types::{Bytes, Change, List};

/// Whose store it is.
#[derive(Clone, Copy)]
pub enum Kind {
    Source,
    Replica,
}

/// What each record says first, behind its kind.
#[derive(Clone, Copy)]
pub struct Head {
    /// How many transactions were committed, or carried out, with this one.
    pub number: u64,
    /// The number of the log that is spoken of.
    pub log: u32,
    /// Where that log of a source ends, or to where a replica has carried it out.
    pub pos: u32,
}

/// A record, with one variant for each kind.
#[derive(Drop)]
pub enum Record {
    /// 1: a source committed a transaction.
    Transaction { head: Head, changes: List<Change> },
    /// 2: a source committed a CREATE, DROP or TRUNCATE.
    Definition { head: Head, text: Bytes },
    /// 3: a log of a source begins, and the log before it, if there is one, ends there.
    LogStart { head: Head, old_end: u32 },
    /// 17: a replica carried out a transaction.
    TransactionApplied { head: Head, changes: List<Change> },
    /// 18: a replica carried out a CREATE, DROP or TRUNCATE.
    DefinitionApplied { head: Head, text: Bytes },
    /// 19: a replica goes on at another place.
    PlaceMoved { head: Head },
}
