//! An item with how many bytes it and those before it have.

use binlog_sizes::log_entries::Item;

/// How many bytes items have in a log, and how many their changes, or the greatest number of 64 bits
/// where they have more.
#[derive(Clone, Copy)]
pub struct Sums {
    pub log: u64,
    pub changes: u64,
}

/// An item, and how many bytes the items up to it have.
#[derive(Drop)]
pub struct Kept {
    pub item: Item,
    pub until: Sums,
}
