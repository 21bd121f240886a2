//! How many bytes there may be.

/// The most bytes that the items of a transaction may have as events of a log, and that their changes may have: 64 MiB.
pub const MOST_BYTES: u64 = 67_108_864;

/// The most bytes that a text may have, as a command or in a transaction: 1 MiB.
pub const MOST_TEXT: usize = 1_048_576;
