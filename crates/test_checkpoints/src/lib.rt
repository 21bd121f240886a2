//! Tests of `checkpoint`: stores by hand, checkpointed and opened again, over disks in memory, whole and stopped.
//!
//! - `opening`: a store that is opened on any disk and checkpointed, so many times, or beside a row that is not there to stay
//! - `harmed`: the snapshot of a source, cut and changed byte by byte
//!
//! # Proved
//! - [`checkpointed`]: after Ok the disk's files are durable, so that the store can be opened and checkpointed again.
//!
//! # Only tested
//! The bytes of snapshots by hand; that many checkpoints in a row leave what was held; that a stop inside each call does, with four crashes;
//! that open changes are in no snapshot; what is read of a snapshot that is cut at each length and of one with each byte as 00, ff and its
//! complement, open, and that a closed one is none.
#![tactic(auto)]

#[cfg(test)]
mod harmed;
mod opening;
#[cfg(test)]
mod tests;

pub use opening::{checkpointed, checkpointed_beside};
