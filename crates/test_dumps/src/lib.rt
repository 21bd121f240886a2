//! The tests of `dump_store`.
//!
//! - `stores`: disks whose files are put together by hand
//! - `shown`: what is shown of sources and replicas, and of a snapshot
//! - `refused`: damaged stores, and disks and outputs that fail
#![tactic(auto)]

#[cfg(test)]
mod refused;
#[cfg(test)]
mod shown;
#[cfg(test)]
mod stores;
