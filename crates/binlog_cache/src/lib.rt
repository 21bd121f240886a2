//! The items of a transaction until it is committed, which a rollback to a savepoint cuts.
//!
//! A session keeps one cache for its open transaction. What items are, and which bytes they have in a
//! log, is said in `log_entries` and `log_model`; a source stands on this crate.
//!
//! - `cache`: [`Cache`], which contracts see as the list of its items
//! - `kept`: an item with the bytes of all items up to it
//! - `encoding`: the bytes of a transaction; `changes`: the changes of its items
//!
//! # Proved
//! - [`Cache::add`] puts an item behind the others, or wants memory and leaves them; [`Cache::mark`] is
//!   their count, and [`Cache::cut`] leaves those before a mark.
//! - [`Cache::bytes`] is how many bytes the items have in a log, and [`Cache::changes_bytes`] how many
//!   their changes, or the greatest number of 64 bits, always.
//! - [`Cache::changes`] gives the changes of all items in their order, or want of memory.
//! - [`Cache::encode`] gives exactly the bytes of the transaction of the items, or want of memory. It
//!   asks that items by their rows have what those need, and that each event can be written at its
//!   place.
//!
//! # Only tested
//! That calls succeed with ample memory, and the bytes of a small transaction, in `test_items`.
#![tactic(auto)]

mod cache;
mod changes;
mod encoding;
mod kept;

// What is its own, and the crate below that it speaks of, passed on: who stands above names it through it.
pub use binlog_sizes;
pub use cache::Cache;
