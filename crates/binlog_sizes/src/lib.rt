//! How many bytes a transaction has: its items as events of a log, and its changes where they are kept.
//!
//! A transaction may have 64 MiB of each. A source asks that of the items that it keeps, a replica of the groups that it carries
//! out; both stand on this crate.
//!
//! - `changes`: [`changes_size`]
//! - `limits`: [`MOST_BYTES`], and [`MOST_TEXT`], how long a text may be
//!
//! The definitions stand in specs/ (`Sizes`).
//!
//! # Proved
//! - [`changes_size`] is how many bytes changes have, or the greatest number of 64 bits where they have more, and takes no memory
#![tactic(auto)]

mod changes;
mod limits;

// What is its own, and the crates below that it speaks of, passed on: who stands above names them through it.
pub use changes::{change_size, changes_size};
pub use limits::{MOST_BYTES, MOST_TEXT};
pub use row_events;
pub use row_events::{log_entries, row_image};
