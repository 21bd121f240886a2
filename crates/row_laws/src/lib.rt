//! A law of items by their rows: what `row_events` asks of its callers follows from what they know.
//!
//! - `laws`: the law, as a function that does nothing
//!
//! # Proved
//! - changes whose tables have columns and names of at most 64 bytes, and whose rows fit them, can be
//!   written wherever the last of their events ends at a position of at most 1,200,000,000
//!   ([`rows_can_be_written`])
#![tactic(auto)]

mod laws;

// What is its own, and the crates below that it speaks of, passed on: who stands above names them through it.
pub use laws::rows_can_be_written;
pub use row_events;
