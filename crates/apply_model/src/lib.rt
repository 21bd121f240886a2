//! What an applier makes of a log: definitions and no code.
//!
//! An applier has a base with its counters, and carries out the groups of a log one after the other, each whole or not at all. A
//! transaction's rows are put as they are, and no trigger runs for them. A text is run with what stands before it in the log for it,
//! and with nothing of the items before: all else is as in a new session. Where an item has no effect, the applier stops there, and
//! base and counters are as before the group.
//!
//! The definitions stand in specs/: `Stops` (where it stops), `Rows` (one change of a row), `Texts` (a statement of a log), `Groups` (a
//! group), `Worked`.
//!
//! - `worked`: groups by hand, which the checker computes
//!
//! # Proved
//! - The worked groups: rows put, changed and taken out; a row that is not there, a key that is taken and a map of other columns,
//!   each with its place, its number and what it names.
//! - The worked texts: run at their places, also behind rows; texts that are no statement, too long, not allowed in a transaction,
//!   refused by the catalog and refused as they run, each at its place with its number; user variables that are gone for the next
//!   text, and a carried INSERT_ID that goes before the counter.
#![tactic(auto)]

mod worked;

// What is its own, and the crates below that it speaks of, passed on: who stands above names them through it.
pub use binlog_sizes;
pub use binlog_sizes::row_image;
pub use session_ctx;
pub use worked::{
    differing_rows, first_value_carried, long_texts, rows_carried, texts_refused, texts_run,
    variables_of_one_item,
};
