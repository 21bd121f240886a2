//! Changes as events of a log: a map for each table, and the rows of the changes.
//!
//! This crate stands on `row_image` for the bytes of rows and on the definitions of `log_model`
//! (`changes_item`); what writes items stands on it.
//!
//! - `writing`: [`put`], an event behind others
//! - `tables`: the tables of changes in the order of their first changes, and their columns
//! - `nulls`: the bits of columns that may be NULL
//! - `maps`: TABLE_MAPs
//! - `runs`: neighbouring changes of one kind of one table, cut at 8,192 bytes of rows
//! - `rows`: WRITE, UPDATE and DELETE_ROWS, and [`encode_rows`]
//! - `image_sizes`, `event_sizes`: how many bytes rows and events have ([`rows_size`]), without taking
//!   memory
//!
//! The definitions in specs/ say what stands behind what was there (`Writing`), which tables are new
//! (`Tables`), and which changes go into one event (`Runs`).
//!
//! # Proved
//! - [`encode_rows`] and [`put_rows`] put exactly the bytes of the definition's events at the end, from
//!   a header's place on, or answer want of memory, where the bytes still begin as they were. They ask
//!   that the changes' tables have columns and their rows fit them, and that each event can be written
//!   at its place. No change has no events.
//! - [`rows_size`] is how many bytes these events have, or the greatest number of 64 bits, for all
//!   definitions and changes.
//! - [`put`] puts one event at the end and gives the header behind it.
//!
//! # Only tested
//! That calls succeed with ample memory, and the bytes of a small table's changes beside those of another
//! program, in `test_items`. That what was written is read again is a law of `log_model`; that callers
//! can meet what is asked is the law of `row_laws`.
#![tactic(auto)]

mod event_sizes;
mod image_sizes;
mod maps;
mod nulls;
mod rows;
mod runs;
mod tables;
mod writing;

// What is its own, and the crates below that it speaks of, passed on: who stands above names them through it.
pub use event_sizes::rows_size;
pub use row_image;
pub use row_image::log_entries;
pub use rows::{encode_rows, put_rows};
pub use writing::put;
