//! Rows of a log's events as changes, and the bytes of rows.
//!
//! A rows event has the bytes of rows; what they are says the map of its table, which stands before it
//! in the log. This crate stands on `event_codec` for the views and on the definitions of `log_model`
//! (`row_at`, `changes_at`, `are_rows`); readers of groups and what carries them out stand on it.
//!
//! - `fitting`: [`rows_fit`], without taking memory
//! - `changes`: [`rows_of`]
//! - `row`: [`put_row`] and [`put_change`], with `bits` for the bits of NULLs and `value` for values
//! - `map`: [`codes_of`] and [`metadata_of`], what a map says of a table's columns
//! - `column`: a column's type in a map ([`column_type`], [`behind_type`]), and its value in a row
//!
//! # Proved
//! - [`rows_fit`] is true exactly where the event has as many columns as the map and its bytes are one or
//!   more rows of it, or pairs of rows for an update, for every map and all bytes.
//! - [`rows_of`] gives exactly the changes that the rows are, or want of memory. It asks nothing: where
//!   not all bytes are rows, it gives those of the rows in front.
//! - [`put_row`] and [`put_change`] put exactly the bytes of the definitions `row_bytes` and
//!   `change_bytes` at the end, or answer want of memory, where the bytes still begin as they were; that
//!   these bytes are read again is a law of `log_model`.
//! - [`codes_of`] and [`metadata_of`] give exactly the types and the metadata of a table's map, or want
//!   of memory.
//! - [`column_type`] and [`behind_type`] give the type that a map says of its first column, and what is
//!   left of the metadata behind it, for all bytes.
//!
//! # Only tested
//! That calls succeed with ample memory, in `test_log`.
#![tactic(auto)]

mod bits;
mod changes;
mod column;
mod fitting;
mod map;
mod row;
mod value;

// What is its own, and the crates below that it speaks of, passed on: who stands above names them through it.
pub use changes::rows_of;
pub use column::{behind_type, column_type};
pub use fitting::rows_fit;
pub use log_model::log_entries;
pub use map::{codes_of, metadata_of};
pub use row::{put_change, put_row};
