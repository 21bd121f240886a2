//! The rows that a WHERE has to look at.
//!
//! A WHERE that names the primary key of its table whole needs only the row of that key, and one that names each value of a unique key
//! only the row that has these; one that says in which range the first column of the primary key is needs only the rows within it; any
//! other needs all rows.
//!
//! - `seeing`: [`candidates`] of a table at a place, [`rows_to_see`] of the table of a name
//!
//! # Proved
//! - keeping rows by the condition is the same action over the [`candidates`] as over all rows of the table: the same rows are kept,
//!   in their order, with the same scene behind them, or the same error ends it
//! - where the condition names the primary key whole, the [`candidates`] are the row of that key alone, if there is one; else where it
//!   names each value of a unique key, the row that has the values of the first such key; else the rows within the range that it says of
//!   the first column of the primary key, which are all where it says none
//! - [`rows_to_see`] gives the definition and the candidates of the table of a name, or the error that there is none
#![tactic(auto)]

mod seeing;

// What is its own, and the crates below that it speaks of, passed on: who stands above names them through it.
pub use row_store;
pub use seeing::{SeenTable, candidates, rows_to_see};
pub use where_ranges::where_keys;
pub use where_ranges::where_keys::session_ctx;
