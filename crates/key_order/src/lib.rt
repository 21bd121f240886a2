//! Where the order of a table's primary key saves a sort or a walk.
//!
//! The rows of a table stand in the order of its primary key. ORDER BY just the columns of that key, all rising, leaves them as they stand,
//! all falling turns them. COUNT(*) is how many there are; where the key is one column, MIN of it is that of the first row, MAX that of the
//! last, and COUNT of it counts all. A column is named as in a WHERE: by its name, where no local has it, or with its table's name before it.
//!
//! - `columns`: whether an expression is the column at a place
//! - `ordering`: rows put into the order of ORDER BY without a sort ([`by_key`])
//! - `ends`: what aggregates show without a walk ([`row_of_ends`]); `edges`: the only row that LIMIT 1 leaves ([`row_at_edge`])
//! - `laws`: what holds of ORDER BY, COUNT(*), MIN and MAX; specs/ (`Keys`, `Counts`, `Extremes`)
//!
//! The definitions in specs/ say what is looked for (`Columns`), and what is given (`Given`).
//!
//! # Proved
//! - where [`by_key`] gives rows in an order, ORDER BY gives just these, and changes nothing, for rows that fit and rise, whatever else is
//!   round the SELECT; else it gives the rows back
//! - where [`row_of_ends`] gives a row, the SELECT gives just that row, and changes nothing, in each scene of these tables, whatever else is
//!   round it
//! - where [`row_at_edge`] gives a table with some rows, the SELECT shows just these of it, likewise
//! - rows that rise by their primary key stay as they stand where they are sorted by it, and turn where all its columns are falling; so
//!   ORDER BY just its columns gives rows as they stand, or the other way round, and changes nothing ([`keys_order_rows`])
//! - COUNT(*) alone shows how many rows there are, and changes nothing ([`rows_are_counted`])
//! - of values that rise, and of which none is NULL, MIN is the first and MAX the last ([`extremes_stand_outside`])
#![tactic(auto)]

mod columns;
mod edges;
mod ends;
mod laws;
mod ordering;

// What is its own, and the crates below that it speaks of, passed on: who stands above names them through it.
pub use edges::row_at_edge;
pub use ends::row_of_ends;
pub use laws::{extremes_stand_outside, keys_order_rows, rows_are_counted};
pub use ordering::by_key;
pub use where_candidates;
pub use where_candidates::row_store::tables_are_kept;
