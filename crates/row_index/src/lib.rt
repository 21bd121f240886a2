//! Numbers of rows by the values of unique keys: a list of numbers a key, in the order of the values that their rows have there,
//! without rows that have a NULL in the key. So a row is found by its values in few comparisons, wherever it stands.
//!
//! Rows stand elsewhere, by their numbers ([`RowsByNumber`]): in an arena, or in the entries of a transaction. The lists are those of
//! `block_list`, one a unique key in the order of definition; a list that is not there yet is empty, so that a table without rows takes
//! no memory. Putting and taking out take none either: a caller makes the lists hold as many numbers as there may be rows.
//!
//! A contract sees each list as the slots of its numbers, by values (`number_slots`), which `row_indexes` speaks of.
//!
//! - `rows`: [`RowsByNumber`]
//! - `comparing`: values of rows in a unique key, compared where they stand
//! - `numbers`: the list of one unique key: a number looked for, put, taken out
//! - `lists`: the lists of all unique keys of a table
//! - `copying`: the lists once more
//!
//! # Proved
//! - [`found_in`] gives the number whose row has the values of a row in a unique key, None where there is none; [`search_in`] that whose
//!   row has some values there, in at most one comparison more than the count of numbers has binary digits
//! - [`columns_cmp`] and [`no_columns_cmp`] are the order of keys, for values of a row in some columns and for no values
//! - [`put_row`] puts the number of a row into the list of each unique key, unless it has a NULL there, [`take_row`] takes it out; they
//!   take no memory, and the lists hold as many numbers as before
//! - [`make_hold`] makes all lists hold so many numbers, or wants memory; [`clear_lists`] takes all numbers out, [`copied_lists`] has
//!   the same numbers; neither changes one that stays
#![tactic(auto)]

mod comparing;
mod copying;
mod lists;
mod numbers;
mod rows;

// What is its own, and the crates below that it speaks of, passed on: who stands above names them through it.
pub use block_list;
pub use comparing::{columns_cmp, no_columns_cmp};
pub use copying::{copied_lists, numbers_copied};
pub use lists::{clear_lists, found_in, make_hold, put_row, search_in, take_row};
pub use row_arena;
pub use row_indexes;
pub use row_sheets;
pub use rows::RowsByNumber;
