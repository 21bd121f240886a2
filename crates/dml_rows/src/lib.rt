//! One row's change: stored and noted for taking back, or neither. The change and the table hold the same row.
//!
//! - `storing`: [`insert_row_at`], [`update_row_at`] and [`delete_row_at`], in the table at a place
//! - `standing`: [`replace_row_at`] and [`remove_row_at`], which are given the row that stands
//! - `by_name`: [`insert_row`], [`update_row`] and [`delete_row`], in the table of a name
//! - `taking_back`: [`take_back_to`]
//!
//! # Proved
//! - each stores exactly what the definitions say, or refuses with exactly what is in the way; then, and
//!   where memory is wanted, the tables are as before (`stored`)
//! - the undo list is the old one with just that change behind it on Ok, else as before (`noted`)
//! - on every exit tables and list go on from the old ones by the one relation of `table_rules` that
//!   composes: the changes behind the old list lead from the old tables to the new, taking them back leads
//!   to the old ones and needs no memory, and keys and definitions stay (`leads`)
//! - [`take_back_to`] makes the tables those after the inverses of the changes behind the mark, the last
//!   one first, and leaves the list up to the mark; it takes no memory. What leads to it from a beginning
//!   before the mark still does (`leads`), and at the mark of the beginning tables and list are as they were
//!   there (`home`)
//! - whatever they answer, the rows that are there to stay are the same, and no table has less room (`leads`,
//!   `still`)
//!
//! # Only tested
//! That calls succeed with ample memory, in `test_rows`.
#![tactic(auto)]

mod by_name;
mod standing;
mod storing;
mod taking_back;

pub use by_name::{delete_row, insert_row, update_row};
pub use row_store;
pub use standing::{remove_row_at, replace_row_at};
pub use storing::{delete_row_at, insert_row_at, update_row_at};
pub use taking_back::take_back_to;
