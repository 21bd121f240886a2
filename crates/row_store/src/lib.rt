//! The rows of tables by their keys.
//!
//! A contract sees [`Tables`] as plain data (`Store`): the tables that the definitions of `table_rules` speak
//! of, for each the keys that are kept, the same tables with the rows that are there to stay, and room. Each
//! table has a shelf: its name, and the sheet of `table_sheet` that its rows stand on. The rows that are there
//! to stay are the sheet's committed ones, and the keys that are kept are those of its entries: a change of a
//! row makes one, where there is none, and it stays until [`Tables::tidy`], so that the change is taken back
//! without memory.
//!
//! A statement asks for a table's place once ([`Tables::place`]), and calls by it for each row; a place is
//! good while no table is made or dropped. Each such call has a form by the table's name too.
//!
//! - `refusal`: [`RowRefusal`]
//! - `shelf`: a table's name and sheet
//! - `taking_back`: a change on a sheet taken back
//! - `named`: the shelf of a table
//! - `tables`: [`Tables`], by places
//! - `by_name`: the same by names
//! - `standing`: rows that stand just so
//! - `reading`: rows read where they stand; `ends`: how many there are, the first and the last
//! - `finding`: rows found by the values of a key
//! - `copying`: tables once more
//! - `setting_aside`: [`Aside`], what a transaction shows set aside and put back, or forgotten
//! - `laws`: what holds of all that is stored
//!
//! # Proved
//! - [`Tables::place`] is the place of a name; [`Tables::definition`] the definition there, of which no
//!   other table has the name (`place`)
//! - [`Tables::get`], [`Tables::keys`] and [`Tables::fits`] give exactly the row, the keys and the answer
//!   of the definitions; `keys` may want memory
//! - [`Tables::insert`], [`Tables::update`] and [`Tables::delete`] make exactly the change that the
//!   definitions say, or refuse with exactly the first key in the way or that the row is not there; then,
//!   and where memory is wanted, the tables are as before (`stored`). `delete` answers with a copy of the
//!   row (`row`)
//! - [`Tables::get_at`], [`Tables::fits_at`], [`Tables::insert_at`], [`Tables::update_at`] and
//!   [`Tables::delete_at`] do so in the table at a place, for each name that has it; no place is asked for
//! - [`Tables::replace_at`] and [`Tables::remove_at`] are given the row that stands, and do so where just that
//!   row does; [`Tables::held_at`] and [`Tables::name_at`] give the row of a key and a table's name as they
//!   are held
//! - [`Tables::rows`] gives the rows in their order, shared with the table, without copies, or wants memory;
//!   [`Tables::rows_between`] those of which the first values of the primary keys are in a range, found by search;
//!   [`Tables::committed_rows`] those that are there to stay; [`Tables::copy`] gives equal tables that keep the
//!   same keys, with the same rows that are there to stay
//! - [`Tables::count`], [`Tables::first`] and [`Tables::last`] give how many rows a table has, and the two at its ends, without memory
//! - [`Tables::key_in_way`], [`Tables::row_in_way`] and [`Tables::row_on_key`] give the number of the first
//!   key in the way, the row that has it, and the row that has the key of a number, without memory
//! - [`Tables::find`], [`Tables::find_at`] and [`Tables::held_with`] give exactly the row that has some values in the key of a number, the
//!   first two in as few comparisons as the counts of rows have binary digits (`primary`, `cost`)
//! - [`Tables::create`], [`Tables::drop_table`], [`Tables::clear`] and [`Tables::tidy`] their definitions;
//!   only `create` wants memory, and then changes nothing; a name that was dropped is free (`gone`)
//! - [`Tables::take_back`] makes the inverse of a change, without memory, where that change can be made
//!   and the keys of the rows that it puts back and takes out are kept
//! - which keys are kept after each call (`kept`, `before`, `keys`): those that were, and those of rows that
//!   are put and taken out, until `tidy` lets them go
//! - calls that store rows and take changes back leave the rows that are there to stay, and no table has less
//!   room (`still`); `create`, `drop_table` and `clear` do with them as with the rows that are shown, and
//!   `tidy` makes those that are shown the ones that are there to stay (`committed`)
//! - [`Tables::set_aside`] leaves nothing shown but the rows that are there to stay, or changes nothing where it
//!   wants memory; [`Tables::put_back`] shows exactly what was set aside again where these are the same and no
//!   table has less room ([`asides_return`]), and [`Tables::forget`] drops what is shown; both without memory
//! - laws: what is stored fits, rises by primary key and has no key in common, no two tables have the same
//!   name, and so it is with the rows that are there to stay ([`tables_are_kept`])
//!
//! # Only tested
//! That calls succeed with ample memory, in `test_rows`.
#![tactic(auto)]

mod by_name;
mod copying;
mod ends;
mod finding;
mod laws;
mod named;
mod reading;
mod refusal;
mod setting_aside;
mod shelf;
mod standing;
mod tables;
mod taking_back;

pub use laws::{asides_return, tables_are_kept};
pub use refusal::RowRefusal;
pub use setting_aside::Aside;
pub use tables::Tables;
