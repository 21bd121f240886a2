//! One table: its committed rows in order, and over them what a transaction shows.
//!
//! A contract sees [`Sheet`] as a `Page`: the table's definition, its committed rows and the entries of a transaction, both as the
//! slots of `row_sheets` in the order of keys, and for how many new rows there is room. What it shows are the rows in the entries'
//! slots over the committed ones (`rows_on`). The committed rows stand in an arena by numbers, their order and that of the entries
//! are blocks of numbers, so that a call by primary key costs as the count's digits, wherever the row stands. An entry is made by the
//! first change of its key and set again by later ones, so that a change is taken back without memory. Beside the committed rows and
//! beside the entries stand their numbers by the rows' values in each unique key (`row_index`), so that a row in the way of another is
//! found as fast. A row that is taken out of its entry leaves the entries' indexes, and comes back without memory: they hold a number
//! for each entry.
//!
//! - `refusal`: [`SheetRefusal`]
//! - `comparing`: keys of rows without copies of them
//! - `committed`: rows by numbers, and the numbers in order
//! - `entry`, `overlay`: what a transaction has of each key that it changed, and [`Overlay`], all of it
//! - `indexing`: the numbers of entries by the values of their rows
//! - `sheet`: [`Sheet`], its calls by key, and the overlay set aside, put back and forgotten
//! - `finding`: rows found by the values of a key in counted comparisons
//! - `place`, `walking`: entries and committed rows walked side by side
//! - `matching`: rows found by their values in a unique key
//! - `reading`: all rows, and the keys in the way of one
//! - `counting`: how many rows are shown
//! - `between`: the rows of which the primary keys begin in a range
//! - `ending`: the last row
//! - `writing`: rows inserted, replaced and deleted
//! - `standing`: rows that stand just so, replaced and taken out
//! - `settling`: rows that are shown made the committed ones
//! - `whole`, `copying`: the definition, all rows dropped, and the sheet once more
//!
//! # Proved
//! - [`Sheet::get`] and [`Sheet::get_same`] give exactly the row that is shown of a key, or of a row's key
//! - [`Sheet::find`] does so in at most two comparisons more than the counts of entries and of committed rows have binary digits
//!   together; [`Sheet::find_on_key`] gives exactly the row that is shown with some values of the key of a number, by a unique key in at
//!   most three comparisons more than the count of entries has binary digits twice, and that of committed rows once
//! - [`Sheet::insert`], [`Sheet::replace`] and [`Sheet::delete`] make exactly the change of the rows that the definitions say, or refuse
//!   with exactly the first key in the way or that the row is not there; then, and where memory is wanted, what is shown is as
//!   before (`stored`). Whatever they answer, definition and committed rows stay, each entry is there still, and there is no less room
//!   (`stays`)
//! - [`Sheet::replace_same`] and [`Sheet::remove_same`] do so where just the row that they are given stands (`there`), and change nothing
//!   where it does not (`absent`)
//! - [`Sheet::put_back_row`] and [`Sheet::take_same`] put a row into its entry or take it out, without memory: the two halves of taking
//!   a change back; no entry comes or goes (`keys`)
//! - [`Sheet::set_aside`], [`Sheet::put_back`] and [`Sheet::forget`] give exactly the page without entries, with those that were set
//!   aside, and without; they take no memory
//! - [`Sheet::settle`] makes exactly the rows that are shown the committed ones, so that the same are shown then; it takes no memory
//! - [`Sheet::count`] is how many rows are shown, [`Sheet::first`] and [`Sheet::last`] the first and the last of them
//! - [`Sheet::rows_between`] gives the rows of which the first values of the primary keys are in a range, in order, or wants memory
//! - [`Sheet::rows`], [`Sheet::committed_rows`] and [`Sheet::keys`] give the rows and keys in order, or want memory;
//!   [`Sheet::key_in_way`] the number of the first key in the way, [`Sheet::row_on_key`] the row that has the key of a number
//! - [`Sheet::clear`] leaves the definition alone, without memory; [`Sheet::copy`] has the same definition, committed rows and entries,
//!   or wants memory
//! - of each sheet: committed and shown rows are as those of a table have to be, and there is room to settle all that is new
//!   (`page` of [`Sheet::definition`])
//!
//! # Only tested
//! That calls succeed with ample memory, in `test_sheets`.
#![tactic(auto)]

mod between;
mod committed;
mod comparing;
mod copying;
mod counting;
mod ending;
mod entry;
mod finding;
mod indexing;
mod matching;
mod overlay;
mod place;
mod reading;
mod refusal;
mod settling;
mod sheet;
mod standing;
mod walking;
mod whole;
mod writing;

// What is its own, and the crate below that it speaks of, passed on: who stands above names it through this one.
pub use overlay::Overlay;
pub use refusal::SheetRefusal;
pub use row_index::block_list;
pub use sheet::Sheet;
pub use value_ranges;
