//! Rows by numbers: each row keeps the number under which it was put, so that indexes of a table may be lists of numbers, and the
//! number of a row that was taken out is given again.
//!
//! A contract sees [`RowArena`] as an `Arena`: the row of each number, None where the number is free, and how many rows can be put
//! without memory. A caller that has made room puts so many, and takes out and replaces without memory.
//!
//! - `arena`: [`RowArena`]
//! - `copying`: rows once more
//!
//! # Proved
//! - [`RowArena::get`] and [`RowArena::shared`] are the row of a number, None where it has none; [`RowArena::len`] is how many
//!   numbers there are
//! - [`RowArena::put`] puts a row under a number that has none, a free one or the next, and leaves at most one less room; [`RowArena::replace`] and
//!   [`RowArena::take`] answer with the row of the number, put another in its place or none, and leave no less room; no other
//!   number's row changes
//! - [`RowArena::make_room`] makes room for so many more, or wants memory; the rows stay, and the room is never less
//! - [`RowArena::copy`] has the same rows under the same numbers, or wants memory
//!
//! # Only tested
//! That calls succeed with ample memory, in `test_blocks`.
#![tactic(auto)]

mod arena;
mod copying;

pub use arena::RowArena;
