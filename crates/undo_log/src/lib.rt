//! The changes that can be taken back, in the order in which they were made.
//!
//! A contract sees [`Undo`] as the list of its changes. A mark is a count of changes: what stands
//! behind it was made since. Taking a change back is the part of the crate that changes rows.
//!
//! # Proved
//! - [`Undo::push`] puts a change at the end, or wants memory and leaves the list
//! - [`Undo::mark`] is the count; [`Undo::since`] gives the changes behind a mark once more, their rows shared
//!   with the list, or wants memory
//! - [`Undo::pop`] takes the last change out, None just for the empty list; [`Undo::clear`] empties it
//!
//! # Only tested
//! That calls succeed with ample memory, in `test_rows`.
#![tactic(auto)]

mod undo;

pub use undo::Undo;
