//! How long the canonical text of a statement with locals closed in is, without closing or writing it.
//!
//! A procedure asks it of each statement that it runs, in each turn of a loop.
//!
//! - `lengths`: bytes, names, values and LIMITs, which stand at the end of a length
//! - `words`: names of system variables
//! - `expressions`: expressions and SELECTs
//! - `statements`: changes, and [`closed_length`], for all statements
//!
//! In specs/ stand `Growing` (a length with that of a text behind it) and `Closed` (the parts of a statement with locals closed in).
//!
//! # Proved
//! - [`closed_length`] gives the number of bytes that the text has, at most the greatest number of 64 bits, or answers want of
//!   memory. It takes none for changes, SELECT and DO.
#![tactic(auto, using(crate::proofs::Growing::growing))]

mod expressions;
mod lengths;
mod statements;
mod words;

// What is its own, and the crates below that it speaks of, passed on: who stands above names them through it.
pub use sql_reach::log_entries;
pub use statements::closed_length;
