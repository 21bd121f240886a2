//! The lines that show the events of a log, one line an event.
//!
//! A line has the place of its event, its type and what it says, in printable ASCII alone. The values of
//! rows need the map of their table, which whoever walks through a log hands in. This crate stands on
//! `event_codec` for events, on `row_image` for rows and on the definitions of `log_model`; printers of
//! logs stand on it.
//!
//! - `lines`: [`line`]
//! - `events`: what an event says, a function a type
//! - `rows`: the rows of an event
//! - `putting`: words, numbers and bytes at the end of a line, with `\xhh` for what is not printable
//! - `worked`: lines by hand, which the checker computes
//!
//! # Proved
//! - [`line`] gives exactly the line of the definition `line_of`, or want of memory. It asks nothing: for
//!   rows without a map it shows no values, and where not all bytes of the rows fit their map, it shows
//!   the rows in front.
//! - The worked bytes and lines of `worked`.
//!
//! # Only tested
//! That lines are made with ample memory, one and more for each type of event, in `test_log`.
#![tactic(auto)]

mod events;
mod lines;
mod putting;
mod rows;
mod worked;

pub use lines::line;
pub use worked::{bytes_by_hand, numbers_by_hand, rows_by_hand, statements_by_hand, words_by_hand};
