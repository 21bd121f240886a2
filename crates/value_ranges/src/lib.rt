//! Ranges of values: from one end to another, each with its own value or without, or open.
//!
//! The definitions in specs/ say which values are in a range, and which of two ends leaves more out (`Ranges`), and which rows of a table
//! are, by the first value of their primary keys (`Keys`). Values stay where they are: an end borrows its own.
//!
//! - `ends`: [`End`]
//! - `ranges`: [`ValueRange`]
//! - `keys`: rows by the first values of their primary keys
//! - `laws`: what follows
//! - `worked`: ranges by hand, which the checker computes
//!
//! # Proved
//! - [`is_above`], [`is_below`] and [`is_in`] say just whether a value is on the inner side of an end, or in a range; [`row_is_in`] whether
//!   the first value of a row's primary key is
//! - [`later_of`] and [`earlier_of`] give just the one of two ends that leaves more out, [`met`] the values of both ranges
//! - a value is in two ranges that are met just where it is in both ([`ranges_meet`]); an end parts lower
//!   values from higher ones ([`ends_part_values`])
//! - the worked ranges
#![tactic(auto)]

mod ends;
mod keys;
mod laws;
mod ranges;
mod worked;

pub use ends::{End, earlier_of, is_above, is_below, later_of};
pub use keys::{row_is_from, row_is_in, row_is_to};
pub use laws::{ends_part_values, ranges_meet};
pub use ranges::{ValueRange, everything, has_end, is_from, is_in, is_to, met};
pub use worked::ranges_by_hand;
