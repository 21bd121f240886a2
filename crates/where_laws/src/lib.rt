//! Which rows a WHERE need not see: definitions with their laws, and no code.
//!
//! A WHERE tests each row of its table in the order of keys, and a test may fail, draw, or call a function that changes rows. A row may be
//! left out where its test is not true and nothing is noticed of it. What is known of a condition before any row is looked at says so of
//! rows: it is read from the tree, the definition of the table, and what is round the WHERE. `where_keys` finds keys by it.
//!
//! The definitions stand in specs/: `Facts` (how values in columns compare with others), `Sides` (sides of a comparison: a column, or a
//! value that stands whatever the row; locals hide columns, and columns hide those of rows in view outside), `Known` (what is known of a
//! condition: the decision, as one function), `Keys` (the keys that facts name), `Leaving` and `Laws` (what holds). An AND is looked at
//! up to the first condition that may do more than be true, false or unknown.
//!
//! - `laws`: what follows from the definitions
//! - `worked`: conditions by hand, which the checker computes
//!
//! # Proved
//! - rows for which a test is quietly false may be left out ([`rows_may_be_left_out`])
//! - a side of a comparison is, on each row that fits, what it is said to be ([`sides_are_known`])
//! - a condition of which nothing is known says nothing first; AND says the facts of its left side first, and those of its right side
//!   besides where the left one changes nothing ([`conditions_guard`])
//! - what is known of a condition is so of it: where its facts are not so of a row it is false, where those of a kept row are not it is
//!   false or unknown, and nothing changes ([`conditions_are_known`])
//! - a WHERE keeps the same rows, with the same scene or error behind it, where only rows are looked at of which the facts are so: those
//!   within the range that they tell of a column, or with the values that they name for some columns ([`facts_are_enough`])
//! - where they name the primary key or a unique key, only the row of that key need be looked at, if there is one ([`keys_are_enough`])
//! - the worked conditions
#![tactic(auto)]

mod laws;
mod worked;

pub use laws::{
    conditions_are_known, conditions_guard, facts_are_enough, keys_are_enough,
    rows_may_be_left_out, sides_are_known,
};
pub use worked::{facts_known, keys_named, names_hidden, no_key_named};
