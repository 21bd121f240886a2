//! The range of the primary key that a WHERE names before a row is looked at.
//!
//! A condition is a tree of AND: its parts are looked at from the left, up to the first that may do more than be true, false or unknown,
//! as `where_keys` does. Where a part compares a column, which is never NULL, with a value that stands whatever the row (`where_keys`
//! says which these are), by `=`, `<=>`, `<`, `<=`, `>` or `>=`, it says of each row in which range its value there is. Of two parts the
//! ranges are met. The value has to be of the column's kind, and not NULL.
//!
//! - `saying`: what a condition says of a column, and of the first one of the primary key ([`range_named`])
//! - `laws`: what follows
//!
//! The definitions in specs/ (`Saying`) say of the code's parts what they give; what they know is so by `where_laws`.
//!
//! # Proved
//! - [`range_named`] gives just the range that the condition says of the first column of the primary key; it has no end where it says none
//! - a WHERE keeps the same rows, with the same scene or error behind it, where only the rows within that range are looked at, in their
//!   order: whatever rows the table has, and whatever else is round the WHERE ([`named_ranges_are_enough`])
#![tactic(auto)]

mod laws;
mod saying;

// What is its own, and the crates below that it speaks of, passed on: who stands above names them through it.
pub use laws::named_ranges_are_enough;
pub use saying::range_named;
pub use where_keys;
