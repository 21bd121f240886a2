//! The primary key that a WHERE names before a row is looked at.
//!
//! A condition is a tree of AND: its parts are looked at from the left, up to the first that may do more than be true, false or unknown.
//! Where a part is `=` or `<=>` between a column of the key, which is never NULL, and a value that stands whatever the row, it says of each
//! row what it has there. A value stands where it is a literal, NAME_CONST, a local, a user variable that was set, or a column of NEW or
//! OLD; a local hides a column of its name. It has to be of the column's kind, and not NULL.
//!
//! - `outside`: what a WHERE has outside of its table ([`Outside`])
//! - `sides`: sides of comparisons that are known: columns, and values that stand
//! - `keys`: what a condition says of a column, and of the primary key ([`key_named`])
//! - `laws`: what follows
//!
//! The definitions in specs/ (`Sides`, `Keys`) say of the code's parts what they give; the conditions that they know are among those of
//! `where_laws`, which knows rows in view outside and `-` before a value, too. `where_ranges` reads ranges by the same sides.
//!
//! # Proved
//! - [`known_side`] gives just the side of a comparison that an expression is, None where that is not known; [`do_compare`] and [`is_quiet`] say
//!   just whether two sides compare, and whether a condition is true, false or unknown on each row and changes nothing
//! - [`values_named`] gives just the values that the condition names for some columns, None where it names not each, or wants memory;
//!   [`key_named`] those of the primary key
//! - where a condition names the primary key, or each column of a unique key, a WHERE keeps the same rows, with the same scene or error
//!   behind it, where only the row of that key is looked at, if there is one: whatever rows the table has, and whatever else is round the
//!   WHERE ([`named_keys_are_enough`])
#![tactic(auto)]

mod keys;
mod laws;
mod outside;
mod sides;

// What is its own, and the crates below that it speaks of, passed on: who stands above names them through it.
pub use keys::{is_quiet, key_named, values_named};
pub use laws::named_keys_are_enough;
pub use outside::{Outside, RowOf};
pub use session_ctx;
pub use sides::{Side, do_compare, known_side};
