//! What a source commits and a log carries: items with what they carry, entries, and the tables after them.
//!
//! The types are generic in what an item is: the log and a node have of it its text, what it carries and its changes
//! ([`Item`]); definitions of what sessions do have all that it began with, too.
//!
//! - `variables`: [`Vars`], user variables by name
//! - `carried`: [`Carried`], the parts of a session's context that an item carries
//! - `entries`: [`Item`] and [`Entry`]
//! - `laws`: what follows from the definitions
//!
//! The definitions in specs/ say what a variable of a name is (`Variables`) and what entries make of a base (`Entries`).
//!
//! # Proved
//! - [`Vars::len`] and [`Vars::at`] are the count of variables and the one at a place; [`Vars::get`] and [`Vars::set`] are the variable of a name and the variables with one set; want of memory leaves them as
//!   they were; a copy of variables is equal, or memory is wanted; no name stands twice
//! - entries behind others are applied to what those leave (`entries_go_on`)
//!
//! # Only tested
//! That variables are set and copied with ample memory, in `test_contexts`.
#![tactic(auto)]

mod carried;
mod entries;
mod laws;
mod variables;

pub use carried::Carried;
pub use entries::{Entry, Item};
pub use laws::entries_go_on;
pub use variables::Vars;
