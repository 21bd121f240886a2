//! Types of columns and local variables, and the local variables in scope in a stored program.
//!
//! A contract sees [`Locals`] as a list of names with their types and values.
//!
//! - `types`: [`column_type`]
//! - `locals`: [`Local`], [`Locals`]
//!
//! # Proved
//! - [`column_type`] is the type that is written so, None exactly where a VARCHAR's number is past 65535
//! - [`Locals::push`], [`Locals::cut`], [`Locals::count`] and [`Locals::as_slice`] are one equation each; want of
//!   memory leaves what was there
//! - [`Locals::find`] is the last local variable of a name, and [`Locals::assign`] gives that one another value, or
//!   says that there is none and changes nothing
//! - each local variable holds what a literal can say ([`Locals::hold_literals`])
//!
//! # Only tested
//! That `push` succeeds with ample memory, in `test_contexts`.
#![tactic(auto)]

mod locals;
mod types;

pub use locals::{Local, Locals};
pub use types::column_type;
