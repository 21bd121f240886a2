//! What refuses a statement for what it names: one walk over its tree, with look-ups by name and without copies.
//!
//! - `ranks`: how early an error comes in the order of checks
//! - `sight`: [`Sight`], the tables whose rows an expression sees, kept on the stack
//! - `checks`: [`Checks`], what a walk is asked, and the names in it that need no walk
//! - `expressions`, `inserting`, `statements`: the walk
//! - `refusing`: [`statement_refusal`] and [`expression_refusal`]
//!
//! The walk keeps the least rank so far. That it finds just the error that comes first among all nodes of the statement is a law
//! of `catalog_rules`.
//!
//! # Proved
//! - [`is_among`] and [`has_twice`] look for a name among some, and for one that stands twice; [`is_session_variable`] tells
//!   the variables that SET writes
//! - [`statement_refusal`] and [`expression_refusal`] answer just the error that the definitions say, for any locals in scope and
//!   any rows of NEW and OLD, and take no memory
#![tactic(auto)]

mod checks;
mod expressions;
mod inserting;
mod ranks;
mod refusing;
mod sight;
mod statements;

// What is its own, and the crates below that it speaks of, passed on: who stands above names them through it.
pub use catalog_objects;
pub use checks::{Checks, is_session_variable};
pub use inserting::{has_twice, is_among};
pub use refusing::{expression_refusal, statement_refusal};
pub use sight::Sight;
