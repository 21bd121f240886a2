//! Whether something that is asked holds of a node of a statement or an expression.
//!
//! - `asking`: [`Ask`], what is asked of each node, and [`is_change`]
//! - `statements`, `expressions`: [`in_statement`], [`in_expression`] and [`in_expressions`], the walk that asks it of all nodes until
//!   it holds of one
//!
//! In specs/ stand `Asking` (what is asked of a node) and `Walking` (the walk over a tree).
//!
//! # Proved
//! - [`in_statement`] says for every statement whether what is asked holds of one of its nodes, and takes no memory;
//!   [`in_expression`] and [`in_expressions`] the same of expressions; [`is_change`] whether a statement is INSERT, REPLACE, UPDATE
//!   or DELETE
//!
//! # Only tested
//! Nothing.
#![tactic(auto)]

mod asking;
mod expressions;
mod statements;

// What is its own, and the crates below that it speaks of, passed on: who stands above names them through it.
pub use asking::{Ask, is_change};
pub use catalog_objects;
pub use expressions::{in_expression, in_expressions};
pub use statements::in_statement;
