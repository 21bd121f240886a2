//! What refuses a step of a body before it runs.
//!
//! A step is a statement, or a condition, a DEFAULT or what is returned. Before it runs come the checks of the catalog,
//! then that of a LIMIT by a local (30002), and that a statement changes no table in use (1442).
//!
//! - `checks`: [`check_statement`] and [`check_expression`]
//! - `under_way`: [`is_named`], whether anything under way names a table; [`is_called`], whether a function is under way
//!
//! The walk that asks all nodes of a step stands in `node_walk`. In specs/ stands `Checked` (where a body stands).
//!
//! # Proved
//! - [`check_statement`] and [`check_expression`] refuse a step with just the error that comes first in the definition,
//!   and let others through, without memory
//! - [`is_named`] and [`is_called`] say just whether a table or a function is among what the definition has under way: the
//!   tables that statements and expressions read or change, in parts that are not evaluated too
//!
//! # Only tested
//! That steps run with ample memory, in `test_scripts` and the stored runs of the programs.
#![tactic(auto)]

mod checks;
mod under_way;

// What is its own, and the crates below that it speaks of, passed on: who stands above names them through it.
pub use checks::{check_expression, check_statement};
pub use sql_evaluation;
pub use under_way::{is_called, is_named};
