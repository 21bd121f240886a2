//! A statement of a procedure with its locals closed in, as it is logged.
//!
//! - `expressions`: expressions and SELECTs
//! - `statements`: changes, and whole statements: [`close_stmt`]
//! - `closing`: [`close_over`]; [`closed_over`], a [`Closed`] statement on the heap
//!
//! Names, and the numbers of LIMITs, are closed by `name_const_names`; what refuses to close a statement is found by
//! `name_const_checks`. In specs/ stands `Refusing`, what a call of [`close_over`] answers.
//!
//! # Proved
//! - [`close_stmt`] gives the statement with its locals closed in, or finds no memory; so does [`closed_over`].
//! - [`close_over`] refuses what [`check_closing`](name_const_checks::check_closing) refuses, else it gives the statement with its
//!   locals closed in, or finds no memory. It asks nothing of the statement.
//!
//! That a closed statement does the same without locals, and that its text is read back, stands in `name_const_laws`.
//!
//! # Only tested
//! That calls succeed with ample memory, in `test_procedures` and `test_scripts`.
#![tactic(auto)]

mod closing;
mod expressions;
mod statements;

// What is its own, and the crates below that it speaks of, passed on: who stands above names them through it.
pub use closing::{Closed, close_over, closed_over};
pub use name_const_checks;
pub use name_const_checks::proc_model;
pub use name_const_names::log_entries;
pub use statements::close_stmt;
