//! What refuses to close a statement of a procedure over its locals, without closing it.
//!
//! - `closing`: what refuses it: [`check_closing`]
//!
//! In specs/ stands `Refusing`, what a call of this answers. What refuses to close a statement is a definition of `proc_model`.
//!
//! # Proved
//! - [`check_closing`] lets a statement be closed, or refuses it with 1153, 1327 or 30002 in this order, each exactly where its
//!   condition holds, or finds no memory. It closes nothing. That a local holds what no literal can say, which would refuse
//!   it too, never comes.
//!
//! # Only tested
//! That calls succeed with ample memory, in `test_procedures` and `test_scripts`.
#![tactic(auto)]

mod closing;

// What is its own, and the crates below that it speaks of, passed on: who stands above names them through it.
pub use closing::check_closing;
pub use proc_model;
