//! Statements with their locals closed in: laws over the definitions, and no code.
//!
//! A statement of a procedure is logged with its locals closed in, as NAME_CONST and as the numbers of LIMIT. Where the log is
//! read there are no locals, and the statement has to do the same.
//!
//! - `specs/Laws`: what holds
//! - `laws`: the laws, as functions that do nothing
//!
//! # Proved
//! - A change, a SELECT or a DO with locals closed in does without locals just what it does with them, on any scene, and ends with the
//!   same error where it ends with one; and expressions have the same values ([`closed_does_the_same`]). Asked is that the texts of
//!   the locals have at most 65,535 bytes, as those of each declared type have ([`fitted_values_are_short`]).
//! - What refuses such a statement for what it names, with its locals in scope, refuses it with them closed in, in a session, where each
//!   LIMIT is a number or a local that is one from 0 ([`closed_is_allowed`]).
//! - Where the statement is one that the parser can give, and each local holds what a literal can say, the canonical text of the
//!   closed statement is read as that statement ([`closed_is_read`]): it has at most as many levels as may be, and opens no more
//!   constructs than may be open at once.
#![tactic(auto)]

mod laws;

// What is its own, and the crates below that it speaks of, passed on: who stands above names them through it.
pub use laws::{closed_does_the_same, closed_is_allowed, closed_is_read, fitted_values_are_short};
pub use sql_reach::sql_meaning;
pub use sql_text;
