//! The context of a session: what its statements see and change beside the tables, and the variables that SET assigns.
//!
//! A contract sees [`Ctx`] as the record `Context` of the definitions of statements. What a session keeps from one command
//! to the next is [`SessionVars`]: its context, and beside it the timestamp that SET fixed. The moment in the context is
//! that of a command, and [`SessionVars::begin_command`] sets it: the fixed timestamp, or where there is none the draw's.
//! The variable binlog_format is not here, since only a session knows it.
//!
//! - `context`: [`Ctx`]
//! - `session`: [`SessionVars`]
//! - `variables`: [`SessionVariable`], [`variable_fits`], [`set_variable`]
//! - `carrying`: [`from_carried`]
//! - `laws`: what follows from the definitions
//! - `worked`: assignments by hand, which the checker computes
//!
//! # Proved
//! - each reader and setter of [`Ctx`] is one equation; a user variable is set, or memory is wanted and nothing changes
//! - in every context both AUTO_INCREMENT variables are 1 to 65535, and LAST_INSERT_ID() and a forced INSERT_ID are not
//!   below 0 ([`Ctx::bounds`])
//! - [`SessionVars::new`] is a new session, or memory is wanted; [`SessionVars::begin_command`] sets just the two moments
//! - [`variable_fits`] is 1193 for an unknown name, then 1231 for a value that the variable does not take;
//!   [`set_variable`] refuses just so and changes nothing, or assigns just what its definition says
//! - [`from_carried`] has all that an item carries and else is as in a new session, or memory is wanted; such a context
//!   stands in for that of the item ([`carried_context_stands_in`])
//! - the names are those that the checks of statements know beside binlog_format, one for each variable ([`names_are_a_table`])
//! - the worked assignments
//!
//! # Only tested
//! That calls succeed with ample memory, in `test_contexts`.
#![tactic(auto)]

mod carrying;
mod context;
mod laws;
mod session;
mod variables;
mod worked;

// What is its own, and the crates below that it speaks of, passed on: who stands above names them through it.
pub use carrying::from_carried;
pub use context::Ctx;
pub use laws::{carried_context_stands_in, names_are_a_table};
pub use session::SessionVars;
pub use sql_meaning;
pub use sql_meaning::log_entries;
pub use variables::{SessionVariable, UNKNOWN_VARIABLE, WRONG_VALUE, set_variable, variable_fits};
pub use worked::{values_refused, variables_set};
