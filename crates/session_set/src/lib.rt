//! SET of a session, over the desk and the sessions of `session_statement`: all its expressions are evaluated as one statement,
//! then all its assignments are made; or none, and then the evaluation is taken back.
//!
//! - `setting`: [`set`], SET with its refusals in order
//! - `evaluating`: the values of its expressions, kept or taken back
//! - `assigning`: assignments from left to right, and the first that is refused; `formats`: the variable binlog_format
//!
//! The definitions in specs/ (`Assigning`) say what a SET leaves by its parts; those of SET itself are `session_model`'s.
//! `source_node` has the other commands, and stands on this crate.
//!
//! # Proved
//! - [`set`] does just what the machine's SET does: it is refused for the text of the DO over its expressions, by the catalog's
//!   checks and by the lock, in this order; else its expressions are evaluated, and all is assigned, with a warning where what
//!   they changed is logged by its text though that is unsafe, or the first refused assignment is answered, none is made, and
//!   desk, session and log are as behind any statement that failed; or memory is short.
//!
//! # Only tested
//! Nothing here: that calls succeed with ample memory is tested where scripts run.
#![tactic(auto)]

mod assigning;
mod evaluating;
mod formats;
mod setting;

pub use setting::set;
