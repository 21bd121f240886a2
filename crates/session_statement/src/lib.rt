//! Statements run on what all sessions of a source share, and kept as items with the log: one step of a session each.
//!
//! - `running`: a statement run on the desk, and beside another session's open changes; `keeping`: what it changed,
//!   kept as its item, or taken back ([`settle`]), and whether the statement is warned ([`Kept`])
//! - `stepping`: [`run_with_text`] and [`evaluate_with_text`], a statement run and kept; [`run_printed`] and
//!   [`evaluate_closed`], the same of a procedure; [`evaluate_unkept`], the part that all evaluations have in common
//!
//! Desk, session and log stand in `session_shared`. The definitions in specs/ say what a command has round it (`Calls`), how
//! statements end (`Ran`), what an evaluation gives before it is kept (`Evaluating`), and what turns of the machine of
//! `session_model` leave of desk, session and log (`Turned`, `Keeping`).
//!
//! # Proved
//! - [`run_with_text`] and [`evaluate_with_text`] do just what the machine's statement does: rows, counters, lock, transaction,
//!   log, the result, what is left of turns and UUIDs, and whether it is warned, or memory is short.
//! - So do [`run_printed`] and [`evaluate_closed`]. What a statement of a procedure changed is kept by its canonical text, and
//!   what an evaluation changed by that of the DO with its locals closed in; where neither changed a row, nothing is.
//!
//! # Only tested
//! Nothing here: that calls succeed with ample memory is tested where scripts run.
#![tactic(auto)]

mod keeping;
mod running;
mod stepping;

// What is its own, and the crates below that it speaks of, passed on: who stands above names them through it.
pub use keeping::{Kept, Start, settle};
pub use proc_parts::prog_run;
pub use session_shared;
pub use session_shared::binlog_items;
pub use stepping::{
    Evaluated, evaluate_closed, evaluate_unkept, evaluate_with_text, run_printed, run_with_text,
};
