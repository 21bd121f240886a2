//! A CALL of a session: each thing that its procedures ask is one step of the session, on what all sessions share.
//!
//! - `asked`: what a procedure asks, as steps of its session; `steps`: who carries them out;
//!   `calling`: [`call_steps`], a CALL with its arguments' values
//!
//! Desk, session and log stand in `session_shared`, and how a statement is run on them and kept in `session_statement`. The
//! definitions in specs/ say how a CALL is made of such steps (`Stepping`).
//!
//! # Proved
//! - [`call_steps`] carries out a procedure just as the machine does, each thing that it asks as one step of its session: the
//!   answer, with its warning, desk, session and log are those of the machine's CALL behind any turn that led here, or memory is
//!   short. Its runner has no device, so that no CALL ends by one.
//!
//! # Only tested
//! Nothing here: that calls succeed with ample memory is tested where scripts run.
#![tactic(auto)]

mod asked;
mod calling;
mod steps;

pub use calling::call_steps;
