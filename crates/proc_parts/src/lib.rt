//! The parts of procedures, through any runner.
//!
//! Who runs a change, a SELECT or a DO, who evaluates expressions and who assigns a user variable is a [`Runner`]: each as one
//! statement of a session, with its own transaction, checks and log. Locals, the sets of rows shown and the count of rows are
//! kept here. Statements that hold others, and procedures one inside the other, stand in `proc_run`.
//!
//! - `runner`: [`Runner`], and [`RunRefusal`], why it gives none
//! - `calling`, `assigning`, `performing`, `declaring`: CALL ([`call_step`]), SET ([`set_step`]), what is run ([`plain_step`]),
//!   and DECLARE with parameters ([`declare_all`], [`parameters`])
//! - `evaluating`: conditions ([`condition_holds`]), DEFAULTs and the values of SET; `doing`: the DO over them
//! - `closing`: locals closed into what is run; `asking`: what the runner is asked
//! - `held`, `world`: what a CALL has so far ([`Held`]), and what is round a statement ([`World`])
//!
//! In specs/ stand `Calls` (what a runner tells, how a part of a procedure ends) and `Parts` (the parts of procedures that the
//! code takes one by one). What a procedure does says `proc_model`.
//!
//! # Proved
//! - [`set_step`], [`call_step`], [`plain_step`], [`declare_all`] and [`condition_holds`] ask of the runner just what the
//!   definitions of these parts ask, one thing after the other with the turns, the UUIDs and the nesting that are left; each
//!   answer of the runner leads to the next thing, and the last to what the part comes to and to what the CALL has behind it, or
//!   memory is wanted (`gives`)
//! - they answer that a device failed only where the runner's count of faults rose; that count never falls, and turns never come
//!   back (`moves`)
//! - [`parameters`] adds just the locals of the definition, or gives its error, or wants memory
//! - they ask nothing of the catalog or of the statements in it, nor of the runner but what its methods promise; [`call_step`]
//!   asks of what carries out a procedure that it does what the definition says
//!
//! # Only tested
//! That they succeed with ample memory, in `test_procedures`.
#![tactic(auto)]

mod asking;
mod assigning;
mod calling;
mod closing;
mod declaring;
mod doing;
mod evaluating;
mod held;
mod performing;
mod runner;
mod world;

// What is its own, and the crates below that it speaks of, passed on: who stands above names them through it.
pub use assigning::set_step;
pub use calling::call_step;
pub use declaring::{declare_all, parameters};
pub use evaluating::condition_holds;
pub use held::Held;
pub use name_const;
pub use name_const::{log_entries, proc_model};
pub use performing::plain_step;
pub use prog_run;
pub use prog_run::{catalog, exec_body_checks, exec_state, session_ctx};
pub use runner::{RunRefusal, Runner};
pub use world::World;
