//! A CALL carried out through any runner.
//!
//! A procedure's statements are walked as they stand in the catalog. Those that hold no others, DECLAREs and conditions stand
//! in `proc_parts`, with the [`Runner`](proc_parts::Runner) that is asked. Turns of WHILE are kept here.
//!
//! - `calls`: [`call`], a CALL of a session, and [`CallRefusal`], why it has no answer
//! - `nesting`: procedures, one inside the other
//! - `steps`: the statements of a procedure
//!
//! In specs/ stand `Steps` (the parts of procedures that hold statements) and `Answers` (what a CALL answers). What a procedure
//! does says `proc_model`.
//!
//! # Proved
//! - [`call`] asks of its runner just what the definition `called` asks, one thing after the other with the turns, the UUIDs and
//!   the nesting that are left; each answer of the runner leads to the next thing, and the last to the answer of the CALL and to
//!   the turns and UUIDs behind it (`IsCall`), or memory is wanted
//! - it answers that a device failed only where the runner's count of faults rose; that count never falls, turns never come
//!   back, and the nesting of the meter stays
//! - it asks nothing of the catalog or of the statements in it, nor of the runner but what its methods promise
//!
//! # Only tested
//! That a CALL succeeds with ample memory, in `test_procedures`.
#![tactic(auto)]

mod calls;
mod nesting;
mod steps;

// What is its own, and the crates below that it speaks of, passed on: who stands above names them through it.
pub use calls::{CallRefusal, call};
pub use proc_parts;
pub use proc_parts::{proc_model, session_ctx};
