//! What stored functions and triggers do.
//!
//! A body is run from its tree as it stands in the catalog, and nothing of the tree is copied. Calls and events inside it
//! come back as closures, one level of nesting further down, until none is left.
//!
//! - `calls`: [`call_function`] and [`fire_trigger`], programs one inside the other
//! - `programs`: whole bodies
//! - `steps`: a step of a body: a block, IF, WHILE, RETURN, SET, a change or DO
//! - `declaring`: DECLARE; `assigning`: SET of locals and of NEW; `performing`: changes and DO
//! - `evaluating`: the value of an expression of a body, behind its checks
//! - `turns`: the turns of WHILE that are left
//! - `body`: [`Body`], where a body stands
//!
//! In specs/ stands where a body stands (`Bodies`), and the parts of a body that the code takes one by one (`Steps`).
//!
//! # Proved
//! - [`call_function`] gives the value that the definition gives, or its error's number, with the scene behind it; or
//!   memory is short (`gives`): 1305, 1318, 1424 and 30003 in this order, parameters fitted in theirs, 1321 where no
//!   RETURN ran, the result fitted
//! - [`fire_trigger`] leaves the row to be stored that the definition leaves, the one that it was given where no trigger
//!   waits; 30003 where it would be nested too deep (`gives`)
//! - so: the checks stand before each step, 1442 among them; a DEFAULT is evaluated once; the values of a SET stand before
//!   its first assignment; locals end with their block; the turn behind the last one that is left is 30004
//! - on every way out, want of memory too, the stage leads on from the one before: what was changed can be taken back, no
//!   counter is lower, no turn came back (`leads`)
//!
//! Memory is short, too, where a type is past the range of columns, which CREATE keeps out of every program.
//!
//! # Only tested
//! That programs run with ample memory, in `test_scripts` and the stored runs of the programs.
#![tactic(auto)]

mod assigning;
mod body;
mod calls;
mod declaring;
mod evaluating;
mod performing;
mod programs;
mod steps;
mod turns;

// What is its own, and the crates below that it speaks of, passed on: who stands above names them through it.
pub use calls::{call_function, fire_trigger};
pub use exec_body_checks;
pub use sql_evaluation;
pub use sql_statements;
pub use sql_statements::session_ctx;
