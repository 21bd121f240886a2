//! What evaluating and changing works on: rows, the changes that can be taken back, counters, seeds.
//!
//! The evaluators of expressions and of changes hand one [`Stage`] on; contracts see it as the scene of the
//! definitions (`scene_of`). This crate stands on the rows and the counters, the evaluators stand on it.
//!
//! - `stage`: [`Stage`]
//! - `storing`: rows put in, taken out and put in the place of others
//! - `running`: [`Running`], what is under way around an expression
//!
//! # Proved
//! - [`Stage::draw`] and [`Stage::next_uuid`] are the definitions' draw of RAND() and their next UUID
//! - [`Stage::insert`], [`Stage::take_out`] and [`Stage::put_in_place`] are the definitions' actions on one row, which
//!   table, change and caller hold together
//! - each leads from the stage before to the one after (`LeadsOn`): the changes behind the old ones lead from the
//!   old rows to the new, and taking them back leads to the old ones and needs no memory; counters are of the same tables, and none is lower
#![tactic(auto, using(crate::proofs::Leading::leading, crate::proofs::Leading::stage_moves), unfolding(crate::specs::Stage::scene_of))]

mod counting;
mod running;
mod stage;
mod storing;

// What is its own, and the crates below that it speaks of, passed on: who stands above names them through it.
pub use dml_rows;
pub use running::Running;
pub use stage::Stage;
