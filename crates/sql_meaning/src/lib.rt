//! What statements mean: definitions with worked examples, and no code.
//!
//! The definitions stand in specs/: `Scenes` (what can change, and actions on it), `Frames` (what an expression sees and
//! does not change), `Values` (expressions and the rows of a SELECT), `Changing` (INSERT, REPLACE, UPDATE and DELETE, row by
//! row), `Running` (bodies of functions and triggers, and what a statement comes to).
//!
//! `Leading`, `Fuel` and `Turns` say what holds of every statement, `Within` what of the parts of a well one.
//!
//! - `laws`: what follows from the definitions
//! - `worked`, `worked_programs`: statements by hand, which the checker computes
//!
//! # Proved
//! - What a statement does to the tables is made by its changes, one after the other, and an error leaves tables and
//!   changes as they were, with functions and triggers at any depth (`statements_end_well`).
//! - With more levels of nesting and more turns left, a statement that ends without an error does the same, and uses as
//!   many turns (`more_fuel_does_the_same`).
//! - Turns are spent and never given back, whether a statement, a body or an evaluation is done or ends with an error
//!   (`turns_never_rise`).
//! - Steps of a well statement are well and less deep, and DO over the expressions that it evaluates by themselves is
//!   a statement of a session and no deeper (`parts_are_well`).
//! - Where the functions that a session may call change nothing, as where there is none, a SELECT and a DO change
//!   nothing (`reading_changes_nothing`).
//! - The worked examples: what each statement shows, changes and counts, or its error and what it leaves.
#![tactic(auto)]

mod laws;
mod worked;
mod worked_programs;

// What is its own, and the crates below that it speaks of, passed on: who stands above names them through it.
pub use laws::{
    more_fuel_does_the_same, parts_are_well, reading_changes_nothing, statements_end_well,
    turns_never_rise,
};
pub use log_entries;
pub use worked::{expressions, keys_in_way, rows_changed, selected_rows, values_generated};
pub use worked_programs::{functions_called, nesting_and_turns, triggers_fired};
