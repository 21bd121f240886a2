//! What a statement of a session or an applier does, with the catalog and its functions and triggers.
//!
//! It runs on what `prog_work` holds, [`Work`]. Contracts see a statement as the scene of the definitions of `sql_meaning`
//! (`scene_at`).
//!
//! - `running`: [`run_stmt`] and [`eval_list`]; `beside`: [`run_stmt_beside`] and [`eval_list_beside`], beside open changes
//! - `staged`, `undoing`, `programs`: a statement on a stage with its context, what an error takes back (by `stage_undo`),
//!   and statements with the stored programs that they reach
//! - `context`, `number`, `under_way`: what a statement leaves of a context; the number from which UUID() counts; what is
//!   under way where it runs, a statement by the names of its tables, which are gathered once
//!
//! The definitions in specs/ say how statements end (`Runs`).
//!
//! # Proved
//! - [`run_stmt`] with a change, a SELECT or a DO ends as its effect in the definitions does, with its value or its error's
//!   number, and leaves just that scene; the context has its seeds, LAST_INSERT_ID() and no forced INSERT_ID that was
//!   used; or memory is short (`runs`)
//! - with CREATE (of tables, functions, procedures and triggers), DROP or TRUNCATE it makes just the base and the counters of
//!   the definitions, or refuses with just the error of the first check and changes nothing, as where memory is short; context
//!   and meter stay (`defines`)
//! - on every error, want of memory too, rows, changes and catalog are as before and no counter is lower (`err`); no turn
//!   comes back (`spends`)
//! - [`eval_list`] the same for expressions, as the DO over them
//! - but for definitions the rows that were last committed stay (`committed`)
//! - [`run_stmt_beside`] and [`eval_list_beside`] end as these do on the rows that were last committed, with no row copied, and
//!   whatever they answer rows, changes and catalog are as before and just the counters as the statement left them (`Beside`)
//!
//! # Only tested
//! That statements succeed with ample memory, where a source runs them.
#![tactic(auto)]

mod beside;
mod context;
mod number;
mod programs;
mod running;
mod staged;
mod under_way;
mod undoing;

// What is its own, and the crates below that it speaks of, passed on: who stands above names them through it.
pub use beside::{eval_list_beside, run_stmt_beside};
pub use prog_work;
pub use prog_work::{Meter, Outcome, Work, catalog, catalog_objects, exec_state, is_definition};
pub use running::{eval_list, run_stmt};
pub use stored_programs::{exec_body_checks, session_ctx};
