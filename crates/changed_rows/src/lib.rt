//! One row changed: INSERT, REPLACE, ON DUPLICATE KEY UPDATE, UPDATE and DELETE, with the triggers of its table.
//!
//! Each function changes one row of the table at a place of a `Stage` of `exec_state`, of which `StandsAt` says that it has
//! just the definition that is handed in; a statement looks a table up once, for all its rows. What all calls for a table are
//! handed is one [`ChangedTable`]. Who evaluates expressions and fires triggers is an [`Executor`], which promises what the
//! definitions say. So programs stand above this crate, as whole statements do.
//!
//! - `executor`: [`Executor`]; `table`: [`ChangedTable`]
//! - `deleting`: [`delete_row`]; `updating`: [`update_row`]; `inserting`: [`insert_row`], [`Insertion`], [`Manner`],
//!   [`Inserting`]
//! - `placing`: a row put in, and what is done with those in its way: passed over, replaced or updated
//! - `counting`: the AUTO_INCREMENT value of a row
//! - `columns`: values put into columns, what is left out, NOT NULL
//! - `firing`: triggers before and after; `looking`: rows that have a key of another; `standing`: rows stored, taken out
//!   and replaced in the table at a place
//!
//! A row is copied where an assignment changes it, and where it is in the way of another and has to outlive its own change.
//! Where it is stored, the table and the change that is noted hold the row that is handed in.
//!
//! The definitions in specs/ say what the code's values stand for and where a table stands (`Changed`), what a trigger leaves
//! (`Firing`), and what the parts of an INSERT are (`Inserted`).
//!
//! # Proved
//! - [`delete_row`], [`update_row`] and [`insert_row`] end as the definitions do, for every executor: the count or what the
//!   INSERT has come to, or the error's number, with the scene behind it; or memory is short, as where a count of rows
//!   outgrows 64 bits (`gives`)
//! - on every way out the stage leads on from the one before: the changes lead from the old rows to the new and can be
//!   taken back, no counter is lower, no turn came back (`leads`)
//! - so: the triggers before the tests and the row, and after it; each assignment sees what the earlier ones left; an
//!   equal row is not stored and counts 0; the AUTO_INCREMENT value is generated from the statement's own sequence;
//!   the first key in the way decides, the primary one first; REPLACE deletes for each key in turn and counts each
//!   row; ON DUPLICATE KEY UPDATE counts 2, or 0
//! - a table stands where it stood whatever is done by these calls (`stands_on` of proofs/Places)
//!
//! # Only tested
//! That changes are made with ample memory, in `test_scripts` and the stored runs of the programs.
#![tactic(auto)]

mod columns;
mod counting;
mod deleting;
mod executor;
mod firing;
mod inserting;
mod looking;
mod placing;
mod standing;
mod table;
mod updating;

// What is its own, and the crates below that it speaks of, passed on: who stands above names them through it.
pub use deleting::delete_row;
pub use executor::Executor;
pub use inserting::{Inserting, Insertion, Manner, insert_row};
pub use sql_evaluation;
pub use sql_evaluation::session_ctx;
pub use table::ChangedTable;
pub use updating::update_row;
