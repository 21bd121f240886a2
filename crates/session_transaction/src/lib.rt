//! Transactions of a session, over its desk: BEGIN, COMMIT, ROLLBACK and savepoints.
//!
//! - `beginning`: [`begin`]
//! - `ending`: [`commit`], [`rollback`]; [`commit_open`], the commit that also BEGIN and definitions begin with
//! - `savepoints`: [`savepoint`], [`rollback_to`], [`release_savepoint`]
//!
//! Desk, session and open transaction stand in `session_shared`; the definitions of these commands are `session_model`'s.
//! `source_node` has the other commands, and stands on this crate.
//!
//! # Proved
//! - Each command does just what the machine's does: answer, desk, session and log are those of its turn, or memory is short, and
//!   then all are as before. [`rollback`], [`rollback_to`] and [`release_savepoint`] want no memory.
//! - [`commit_open`] leaves what the machine's commit leaves: where the transaction has an item, one entry of its items is
//!   logged, and the lock is free.
//!
//! # Only tested
//! Nothing here: that calls succeed with ample memory is tested where scripts run.
#![tactic(auto)]

mod beginning;
mod ending;
mod savepoints;

// What is its own, and the crates below that it speaks of, passed on: who stands above names them through it.
pub use answer_making;
pub use answer_making::{
    catalog, catalog_create_program, catalog_create_table, prog_work, session_ctx, session_model,
    sql_parse,
};
pub use beginning::begin;
pub use ending::{commit, commit_open, rollback};
pub use savepoints::{release_savepoint, rollback_to, savepoint};
pub use session_statement;
pub use session_statement::{binlog_items, prog_run, session_shared};
