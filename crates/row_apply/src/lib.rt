//! What an applier does with one change of a row.
//!
//! [`carry_change`] carries out a change as a log has it on the rows and the counters of a [`Work`](prog_work::Work): its row is
//! put as it is, with no trigger, or what is there differs from what the change says, and it stops. `stmt_apply` stands on it,
//! which carries out whole groups; the definition is `apply_model`'s.
//!
//! - `stop`: [`Stop`], why a group is not carried out, with [`TableName`], the table that it is about, and [`stop_at`], one that
//!   names no table
//! - `changing`: one change of a row, [`carry_change`]; `table`: what its table says of it; `columns`: whether the columns of a
//!   map and of a table are the same
//!
//! The definitions in specs/ join the code to the definition: `Ends` (how parts of a group end, and what stays), `Changes` (one
//! change, by its steps), `Names` (the name of a table, if there is one).
//!
//! # Proved
//! - [`carry_change`] makes just the rows, the counters and the open changes that the definition of a change gives, or stops with
//!   just its place, its error's number, its table and its key; or memory is short (`ends`). Where the table itself does not
//!   take the change, by 1146 or 30010, it stops so in any case, as no memory is taken then (`told`)
//! - however it ends, the catalog, the rows that were last committed, and which tables have counters, are as before (`rest`)
//! - [`stop_at`] is just the stop at this place with this number, without a table and a key
//!
//! # Only tested
//! That changes are carried out with ample memory, where a replica applies them (`test_scripts`).
#![tactic(auto)]

mod changing;
mod columns;
mod stop;
mod table;

// What is its own, and the crates below that it speaks of, passed on: who stands above names them through it.
pub use changing::carry_change;
pub use prog_work;
pub use stop::{Stop, TableName, stop_at};
