//! What an applier does with a group of a log.
//!
//! [`apply_group`] carries out a group on the rows and the catalog of a [`Work`](prog_run::Work): a transaction, whose rows are
//! put as they are, with no trigger, and whose texts are run with what they carry, or a CREATE, DROP or TRUNCATE. It does all of
//! it or nothing. A replica stands on it, which reads groups by `log_groups` and commits them; the definition is
//! `apply_model`'s. One change of a row, and [`Stop`](row_apply::Stop), why a group is not carried out, stand in `row_apply`.
//!
//! - `group`: [`apply_group`]
//! - `definition`: a CREATE, DROP or TRUNCATE
//! - `transaction`: the events of a transaction; `under_way`: what is kept between them
//! - `reading`: the statement that a text is; `needs`: what stands before a text for it; `text`: a text run, and [`checked`]
//!
//! The definitions in specs/ join the code to the definition: `Applying` (who carries out a group, and what stands behind it),
//! `Ending` (how statements end), `Following` (what the group of an entry that can follow leaves), `Leading` (where a group leads, by its
//! form), `Needing` (what stands before a text), `UnderWay` (a transaction under way).
//!
//! # Proved
//! - [`apply_group`] makes just the base and the counters that the definition of a group gives, or stops with just its place, its
//!   error's number, its table and its key; or memory is short (`ends`)
//! - a group that is read from an entry which can follow on the base that stands there leaves just the base that the entry makes;
//!   it never stops there, whatever identity, draw and counters the replica has; or memory is short (`follows`, by the law
//!   `apply_laws::entry_is_carried`)
//! - the changes of a transaction stand open: they lead from the tables before it to those that stand, and rows, catalog and counters
//!   can be given back; a definition is the statement of its text, which makes the base that stands; the beginning and the end of a
//!   log change nothing (`leads`)
//! - where it stops, and where memory is short, rows, counters, catalog and changes are as before (`err`)
//! - [`checked`] gives just the error of the first of the catalog's checks of a statement
//!
//! # Only tested
//! That groups are carried out with ample memory, where a replica applies them (`test_scripts`).
#![tactic(auto)]

mod definition;
mod group;
mod needs;
mod reading;
mod text;
mod transaction;
mod under_way;

// What is its own, and the crates below that it speaks of, passed on: who stands above names them through it.
pub use answer_making;
pub use answer_making::sql_parse;
pub use apply_laws::binlog_sizes;
pub use group::apply_group;
pub use prog_run;
pub use row_apply;
pub use text::checked;
