//! What statements work on, and what is done with it where no statement runs: definitions, an applier's changes of rows, and
//! what is taken back and committed.
//!
//! [`Work`] is the catalog, the tables as they stand with the changes that can be taken back, and the counters. Contracts
//! see it as plain data (`Contents`).
//!
//! - `work`: [`Work`]
//! - `carrying`: rows put in, changed and taken out as they are, as an applier does it
//! - `meter`: [`Meter`], what is left to a command, and [`Outcome`], what is told of a statement
//! - `defining`: CREATE, DROP and TRUNCATE, and [`is_definition`]
//! - `apart`: [`Apart`], what a statement runs on, which `prog_run` takes out and puts back; `aside`: [`OpenChanges`], set aside
//!   for a statement beside them
//!
//! The definitions in specs/ say what is worked on and what holds of it (`Contents`, over what is stored `Together`), what a
//! definition makes (`Defining`), what is told of statements (`Outcomes`), and what an applier's changes of rows leave as it was
//! (`Carrying`), and how open changes are set aside and put back (`Asides`).
//!
//! # Proved
//! - what holds of every [`Work`]: its changes can be taken back, which gives the committed rows, and made again, which
//!   gives the rows that stand; its tables are those of the catalog, each table with an AUTO_INCREMENT column has its
//!   counter and no other has one ([`Work::together`])
//! - [`Work::stored`] gives the tables by what is there to stay of them, which are the committed rows
//! - [`Work::take_back_to`] takes back just the changes behind a mark, without memory, and leaves what is committed;
//!   [`Work::commit`] lets them stand
//! - [`Work::insert_row`], [`Work::update_row`] and [`Work::delete_row`] store and note one change of a row, or refuse it with
//!   just what is in its way, and run no trigger; [`Work::raise_counter`] raises one counter as its definition says;
//!   [`Work::give_up`] takes all changes back and puts counters back, without memory
//! - [`Work::define`] with CREATE (of tables, functions, procedures and triggers), DROP or TRUNCATE makes just the base and the
//!   counters of the definitions, or refuses with just the error of the first check and changes nothing, as where memory is
//!   short; DROP and TRUNCATE take no memory
//! - [`Work::take_apart`] and [`Work::put_together`] take out and put in just what is there, which is together;
//!   [`OpenChanges::set_aside`] leaves a stage that shows just the committed rows, and no row is copied;
//!   [`OpenChanges::put_back`] shows the open changes again, without memory
//!
//! # Only tested
//! That definitions and changes succeed with ample memory, where nodes run them.
#![tactic(auto)]

mod apart;
mod aside;
mod carrying;
mod defining;
mod meter;
mod work;

// What is its own, and the crates below that it speaks of, passed on: who stands above names them through it.
pub use apart::Apart;
pub use aside::OpenChanges;
pub use catalog;
pub use catalog::{catalog_create_program, catalog_create_table, catalog_objects};
pub use defining::is_definition;
pub use exec_state;
pub use meter::{Meter, Outcome};
pub use work::Work;
