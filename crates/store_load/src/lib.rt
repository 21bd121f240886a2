//! A store read again from where its snapshots leave off: its journal, record by record, and then its logs.
//!
//! A journal's file is read whole. Each open record is decoded and applied as it is met, so that the first place of damage is
//! found whatever stands behind it: a transaction's changes are made as they stand, without triggers, a definition is made by
//! its text. What comes of it is kept in memory, with the journal at the closed gate behind the last record.
//!
//! This crate stands on the definitions of `store_model`, on the bodies of `store_bodies`, on the journals of `gate_journal` and
//! on what `prog_work` does without statements; `store_open`, which reads snapshots too, stands on it.
//!
//! - `stored`: [`Stored`], what is held, in memory; `reached`: [`Reached`], all of it but catalog and tables
//! - `loading`: [`load_from`]; `journal`: [`load_journal`]; `logs`: [`look_at_logs`]
//! - `applying`, `changing`, `defining`: one record applied, its changes of rows, its definition by its text
//! - `counters`: [`start_counters`]
//! - `specs/Loading`: what is held, by what was read of it (`held_in`), and the places of damage that are told
//!
//! # Proved
//! - [`load_journal`] gives exactly what a journal's open records make of what is held before them, or Damaged exactly at the first
//!   one that is not whole, decodes to nothing, cannot be the next or cannot be applied: damage of a later record is never answered
//!   before an earlier one's.
//! - [`look_at_logs`] makes logs durable, and answers Damaged exactly for the first that is shorter than its end, at its length.
//! - [`load_from`] gives exactly what a disk's files hold, or their first place of damage, from what its snapshots begin with.
//! - All three write nothing, and a crash leaves at each moment what it might have left before; a refusal of the disk is Disk only
//!   where its count of faults rose.
//! - [`start_counters`] puts the counter of each table with an AUTO_INCREMENT column behind the greatest number that is held there.
//!
//! # Only tested
//! In `test_openings`, through `store_open`: that calls succeed with ample memory; stores by hand, whole and damaged.
#![tactic(auto)]

mod applying;
mod changing;
mod counters;
mod defining;
mod journal;
mod loading;
mod logs;
mod reached;
mod stored;

// What is its own, and the crate below that it speaks of, passed on: who stands above names it through it.
pub use changing::insert_row;
pub use counters::start_counters;
pub use defining::{define, statement_of};
pub use journal::load_journal;
pub use loading::load_from;
pub use logs::look_at_logs;
pub use prog_work;
pub use reached::Reached;
pub use stored::Stored;
