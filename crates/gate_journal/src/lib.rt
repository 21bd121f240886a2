//! A journal: records behind gates, in one file of a disk.
//!
//! A record is a gate byte, a length in four bytes and a body; gate 0 is closed, any other value open. The byte
//! behind the last record is a closed gate. A record is first staged behind the present gate, which stays closed,
//! with its own next gate, and synced; then the gate is opened and synced. So one byte decides whether a record
//! counts, whatever a crash leaves of the bytes behind it. A file of at most one byte has no records; there
//! [`Journal::start`] writes the first gate.
//!
//! This crate stands on the disks of `disk_model` and knows nothing of what bodies say; the stores stand on it.
//!
//! - `record`: [`next_record`], the record at a gate, the end, or the damage
//! - `scanning`: [`scan`], all open records of a file with its journal; who reads record by record makes the journal
//!   at their end by [`Journal::found`]
//! - `framing`: [`frame`], the bytes of a record
//! - `journal`: [`Journal`] with [`Journal::start`], [`Journal::prepare`], [`Journal::take_prepared`], [`Journal::stage`]
//!   and [`Journal::open_gate`]
//! - `worked`: journals by hand
//! - `specs/Records`: what a file of records stands for; `specs/Journal`: a journal on a disk
//!
//! # Proved
//! - [`next_record`] gives what stands at a gate; [`scan`] gives just the open records, their gates and the
//!   present gate, or Damaged exactly at the first open record that is not whole. It leaves all as it was.
//! - Until [`Journal::open_gate`] is called each moment leaves a file with the old records; inside it each leaves
//!   the old records, or those and the staged one; after Ok the file is durable with that one more, and the next
//!   gate behind it. That holds whichever call of the disk fails, so at an error a crash leaves what it may leave
//!   inside the call; other files stay as they were.
//! - [`Journal::prepare`] takes all memory; so does [`frame`], whose bytes [`Journal::take_prepared`] takes over
//!   without any; [`Journal::stage`] and [`Journal::open_gate`] make two calls of the
//!   disk each, a write and a sync. A refusal of theirs is the disk's own, and Failed comes only where its count
//!   of faults rose.
//! - [`journals_by_hand`], [`damage_by_hand`]: records and places of damage, byte by byte
//!
//! # Only tested
//! In `test_disks`: that calls succeed with ample memory; the bytes of a journal that was written; journals over
//! disks in which each call fails in turn, with what four crashes leave.
#![tactic(auto)]

mod framing;
mod journal;
mod record;
mod scanning;
mod worked;

pub use framing::frame;
pub use journal::Journal;
pub use record::{HEAD, NextRecord, next_record};
pub use scanning::{Records, scan};
pub use worked::{damage_by_hand, journals_by_hand};
