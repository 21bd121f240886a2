//! A log read from an input, from its first group or from a position on, one group at a time, and no byte behind it.
//!
//! A reader takes a header, then what is missing of its event, in pieces of at most 64 KiB, so that the memory that it needs grows
//! with what came and never by what a header claims; only one group is held. Whether a group goes on is looked at event by event
//! (`log_groups`). The word that prints a log and the one that replays it stand on this crate, and it on `run_streams`.
//!
//! - `reader`: [`LogReader`] with [`LogReader::new`], [`LogReader::at`] and [`LogReader::next`], and [`Found`]
//! - `filling`: bytes read up to a count
//! - `groups`: bytes read up to the end of a group
//! - `magic`: [`read_magic`]
//! - `front`: [`read_front`]
//! - `laws`: what follows for the whole log
//!
//! The definitions stand in specs/: `Reading` (what a call takes and finds), `Behind` (what is then known of the log on the
//! input).
//!
//! # Proved
//! - [`LogReader::next`] takes just the bytes of a group; or finds the end, the place of what is damaged, or the place and
//!   type of what is not known (`reads`). It stops only at a fault, for which the input's count of faults rose, or for want of
//!   memory (`stop`); a fault and the end are the last call on the input (`at_end`, `once`, `last`).
//! - [`read_magic`] takes four bytes, and says whether they are a log's magic (`magic`).
//! - [`read_front`] takes the magic and then what stands before a position, or says where the log is damaged (`front`).
//! - Laws: behind the calls it is known which groups the log on the input begins with, from the first one or from a position on, and at
//!   a call that finds none, how it ends ([`magic_leads`], [`front_leads`], [`calls_lead`], [`fronts_are_known`]).
//!
//! # Only tested
//! In the crates above: that calls succeed with ample memory, and that nothing is read behind what is damaged.
#![tactic(auto)]

mod filling;
mod front;
mod groups;
mod laws;
mod magic;
mod reader;

// What is its own, and the crates below that it speaks of, passed on: who stands above names them through it.
pub use front::read_front;
pub use laws::{calls_lead, front_leads, fronts_are_known, magic_leads};
pub use log_file_model::log_print;
pub use magic::read_magic;
pub use reader::{Found, LogReader};
pub use run_streams;
