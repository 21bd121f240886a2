//! What the words of the program do at its edges: the input read and split, bytes written whole, what
//! environments hand out told in a report.
//!
//! - `streams`: [`read_script`] and [`read_piece`], [`write_all`], [`write_line`]
//! - `scripts`: [`split_commands`], the commands of a script or the status that tells why there are none
//! - `reports`: [`empty_report`], [`open`] and [`take_draw`], which tell what they take
//! - `statuses`: [`with_status`], want of memory as a status
//! - `laws`: what follows of writes and of draws
//!
//! The definitions stand in specs/: `Wrote` (what came to the end of a stream), `Stops` (why reading, splitting
//! or writing stopped), `Read` (what was read of the input), `Reports` (what a report tells).
//!
//! It stands on `answer_text` and `script_read`; `repl_run` is made of it.
//!
//! # Proved
//! - [`read_script`] reads to the end or to one byte past the greatest length, and no further (`limit`): what it
//!   gives splits as the whole input does, and where that splits nothing is left (`read`) and the input has ended
//!   (`at_end`). It stops only at a
//!   fault, for which the stream's count of faults rose, or for want of memory (`stop`), and a fault is the last
//!   call on the stream (`once`, `last`).
//! - [`read_piece`] puts just what one read took to the end of some bytes, and says where the input ends.
//! - [`split_commands`] gives exactly the commands of the script, or BadScript exactly at its first bad byte, or
//!   wants memory (`gives`); each session has a number from 1 to 99 (`sessions`), and there are at most
//!   13,421,772 commands (`count`).
//! - [`write_all`] and [`write_line`] write all, or a front at a fault, for which the count rose and which is the last
//!   call on the stream.
//! - [`open`] and [`take_draw`] tell just what they took, want of memory apart (`told`, `drawn`); the identity told is
//!   the environment's (`named`). [`empty_report`] is empty.
//! - Laws: [`writes_join`], [`draws_begin`].
//!
//! # Only tested
//! In the crates above: that calls succeed with ample memory.
#![tactic(auto)]

mod laws;
mod reports;
mod scripts;
mod statuses;
mod streams;

pub use laws::{draws_begin, writes_join};
pub use reports::{empty_report, open, take_draw};
pub use scripts::split_commands;
pub use statuses::with_status;
pub use streams::{read_piece, read_script, write_all, write_line};
