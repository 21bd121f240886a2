//! What a source writes to its disk.
//!
//! A command leaves a queue of what its entries are to write: the bytes behind the last log, the head of a log that begins, and the
//! record (`waiting_entries`). The queue is written behind the command, entry by entry: the log, the record behind the journal's closed
//! gate, and the gate, each synced before the next; and behind a transaction's gate its mark is pushed. Room for all marks, and for the
//! ends of logs that begin, is taken before the first call of the disk; nothing else takes memory. A log is served from its file, up to
//! where its records say that it ends, and no further.
//!
//! This crate stands on the store of `commit_store` and on the runs of `durable_runs`; the source on its disk stands on it.
//!
//! - `queue`: [`write_out`], over `entry`, which writes one
//! - `beginning`: [`begin_log`], the start of the first log
//! - `serving`: [`log_bytes`]
//! - `specs/Writing`: what a source has on its disk (`IsOn`), and which queue can be written (`CanWrite`); `specs/Pushed`: marks, and
//!   how many calls entries take; `specs/Beginning`
//!
//! # Proved
//! - [`write_out`]: whatever it answers, and whichever call of the disk fails, it is a run of the source over the queue's entries, with
//!   just the marks that it pushed: each image of each moment stands for what the source had behind the first of the entries, no less
//!   than the marks until then name. After Ok the disk has what all entries make. Marks name each number once and in order, one for
//!   each transaction that was kept; it makes six calls an entry, and two more where a log ends with the next one's name.
//!   The store's generation stays.
//! - [`begin_log`] does the same with the start of the first log, where there is none, and pushes no mark.
//! - [`log_bytes`] gives just the bytes of a log from a position on, up to a count and the log's committed end, none for a place that
//!   the source does not have, and from a disk that tells nothing no more than these; it changes nothing.
//! - A refusal is the disk's own, or want of memory. Failed comes only where the disk's count of faults rose.
//!
//! # Only tested
//! In `test_source_stops`, where the program runs over disks: that entries are written with ample memory, and what crashes leave meanwhile.
#![tactic(auto)]

mod beginning;
mod entry;
mod queue;
mod serving;

pub use beginning::begin_log;
pub use queue::write_out;
pub use serving::log_bytes;
