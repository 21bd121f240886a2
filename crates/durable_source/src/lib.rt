//! A source on its disk.
//!
//! A command runs in memory and leaves a queue of what its entries are to write (`source_node`); the queue is written behind it, entry by
//! entry, each with a mark (`store_source`). Opening reads the store (`store_open`), starts its journal where that has no gate yet, and
//! begins the first log where there is none. RESTART drops all memory and opens again. Logs are served from their files.
//!
//! This crate stands on `source_node` and on `store_checkpoints`, which passes `store_source` on; who carries out a script over two disks stands on it.
//!
//! - `source`: [`DurableSource`], with [`DurableSource::open`], [`DurableSource::exec`], [`DurableSource::log_bytes`] and
//!   [`DurableSource::restart`]
//! - `checkpointing`: [`DurableSource::checkpoint`]
//! - `opening`: a store that is ready to be written to
//! - `specs/Standing`: for which run a source on its disk stands (`Stands`), and what it opens on (`OpensOn`)
//!
//! # Proved
//! - [`DurableSource::exec`]: for each run for which the source stands, the answer is that of the machine's step, and behind it the source
//!   stands for the run with that step, in memory and on its disk (`stands`); what it put out can be read again (`can`). Whatever it
//!   answers, and whichever call of the disk fails, the disk's calls are a run over the step's entries with just the marks that it pushed
//!   (`runs`, `pushed`). At a fault nothing is said of the source any more; of its disk all is said.
//! - [`DurableSource::open`] on a settled disk: the source stands for the machine that opens on what is read of it, whatever that is
//!   (`stands`; of a disk that tells nothing there is such a store, `some`), its calls are a run over the start of the first log, where
//!   there is none (`runs`), and it answers Damaged only with the first place of damage (`damaged`).
//! - [`DurableSource::checkpoint`]: for each run for which the source stands, it stands for it still, also beside an open transaction, and its
//!   calls are a run over no entry, whichever of them fails; after Ok its store is at the next generation, if there is one (`stands`,
//!   `runs`, `generation`). At the last generation it calls no disk (`last`).
//! - [`DurableSource::restart`] stands for the machine's RESTART, its calls are a run over what that puts out, and a disk that tells is
//!   never damaged then (`stands`, `runs`, `whole`).
//! - [`DurableSource::log_bytes`] gives just the bytes of a log from a position on, up to a count and the log's committed end.
//! - A store is opened at the generation that counts on its disk (`active`), and only a checkpoint moves it on (`generation`).
//! - A device's fault is answered only where the disk's count of faults rose (`cause`).
//!
//! # Only tested
//! In `test_source_stops`, where the program runs over disks: that a source opens, goes on and opens again with ample memory.
#![tactic(auto)]

mod checkpointing;
mod opening;
mod source;

pub use source::DurableSource;
