//! Checkpoints of a source's store and of a replica's: what stands on their disks stays.
//!
//! What a snapshot has to give again, it gives: the files of a disk that tells hold bytes, so that the objects that they hold can be made
//! again, and a snapshot of them is read as what is held.
//!
//! This crate stands on `checkpoint`, on the laws of `snapshot_laws`, and on what a source and a replica have on their disks in
//! `store_source` and `store_replica`; the nodes on their disks stand on it.
//!
//! - `source`: [`checkpoint_source`]; `replica`: [`checkpoint_replica`]; `bounds`: what the types of a store's numbers say
//! - `specs/Asking`: what a checkpoint asks of their disks
//!
//! # Proved
//! - [`checkpoint_source`]: at each moment, whichever call fails, each image of the disk stands for what the source's store has, with the bytes
//!   of each log (`stays`), and after Ok the disk has it (`on`). So its calls are a run of no entry (law `runs_compose` of `durable_runs`).
//! - [`checkpoint_replica`]: the same of a replica; what it has fetched stays as it was (`fetched`).
//! - Behind both the store's number is what it was, and after Ok its generation is the next one, if there is one (`generation`). At the last
//!   generation neither calls a disk or changes anything (`last`).
#![tactic(auto)]

mod bounds;
mod replica;
mod source;

// What is its own, and the crates below that it speaks of, passed on: who stands above names them through it.
pub use replica::checkpoint_replica;
pub use source::checkpoint_source;
pub use store_replica;
pub use store_source;
