//! A replica on its disk.
//!
//! What is fetched goes into memory and, unsynced, into the relay's file, which each opening cuts to nothing. APPLY takes its groups from
//! memory: a group is carried out there and leaves its record (`replica_node`); then the record is staged and its gate opened, and a mark
//! is pushed (`store_replica`). The record has the group's changes and the place behind it, so that base and place move together. Opening
//! reads the store (`store_open`) and starts its journal where that has no gate yet. RESTART drops all memory and opens again.
//!
//! This crate stands on `replica_node` and on `store_checkpoints`, which passes `store_replica` on; who carries out a script over two disks stands on it.
//!
//! - `replica`: [`DurableReplica`], with [`DurableReplica::open`], [`DurableReplica::fetch`], [`DurableReplica::select`] and
//!   [`DurableReplica::restart`]
//! - `applying`: [`DurableReplica::apply`]; `checkpointing`: [`DurableReplica::checkpoint`]
//! - `specs/Standing`: what a replica has on its disk (`IsOnDisk`), and what its store comes to hold in an APPLY (`IsStateOf`)
//!
//! # Proved
//! - [`DurableReplica::apply`]: what it makes and tells is the definition's, and behind it the disk has what the replica keeps. Whatever
//!   it answers, and whichever call of the disk fails, the disk's calls are a run over records behind each of which the store holds what
//!   the replica is behind some number of the APPLY's steps (`carries`), with just the marks that it pushed (`pushed`), one for each group
//!   that is told (`marks`). At a fault the replica in memory is still a front of the APPLY (`err`); of its disk all is said.
//! - [`DurableReplica::open`] on a settled disk: the replica is the one that the definition opens on what is read of it, whatever that is
//!   (`opens`), and its disk has that (`on`); its calls are a run of no record (`runs`), and it answers Damaged only with the first place
//!   of damage (`damaged`).
//! - [`DurableReplica::fetch`] takes just the piece, and its calls are a run of no record. [`DurableReplica::select`] answers as the
//!   definition does and calls no disk.
//! - [`DurableReplica::checkpoint`]: memory and what was fetched stay as they were, and its calls are a run of no record, whichever of them
//!   fails; after Ok the disk has what it had, at the next generation, if there is one (`on`, `runs`, `generation`). At the last generation
//!   it calls no disk (`last`).
//! - [`DurableReplica::restart`] is the definition's RESTART, its calls are a run of no record, and a disk that tells is never damaged then
//!   (`replica`, `runs`, `whole`).
//! - A store is opened at the generation that counts on its disk (`active`), and only a checkpoint moves it on (`generation`).
//! - A device's fault is answered only where the disk's count of faults rose (`cause`).
//!
//! # Only tested
//! Where the program runs over disks: that a replica opens, fetches, goes on and opens again with ample memory.
#![tactic(auto)]

mod applying;
mod checkpointing;
mod replica;

// What is its own, and the crate below that it speaks of, passed on: who stands above names it through this one.
pub use replica::DurableReplica;
pub use replica_node;
pub use replica_node::{Applied, Stopped};
