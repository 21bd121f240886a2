//! A checkpoint: what a store holds, written as a snapshot of the next generation, so that its journal begins anew.
//!
//! All memory is taken before the first call of the disk: the snapshot is made whole, of the catalog and of the rows that are there
//! to stay. Then it is put in the file that does not count at the present generation, piece by piece, as `checkpoint_model` says, and
//! the store goes on in the next generation's journal. A crash at any moment leaves what was held, and so does a call that fails.
//!
//! This crate stands on the pieces of `checkpoint_pieces`, on the parts of a body of `snapshot_bodies` and on the store of
//! `commit_store`; `store_checkpoints` stands on it.
//!
//! - `checkpointing`: [`checkpoint`]
//! - `snapshot`: a snapshot as its file has it behind the gate
//! - `specs/Checkpoints`: what is held, by what a node keeps of it
//!
//! # Proved
//! - [`checkpoint`]: at each moment, inside a call too and whichever call fails, each image of the disk stands for what is held, at the store's generation
//!   or at the next one, and all files but two are as they might have been left before (`images`). After Ok the disk keeps what is
//!   held at the next generation, whose journal has no record (`keeps`, `closed`), and the readers give what they gave (`rest`). At
//!   the last generation it changes nothing and calls no disk (`last`). At an error the store is as it was; Disk comes only where the
//!   disk's count of faults rose.
//!
//! # Only tested
//! In `test_checkpoints`: that calls succeed with ample memory.
#![tactic(auto)]

mod checkpointing;
mod snapshot;

pub use checkpointing::checkpoint;
