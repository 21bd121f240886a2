//! The pieces of a checkpoint, put on a disk one after the other.
//!
//! Each piece is a write and its sync (`put` of `disk_model`) in a file that does not count at the present generation, but the last, which
//! opens the gate of the next generation's snapshot. They take no memory.
//!
//! This crate stands on the laws of `checkpoint_model` and on what a disk holds of a store in `commit_store`; `checkpoint` stands on it.
//!
//! - `pieces`: [`put_pieces`]
//! - `specs/Working`: what calls on two files did; `specs/Newest`: a disk on its way to the next generation, and there
//!
//! # Proved
//! - [`put_pieces`]: at each moment, inside a call too and whichever call fails, each image stands for what is held, at the generation that
//!   counted or at the next; files but the two are as they might have been left before (`images`). After Ok the disk stands for it
//!   at the next generation, durable, with no record in that generation's journal (`newest`). Failed comes only where the disk's
//!   count of faults rose.
#![tactic(auto)]

mod pieces;

pub use pieces::put_pieces;
