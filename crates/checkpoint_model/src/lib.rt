//! What a checkpoint puts on a disk, and that what the disk stands for stays the same meanwhile. Definitions and laws; no code
//! runs here.
//!
//! A checkpoint writes what a store holds as a snapshot of the next generation. It works on the two files that do not count at the
//! present one, the other snapshot's and the other journal, piece by piece: the snapshot's gate is closed where it has to be, the
//! journal's first gate is closed, the snapshot's body is written behind its closed gate, and then its gate is opened. Until that
//! last piece an image stands for what is held at the present generation, and from then on at the next.
//!
//! This crate stands on what `store_model` reads of a store's image and on the torn writes of `disk_model`; who makes checkpoints
//! stands on it.
//!
//! - `specs/Pieces`: the pieces of a checkpoint, and what they leave of an image
//! - `specs/Moments`: what a crash leaves at each moment, and which snapshot's file does not count
//! - `laws`: what follows; `worked`: checkpoints by hand
//!
//! # Proved
//! - The other file of snapshots does not count, and may change while it does not ([`other_generation_does_not_count`]); an open
//!   snapshot of the next generation counts ([`newest_generation_counts`]).
//! - At each moment of a checkpoint, inside a write too, an image stands for what is held, and behind it each does so at the next
//!   generation, whose journal has no record ([`checkpoints_keep_what_is_held`]).
//! - The bytes of checkpoints by hand ([`new_checkpoints_by_hand`], [`rows_by_hand`], [`pieces_by_hand`]).
#![tactic(auto)]

mod laws;
mod worked;

pub use laws::{
    checkpoints_keep_what_is_held, newest_generation_counts, other_generation_does_not_count,
};
pub use worked::{new_checkpoints_by_hand, pieces_by_hand, rows_by_hand};
