//! Disks: what is read of them, and what a crash may leave of them at each moment.
//!
//! A disk has files by number. It tells a *story*: what its files held at first and all calls since, and
//! everything else is said of that: what a read gives (`specs/Story`), and what a crash may leave of each file
//! (`specs/Left`). Between two syncs of a file each written range and everything past the old end may hold any
//! bytes, the length may be any between the least and the greatest, and bytes outside stay; after a sync that
//! succeeds the file is what a read gives. A write or a cut counts once it has begun, whether or not it fails,
//! and a sync that fails makes nothing durable. A call that finds no memory is none. A crash falls between two
//! calls or inside one (`specs/Moments`), and a claim on all moments from one on is a `Since`; nothing above
//! opens these definitions. A disk over real files tells no story: it has its count of faults alone.
//!
//! This crate stands on the lists of `val_types`, the counts of `fault_counts` and, for the disk over a folder, on
//! `folder_files`; the journal, the stores and the nodes stand on it.
//!
//! - `call`, `refusals`: [`Call`], [`DiskRefusal`], and [`NodeFault`] and [`OpenRefusal`] for those above
//! - `disk`: the trait [`Disk`]
//! - `durable`: [`put`], the one writer of what has to last: a write and its sync
//! - `looking`: [`settle`] and [`whole_file`], which change nothing that is read
//! - `unsynced`: [`write_unsynced`] and [`cut_unsynced`], on files of which nothing is claimed after a crash
//! - `memory`, `files`: [`MemDisk`], which tells its story
//! - `fuse`: [`FuseDisk`], whose k-th call fails
//! - `twist`: [`TwistDisk`], for tests of what is read back
//! - `host`: [`HostDisk`], over a folder
//! - `image_laws`: [`images_by_law`], what follows of what a crash may leave
//! - `worked`: images by hand
//!
//! # Proved
//! - [`put`]: at each moment in it the piece's range is torn and all else stays, also of other files, whichever
//!   call fails; after Ok the file reads as written and nothing else is left of it (`Puts` in `specs/Claims`).
//! - [`settle`], [`whole_file`]: at each moment a crash leaves what it might have left before; the bytes are the
//!   file's. [`write_unsynced`], [`cut_unsynced`]: other files stay at each moment.
//! - [`MemDisk`] and [`FuseDisk`] tell the story of their calls, also of those that fail and of those that
//!   find no memory. What a disk tells is a story of bytes (`bytes` of [`Disk::calls`]), so that each file reads as
//!   bytes (lemmas of `proofs/Told`). [`TwistDisk`] and [`HostDisk`] have the clauses that speak of counts: Failed
//!   comes only where the count of faults rose.
//! - [`images_by_hand`], [`lengths_by_hand`]: what a crash may leave and what not, of two writes whose ranges
//!   overlap, with a sync between them, and of a file that is cut and grown.
//! - [`images_by_law`]: what is read may always be left, a sync adds no image, one write over a durable file
//!   leaves it torn; images hold bytes.
//! - Lemmas that proofs above cite, since they are about claims of every kind (`proofs/`): what is read may
//!   always be left, a sync adds no image, one write over a durable file leaves it torn (`Holding`, `Torn`,
//!   `Laws`), claims go on from call to call and join at any moment (`Moments`, `Putting`, `Quiet`).
//!
//! # Only tested
//! In `test_disks`: that calls succeed with ample memory, which call of a `FuseDisk` fails, what a `TwistDisk`
//! gives back, and each call of a `HostDisk` on a real folder. What a real file holds is neither proved nor tested.
#![tactic(auto)]

mod call;
mod disk;
mod durable;
mod files;
mod fuse;
mod host;
mod image_laws;
mod looking;
mod memory;
mod refusals;
mod twist;
mod unsynced;
mod worked;

pub use call::Call;
pub use disk::Disk;
pub use durable::put;
pub use fuse::FuseDisk;
pub use host::HostDisk;
pub use image_laws::images_by_law;
pub use looking::{settle, whole_file};
pub use memory::MemDisk;
pub use refusals::{DiskRefusal, NodeFault, OpenRefusal};
pub use twist::TwistDisk;
pub use unsynced::{cut_unsynced, write_unsynced};
pub use worked::{images_by_hand, lengths_by_hand};
