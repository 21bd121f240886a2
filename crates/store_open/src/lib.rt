//! A store opened from its disk: its snapshots, its journal, its logs.
//!
//! Both snapshots' files are made durable and read whole, and each snapshot that is open is decoded: its objects are made one after the
//! other by their canonical texts, and tables are filled with their rows. From the one of the greater generation, or from nothing where
//! none is open, `store_load` applies the journal that goes on from it and looks at the logs. The counters of tables with an
//! AUTO_INCREMENT column start behind the greatest numbers that are held.
//!
//! This crate stands on the journals of `store_load` and on the parts of snapshots of `store_bodies`; nodes with disks stand on it.
//!
//! - `opening`: [`load`], and [`Opened`], what it gives
//! - `snapshots`: a snapshot of a file, and the greater of two
//! - `bodies`: the body of a snapshot; `objects`: one object after the other; `filling`: the rows of a table
//!
//! # Proved
//! - [`load`] gives exactly what the files of a disk that is told hold, or Damaged exactly at their first place of damage: snapshots, then
//!   the journal record by record, then logs. It starts the counters, and gives a store whose readers give what is held, at the
//!   generation of the snapshot that counts (`active`).
//! - It writes nothing, and a crash leaves at each moment what it might have left before; a refusal of the disk is Disk only where its
//!   count of faults rose.
//!
//! # Only tested
//! In `test_openings`: that a store is opened with ample memory; stores by hand, whole and damaged.
#![tactic(auto)]

mod bodies;
mod filling;
mod objects;
mod opening;
mod snapshots;

pub use opening::{Opened, load};
