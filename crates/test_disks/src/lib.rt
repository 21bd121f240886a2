//! Callers of disks and journals, and the tests of `disk_model` and `gate_journal`.
//!
//! - `journals`: a journal opened, and bodies put into it one by one, over any disk
//! - `tests`: bytes of journals, disks in which each call fails with what four crashes leave of them, a disk over
//!   a real folder, and one that reads another byte back
//!
//! # Proved
//! - [`opened`] and [`put_body`]: after Ok the journal rests on the disk, so that the next body can be put.
//!
//! # Only tested
//! Each call of `disk_model` and `gate_journal` with ample memory, by tables worked out by hand.
#![tactic(auto)]

mod journals;
#[cfg(test)]
mod tests;

pub use journals::{opened, put_bodies, put_body};
