//! Callers of stores, and the tests of `store_bodies` and `commit_store`.
//!
//! - `forms`: whether a record has a body, as the calls of a store ask of it
//! - `scripts`: a store opened on a disk that has none, and records committed one by one, on a source behind bytes of its log
//! - `tests`: bodies by hand, both ways; stores over disks in which each call fails in turn, with what four crashes leave
//!
//! # Proved
//! - [`has_form`] and [`has_room`] say yes only of a record that has a body, and one that a journal takes.
//! - [`opened`] and [`commit_step`]: after Ok the store's journal rests on the disk, so that the next record can be staged.
//!
//! # Only tested
//! Each call of `store_bodies` and of `commit_store` with ample memory, by tables worked out by hand.
#![tactic(auto)]

mod forms;
mod scripts;
#[cfg(test)]
mod tests;

pub use forms::{has_form, has_room};
pub use scripts::{Step, commit_step, commit_steps, opened};
