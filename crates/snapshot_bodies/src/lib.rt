//! The body of a snapshot, made of what a node keeps in memory.
//!
//! A snapshot has what a store holds: numbers, places, and each object of the catalog by its canonical text, a table with its rows in the
//! order of their keys. The rows are those that are there to stay, so that a snapshot can be made beside the open changes of a
//! transaction. What each body says stands in the definitions of `store_model`.
//!
//! This crate stands on the bodies of `store_bodies`, on the rows of `row_store` and on the statements of `catalog_show_create`; who
//! makes checkpoints stands on it.
//!
//! - `heads`: [`put_head`] and [`put_places`], what stands before the objects
//! - `objects`: [`put_base`], the objects with their rows
//! - `forms`: whether a row has a body
//! - `specs/Kept`: the base that is kept in memory
//!
//! # Proved
//! - [`put_head`], [`put_places`] and [`put_base`] put exactly their part of the body at the end of some bytes, or answer want of
//!   memory. What has no body, of which there is nothing in a run, is answered as where memory is short: a row of a value or a
//!   count that has no bytes, 2^32 logs or objects, a table of the catalog without rows.
#![tactic(auto)]

mod forms;
mod heads;
mod objects;

pub use catalog_show_create;
pub use heads::{put_head, put_places};
pub use objects::put_base;
