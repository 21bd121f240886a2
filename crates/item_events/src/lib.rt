//! The events of an item: a statement's text behind what it needs, or the maps and rows of its changes.
//!
//! This crate stands on `row_events` for an item by its rows, and on the definitions of `log_model`
//! (`item_events`, `item_size`); the cache of a transaction stands on it.
//!
//! - `text`: an item by its text: INTVARs, RAND, USER_VARs and the QUERY
//! - `item`: [`put_item`]
//! - `sizes`: [`item_size`], without taking memory
//!
//! # Proved
//! - [`put_item`] puts exactly the bytes of the definition `item_events` at the end, each event with the
//!   item's timestamp, or answers want of memory, where the bytes still begin as they were. It asks that
//!   an item by its rows has what those need, and that each event can be written at its place.
//! - [`item_size`] is how many bytes these events have, or the greatest number of 64 bits, for every
//!   item.
//!
//! # Only tested
//! That calls succeed with ample memory, and a text's bytes beside those of another program, in
//! `test_items`.
#![tactic(auto)]

mod item;
mod sizes;
mod text;

pub use item::put_item;
pub use sizes::item_size;
