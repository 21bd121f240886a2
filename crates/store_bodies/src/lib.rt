//! The bytes of what a store keeps, both ways.
//!
//! A record of a store's journal has a body: its kind, its head, and changes or a text. This crate puts the body of a record
//! behind some bytes, and reads the record that a body is; what a body says stands in the definitions of `store_model`. It
//! asks for no more memory than the bytes of a damaged body can have. Who commits to a store, or loads it, stands on it.
//!
//! - `writing`: [`put_record`]
//! - `putting`: the bytes of numbers, texts, values, rows and changes
//! - `reading`: [`record_of`]
//! - `changes`, `rows`, `taking`: changes, rows with their values, and texts and numbers at the front of some bytes
//! - `forms`: [`are_changes`], whether changes have a body
//! - `snapshots`, `ends`: parts of a snapshot's body, both ways: the texts of objects, rows, and the ends of logs
//!
//! # Proved
//! - [`put_record`] puts exactly the body of a record at the end, or answers want of memory and leaves the bytes as they were.
//! - [`record_of`] gives exactly the record that a body is in a store of one kind, None exactly where it is none, or answers
//!   want of memory, for all bytes.
//! - [`put_object_text`] and [`put_row`] put exactly the text of an object and a row as a snapshot has them, or a front of them;
//!   [`take_object_text`] and [`take_rows`] take exactly an object's text and a table's rows, and what is behind them, None exactly
//!   where there are none.
//! - [`put_ends`] puts exactly the ends of a source's logs, or a front of them; [`take_ends`] takes exactly these, and what is behind
//!   them, None exactly where there are none that may be; [`take_one`], [`take_four`] and [`take_eight`] take numbers.
//! - [`are_changes`] says so only of changes that have the form of a body.
//!
//! That a body is read as the record that it was put for is a law of `store_model`.
//!
//! # Only tested
//! In `test_stores`: that records, rows and the texts of objects are put and read with ample memory, by bodies worked out by hand. In
//! `test_openings`: that ends and numbers are taken, where snapshots are opened. No test calls [`put_ends`].
#![tactic(auto)]

mod changes;
mod ends;
mod forms;
mod putting;
mod reading;
mod rows;
mod snapshots;
mod taking;
mod writing;

pub use ends::{put_ends, take_ends};
pub use forms::are_changes;
pub use putting::put_row;
pub use reading::record_of;
pub use snapshots::{put_object_text, take_object_text, take_rows};
pub use taking::{take_eight, take_four, take_one};
pub use writing::put_record;
