//! Events of a binary log of version 4, read as views of the bytes and written to the byte.
//!
//! An event is a header of 19 bytes and a body, every number with its least byte first. The types are
//! QUERY, ROTATE, INTVAR, RAND, USER_VAR, FORMAT_DESCRIPTION, XID, TABLE_MAP and WRITE, UPDATE and
//! DELETE_ROWS; any other type is read as foreign. A view is a `Copy` struct of slices of the bytes
//! that were handed in; nothing is copied and no memory is taken. Row values, which need the map of
//! their table, are looked at in `row_image`. This crate stands on `byte_fields`, and readers and
//! writers of logs stand on it.
//!
//! - `event`: [`Event`], its views and the [`Header`] that it is written with
//! - `reading`: [`read_event`], which says what stands at the front of some bytes
//! - `writing`: [`write_event`]
//! - `query`, `rotate`, `numbers` (INTVAR, RAND, XID), `user_var`, `format_description`, `table_map`
//!   with `columns`, `rows` with `bitmap`: the bodies, both ways
//! - `parts`, `schema`: what bodies are made of
//! - `laws`: what is written is read again; `worked`: events by hand, which the checker computes
//!
//! As definitions an event is a `Seen`: a timestamp, a length, and a `Body` with a constructor for each
//! type. A new type is a constructor of `Body`, its bytes in `body_bytes`, its reading in `body_at`, its
//! number in `kind_of`, its form in `HasForm`, and the lemma that its bytes are read again.
//!
//! # Proved
//! - [`read_event`] says of all bytes, at every position, exactly what the definition `reading` says:
//!   one of an event, `Short` with what it needs, `Damaged` and `Foreign` with their place. A body
//!   outside its form is damaged, and only then are values looked at that this log does not know; where
//!   such a value decides the form of what follows, it ends the reading.
//! - An event lies within its bytes and ends at 1,200,000,000 at most ([`read_event`], [`lies_within`]).
//! - [`write_event`] puts the bytes of the definition `event_bytes` at the end, or answers want of
//!   memory and leaves the bytes as they were. It asks for an event of its form that ends at
//!   1,200,000,000 or before.
//! - What is written is read again, whatever follows it ([`written_is_read`]); an event has the length
//!   that it says ([`has_length`]).
//! - The worked events of `worked`.
//!
//! # Only tested
//! That writing succeeds with ample memory, and small logs as a whole, in `test_log`. That a MySQL
//! server reads or writes the same bytes is not claimed.
#![tactic(auto)]

mod bitmap;
mod columns;
mod event;
mod fault;
mod format_description;
mod laws;
mod numbers;
mod parts;
mod query;
mod reading;
mod rotate;
mod rows;
mod schema;
mod table_map;
mod user_var;
mod worked;
mod writing;

pub use event::{
    Event, Header, IntVarKind, MapView, QueryView, RowsKind, RowsView, Step, UserVarView, VarValue,
};
pub use laws::{has_length, lies_within, written_is_read};
pub use reading::{Read, read_event};
pub use worked::{events_by_hand, statements_by_hand, tables_by_hand};
pub use writing::write_event;
