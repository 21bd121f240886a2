//! What a log says, as definitions with their laws, and no code: its events, groups of them, rows in
//! bytes, and the bytes that transactions append.
//!
//! The definitions stand in specs/, over those of single events in `event_codec`:
//! - `Events`: the list of the events at a place, and why no other follows
//! - `Groups`: the group at a place, by an automaton on that list (`group_of`, `scan`, `move`); a rows
//!   event is looked at with its map here, and the place of what is damaged is the rows event's
//! - `Spelling`: items as lists of bodies, apart from how they are read
//! - `Images`: rows and changes in bytes, by the columns of a map, both ways
//! - `Written`: events that are written one after the other
//! - `Items`: the events of an item, by its text or its rows
//! - `Log`: the bytes of entries behind a place, and where they end
//! - `Worked`: small logs for the worked examples
//!
//! Code that reads, writes or prints logs stands on this crate and cites these definitions.
//!
//! # Proved
//! - where an event stands, it is the first of the list and the others stand behind it; where none
//!   stands, the list is empty and stops for that reason (`events_go_on`, `events_end`)
//! - events that are written are read again, whatever follows them, and have as many bytes as they say
//!   (`events_are_read_again`, `events_have_length`); so are transactions (`transaction_is_read_again`),
//!   rows (`rows_are_read_again`) and changes (`changes_are_read_again`)
//! - a transaction that is spelled is read (`spelled_is_read`), and what is read as one is spelled
//!   (`read_is_spelled`, `whole_is_items`)
//! - an item is written as an item (`item_is_spelled`), the changes of one that is logged by its rows are
//!   read again in their order (`changes_are_carried`), and a transaction or a definition that is logged is
//!   read as one group, whatever follows it (`transaction_is_one_group`, `definition_is_one_group`), and so are
//!   the first event of a log and the name of the next (`log_start_is_read`)
//! - entries behind others are logged behind what those append, and a log grows by the bytes that its
//!   places say (`log_goes_on`, `entries_have_length`, `heads_have_length`)
//! - no group is whole just where the bytes end within an event behind a front (`not_whole_is_front`),
//!   and each front can be completed (`fronts_go_on`)
//! - the worked examples
#![tactic(auto)]

mod event_laws;
mod group_laws;
mod image_laws;
mod item_laws;
mod worked;
mod worked_images;
mod writing_laws;

// What is its own, and the crates below that it speaks of, passed on: who stands above names them through it.
pub use event_laws::{events_end, events_go_on};
pub use group_laws::{
    fronts_go_on, not_whole_is_front, read_is_spelled, spelled_is_read, whole_is_items,
};
pub use image_laws::{changes_are_read_again, rows_are_read_again};
pub use item_laws::{
    changes_are_carried, definition_is_one_group, entries_have_length, heads_have_length,
    item_is_spelled, log_goes_on, log_start_is_read, transaction_is_one_group,
};
pub use log_entries;
pub use worked::{
    first_log_by_hand, log_starts, row_inserted, rows_cut, rows_items_by_hand, texts_by_hand,
};
pub use worked_images::rows_by_hand;
pub use writing_laws::{events_are_read_again, events_have_length, transaction_is_read_again};
