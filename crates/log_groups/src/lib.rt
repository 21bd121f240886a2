//! Groups of events of a log, read without copying: the start of a log, the name of the next, a
//! definition, a transaction.
//!
//! Readers of logs go by groups. A group is a view of the bytes that were handed in; nothing is copied
//! and no memory is taken, so that the maps that rows need are found by walking the item again. The
//! definitions stand in `log_model`, single events in `event_codec`, rows in `row_image`; replicas and
//! printers stand on this crate.
//!
//! - `group`: [`Next`], [`Group`] and [`Form`]
//! - `reading`: [`next_group`]
//! - `growing`: [`look_at`], a look at a group while its bytes come, with [`Progress`] and [`Look`]
//! - `items`: [`Items`], a walk over the events of a transaction, which gives each as a [`Part`]
//! - `stage`: where one stands in a transaction, and what an event does there
//!
//! # Proved
//! - [`next_group`] says of all bytes, at every position, exactly what the definition `group_at` says: a
//!   group with its bounds; `NotWhole`; or `Damaged` and `Foreign` with their places, where an event
//!   that no group has there, and rows that do not fit their map, are damaged at their own place.
//! - [`Items::next`] gives the events of a transaction in order, and None where its XID stands; `ends`
//!   says of each whether it is the last of its item.
//! - [`look_at`] says of bytes that end where the last look asked, whether they are a front of a group, and how many are needed to look
//!   again; or else that a group ends with them, or that an event is damaged or not known. It looks at one event, so that all looks
//!   at a group together take the time of one. More bytes change nothing in what was looked at ([`looks_stay`]).
//!
//! What is a transaction by that definition, and that 'not whole' is just a front of one, follows by the
//! laws of `log_model`.
//!
//! # Only tested
//! Nothing.
#![tactic(auto)]

mod group;
mod growing;
mod items;
mod reading;
mod stage;

// What is its own, and the crates below that it speaks of, passed on: who stands above names them through it.
pub use group::{Form, Group, Next};
pub use growing::{Look, Mark, Progress, look_at, looks_stay};
pub use items::{Items, Part};
pub use log_group_laws;
pub use log_group_laws::log_entries;
pub use reading::next_group;
pub use row_image;
