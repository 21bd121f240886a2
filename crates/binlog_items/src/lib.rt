//! What a source logs: the item of a statement that changed rows, the items of a transaction, and the bytes of entries.
//!
//! This crate stands on `binlog_cache` and on what statements reach (`unsafe_rules`); a source stands on it. A log can carry
//! every item that [`Items`] holds, by a text with ids from 0 and below 2^63: that is looked at where an item is put in, so that a
//! commit needs no look at each row.
//!
//! - `making`: [`item_of`], with `before` ([`Before`]) and `tables` ([`definitions_changed`])
//! - `items`: [`Items`]; `carrying` and `texts`: whether a log can carry an item, by its rows or by its text
//! - `definition`: [`encode_definition`]; `start`: [`encode_start`]
//!
//! The definitions in specs/ say what an item is made of (`Items`), and what a log takes (`Logged`).
//!
//! # Proved
//! - [`item_of`] is the item of a statement: its text, what it carries of the context before it, whether it is logged by its
//!   rows or by its text, the definitions of just the tables that its changes change, in the order of the catalog, and the
//!   changes; or memory is short.
//! - [`Items`] are a list, which [`Items::add`] makes longer and [`Items::cut`] cuts to a mark; [`Items::are_too_large`]
//!   tells whether one transaction may not have so many bytes; [`Items::changes`] gives their changes in order;
//!   [`Items::encode`] gives exactly the bytes of their transaction at a place, where it can be logged; or memory is short.
//! - [`encode_definition`] gives exactly the bytes of a definition at a place, where it can be logged, or memory is short;
//!   [`encode_start`] the 123 bytes with which a log begins.
//!
//! # Only tested
//! Nothing here: that items can be carried is tested where a source logs them.
#![tactic(auto)]

mod before;
mod carrying;
mod definition;
mod items;
mod making;
mod start;
mod tables;
mod texts;

// What is its own, and the crates below that it speaks of, passed on: who stands above names them through it.
pub use before::Before;
pub use binlog_cache::binlog_sizes;
pub use definition::encode_definition;
pub use items::Items;
pub use making::item_of;
pub use start::encode_start;
pub use tables::definitions_changed;
pub use unsafe_rules;
