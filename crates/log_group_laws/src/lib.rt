//! Laws of whole groups: where they lie among the bytes that they are read from, and that they stay what they are.
//!
//! Definitions and laws over those of `log_model`, and no code. Replicas that read a log group by group, as far as they have
//! fetched it, stand on this crate.
//!
//! - `specs/Laws`: what is proved
//! - `laws`: the laws, as functions that do nothing
//!
//! # Proved
//! - a group begins at its place, has at least the bytes of a header, and ends within the bytes that it is read from and within
//!   what a log may have ([`groups_lie_within`])
//! - a group that is read is the same group whatever follows its bytes ([`groups_stay`])
//! - an event that is damaged or not known where a group is looked for is so whatever follows ([`stops_stay`])
//! - where there are no bytes, no group is whole ([`nothing_is_not_whole`])
#![tactic(auto)]

mod laws;

// What is its own, and the crates below that it speaks of, passed on: who stands above names them through it.
pub use laws::{groups_lie_within, groups_stay, nothing_is_not_whole, stops_stay};
pub use log_model::log_entries;
