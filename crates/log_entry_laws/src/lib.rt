//! How the bytes that entries append to a log are read again, group by group, also where only a front of
//! them has been fetched: definitions and laws over those of `log_model`, and no code.
//!
//! - `specs/Entries`: the group that an entry is read as, and which entries can be logged at a place
//! - `specs/Ids`: the ids that a log can say of a text
//! - `specs/Laws`: what is proved of them
//! - `laws`: the laws, as functions that do nothing
//!
//! What replicas do with a log that they fetch stands on this crate.
//!
//! # Proved
//! - an entry that is logged is read as its group, whatever follows it ([`entry_is_read`]), and so is the
//!   first event of a log ([`start_is_read`]); the group has just the entry's bytes ([`groups_have_bounds`])
//! - while bytes of it are missing, nothing whole is read ([`entry_is_cut`], [`start_is_cut`]): no other
//!   group, and nothing damaged; nor of fewer bytes than a header has ([`few_are_cut`])
//! - so what was fetched of a log is not whole yet, or begins with the whole group of its first entry, and a
//!   front of the other entries follows ([`relay_is_read`], [`start_relay_is_read`])
//! - entries can be logged behind others just where they can be behind what those append
//!   ([`entries_can_log_on`])
#![tactic(auto)]

mod laws;

// What is its own, and the crates below that it speaks of, passed on: who stands above names them through it.
pub use laws::{
    entries_can_log_on, entry_is_cut, entry_is_read, few_are_cut, groups_have_bounds,
    relay_is_read, start_is_cut, start_is_read, start_relay_is_read,
};
pub use log_model;
pub use log_model::log_entries;
