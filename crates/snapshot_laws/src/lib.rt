//! What a store holds is read again from a snapshot of it.
//!
//! A snapshot has objects by their canonical texts and rows as they are. This law says when its body is read as what is held: where the
//! objects can be made again in their order, as they always can, where the tables are theirs and hold what tables have to, and where
//! all numbers have their bytes. It stands on `store_model`, `store_laws` and `catalog_laws`; no code runs here.
//!
//! # Proved
//! - A snapshot's body is read as what is held ([`held_is_read_again`])
//! - What a source's store holds is within the bounds of a snapshot ([`sources_have_places`])
#![tactic(auto)]

mod laws;

pub use laws::{held_is_read_again, sources_have_places};
