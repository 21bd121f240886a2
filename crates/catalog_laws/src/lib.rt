//! The objects of a catalog can be made again in their order, by statements that read as their trees.
//!
//! A store keeps objects by the canonical texts of the statements that make them. These laws say that each catalog
//! that CREATE, DROP and TRUNCATE come to, from nothing on, can be kept so. They stand on the laws of `sql_text`, `text_answers` and
//! `catalog_show_create`; no code runs here.
//!
//! - `laws`: what follows; the definitions stand in specs/ (`Making`)
//!
//! # Proved
//! - After each statement that the parser can give and nothing refuses, after DROP too, the objects of a catalog can be made
//!   again in their order ([`still_made_again`]), by statements whose canonical texts read as them ([`creations_are_read`])
//! - Each table has a name of at most 64 bytes ([`tables_have_names`])
#![tactic(auto)]

mod laws;

// What is its own, and the crates below that it speaks of, passed on: who stands above names them through it.
pub use catalog_show_create;
pub use laws::{creations_are_read, still_made_again, tables_have_names};
