//! Tables as lists of rows, and what changes make of them: definitions with their laws, and no code.
//!
//! The definitions stand in specs/, for the crates that keep tables and for those that say what
//! statements and logs mean: `Tables` (a table, and what holds of its rows), `Changes` (a change
//! applied to tables), `Stored` (rows by their keys; what storing a row comes to; changes taken back),
//! `Stores` (tables with the keys that are kept and the rows that are there to stay, and tables by their
//! places), `Leads` (what a call did to what is stored and to the changes noted).
//!
//! - `laws`: what follows from the definitions, for all changes and tables
//! - `worked`: keys in the way and changes by hand, which the checker computes
//!
//! # Proved
//! - a change that can be made to tables that hold what tables have to hold leaves such tables, and its
//!   inverse takes it back (`changes_turn_back`); so do the inverses of several, the last one first
//!   (`all_turn_back`)
//! - a key is in the way just where a row has a key in common with one that is there
//!   (`keys_in_way_collide`), and storing a row that fits is refused just where its change cannot be
//!   made (`refusals_are_exact`); the row in the way is the first that has the first key in the way
//!   (`rows_in_way_have_keys`)
//! - no change of rows changes a definition (`definitions_stay`)
//! - what calls did to what is stored, and noted, composes (`changes_lead_on`), and so does that they left
//!   the rows that are there to stay, and no less room; what could be taken back before can be after, and
//!   so can what was noted since (`changes_can_be_taken_back`); taking back to a mark leads back to it
//!   (`taking_back_leads_back`)
//! - the table at the place of a name is the table of the name, and places stay where definitions do
//!   (`places_are_of_names`)
//! - the worked tables
#![tactic(auto)]

mod laws;
mod worked;

pub use laws::{
    all_turn_back, changes_can_be_taken_back, changes_lead_on, changes_turn_back, definitions_stay,
    keys_in_way_collide, places_are_of_names, refusals_are_exact, rows_in_way_have_keys,
    taking_back_leads_back,
};
pub use worked::{changes_of_pens, keys_in_the_way};
