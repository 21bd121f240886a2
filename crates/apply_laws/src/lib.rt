//! What a source commits, its replica carries out: laws over the entries of sessions and over appliers, and no code.
//!
//! An entry is logged as a group. The group is carried out by an applier on the base before the entry, and what stands there
//! afterwards is just the base behind the entry. The rows that were logged are put where they were put, and a definition is made
//! as it was made. A text that was logged is run again, by a node with another identity, draw and counters, from what its item
//! carries alone; it makes the same changes, where what it does follows from its tables and from what it carries. So a replica
//! follows its source entry by entry.
//!
//! - `specs/Following`: which entries a replica can carry out as their source did, and what holds of bases
//! - `specs/Laws`: what is proved of bases and of entries
//! - `laws`: the laws, as functions that do nothing
//!
//! # Proved
//! - In each base that entries make, the tables are those of the catalog, no two have the same name, and they hold what tables
//!   have to hold ([`bases_hold`]).
//! - An entry of a run can be carried out so where each of its items is logged by its rows or is followed, since its statements give
//!   its changes again and its texts say what they are ([`entries_of_runs_follow`]).
//! - A transaction, whose items are logged by their rows and by their texts in any order, or a definition, that can be carried
//!   out so and can be logged, read as its group and carried out on the base before it, leaves just the base behind it, whoever
//!   carries it out, whatever its draw and its counters; it never stops there ([`entry_is_carried`]). A text there has all that its item
//!   carried, with each user variable, id and seed, and runs with as much nesting and as many turns as at its source or more.
//!
//! The counters that are left are not those of the source: rows move them as far as their values reach, and a text from where they
//! stood. Nothing that follows asks them, as a followed text inserts into a table with AUTO_INCREMENT only by itself, with its first
//! generated value forced. Nothing is said of a text that is not followed.
#![tactic(auto)]

mod laws;

// What is its own, and the crates below that it speaks of, passed on: who stands above names them through it.
pub use apply_model::{binlog_sizes, session_ctx};
pub use laws::{bases_hold, entries_of_runs_follow, entry_is_carried};
pub use log_entry_laws;
pub use log_entry_laws::log_model;
pub use session_replays;
pub use session_replays::session_model;
