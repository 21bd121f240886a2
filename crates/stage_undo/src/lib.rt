//! What an error takes back of a stage: rows and changes stand as they did, and all else stays as it was used.
//!
//! - `taking_back`: [`take_back_at_error`]
//!
//! The definitions stand in specs/: `Back` (a stage whose rows and changes are those of an earlier one).
//!
//! # Proved
//! - Where an error came, [`take_back_at_error`] makes rows and changes those of the stage that led to this one, at its mark, and
//!   leaves counters, seeds, turns and UUIDs as they were used (`back`); where none came, it leaves the stage (`stays`). What led
//!   to the stage before leads to the one after (`leads`). It takes no memory.
//!
//! # Only tested
//! Nothing here: that a statement which fails leaves no row is also tried where scripts run.
#![tactic(auto)]

mod taking_back;

// What is its own, and the crates below that it speaks of, passed on: who stands above names them through it.
pub use exec_state;
pub use exec_state::dml_rows;
pub use taking_back::take_back_at_error;
