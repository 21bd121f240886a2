//! What a replica does: definitions and no code.
//!
//! A replica has a base, which began empty or with what its store has, and follows the log of its source: it fetches bytes, and carries out the whole groups among
//! them, one after the other, each whole or not at all (`apply_model`). It shows its rows and changes none by itself.
//!
//! The definitions stand in specs/: `Replica` (what it keeps, and where it fetches), `Applying` (APPLY), `Selecting` (a SELECT of the
//! replica), `Replaying` (the replay of a log, whole or from a place on), `Lines` (the lines that show FETCH, APPLY and a replay), `Worked`.
//!
//! - `worked`: small logs, fetched and carried out, which the checker computes
//! - `laws`: what follows from the definitions
//!
//! # Proved
//! - A replica that has nothing replays a log from its place on as the whole log ([`all_is_replayed`]).
//! - The worked log of a table and a row: where a replica fetches next, what it carries out of it, whole, cut and damaged; the replay
//!   of such a log whose row is logged by its text, whole and cut, and from a place within it on.
#![tactic(auto)]

mod laws;
mod worked;

// What is its own, and the crates below that it speaks of, passed on: who stands above names them through it.
pub use laws::all_is_replayed;
pub use log_file_model;
pub use worked::{first_row_applied, first_text_replayed, next_text_replayed};
