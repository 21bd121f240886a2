//! A run of a script over a source and a replica: definitions and no code.
//!
//! A script's commands are asked of two nodes, each at a draw of its own environment. What sessions say is a step of the
//! machine of `session_model`, which puts out what was committed; the log of the source is the bytes of that. The replica fetches bytes
//! of the log, carries out the groups among them and shows its rows (`replica_model`).
//!
//! The definitions stand in specs/: `Asked` (what a script asks), `Run` (where both nodes began, what commands lead to, the lines that show it, whose draw each
//! took, and the replica's steps: at which draw each group was carried out, and where it opened again), `Following` (a replica that follows its source: what
//! equals what), `States` (what a replica is at any moment of a run), `Worked`.
//!
//! - `worked`: runs by hand, which the checker computes from their texts to their lines
//!
//! # Proved
//! - The worked runs: a table and a row, logged by its text and as a row, fetched and carried out, to their lines; what the replica
//!   refuses; a RESTART of each node. That the replica follows in every run is proved in `run_laws`.
#![tactic(auto)]

mod worked;

// What is its own, and the crates below that it speaks of, passed on: who stands above names them through it.
pub use replica_model::log_file_model;
pub use worked::{
    a_row_replicated, a_row_replicated_by_rows, counters_begun_anew, replica_counters_begun_anew,
    replica_only_reads, replica_restarted, source_restarted,
};
