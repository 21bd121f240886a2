//! What holds of every run over a source and a replica: laws and no code.
//!
//! A run is that of `run_model`. Each law is over its definitions alone: over any commands, any draws, any cut of the log by FETCH, and
//! whoever the nodes are.
//!
//! - `laws`: the laws, each a function that does nothing
//!
//! In specs/: `Laws` (what each says), `Restarts` (what is said of a RESTART), `Openings` (where a run may begin and where it ends), `Replays` (what is said of a whole log and its replay), `Fronts` (what is said of a log that is cut). It stands on the laws of sessions
//! (`session_model`, `session_replays`), of logged entries (`log_entry_laws`, `log_file_model`) and of appliers (`apply_laws`); `repl_run`
//! stands on it.
//!
//! # Proved
//! - A replica follows its source behind each command of a run, and behind each step of an APPLY (`replica_follows`), wherever both began: with nothing, or with what
//!   each had, where the replica owed some entries. It has carried out the first of these and of those that the source has committed
//!   since, each once and in their order, and its place is behind the last of them in the source's log, of which it has
//!   what follows, as far as it has fetched. Its base and counters are what the definition of an applier makes of the groups of these
//!   entries, each at the draw of the APPLY that carried it out, whatever texts are among them. Where each item of them does the same
//!   at every replica, its base is what they make of the one that it began with.
//! - So it is behind each RESTART of the one and the other: its counters begin anew, what it had fetched is gone, and base, number and
//!   place stay (`replica_follows`). A source's RESTART leaves all that was committed, and puts out nothing, since its log has begun;
//!   its sessions begin anew, also with the format of a new one (`restarts_keep`).
//! - Where a replica is behind its source by what stands in the log from its place on, both open there, and it follows; and a run that
//!   began so ends where the next one may, where each item that the replica has carried out does the same at every replica: it owes what
//!   it has not (`runs_open`).
//! - No APPLY stops where each item that it comes to does the same at every replica: those of the entries that were carried out before
//!   and by it, and of the next one. Whatever is logged, one stops at nothing but an item that has no effect at the replica
//!   (`replica_follows`). Of a log that its source wrote, what is not whole is left for the next APPLY.
//! - Where each item does the same at every replica, one that has carried out all entries has the source's committed base: the same
//!   objects in the same order, with equal rows (`all_carried_is_equal`).
//! - The log of a source, read from its bytes alone, is its start and then just the groups of the entries (`log_is_its_entries`).
//!   Where each item does the same at every replica, who has nothing and carries out the whole log goes through to its end and has the
//!   source's committed base (`replay_is_equal`).
//! - A source's log, cut anywhere behind the place of a replica that is behind the source, is read from there on as the groups of the first
//!   entries that it owes, and then ends, or is damaged where a part of a group begins; of a whole log as the groups of all, and there it
//!   ends (`fronts_are_read`). Behind each of these groups the replica has carried out a prefix of what it owes, and where all of it does the
//!   same at every replica, no item stops it, and of a whole log it comes to the source's base (`replays_carry`).
//! - An item does the same at every replica where it is logged by its rows, or where it is not warned, or by RAND() alone
//!   (`apply_laws::session_replays::unwarned_items_follow`). So in a run each does in which no session is under STATEMENT as it says something
//!   (`others_follow`), and what is warned is what the answers show as warned (`warned_as_shown`).
#![tactic(auto)]

mod laws;

// What is its own, and the crates below that it speaks of, passed on: who stands above names them through it.
pub use apply_laws::{log_entry_laws, log_model, session_model, session_replays};
pub use laws::{
    all_carried_is_equal, fronts_are_read, log_is_its_entries, others_follow, replay_is_equal,
    replays_carry, replica_follows, restarts_keep, runs_open, warned_as_shown,
};
