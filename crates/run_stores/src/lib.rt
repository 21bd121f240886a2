//! Runs between stores that are not empty: definitions and laws, and no code.
//!
//! A run begins where a source's and a replica's stores stand, and leaves both where the next one begins. `durable_runs` says when a replica's
//! store is behind its source's, `run_laws` where a run may begin and where it ends; here is that the one is the other, for a source of one
//! log. Who carries out a script over two disks stands on it.
//!
//! In specs/: `Standing` (what stores have to be, and what they stand for), `Carried` (what a replica has carried out at any moment), `Laws`
//! (what each law says).
//!
//! - `laws`: the laws, each a function that does nothing
//!
//! # Proved
//! - Stores that have nothing let a run begin ([`behind_goes_on`]). Where a replica's store is behind its source's, by entries that it
//!   owes, a run begins there: the replica follows its source, and has carried out none of them. In its end its store is behind again, by
//!   the entries that it has not carried out, where each item of those that it has does the same at every replica: what the next opening
//!   asks is what this run leaves ([`behind_goes_on`]).
//! - Whatever a replica is at a moment of such a run, behind a command or on the way of an APPLY, it has carried out a prefix of the entries
//!   that were owed and of those that its source has put out, and no more transactions than that has committed: its place is behind the
//!   prefix, and where its items do the same at every replica, its base is what it makes of the one that its store had. For all
//!   commands the source has to be sound before each, which who carries them out shows. So each image of each moment of its disk has
//!   carried out a prefix, where it holds what the replica was at some moment; and so has a store that holds what a replay of its source's
//!   log came to ([`replica_has_carried`]).
#![tactic(auto)]

mod laws;

// What is its own, and the crates below that it speaks of, passed on: who stands above names them through it.
pub use durable_runs;
pub use laws::{behind_goes_on, replica_has_carried};
pub use run_laws;
