//! Tests of the program over the disk of a replica.
//!
//! They stand in a crate of their own above `program_calls`, since a crate with tests of its own is proved once more for them.
//!
//! - `events`: logs of another server, made event by event
//! - `replicas`: what a replica's files hold, later calls on them, RESTART, logs that are replayed in parts, files that stand for nothing
//! - `replica_stopped`: a stop at each call of a replica's disk, with what four crashes leave
//! - `turns`: calls one after the other on both disks
#![tactic(auto)]

#[cfg(test)]
mod events;
#[cfg(test)]
mod replica_stopped;
#[cfg(test)]
mod replicas;
#[cfg(test)]
mod turns;
