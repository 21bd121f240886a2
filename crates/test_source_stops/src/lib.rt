//! Tests of the program over the disk of a source, and of the checkpoints of both nodes.
//!
//! They stand in a crate of their own above `program_calls`, since a crate with tests of its own is proved once more for them.
//!
//! - `checkpoints`: CHECKPOINT of both nodes, with a stop at each of its calls and in the openings behind it
//! - `disks`: what a source's files hold, later calls on them, RESTART, files that stand for nothing
//! - `one_commit`: one INSERT, stopped within and behind each of its six calls of the disk
//! - `stopped`: a stop at each call of a source's disk, with what four crashes leave
#![tactic(auto)]

#[cfg(test)]
mod checkpoints;
#[cfg(test)]
mod disks;
#[cfg(test)]
mod one_commit;
#[cfg(test)]
mod stopped;
