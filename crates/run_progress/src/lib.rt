//! How far a program has come with what it reads, told on standard error where that was asked for.
//!
//! Reading a log of gigabytes, or opening a large store, takes its time. Who sets the environment variable `REPL_PROGRESS` is told once a
//! second how many bytes a stream or a disk has given so far. What is told is part of no claim: both wrappers pass on each call, and give
//! what they were given.
//!
//! This crate stands on the disks of `disk_model`; the program's `main` puts it round the edges that it hands on.
//!
//! - `watch`: [`Watch`], which counts and tells
//! - `reader`: [`WatchedReader`], a stream; `disk`: [`WatchedDisk`], a disk
//!
//! # Proved
//! - A stream or a disk that is watched is in each clause what it is without: `remaining`, `told`, `faults` are those of the inner one.
//!
//! # Only tested
//! Nothing in the gate: what is told depends on the clock.
#![tactic(auto)]

mod disk;
mod reader;
mod watch;

pub use disk::WatchedDisk;
pub use reader::WatchedReader;
pub use watch::Watch;
