//! The outside of the program as traits, so that nothing above reaches the system by itself.
//!
//! A [`Source`] is a stream of bytes that is read, a [`Sink`] one that is written, and an [`Env`]
//! is what a node knows of its place in the world: its identity, the clock and random words. A
//! stream has a count of faults that never falls, and answers [`Failed`] only in a call in which
//! that count rose, so that code over any stream can't make up a fault. What a stream has left or
//! holds, and whose an environment is and what it hands out, is told by the objects in memory, and
//! by no other: contracts on content hold where it is told.
//!
//! - `failed`: [`Failed`]
//! - `identity`: [`Identity`] and [`Draw`]
//! - `source`, `sink`, `env`: the traits
//! - `calls`: which calls of an object in memory fail
//! - `memory`: [`MemSource`], [`MemSink`] and [`MemEnv`], for tests and examples
//! - `standard`: [`StdSource`] and [`StdSink`], over the runtime's readers and writers
//! - `host`: [`HostEnv`], over its clock and random source
//! - `laws`: what follows of counts and of draws
//!
//! # Proved
//! - The clauses of the traits, of each object here: a read takes bytes from the front of what is left,
//!   a write adds the front of its piece, and a call that fails does neither; a call answers
//!   [`Failed`] only where its count of faults rose, or stands at its last value.
//! - [`MemSource`], [`MemSink`]: which calls fail and how many bytes a call moves; a write may fail
//!   for want of memory too. [`MemEnv`] hands out its draws in order, the last one again and again.
//! - [`StdSource`], [`StdSink`]: each error of the reader or the writer is a fault. [`HostEnv`]: the
//!   identity is the one that was handed in; both times of a draw are one, its seeds below
//!   [`SEED_BOUND`].
//! - Laws of counts, reads and draws: [`counts_rise`], [`reads_join`], [`draws_come_in_order`].
//!
//! # Only tested
//! In `test_values`: that calls succeed with ample memory; the edges over the system, once each. That a
//! clock is right or random words are random is neither proved nor tested.
#![tactic(auto)]

mod calls;
mod env;
mod failed;
mod host;
mod identity;
mod laws;
mod memory;
mod sink;
mod source;
mod standard;

pub use env::Env;
pub use failed::Failed;
pub use host::{HostEnv, SEED_BOUND};
pub use identity::{Draw, Identity};
pub use laws::{counts_rise, draws_come_in_order, reads_join};
pub use memory::{MemEnv, MemSink, MemSource};
pub use sink::Sink;
pub use source::Source;
pub use standard::{StdSink, StdSource};
