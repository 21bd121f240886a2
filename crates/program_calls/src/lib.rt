//! Calls of the program over disks that are handed in, for tests.
//!
//! [`over`] is one call: its words and its input, the draws of both nodes, and two disks, of which some may fail. What it comes to is
//! an [`Ended`]; [`files_of`] is what it leaves of a disk, and [`again`] the disk that comes up with all of that.
//!
//! - `calls`: [`Call`], [`asked`], [`over`], [`comes_to`]; [`words_of`], the words of a command line
//! - `environments`: the environments of both nodes ([`source_env`], [`replica_env`]) and what they draw ([`draw`])
//! - `left`: what is left of a disk, what the dump of that shows ([`dumped`], [`dumped_replica`]), and what marks name
//! - `shop`: a shop ([`SHOP`]), and what stands in its tables behind each of its transactions ([`dump_at`])
//!
//! It stands on `crash_images` and `repl_run`; the tests of the program that keep something between their calls stand on it.
//!
//! # Proved
//! - [`again`] gives a disk that is settled: nothing has been written to it yet, so that [`over`] may be called with it. What a call comes to
//!   is left out here: tests say it.
#![tactic(auto)]

mod calls;
mod environments;
mod left;
mod shop;

pub use calls::{Call, Ended, asked, comes_to, over, words_of};
pub use environments::{REPLICA_MOMENT, SOURCE_MOMENT, bytes, draw, replica_env, source_env};
pub use left::{FILES, again, dumped, dumped_replica, files_of, named, named_applied};
pub use repl_run;
pub use run_streams;
pub use shop::{SHOP, answered, dump_at};
