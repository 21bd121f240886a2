//! The log on an input, carried out by a replica on its disk.
//!
//! [`replay`] opens the replica on what its disk has, takes the input as the log of the replica's place, and reads it from there on, group by
//! group; the replica carries out each, in memory and then on its disk, before the next is read. At the end a line tells how many groups
//! these were, and the place behind them.
//!
//! It stands on `log_reader` and `durable_replica`; `repl_run` asks it by a word.
//!
//! - `logs`: [`replay`]
//! - `replaying`: the groups, one after the other
//! - `line`: the line that tells how many were carried out
//!
//! In specs/: `Ends` (how a replay ends), `Keeping` and `Replaying` (a replica on its way through a log). What a replay of a log
//! comes to is `replica_model`'s definition.
//!
//! # Proved
//! - [`replay`] ends by its status (`run`). At Done the input is a log that ends behind its last group, and was read to its end; at
//!   LogDamaged and LogForeign it is a log that ends so, from the replica's place on: damaged at 0 where it does not begin with the magic,
//!   and at its end where it does not reach that place. All its groups were carried out, at one draw, which the report tells with the
//!   replica's identity. At Differs the first group that is not carried out stops so, and those before it were carried out. In these cases
//!   just the line of these groups was written; at WriteFault a front of it; else nothing. No other status comes.
//! - In these cases the disk holds what the groups make, and the marks name each that was carried out once, in order, up to the number
//!   behind the last. At whatever status, each image of each moment of the disk, inside a write too, holds what the first of the groups make
//!   of what the disk held, and no less than the marks until then name, of which none says more calls than the disk has had. Of a disk that
//!   tells nothing no image is claimed.
//! - Where the disk's files stood for nothing the replay ends with ReplicaDamaged and their first place of damage, and nothing was read; it
//!   ends so nowhere else where the disk tells its calls.
//! - A fault comes only where the stream's or the disk's count of faults rose, or stands at its last value (`read_fault`, `write_fault`,
//!   `disk_fault`); one of a stream is the last call on it (`last_read`, `last_write`, `reads_once`).
//! - The report's identity and draw are the environment's at any status (`replica`), it tells nothing of a source (`src_identity`,
//!   `src_draws`), and at any status but NoMemory all that was drawn is told (`drawn`).
//!
//! # Only tested
//! In the tests of the program: that calls succeed with ample memory.
#![tactic(auto)]

mod line;
mod logs;
mod replaying;

pub use logs::replay;
