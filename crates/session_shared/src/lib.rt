//! What all sessions of a source share, with the log, and what a session keeps.
//!
//! - `desk`: [`Desk`], what all sessions share; `logged`: [`Logged`], where entries are logged, and what waits to be written
//! - `session`, `saves`: [`Session`] and [`Open`], what a session keeps: its variables, how its statements are logged, its
//!   open transaction with its items; savepoints
//! - `formats`: [`how_logged`], whether what a statement changed is logged by its rows, and whether the statement is warned
//! - `command`: [`Command`], what a command has round it
//! - `checking`: what refuses a statement before it runs: [`checked`], [`lock_check`], [`lock_refusal`], [`step_check`];
//!   [`MOST_TEXT`] of `binlog_sizes` says how long a command may be
//!
//! The definitions in specs/ say what the code's parts stand for (`Desk`), what is logged (`Logging`), and what an item more
//! and going back to a savepoint make of a transaction (`Saving`).
//!
//! # Proved
//! - [`Desk`] and [`Open`] are the machine's: each of their calls says what is shared, or what the transaction has, behind it.
//! - [`Desk::commit`] logs just the entry of its transaction: what it leaves to be written waits behind what waited before, it can be
//!   logged there, and its record has a body; or memory is short, and then the desk is as before. No other call of [`Desk`] logs
//!   anything. An open transaction never has too many bytes. [`Open::save`] leaves its transaction as before where memory is short.
//! - [`how_logged`] says what the machine says of a statement's reasons in each format, exactly.
//! - [`checked`], [`lock_check`] and [`step_check`] refuse just what the machine's checks refuse, with the same error;
//!   [`lock_refusal`] is the machine's answer to a statement that the writer's lock refuses, and none where it may run.
//!
//! # Only tested
//! Nothing here: that calls succeed with ample memory is tested where scripts run.
#![tactic(auto)]

mod checking;
mod command;
mod desk;
mod formats;
mod logged;
mod saves;
mod session;

// What is its own, and the crates below that it speaks of, passed on: who stands above names them through it.
pub use checking::{Refusal, checked, lock_check, lock_refusal, refused_as, step_check};
pub use command::Command;
pub use desk::Desk;
pub use formats::{HowLogged, how_logged};
pub use logged::Logged;
pub use saves::Save;
pub use session::{Open, Session};
pub use session_model;
pub use waiting_entries;
pub use waiting_entries::binlog_items;
pub use waiting_entries::binlog_items::binlog_sizes::MOST_TEXT;
