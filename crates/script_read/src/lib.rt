//! A script as its commands.
//!
//! A script is a list of commands `actor: text //`. [`split`] gives all of them, each with the place of its first byte and what
//! it asks, or the first byte where the script has none. No text is copied: a command borrows its text from the script, so that
//! the script has to stay while its commands are carried out.
//!
//! - `script`: [`split`], and where a command ends
//! - `command`: [`Command`] and [`What`], actors and their texts
//! - `bytes`: white space, words and numbers
//! - `worked`: scripts by hand, which the checker computes from their bytes
//!
//! The definitions stand in specs/: `Bytes`, `Commands` (what a command says), `Script` (where commands begin and end),
//! `Split` (what an answer says).
//!
//! # Proved
//! - [`split`] gives exactly the commands of the script, with their places, or exactly the first bad byte, or wants memory
//!   (`gives`). A command takes five bytes at the least (`count`), its text is at most five bytes shorter than 1 MiB (`texts`),
//!   a session has a number from 1 to 99 (`sessions`), and only a script of at most 64 MiB is split (`limit`).
//! - What is longer than a limit is bad: a script at its limit, a command at its first byte ([`limits_kept`]).
//! - The worked examples: actors and words in either case, numbers at their limits and past them, `//` within texts and before
//!   each kind of line's end, semicolons, first words, places.
//!
//! # Only tested
//! Nothing. That its time grows with the script's length follows from its form and is not proved: every byte is looked at by
//! the search for a colon, the search for an end and the trims, each once.
#![tactic(auto)]

mod bytes;
mod command;
mod script;
mod worked;

pub use command::{Command, What};
pub use script::{COMMAND_LIMIT, SCRIPT_LIMIT, SplitRefusal, split};
pub use worked::{
    actors_read, applies_read, ends_found, fetches_read, limits_kept, places_found, replica_asked,
    selects_read, source_asked, texts_trimmed,
};
