//! The words that the program is called with, read by `clap`.
//!
//! The words are one or two positional words of a command that has no flags; the first word that is `--` does not count.
//!
//! - `words`: [`Word`] and [`asked_word`], what the words ask for
//! - `command`: the command that `clap` reads
//! - `numbers`: the number behind a word
//! - `worked`: lists of words by hand, which the checker computes
//!
//! The definitions stand in specs/: `Words`, which lists of words are accepted, and what each asks for; `Commands`, the command as
//! `clap`'s own definitions see it.
//!
//! It stands on `script_read` for what a number in decimal is; `repl_run` is made of it.
//!
//! # Proved
//! - [`asked_word`] is what the definition gives for each list of words, or wants memory.
//! - The worked examples: each list that is accepted, with `--` in each place, and its neighbours that are not
//!   ([`words_alone`], [`numbers_read`], [`nodes_read`], [`dashes_dropped`]).
//!
//! # Only tested
//! In the crates above: that calls succeed with ample memory.
#![tactic(auto)]

mod command;
mod numbers;
mod words;
mod worked;

pub use words::{Word, asked_word};
pub use worked::{dashes_dropped, nodes_read, numbers_read, words_alone};
