//! A script that is made: so many changes of one table by session `s1`, which the replica fetches and applies.
//!
//! - `changes`: the text of a change
//! - `lines`: [`put_first`], [`put_turn`] and [`put_last`], the lines of the script, change by change
//! - `whole`: [`gen_`], the whole script
//! - `laws`: [`commands_are_made`], what the script says
//! - `worked`: scripts by hand, which the checker computes
//!
//! The definitions stand in specs/: `Script` (its bytes), `Commands` (its commands), `Worked`.
//!
//! It stands on `script_read`, which says what a script says; `gen_script` writes it.
//!
//! # Proved
//! - [`gen_`] is the script with this number of changes, byte for byte, or wants memory; so it is the same each time.
//! - Law: the script splits into exactly the commands that are made ([`commands_are_made`]).
//! - The worked examples: the script of four changes; behind each hundredth change the replica's commands stand.
//!
//! # Only tested
//! In the crates above: that calls succeed with ample memory.
#![tactic(auto)]

mod changes;
mod laws;
mod lines;
mod whole;
mod worked;

pub use laws::commands_are_made;
pub use lines::{put_first, put_last, put_turn};
pub use whole::gen_;
pub use worked::{four_changes, hundredth_change};
