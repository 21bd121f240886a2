//! Committed statements run again: a law over the machine of sessions, and no code.
//!
//! An item is a statement that changed rows, with its changes and with all that it began with. Run again with that, one
//! transaction after the other in the order of the entries, each statement gives just its changes.
//!
//! The definitions stand in specs/: `Again` (an item, a transaction and entries that give their changes), `Replaying` (what
//! holds of every run), `Sizes` (the procedures that a run may begin with), `Bodies` (bodies that the parser can give), `Texts`
//! (what the text of an item says), `Followed` (items that do the same at every replica), `Rerun` (all statements run again, as one
//! function), `Worked` (a script).
//!
//! - `laws`: what holds
//! - `worked`: scripts, whose committed statements the checker runs again
//!
//! # Proved
//! - In every run, whatever the commands are, each committed statement that changed rows ends without an error where it runs
//!   again with what it began with, on what the entries before its transaction made and behind the statements before it in its
//!   transaction, and gives just the changes that its entry has; the catalog that it began with is the one that stands there.
//!   So do the statements of each open transaction on the committed base ([`transactions_replay`]). The first value that an item has
//!   is the one that its statement generates, it carries just the parts of the context before it that this reaches, and it began with
//!   no more levels of nesting and turns than a command has, in a CALL too. Its text has at most 1,048,576 bytes and is read as the
//!   statement, a change, a SELECT or a DO that no check of the catalog refuses; so are those of a CALL with their locals closed in. A
//!   run may begin with any base in which the types of procedures have sizes that there are, as those that CREATE PROCEDURE made have,
//!   and in which bodies are such as the parser can give. The texts of its commands are of bytes.
//! - All this holds of a source that opens on what its store has, and behind a RESTART ([`openings_replay`]).
//! - Statements of procedures are among them, with their locals closed in: a condition, a DEFAULT or a SET that changed rows is the DO over
//!   its expressions.
//! - So what the statements of a run make of the base that it began with is the committed base ([`statements_make_the_base`]).
//! - The definitions that commands put out are statements that the parser can give, where their texts are of bytes, and so the bodies
//!   of functions, procedures and triggers are in each catalog that a run comes to, if they are where it began ([`bodies_stay_well`]).
//! - The DO over the expressions of a SET ends as their evaluation does ([`sets_run_as_dos`]), so that a SET whose expressions
//!   changed rows is such a statement.
//! - An item that is not warned does the same at every replica, or is logged by its rows, and so does one whose reasons all come from
//!   RAND() alone; under MIXED and ROW no item is warned ([`unwarned_items_follow`]).
//! - The worked scripts: statements by themselves, in a transaction, behind a savepoint and rolled back; a procedure's condition.
//!
//! Nothing is said here of statements that changed no row.
#![tactic(auto)]

mod laws;
mod worked;

// What is its own, and the crates below that it speaks of, passed on: who stands above names them through it.
pub use independence_laws;
pub use laws::{
    bodies_stay_well, openings_replay, sets_run_as_dos, sizes_stay, statements_make_the_base,
    transactions_replay, unwarned_items_follow,
};
pub use session_model;
pub use worked::{call_run_again, script_run_again};
