//! What sessions do: definitions with their laws, and no code.
//!
//! A source is a machine that a command of a session moves on: it gives an answer, and puts out what was committed. It is
//! generic in what is known of an item, so that what a node keeps (what the log has of an item) and what a whole run knows
//! (all that an item began with) are the same machine; one law joins them.
//!
//! The definitions stand in specs/: `Formats` (how statements are logged), `Sessions` (what is kept), `Answers`, `Running` (the writer's lock, transactions and one
//! statement's run), `Counting` (ROW_COUNT), `Commands` (one definition a command), `Calling` (CALL: what a procedure asks, as steps of its
//! session), `Machine` (a step, and the whole run), `Holding` (what holds of every run), `Openings` (a source that opens on what its store
//! has, and RESTART).
//!
//! - `format`: how statements are logged
//! - `laws`: what follows from the definitions
//! - `worked`: scripts by hand, which the checker computes from their texts to their answers
//!
//! # Proved
//! - What a node keeps of a step on whole items is its step on what it keeps of them ([`steps_are_kept`]).
//! - In every run the committed base is what the entries that were put out make of the base that it began with, and the log
//!   ends where their bytes end; the open changes are those of the items of the session that has the lock, and no other session
//!   has an item; a savepoint stands at the changes of its items, so that ROLLBACK TO cuts rows and items at one place; an item
//!   changed something and has the definitions of the tables that it changed, and no transaction has more bytes than one may
//!   have ([`runs_hold`]).
//! - This holds of a source that opens on what its store has, and behind a RESTART ([`openings_hold`]).
//! - It holds behind a CALL, too, whatever its procedure does and wherever an error ends it: each change, SELECT, DO and evaluation of a
//!   procedure is one statement of its session, which the catalog's checks and the lock let through or refuse, and is logged by
//!   itself, with its locals closed in; outside a transaction it is committed by itself, and stays where the CALL ends with an error
//!   ([`runs_hold`], [`calls_committed`]).
//! - What a step commits is logged in the format of its session: each item by its text under STATEMENT, by its rows under ROW, and under
//!   MIXED by its text exactly where no reason makes that unsafe
//!   ([`formats_decide`]).
//! - A statement that is refused leaves all tables, the open transaction and what was committed, and assigns no variable: also a
//!   SET whose values are refused behind their evaluation. A definition leaves what the commit before it does. In a CALL the
//!   statement that is refused leaves all where it stands, and what those before it did stays ([`errors_leave_all`]).
//! - A session beside another one's open changes reads the rows that were last committed ([`readers_see_committed`]).
//! - The worked scripts: a writer and a reader, savepoints, variables, formats, a SET taken back, procedures; what MIXED logs by rows, and
//!   which answers are warned; where the log ends behind a text and behind a row.
#![tactic(auto)]

mod format;
mod laws;
mod worked;

// What is its own, and the crates below that it speaks of, passed on: who stands above names them through it.
pub use binlog_sizes::log_entries;
pub use format::Format;
pub use laws::{
    errors_leave_all, formats_decide, openings_hold, readers_see_committed, runs_hold,
    steps_are_kept,
};
pub use session_ctx;
pub use text_answers;
pub use worked::{
    calls_committed, calls_warned, first_refusal_counts, formats_set, locals_closed_in, log_grows,
    logs_full, mixed_chooses, procedures_called, refused_sets_taken_back, savepoints_kept,
    unsafe_texts_warned, variables_set, writers_and_readers,
};
