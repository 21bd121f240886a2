//! The part in memory of a source with a disk: sessions run statements on it, and what they commit waits to be written.
//!
//! [`SourceNode`] stands for a run of the machine of `session_model`: its sessions with their transactions, the rows
//! with the open changes, the writer's lock, how many transactions were committed, and where the next entry comes. Of an item it
//! keeps what the log has of it, and the machine that knows just that is the machine of whole items, cut down. A command calls no
//! disk: what its entries are to write waits in a queue, which whoever has the disk takes out behind the command and writes. So
//! between commands nothing waits.
//!
//! - `source`: [`SourceNode`], with [`SourceNode::found`], [`SourceNode::exec`] and [`SourceNode::take_waiting`]
//! - `command`: a command of a session; `working`: a session at its command
//! - `statements`: which command a statement is; `calling`, `definitions`, `plain`: commands, one function each
//! - `writing`: what refuses statements before they run
//!
//! What its sessions share, the queue among it, stands in `session_shared`, how one statement runs on it, also of a procedure, in
//! `session_statement`, SET in `session_set`, BEGIN, COMMIT, ROLLBACK and savepoints in `session_transaction`; what an entry leaves
//! to be written is made in `waiting_entries`. The definitions in specs/ say for which runs a node stands, and what it is behind a
//! step (`Standing`), and what commands leave by their parts (`Other`).
//!
//! # Proved
//! - [`SourceNode::exec`]: for each run of the machine for which the node stands, the answer and the state behind it are those of
//!   the machine's step, and just what the step's entries leave waits to be written, each of which can be logged where it comes, has a
//!   record with a body, and is within what a store may have; who the node is stays. So also for CREATE PROCEDURE and CALL: each
//!   statement of a procedure is a step of its session. Where memory is short nothing is said.
//! - [`SourceNode::found`] is the machine's first state on what a store has, and nothing waits; [`SourceNode::identity`] is who
//!   it is, and [`SourceNode::place`] says how many transactions were committed and where the next entry comes;
//!   [`SourceNode::tables`] and [`SourceNode::objects`] give what is kept of the last commit, also beside open changes;
//!   [`SourceNode::take_waiting`] gives just what waits, leaves none, and changes nothing else.
//!
//! # Only tested
//! Nothing here: that calls succeed with ample memory is tested where scripts run.
#![tactic(auto)]

mod calling;
mod command;
mod definitions;
mod plain;
mod source;
mod statements;
mod working;
mod writing;

// What is its own, and the crates below that it speaks of, passed on: who stands above names them through it.
pub use session_transaction::{answer_making, prog_work, session_shared};
pub use source::SourceNode;
