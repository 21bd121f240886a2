//! A replica in memory: it fetches the bytes of its source's logs, carries out the whole groups among them, and shows its rows. Each
//! step of it leaves a record, for whoever keeps it on a disk.
//!
//! It stands on `relay_log`, which keeps what was fetched and reads groups of it, and `stmt_apply`, which carries one out, its rows as
//! they are and its texts with what they carry; the replica on its disk stands on it. The definitions are `replica_model`'s.
//!
//! - `replica`: [`ReplicaNode`]: [`ReplicaNode::found`], [`ReplicaNode::number`], [`ReplicaNode::want`], [`ReplicaNode::fetch`] and
//!   [`ReplicaNode::select`]
//! - `applying`: a step of an APPLY, [`ReplicaNode::step`] from [`ReplicaNode::here`] on; `told`: [`Step`], and [`Applied`] and
//!   [`Stopped`], what an APPLY tells
//! - `records`: the record of a transaction, of a definition, and of the end of a log
//! - `lines`: [`fetched_line`] and [`applied_line`], which show FETCH and APPLY
//! - `selecting`: a text of a reader
//!
//! The definitions in specs/ say what contracts see of a node, and what its store has to hold (`Kept`), APPLY step by step (`Steps`), and
//! the records of steps (`Records`).
//!
//! # Proved
//! - [`ReplicaNode::found`] has just the rows, the number and the place that it is given, and has fetched nothing.
//! - [`ReplicaNode::want`] is exactly the definition's place, and [`ReplicaNode::number`] the count of what was carried out.
//! - [`ReplicaNode::tables`] and [`ReplicaNode::objects`] give just the base that it keeps.
//! - [`ReplicaNode::fetch`] puts just the piece behind what was fetched, or memory is short and all is as before.
//! - [`ReplicaNode::step`] goes on just as the definition does (`step`). A definition, a transaction and the end of a log leave a record
//!   which a replica's store can have, and which leads from all that was held before to all that is held behind: the base, the
//!   count and the place, in one (`leaves`). It is made before they stand: where memory is short, all is as before (`err`).
//! - [`ReplicaNode::select`]: the answer to a text is exactly the definition's: what is no statement is refused at its place, then
//!   come the catalog's checks, 1290 for what would write, and the run in a new session without a number, with the replica's
//!   identity and draw. What the replica keeps is as before, also where memory is short.
//! - [`fetched_line`] and [`applied_line`] are exactly the definition's lines, or memory is short.
//!
//! # Only tested
//! Nothing here: that bytes are fetched and groups carried out with ample memory is tested where scripts run.
#![tactic(auto)]

mod applying;
mod lines;
mod records;
mod replica;
mod selecting;
mod told;

// What is its own, and the crates below that it speaks of, passed on: who stands above names them through it.
pub use commit_store;
pub use lines::{applied_line, fetched_line};
pub use relay_log::{Place, Walk};
pub use replica::ReplicaNode;
pub use stmt_apply::answer_making;
pub use told::{Applied, Step, Stopped};
