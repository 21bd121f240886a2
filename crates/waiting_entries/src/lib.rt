//! What an entry of a source leaves to be written.
//!
//! A source carries a command out in memory, and each entry that it puts out leaves what is to be written behind the command: the
//! bytes behind the last log, the head of a log that begins, and the record. Each is made with all the memory that writing it needs,
//! before the entry is committed, so that nothing has to be taken back.
//!
//! This crate stands on the records of `commit_store`; what the sessions of a source share and what writes to its disk stand on it.
//!
//! - `waiting`: [`Waiting`]; `making`: [`made_transaction`] and [`made_definition`]
//! - `specs/Added`: what entries put behind each log (`added`, `added_to`)
//! - `specs/Waiting`: what entries leave (`waiting_of`, `all_waiting`), which can wait (`CanWaitAll`), and what was made of one (`Leaves`)
//! - `specs/Making`: the place that a head speaks of; `proofs/Added`: what entries leave in order is what they append to the logs (`put_all`)
//!
//! # Proved
//! - [`made_transaction`] and [`made_definition`] make just what an entry leaves to be written at a place, where it can be logged, its
//!   record has a body, and a source's store may have it there; or memory is short.
//!
//! # Only tested
//! Nothing here: that calls succeed with ample memory is tested where scripts run.
#![tactic(auto)]

mod making;
mod waiting;

pub use binlog_items;
pub use commit_store::store_model::Head;
pub use making::{Made, made_definition, made_transaction};
pub use waiting::Waiting;
