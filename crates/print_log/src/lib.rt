//! The word that prints a log: one line for each event of each whole group, up to the end or to what is damaged.
//!
//! One group is read and held at a time (`log_reader`), and its lines are written before the next is read. Lines of events are
//! made by `log_print`; which groups a log has, and the lines of a whole log, is defined in `log_file_model`.
//!
//! - `printing`: [`print`]
//! - `lines`: the lines of a group
//!
//! The definitions stand in specs/: `Ends`, how printing ends.
//!
//! # Proved
//! - [`print`]: at Done the input was read to its end; at Done, LogDamaged and LogForeign just the lines of the log's groups were
//!   written, and the log ends so, at this place; at any other status a front of them (`run`). A fault has its cause and is the last
//!   call on its stream, and nothing is read behind the end.
//!
//! # Only tested
//! In the crates above: that calls succeed with ample memory.
#![tactic(auto)]

mod lines;
mod printing;

pub use printing::print;
