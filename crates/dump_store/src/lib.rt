//! The words that show a store: `dump source` and `dump replica`.
//!
//! The store is opened (`store_open`), which makes its files durable and writes nothing. Then a line is written for each object of
//! the catalog in order of creation, `create` and the canonical text of its CREATE statement, and behind a table one for each row in
//! the order of its keys, `row` and its values. Some lines are gathered at a time, so that the whole text is never held.
//!
//! It stands on `store_open` and `run_streams`; `repl_run` asks it by a word.
//!
//! - `dumping`: [`dump`]
//! - `writing`: the lines of a catalog and its tables, some at a time; `lines`: one line
//! - `worked`: dumps by hand
//!
//! The definitions stand in specs/: `Lines` (the lines of a base), `Ends` (how a dump ends).
//!
//! # Proved
//! - [`dump`]: at Done just the lines of what the disk holds were written, where it tells that; at WriteFault a front of them, at
//!   NoMemory a front or nothing (`run`). Damage is answered exactly for the first place of it, with nothing written. No other status
//!   comes but the fault of that node's disk.
//! - It writes nothing to the disk, also where no store was begun, and a crash leaves at each moment what it might have left before
//!   (`quiet`).
//! - A fault has its cause (`source_fault`, `replica_fault`, `write_fault`), and one of the output is the last call on it
//!   (`last_write`). Where the disk holds something and there was no fault, it is Done or wants memory (`complete`).
//! - dumps by hand ([`dumps_by_hand`])
//!
//! # Only tested
//! In `test_dumps`: that calls succeed with ample memory. How many lines are held at once follows from the code and is not proved.
#![tactic(auto)]

mod dumping;
mod lines;
mod worked;
mod writing;

pub use dumping::dump;
pub use worked::dumps_by_hand;
