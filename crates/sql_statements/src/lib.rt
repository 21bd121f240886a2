//! What a whole statement does: INSERT, REPLACE, UPDATE, DELETE, SELECT and DO.
//!
//! [`perform`] does a statement on a `Stage` of `exec_state`, which contracts see as the scene of the definitions in
//! `sql_meaning`. The table is looked up by its name once, and neither rows nor definitions are copied but for the rows
//! that are stored. One row of a change is `changed_rows`, the value of an expression `sql_evaluation`; what stored
//! functions and triggers do is handed in. Checks of names stand before a statement, and an error's changes are taken
//! back behind it: neither is here.
//!
//! - `performing`: [`perform`], SELECT and DO
//! - `inserting`: INSERT and REPLACE; `columns`: the columns that they name
//! - `updating`, `deleting`: UPDATE and DELETE; `choosing`: the rows that they change
//! - `target`: the table that is changed
//! - `evaluating`: who evaluates and fires triggers for the rows that are changed
//! - `did`: [`Did`], what a statement came to
//!
//! The definitions in specs/ say what the code's values stand for (`Did`), and name the parts of a statement that the
//! code takes one by one (`Changed`), and what is asked of what is handed in (`Served`).
//!
//! # Proved
//! - [`perform`] comes to what the definition says, or to its error's number, with the scene behind it, for every
//!   statement and state; or memory is short (`gives`): VALUES are evaluated list by list, each behind the insert of
//!   the one before, a SELECT is read before its first row is inserted; UPDATE and DELETE change the rows that WHERE
//!   keeps, in the order of ORDER BY, up to LIMIT, all chosen before the first is changed; a forced value is the first
//!   one that is generated, and no other; DO shows nothing
//! - on every way out, want of memory too, the stage leads on from the one before: what was changed can be taken back,
//!   no counter is lower, no turn came back (`leads`)
//!
//! # Only tested
//! That statements run with ample memory, in `test_scripts` and the stored runs of the programs.
#![tactic(auto)]

mod choosing;
mod columns;
mod deleting;
mod did;
mod evaluating;
mod inserting;
mod performing;
mod target;
mod updating;

// What is its own, and the crates below that it speaks of, passed on: who stands above names them through it.
pub use changed_rows;
pub use changed_rows::session_ctx;
pub use did::Did;
pub use exec_state;
pub use performing::perform;
