//! What a statement reaches and what follows from it: definitions with worked examples, and no code.
//!
//! The definitions stand in specs/: `Reach` (functions and triggers that a statement reaches; which statements write),
//! `Reasons` (for which a statement is unsafe to log by its text), `Carrying` (what an item carries of its context), `Closing`
//! (a statement of a procedure with its locals closed in), `Defining` (what definitions do to counters).
//!
//! - `laws`: what follows from the definitions
//! - `worked`: statements by hand, which the checker computes
//!
//! # Proved
//! - What the parser can give, it can give with locals closed in, where each holds what a literal can say; and closing
//!   leaves every depth (`closed_is_well`).
//! - The worked examples.
#![tactic(auto)]

mod laws;
mod worked;

// What is its own, and the crates below that it speaks of, passed on: who stands above names them through it.
pub use laws::closed_is_well;
pub use sql_meaning;
pub use sql_meaning::log_entries;
pub use worked::{carried_parts, closed_statements, unsafe_statements, writing_statements};
