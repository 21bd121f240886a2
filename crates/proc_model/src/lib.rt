//! What procedures do: definitions with worked examples, and no code.
//!
//! A CALL is a list of statements that a session runs, of expressions that it evaluates, and of user variables that it
//! assigns. Who carries them out is the procedure's runner. The definitions stand in specs/: `Talk` (what a procedure asks of
//! its runner and what becomes of what it is told; how that leads a runner from state to state), `Procedures` (the statements of
//! procedures, CALL and its answer: `called`, `IsCall`), `Closing` (what refuses to close a statement over locals).
//!
//! - `laws`: what follows of talks
//! - `worked`: procedures by hand, which the checker computes
//!
//! # Proved
//! - What leads a runner is a list of things asked and told, which led it one after the other, and such a list leads it; a
//!   runner that does what a function says comes to the end and the state of the function ([`talks_are_lists`], [`functions_bring_talks`]).
//! - The worked examples: the answer of each CALL and what it asked.
#![tactic(auto)]

mod laws;
mod worked;

pub use laws::{Ruled, functions_bring_talks, talks_are_lists};
