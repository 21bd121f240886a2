//! Which statements need the writer's lock, why a statement is unsafe to log by its text, and what an item carries.
//!
//! A statement needs the lock where it changes rows, defines or takes away an object, or may call a function that changes rows.
//! [`writes`] says which. [`reasons`] says why a statement may do something else when a replica runs its text, by all that it
//! reaches: itself, the functions that it calls, the triggers of the events that it causes, and all that these reach. Neither
//! takes memory. [`carried`] gives what an item of a statement carries of the context before it.
//!
//! - `writing`: [`writes`]
//! - `unsafety`: [`Reasons`]
//! - `explaining`: [`reasons`]
//! - `carrying`: [`carried`]
//! - `reach`: what holds of all that is reached, once all programs were found
//! - `reaching`: programs that are reached, found one after the other, until none is left, or for the lock until a function with
//!   a change in it is among them
//! - `found`: what was found so far, as a list on the stack, and whether an object is reached from it
//!
//! What is asked of the nodes of a statement, and the walk that asks it, stand in `node_walk`, the names of user variables in
//! `statement_names`. What the answers are, is defined in `sql_reach`, where programs are reached by rounds: in each round all
//! objects of the catalog that the statement or the programs of the round before name. In specs/ stand `Reaching` (what is
//! reached from what was found), `Unsafe` (reasons as they are kept) and `Places`.
//!
//! An object is put on the list where it is new, so that there are no more of them than the catalog has objects, however
//! functions call each other. Each is reached within as many rounds as were found before it, and where no object is left to
//! find, no round has one that was not found; so the list has just what the last round has. The stack is one call deeper for each
//! program that was found. The time is at most the number of programs that are reached, times the number of functions and triggers,
//! times what the statement and these programs have of nodes; for a statement without a call and without a change nothing is
//! looked for. [`reasons`] then asks nine things of all these nodes, [`carried`] three.
//!
//! # Proved
//! - [`writes`] is the definition's answer for every statement and every catalog.
//! - [`reasons`] are exactly the definition's, for every statement and every catalog; [`Reasons::is_empty`] where there is none.
//! - [`carried`] is exactly what the definition says, for every statement, catalog and context, or memory is short.
//!
//! # Only tested
//! That [`carried`] succeeds with ample memory, in `test_reach`.
#![tactic(auto)]

mod carrying;
mod explaining;
mod found;
mod reach;
mod reaching;
mod unsafety;
mod writing;

// What is its own, and the crates below that it speaks of, passed on: who stands above names them through it.
pub use carrying::carried;
pub use explaining::reasons;
pub use session_ctx;
pub use statement_names;
pub use unsafety::Reasons;
pub use writing::writes;
