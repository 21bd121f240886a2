//! The CREATE statements of a catalog's objects.
//!
//! - `tables`: the CREATE TABLE that a table's definition is written as
//! - `statements`: [`object_statement`], [`statement_at`]
//! - `laws`: what follows from the definitions
//!
//! In specs/ stands `Stated`: the statement of an object, and for which objects a catalog has room.
//!
//! # Proved
//! - [`object_statement`] gives a statement that is seen as the one of an object, and [`statement_at`] that of the object at a
//!   place in order of creation, None just past the last; or they want memory
//! - the statement of an object is the very one by which it was made ([`statement_is_that_of_making`]); by it the object is made
//!   again on any catalog that has room for it, and stands behind the others then ([`object_is_made_by_its_statement`])
//!
//! # Only tested
//! That calls succeed with ample memory, in `test_reach`.
#![tactic(auto)]

mod laws;
mod statements;
mod tables;

// What is its own, and the crates below that it speaks of, passed on: who stands above names them through it.
pub use catalog_objects;
pub use laws::{object_is_made_by_its_statement, statement_is_that_of_making};
pub use statements::{object_statement, statement_at};
