//! CREATE FUNCTION, CREATE PROCEDURE and CREATE TRIGGER: what refuses them.
//!
//! - `kinds`: [`Kind`], what kinds of stored programs there are
//! - `scope`: [`Names`], the names of the locals in scope, kept on the stack
//! - `ranks`: how early an error comes in the order of checks, and the types without a size
//! - `bodies`: the walk over a body, which keeps the least rank
//! - `refusing`: [`function_refusal`], [`procedure_refusal`], [`trigger_refusal`]
//!
//! That the walk finds just the error that comes first among all that is met in a body is a law (`proofs/BodyRanking`).
//!
//! # Proved
//! - [`function_refusal`], [`procedure_refusal`] and [`trigger_refusal`] answer just the error of the first check, in their
//!   order, that refuses the statement, and take no memory
//!
//! # Only tested
//! Nothing: no call can fail for another reason.
#![tactic(auto)]

mod bodies;
mod kinds;
mod ranks;
mod refusing;
mod scope;

// What is its own, and the crates below that it speaks of, passed on: who stands above names them through it.
pub use catalog_create_table;
pub use catalog_create_table::catalog_checks;
pub use kinds::Kind;
pub use refusing::{function_refusal, procedure_refusal, trigger_refusal};
pub use scope::Names;
