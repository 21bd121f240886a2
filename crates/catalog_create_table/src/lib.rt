//! CREATE TABLE: what refuses it, and the definition that it makes.
//!
//! - `keys`, `columns`: what is asked of the keys and the columns, each one equation
//! - `refusing`: [`table_refusal`]
//! - `defining`: [`definition_of`]
//!
//! # Proved
//! - [`table_refusal`] answers just the error of the first check, in their order, that refuses a CREATE TABLE
//! - [`definition_of`] makes just the definition that the rules say, where the columns are few and of types that have a size, as
//!   those are that nothing refuses; or it wants memory
//! - [`refused`] is the error of one check, or of those behind it; [`is_ill_type`] answers whether a VARCHAR has 0 bytes or more than 65,535
#![tactic(auto)]

mod columns;
mod defining;
mod keys;
mod refusing;

// What is its own, and the crates below that it speaks of, passed on: who stands above names them through it.
pub use catalog_checks;
pub use catalog_checks::catalog_objects;
pub use columns::is_ill_type;
pub use defining::definition_of;
pub use refusing::{refused, table_refusal};
