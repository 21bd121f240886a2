//! What SELECT makes of the rows that WHERE keeps: their order, a part of them, and aggregates.
//!
//! The definitions stand in `value_rules`. Evaluating WHERE, the ORDER BY items and the arguments of
//! aggregates is the part of the crate that runs statements.
//!
//! - `keyed`: [`Keyed`], a row with what it is ordered by
//! - `ordering`: [`order`], ORDER BY, and [`compare`], how two rows stand by their items
//! - `limiting`: [`limit`], LIMIT and OFFSET
//! - `aggregates`: [`aggregate`], COUNT, SUM, MIN and MAX
//!
//! # Proved
//! - [`order`] gives exactly the rows in the order of the definition, or wants memory; a law of `value_rules`
//!   says that this sorts them, ties as they came
//! - [`limit`] gives exactly the part that LIMIT and OFFSET leave, without memory
//! - [`aggregate`] gives exactly the value or the error number of the definition, or wants memory
//!
//! # Only tested
//! That calls succeed with ample memory, in `test_rows`.
#![tactic(auto)]

mod aggregates;
mod keyed;
mod limiting;
mod ordering;

pub use aggregates::aggregate;
pub use keyed::Keyed;
pub use limiting::limit;
pub use ordering::{compare, order};
