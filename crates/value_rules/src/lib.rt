//! What SQL makes of values: definitions with their laws, and no code.
//!
//! The definitions stand in specs/, for the crates that compute them and for those that say what
//! statements mean: `Operators`, `Functions` (built-in ones), `Random` (RAND()), `Moments` and
//! `Identifiers` (as texts), `Selecting` (ORDER BY, LIMIT, aggregates).
//!
//! - `laws`: what follows from the definitions, for all values
//! - `worked`: values by hand, which the checker computes
//!
//! # Proved
//! - comparisons test the order of keys (`comparisons_follow_keys`), `<=>` is 1 just for equal values
//!   (`null_safe_equality_is_equality`), and what the left operand of AND or OR decides is the value
//!   (`left_operands_decide`)
//! - ORDER BY sorts: the same rows, none before one that it comes behind, ties as they came (`order_by_sorts`); MIN and
//!   MAX are among the values, and none is below or above (`extremes_are_best`)
//! - the worked values of operators, built-in functions, RAND(), moments, UUIDs, orders and aggregates
#![tactic(auto)]

mod laws;
mod worked;

pub use laws::{
    comparisons_follow_keys, extremes_are_best, left_operands_decide,
    null_safe_equality_is_equality, order_by_sorts,
};
pub use worked::{
    aggregates_of_values, built_in_functions, comparisons_and_conditions, draws, moments,
    rows_in_order, sums_and_quotients, uuids,
};
