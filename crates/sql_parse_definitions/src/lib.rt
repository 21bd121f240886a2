//! Statements without expressions, read from tokens: tables, heads of stored programs, DROP,
//! TRUNCATE, transactions.
//!
//! Over `sql_parse_tokens`, below the statements of `sql_parse_changes` and `sql_parse_bodies`.
//!
//! - [`tables`]: CREATE TABLE; [`types`]: types of columns, parameters and variables
//! - `name_set`: names to be looked up
//! - [`sessions`]: DROP, TRUNCATE, the statements of transactions, and what SET assigns to
//! - [`heads`]: what stands before the body of a stored program
//!
//! # Proved
//! - Each function that reads gives exactly what its rule reads, or want of memory (`Gives`).
//! - `NameSet::of`, `contains`: a set has just the names that it was made of.
//! - Statements of `sessions` have one level (`level`).
#![tactic(auto)]

pub mod heads;
mod name_set;
pub mod sessions;
pub mod tables;
pub mod types;
