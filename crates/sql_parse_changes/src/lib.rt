//! Statements that stand in stored programs and outside, read from tokens.
//!
//! Over `sql_parse_expressions` and `sql_parse_definitions`, below `sql_parse_bodies`.
//!
//! - [`changes`]: INSERT, REPLACE, UPDATE and DELETE
//! - `assignments`: SET, DO and CALL
//! - [`common`]: all of them with SELECT, DROP, TRUNCATE and transactions
//!
//! # Proved
//! - Each function that reads: what its rule reads is kept with the same tokens left, or the same
//!   fault comes, or want of memory (`Keeps`).
#![tactic(auto)]

mod assignments;
pub mod changes;
pub mod common;
