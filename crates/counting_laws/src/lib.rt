//! What statements count: laws over the definitions, and no code.
//!
//! Each affected row comes with a change: an inserted, deleted or updated row counts 1, one that ON DUPLICATE KEY UPDATE changes counts 2.
//! So a count of affected rows is at most twice the changes that the statement made, whatever its triggers and functions do besides,
//! and a list of changes that memory holds bounds it. Used by no code yet.
//!
//! - `specs/Counts`: what holds
//! - `laws`: the laws, as functions that do nothing
//!
//! # Proved
//! - Functions and triggers, at each level of nesting, take no change back ([`levels_keep_changes`]).
//! - A row that is deleted or updated counts at most its changes, and so do those that REPLACE deletes; what an INSERT or REPLACE has counted
//!   behind a row is at most what it had counted before and two for each change since ([`rows_count_changes`]).
//! - A whole UPDATE or DELETE counts at most its changes, any statement at most twice these ([`statements_count_changes`]).
#![tactic(auto)]

mod laws;

pub use laws::{levels_keep_changes, rows_count_changes, statements_count_changes};
