//! Tests of the crates of values and rows, each call with ample memory and values worked out by hand.
//!
//! They stand in a crate of their own, since a crate with tests of its own is proved once more for them.
//!
//! - `tests::operators`, `tests::functions`: `expr_ops`
//! - `tests::selecting`: `select_rows`
//! - `tests::undoing`: `undo_log`
//! - `tests::storing`: `row_store`
//! - `tests::changes`: `dml_rows`
#![tactic(auto)]

#[cfg(test)]
mod tests;
