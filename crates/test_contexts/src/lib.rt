//! Tests of sessions' contexts, local variables and counters, each call with ample memory and values worked out by hand.
//!
//! They stand in a crate of their own, since a crate with tests of its own is proved once more for them.
//!
//! - `tests::sessions`: `session_ctx`, and the user variables of `log_entries`
//! - `tests::locals`: `sql_locals`
//! - `tests::counting`: `auto_inc`
#![tactic(auto)]

#[cfg(test)]
mod tests;
