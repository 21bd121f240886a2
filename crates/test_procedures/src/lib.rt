//! Tests of procedures carried out through a runner that keeps a list of what it is asked and tells prepared answers. What is
//! asked and answered was worked out by hand.
//!
//! They stand in a crate of their own, since a crate with tests of its own is proved once more for them.
//!
//! - `listing`: the runner
//! - `carrying`: a catalog made of texts, and a CALL
//! - `tests`: the tests
#![tactic(auto)]

#[cfg(test)]
mod carrying;
#[cfg(test)]
mod listing;
#[cfg(test)]
mod tests;
