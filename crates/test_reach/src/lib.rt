//! Tests of what statements reach and of the CREATE statements of objects, each call with ample memory and answers worked out
//! by hand.
//!
//! They stand in a crate of their own, since a crate with tests of its own is proved once more for them.
//!
//! - `tests`: `unsafe_rules`, and `Catalog::object` of `catalog`
#![tactic(auto)]

#[cfg(test)]
mod tests;
