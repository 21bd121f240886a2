//! Tests of `store_open`, and of `store_load` through it: stores by hand, whole and damaged.
//!
//! # Only tested
//! What stores hold and where the first place of their damage is, by stores worked out byte by byte.
#![tactic(auto)]

#[cfg(test)]
mod tests;
