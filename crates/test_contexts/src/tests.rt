//! Calls of the crates of contexts, by hand.

mod counting;
mod locals;
mod sessions;
