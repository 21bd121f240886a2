//! What a caller of the crates of SQL sees, by hand. They stand here since a crate with tests of its
//! own is proved once more for them.
//!
//! - `common`: a text read, and texts put together
//! - `accepted`: texts that are statements, each read back from its canonical text
//! - `printed`: texts with their canonical text
//! - `refused`, `refused_expressions`: texts that are no statement, with the place; fronts
//! - `names`: words that are no names
//! - `limits`: 400 constructs, and 200 levels
//! - `refusals`: how a refusal is told
//! - `trees`: copies and depths of trees and of their parts, each public call once

mod accepted;
mod common;
mod limits;
mod names;
mod printed;
mod refusals;
mod refused;
mod refused_expressions;
mod trees;
