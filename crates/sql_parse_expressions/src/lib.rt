//! Expressions and SELECTs, which nest in one another, read from tokens.
//!
//! Over `sql_parse_nodes`, below the statements of `sql_parse_changes` and `sql_parse_bodies`. All
//! functions that nest are one cycle: the number of constructs that may still be opened falls where
//! one is opened.
//!
//! - [`expressions`]: operators by their levels
//! - `primaries`, [`calls`]: primary expressions, calls by name
//! - [`selects`]: SELECT
//!
//! # Proved
//! - Each function: what its rule reads, with so many constructs still to be opened, is kept with
//!   the same tokens left, or the same fault comes, or want of memory (`Keeps`). So `whole` reads
//!   exactly expressions, `select` exactly SELECTs.
#![tactic(auto)]

pub mod calls;
pub mod expressions;
mod primaries;
pub mod selects;
