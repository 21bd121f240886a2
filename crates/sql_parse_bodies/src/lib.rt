//! Stored programs and the statements in them, read from tokens.
//!
//! Over `sql_parse_changes`, below `sql_parse`. Blocks, IF and WHILE nest in one another and are one
//! cycle; programs whose bodies are programs are read one behind the other.
//!
//! - [`bodies`]: programs round their bodies, and the parts of blocks, IF and WHILE
//! - [`programs`]: statements in stored programs
//!
//! # Proved
//! - Each function that reads: what its rule reads, with so many constructs still to be opened, is
//!   kept with the same tokens left, or the same fault comes, or want of memory (`Keeps`).
//! - `with_kept_body`: what is kept of a program over what is kept of its body.
#![tactic(auto)]

pub mod bodies;
pub mod programs;
