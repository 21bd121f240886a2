//! The canonical text of a statement: one text for each tree, which the parser reads back.
//!
//! Keywords are in upper case and names in backquotes, operators stand in parentheses with their
//! operands, and an optional word is always written or never. Definitions are in
//! `specs/Names.antt`, `specs/Spelling.antt` and `specs/StatementSpelling.antt`.
//!
//! - `words`: [`is_bare`], for a name that needs no backquotes
//! - `names`: names, numbers, types and LIMITs
//! - `expressions`: expressions and SELECTs
//! - `statements`, `tables`: the parts of statements that hold no statement
//! - `printing`: [`print`], for all statements
//! - `worked`: worked examples of trees and their texts
//!
//! # Proved
//! - [`print`] gives the text that `spelling` says, of every statement, or answers want of memory. It
//!   asks nothing of the statement.
//! - [`is_bare`] says of a system variable's name whether its text has no backquotes.
//! - The worked trees have the texts that stand beside them.
//!
//! That the text is read back stands in `sql_text`.
#![tactic(auto)]

mod expressions;
mod names;
mod printing;
mod statements;
mod tables;
mod words;
mod worked;

pub use printing::print;
pub use words::is_bare;
pub use worked::{
    calls_are_written, changes_are_written, names_are_written, operands_are_written,
    operators_are_written, programs_are_written, selects_are_written, sessions_are_written,
    tables_are_written,
};
