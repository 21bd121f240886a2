//! The grammar of statements: which text is which statement, and where another one is refused.
//! Definitions and their laws, for `sql_parse`, which reads by them, and for whoever speaks of texts.
//!
//! The grammar is a set of [rules](../specs/Statements.antt), made as `sql_grammar` says, each with
//! the number of constructs that may still be opened. Their tokens tell a minus directly before a
//! number from another: [`toks`](../specs/Texts.antt) makes them of the lexer's, and
//! [`spoken`](../specs/Spoken.antt) computes them from bytes. `reads` there says which statement a
//! text is, `IsRefusedAt` where it is refused, and `IsTooDeep` that it is too deep.
//!
//! - [`laws`]: statements, SELECTs and expressions are read exactly; each text has one answer
//! - [`worked`], [`bytes`]: worked texts, as tokens and as bytes
//! - [`table_parts`], [`heads`]: what the rules read that is no part of a tree
//!
//! # Proved
//! - Of expressions, SELECTs and statements, with every number of constructs that may be opened: just
//!   the texts of the rule are read, each as its one value, and a fault comes at the first token
//!   that cannot stand behind those before it, or which opens a construct too many.
//! - Each text whose tokens begin somewhere is a statement, is refused at a place, or opens a construct
//!   too many at a place; it is just one of these, with one statement and one place.
//! - A syntax error's place is the first byte of its token, or where no token begins. The tokens of a
//!   text are computed by `spoken`. The three minuses are told apart.
//! - The worked texts are read as their trees, or refused where it says.
#![tactic(auto)]

mod bytes;
mod heads;
mod laws;
mod table_parts;
mod worked;

pub use bytes::bytes_are_read;
pub use heads::Head;
pub use laws::{
    expressions_are_exact, minuses_are_told_apart, places_are_first_bytes, selects_are_exact,
    statements_are_exact, texts_have_one_answer, tokens_are_computed,
};
pub use table_parts::{Marks, TablePart};
pub use worked::{
    changes_are_read, depths_are_placed, expressions_are_read, faults_are_placed,
    programs_are_read, selects_are_read, sessions_are_read, tables_are_read,
};
