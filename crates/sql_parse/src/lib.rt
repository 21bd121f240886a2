//! Statements of SQL, read from the bytes of a text, or the place where a text is no statement.
//!
//! [`parse`](parsing) is the one public call of the parser, [`parse_boxed`] the same with the statement
//! on the heap, as [`Parsed`], which this crate drops; its parts are the crates below. What a text is, where it is refused and what is too
//! deep say the rules of `sql_syntax`; a tree is that of `sql_tree`. Tokens are made once, by
//! `sql_lex`, and each function reads from a rest of them exactly what its rule reads. A part of a
//! tree is held with its number of levels, and not at all where it has more than a statement may
//! have, so that no tree is ever deeper than that.
//!
//! - `sql_parse_tokens`: tokens, names, literals; `sql_parse_nodes`: parts of trees
//! - `sql_parse_expressions`: expressions and SELECTs
//! - `sql_parse_definitions`: tables, heads of programs, transactions; `sql_parse_changes`: changes,
//!   SET, DO and CALL; `sql_parse_bodies`: stored programs
//! - `statements`, `parsing`: a statement, and the statement that a text is
//!
//! # Proved
//! `parse` and `parse_boxed`, over every text of at most 4294967295 bytes:
//! - Ok is a statement that the text is, within 400 open constructs and 200 levels (`statement`).
//! - A syntax error's place is one at which the grammar refuses the text; Deep comes only where the
//!   text opens the 401st construct or the whole statement has more levels (`cause`).
//! - A text that is such a statement is answered with it (`read`), one that is refused at a place
//!   with that place (`refused`), one that is too deep with Deep (`deep`); only want of memory is
//!   free.
//!
//! # Only tested
//! In `test_sql`: that parsing succeeds with ample memory, and how a refusal is told.
#![tactic(auto)]

mod parsing;
mod statements;

pub use parsing::{ParseRefusal, Parsed, parse, parse_boxed};
