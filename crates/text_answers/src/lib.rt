//! What a text is, as one function of its bytes: a statement, a syntax error at a place, or too deep.
//!
//! `sql_syntax` says by relations which text is which statement and where another one is refused. Who
//! speaks of what a session does with a text wants one answer: `text_answer` in specs/ computes it, and
//! is cited in place of the grammar.
//!
//! - `laws`: the answer is that of the grammar
//! - `worked`: texts by hand, which the checker computes
//!
//! # Proved
//! - For every text: `text_answer` is a statement just where the text reads as it, a syntax error at a
//!   place just where the grammar refuses the text there, and too deep just where the text opens a
//!   construct too many or the statement has too many levels (`texts_are_answered`).
//! - The tokens with their places are computed (`tokens_are_placed`).
//! - A statement that a text of bytes is, is one that the parser can give (`answers_are_well`).
//! - The worked texts.
#![tactic(auto)]

mod laws;
mod worked;

pub use laws::{answers_are_well, texts_are_answered, tokens_are_placed};
pub use worked::texts_with_their_answers;
