//! A statement's text as tokens with their places.
//!
//! The lexer stands above `val_types` and below the parser. It follows "Lexical Structure" of the
//! MySQL 5.7 manual for a subset: words, names in backquotes, decimal numbers, strings and
//! hexadecimal literals, symbols, white space and comments.
//!
//! A [`Token`] is a kind and a slice of the text. What it says, its plain token, is a function of
//! its kind and its bytes, so that [`name_of`], [`text_of`] and [`keyword_at`] need nothing else. A
//! relation gives the tokens of each text with their places, one list a text: [`lex`] gives them
//! for a whole text, and [`lex_front`] up to the first byte that begins no token.
//!
//! - `token`: [`Token`], [`TokenKind`], [`Symbol`] and a token's bytes
//! - `keyword`: [`Keyword`], the words of the grammar, and which of them are reserved
//! - `words`: their tables
//! - `blanks`: white space and comments
//! - `quotes`: strings and names in their quotes, and what they stand for
//! - `scan`: the token that a text begins with
//! - `pieces`: white space, a comment or a token
//! - `lexer`: the tokens of a text
//! - `names`: what tokens say
//! - `laws`: what holds of the tokens of every text
//! - `written`: what is written as a token is read as it
//!
//! # Proved
//! For every text of up to 4,294,967,295 bytes, where memory suffices:
//!
//! - [`lex`] gives tokens exactly where the whole text is tokens, and then those; else it gives the
//!   place of the first byte that begins none. What the tokens say is what the text says.
//! - [`lex_front`] gives the tokens up to the first byte that begins none, and that place.
//!
//! For every text:
//!
//! - [`bytes_of`] gives a token's bytes, [`name_of`] and [`text_of`], where memory suffices, the name
//!   and the text that it is.
//! - [`keyword_at`] gives the keyword that a word is in any case of its letters; each keyword is the
//!   one that its word names ([`keywords_have_words`]); [`Keyword::word`] and
//!   [`Keyword::is_reserved`] are as defined.
//! - Of the definitions alone: a text has one list of tokens and says one list ([`one_reading`]); its
//!   tokens are slices in order, with white space and comments alone between them
//!   ([`tokens_are_slices`]); what is written as a name in backquotes, a word, a number, a string or
//!   a hexadecimal literal is read as that, whatever follows that does not go on with it
//!   ([`written_is_read`]).
//!
//! # Only tested
//! That the definitions are the lexical rules of MySQL is for a reader to judge; tables of texts with
//! their tokens, worked out by hand, stand in `test_lex`.
#![tactic(auto)]

mod blanks;
mod keyword;
mod laws;
mod lexer;
mod names;
mod pieces;
mod quotes;
mod scan;
mod token;
mod words;
mod written;

pub use keyword::{Keyword, keywords_have_words};
pub use laws::{one_reading, tokens_are_slices, tokens_say};
pub use lexer::{LexRefusal, lex, lex_front};
pub use names::{keyword_at, name_of, text_of};
pub use token::{Symbol, Token, TokenKind, Tokens, bytes_of};
pub use written::written_is_read;
