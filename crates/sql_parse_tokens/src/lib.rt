//! Tokens as the parser of statements looks at them, and what it reads of them alone.
//!
//! Below all parts of the parser, over the lexer `sql_lex` and the grammar `sql_syntax`. Tokens are
//! made once, by `sql_lex`; each function that reads takes a [`Rest`](rest) of them, and gives what
//! its rule of `sql_syntax` reads with the tokens that are left behind it.
//!
//! - [`kinds`]: the kinds of tokens as numbers
//! - [`lexeme`], [`lexing`]: tokens with their keywords and kinds, made of the lexer's
//! - [`word`], [`rest`], [`fault`]: a token and what it says, the tokens that are left, why reading
//!   stops
//! - [`opening`], [`closing`]: tokens that open a construct, and what stands behind a part
//! - [`parts`], [`limits`]: names, literals and lists of names; LIMIT
//!
//! # Proved
//! - Each function that reads gives exactly what its rule reads, or want of memory (`Gives`): the
//!   value with the same tokens left, or the same fault with the same tokens left, which are its
//!   place.
//! - `lexemes`: one lexeme for each token, each at its token's place (`places`), which say what the
//!   grammar's tokens of the text are (`said`).
//! - `opening` and its like: where one may be opened, one less may be opened inside (`one_less`).
//! - `name`, `text`, `key`, `none` to `many`, `mark`, `number`, `integer`, `negative` of a token:
//!   exactly what the definitions say.
#![tactic(auto)]

pub mod closing;
pub mod fault;
pub mod kinds;
pub mod lexeme;
pub mod lexing;
pub mod limits;
pub mod opening;
pub mod parts;
pub mod rest;
pub mod word;
