//! From the lexer's tokens to lexemes.
ghost use Rattle.std.specs.Prelude.{◌≡◌, ◌==◌, IfOk, drop, length, map, List as Items, ℕ};
ghost use Rattle.sql_lex.specs.declared.token.Token.{Token};
ghost use Rattle.sql_lex.specs.Folded.{folded};
ghost use Rattle.sql_lex.specs.Plain.{bytes_at};
ghost use Rattle.sql_parse_tokens.specs.Lexemes.{seen, tok_by, tok_of};
ghost use Rattle.sql_parse_tokens.specs.Lexing.{bounded, lexeme_place, place};
ghost use Rattle.sql_syntax.specs.Texts.{begins_with_digit, minus_by, name_by, tok_before, toks};
ghost use Rattle.sql_tree.specs.BuiltIns.{function_named};

use crate::lexeme::{Lexeme, Sort};
use sql_lex::{Symbol, Token, TokenKind, bytes_of, keyword_at};
use sql_tree::function_named;
use std::alloc::Global;
use val_types::{List, NoMemory};

/// Whether a digit stands at this place.
fn is_digit_at(text: &[u8], at: u32) -> bool
    ensures { result ≡ begins_with_digit (drop at text.now) }
{
    match text.get(at as usize) {
        Some(byte) => byte.is_ascii_digit(),
        None => false,
    }
}

/// What a minus is, with a digit directly behind it or not, and with tokens behind it or not.
fn minus_sort(before_digit: bool, is_last: bool) -> Sort
    ensures { (bytes : Items ℕ) (ts : Items Token) → is_last ≡ (length ts == 0) → tok_by result bytes ≡ minus_by before_digit ts }
{
    match (before_digit, is_last) {
        (false, _) => Sort::Mark(Symbol::Minus),
        (true, false) => Sort::TightMinus,
        (true, true) => Sort::BrokenMinus,
    }
}

/// What a word is that is no keyword.
fn name_sort(word: &[u8]) -> Sort
    ensures { tok_by result word.now ≡ name_by (function_named (folded word.now)) (folded word.now) }
{
    match function_named(word) {
        Some(function) => Sort::Function(function),
        None => Sort::Name,
    }
}

/// What a token is, with tokens behind it or not.
fn sort(text: &[u8], token: Token, is_last: bool) -> Sort
    ensures { (ts : Items Token) → is_last ≡ (length ts == 0)
        → tok_by result (bytes_at text.now token.at token.end) ≡ tok_before text.now (bounded token) ts }
{
    match token.kind {
        TokenKind::Word => match keyword_at(text, token) {
            Some(word) => Sort::Key(word),
            None => name_sort(bytes_of(text, token)),
        },
        TokenKind::Quoted => Sort::Quoted,
        TokenKind::Number(n) => Sort::Number(n),
        TokenKind::Least => Sort::Least,
        TokenKind::Text => Sort::Text,
        TokenKind::Symbol(Symbol::Minus) => minus_sort(is_digit_at(text, token.end), is_last),
        TokenKind::Symbol(mark) => Sort::Mark(mark),
    }
}

/// The lexeme of a token.
fn lexeme(text: &[u8], token: Token, is_last: bool) -> Lexeme
    ensures said { (ts : Items Token) → is_last ≡ (length ts == 0) → tok_of text.now result ≡ tok_before text.now (bounded token) ts }
    ensures place { lexeme_place result ≡ place token }
{
    let sort = sort(text, token, is_last);
    let Token { at, end, .. } = token;
    Lexeme { sort, at, end }
}

/// The lexemes of a text, one for each token.
pub fn lexemes(alloc: Global, text: &[u8], tokens: &[Token]) -> Result<List<Lexeme>, NoMemory>
    ensures said { IfOk result (λ lexemes. seen text.now lexemes ≡ toks text.now (map bounded tokens.now)) }
    ensures places { IfOk result (λ lexemes. map lexeme_place lexemes ≡ map place tokens.now) }
{
    let mut lexemes = List::new(alloc);
    let mut left = tokens.len();
    for token in tokens {
        left -= 1;
        lexemes.push(lexeme(text, *token, left == 0))?;
    }
    Ok(lexemes)
}
