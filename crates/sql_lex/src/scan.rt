//! The token that a text begins with.
ghost use Rattle.std.specs.Prelude.{◌≡◌, ◌+◌, ◌^◌, ◌<◌, ◌≤◌, length, drop, min, IfOk, IfSome};
ghost use Rattle.std.specs.List.{prefix_len};
ghost use Rattle.std.specs.Char.{is_ascii_digit};
ghost use Rattle.std.specs.Option.{option_map};
ghost use Rattle.sql_lex.specs.declared.token.TokenKind.TheVariants as kinds;
ghost use Rattle.hex.specs.Hex.{is_hex_digit};
ghost use Rattle.sql_lex.specs.Begins as spec;

use crate::quotes::{NAME_BYTES, begins, behind, closing, is_name};
use crate::token::{Symbol, TokenKind};

/// The number that a token of digits may not pass: one more than the greatest 63 bits.
const LEAST: u64 = 9_223_372_036_854_775_808;

fn digits_length(text: &[u8]) -> usize
    ensures value { result ≡ prefix_len is_ascii_digit text.now }
    ensures within { result ≤ length text.now }
{
    for (i, byte) in text.iter().enumerate() {
        if !byte.is_ascii_digit() {
            return i;
        }
    }
    text.len()
}

/// The number that digits stand for, or 2^63 + 1 for a greater one than that.
fn number(digits: &[u8]) -> u64
    ensures { result ≡ min (spec.number_from 0 digits.now) 9223372036854775809 }
{
    let mut number = 0u64;
    for digit in digits {
        if number > LEAST / 10 {
            return LEAST + 1;
        }
        number = 10 * number + u64::from(digit.saturating_sub(b'0'));
    }
    number.min(LEAST + 1)
}

fn number_kind(behind_minus: bool, number: u64) -> Option<TokenKind>
    ensures { result ≡ spec.number_kind behind_minus number }
{
    if number < LEAST {
        Some(TokenKind::Number(number))
    } else if behind_minus && number == LEAST {
        Some(TokenKind::Least)
    } else {
        None
    }
}

fn number_token(behind_minus: bool, text: &[u8]) -> Option<(TokenKind, usize)>
    requires { 0 < length text.now }
    ensures value { result ≡ spec.number_token behind_minus text.now }
    ensures within { IfSome result (λ t. (0 < t.1) × (t.1 ≤ length text.now)) }
{
    let count = 1 + digits_length(behind(text, 1));
    let kind = number_kind(behind_minus, number(text.split_at(count).0))?;
    Some((kind, count))
}

fn is_letter(byte: u8) -> bool
    ensures { result ≡ spec.is_letter byte }
{
    byte.is_ascii_alphabetic() || byte == b'_'
}

fn is_word_byte(byte: u8) -> bool
    ensures { result ≡ spec.is_word_byte byte }
{
    is_letter(byte) || byte.is_ascii_digit() || byte == b'$'
}

fn word_length(text: &[u8]) -> usize
    ensures value { result ≡ prefix_len spec.is_word_byte text.now }
    ensures within { result ≤ length text.now }
{
    for (i, byte) in text.iter().enumerate() {
        if !is_word_byte(*byte) {
            return i;
        }
    }
    text.len()
}

fn word_token(text: &[u8]) -> Option<(TokenKind, usize)>
    requires { 0 < length text.now }
    ensures value { result ≡ spec.word_token text.now }
    ensures within { IfSome result (λ t. (0 < t.1) × (t.1 ≤ length text.now)) }
{
    let count = 1 + word_length(behind(text, 1));
    if count <= NAME_BYTES {
        Some((TokenKind::Word, count))
    } else {
        None
    }
}

fn is_hex_byte(byte: u8) -> bool
    ensures { result ≡ is_hex_digit byte }
{
    byte.is_ascii_hexdigit()
}

fn hex_length(text: &[u8]) -> usize
    ensures value { result ≡ prefix_len is_hex_digit text.now }
    ensures within { result ≤ length text.now }
{
    for (i, byte) in text.iter().enumerate() {
        if !is_hex_byte(*byte) {
            return i;
        }
    }
    text.len()
}

/// `text` begins behind the opening quote.
fn hex_token(text: &[u8]) -> Option<(TokenKind, usize)>
    ensures value { result ≡ spec.hex_token text.now }
    ensures within { IfSome result (λ t. (0 < t.1) × (t.1 ≤ 2 + length text.now)) }
{
    let count = hex_length(text);
    if count % 2 == 0 && begins(b'\'', behind(text, count)) {
        Some((TokenKind::Text, 3 + count))
    } else {
        None
    }
}

/// `text` begins behind the opening quote.
fn string_token(quote: u8, text: &[u8]) -> Option<(TokenKind, usize)>
    ensures value { result ≡ spec.string_token quote text.now }
    ensures within { IfSome result (λ t. (0 < t.1) × (t.1 ≤ 1 + length text.now)) }
{
    let count = closing(quote, text)?;
    Some((TokenKind::Text, 1 + count))
}

/// `text` begins behind the opening backquote.
fn quoted_token(text: &[u8]) -> Option<(TokenKind, usize)>
    ensures value { result ≡ spec.quoted_token text.now }
    ensures within { IfSome result (λ t. (0 < t.1) × (t.1 ≤ 1 + length text.now)) }
{
    let count = closing(b'`', text)?;
    if is_name(text.split_at(count - 1).0) {
        Some((TokenKind::Quoted, 1 + count))
    } else {
        None
    }
}

fn symbol_of_one(byte: u8) -> Option<Symbol>
    ensures { result ≡ spec.symbol_of_one byte }
{
    match byte {
        b'(' => Some(Symbol::Open),
        b')' => Some(Symbol::Close),
        b',' => Some(Symbol::Comma),
        b';' => Some(Symbol::Semicolon),
        b'.' => Some(Symbol::Dot),
        b'@' => Some(Symbol::At),
        b'=' => Some(Symbol::Equal),
        b'<' => Some(Symbol::Less),
        b'>' => Some(Symbol::Greater),
        b'+' => Some(Symbol::Plus),
        b'-' => Some(Symbol::Minus),
        b'*' => Some(Symbol::Star),
        b'%' => Some(Symbol::Percent),
        _ => None,
    }
}

fn symbol_of_two(first: u8, second: u8) -> Option<Symbol>
    ensures { result ≡ spec.symbol_of_two first second }
{
    match (first, second) {
        (b'@', b'@') => Some(Symbol::AtAt),
        (b':', b'=') => Some(Symbol::Assign),
        (b'<', b'>') | (b'!', b'=') => Some(Symbol::NotEqual),
        (b'<', b'=') => Some(Symbol::LessEqual),
        (b'>', b'=') => Some(Symbol::GreaterEqual),
        _ => None,
    }
}

fn short_symbol(text: &[u8]) -> Option<(Symbol, usize)>
    ensures value { option_map (λ t. (kinds.Symbol t.0, t.1)) result ≡ spec.short_symbol text.now }
    ensures within { IfSome result (λ t. (0 < t.1) × (t.1 ≤ length text.now)) }
{
    if text.len() >= 2 {
        if let Some(symbol) = symbol_of_two(text[0], text[1]) {
            return Some((symbol, 2));
        }
    }
    let symbol = symbol_of_one(*text.first()?)?;
    Some((symbol, 1))
}

fn symbol_token(text: &[u8]) -> Option<(TokenKind, usize)>
    ensures value { result ≡ spec.symbol_token text.now }
    ensures within { IfSome result (λ t. (0 < t.1) × (t.1 ≤ length text.now)) }
{
    if text.starts_with(b"<=>") {
        return Some((TokenKind::Symbol(Symbol::NullSafeEqual), 3));
    }
    let (symbol, count) = short_symbol(text)?;
    Some((TokenKind::Symbol(symbol), count))
}

/// The token that a text begins with, which stands directly behind a minus or not, and its number
/// of bytes.
pub fn token(behind_minus: bool, text: &[u8]) -> Option<(TokenKind, usize)>
    ensures value { result ≡ spec.token_of behind_minus text.now }
    ensures within { IfSome result (λ t. (0 < t.1) × (t.1 ≤ length text.now)) }
{
    let first = *text.first()?;
    let rest = behind(text, 1);
    if first.is_ascii_digit() {
        number_token(behind_minus, text)
    } else if (first == b'x' || first == b'X') && begins(b'\'', rest) {
        hex_token(behind(rest, 1))
    } else if is_letter(first) {
        word_token(text)
    } else if first == b'\'' || first == b'"' {
        string_token(first, rest)
    } else if first == b'`' {
        quoted_token(rest)
    } else {
        symbol_token(text)
    }
}
