//! White space and comments.
ghost use Rattle.std.specs.Prelude.{◌≡◌, ◌≤◌, length, IfSome};
ghost use Rattle.sql_lex.specs.Blanks as spec;

use crate::quotes::{begins, behind};

fn is_white(byte: u8) -> bool
    ensures { result ≡ spec.is_white byte }
{
    byte == b'\t' || byte == b'\n' || byte == b'\r' || byte == b' '
}

fn is_white_first(text: &[u8]) -> bool
    ensures { result ≡ spec.is_white_first text.now }
{
    match text.first() {
        Some(first) => is_white(*first),
        None => false,
    }
}

fn is_white_next(text: &[u8]) -> bool
    ensures { result ≡ spec.is_white_next text.now }
{
    match text.first() {
        Some(first) => is_white(*first),
        None => true,
    }
}

fn line_length(text: &[u8]) -> usize
    ensures value { result ≡ spec.line_length text.now }
    ensures within { result ≤ length text.now }
{
    for (i, byte) in text.iter().enumerate() {
        if *byte == b'\n' {
            return i + 1;
        }
    }
    text.len()
}

fn closes_block(byte: u8, rest: &[u8]) -> bool
    ensures { result ≡ spec.closes_block byte rest.now }
{
    byte == b'*' && begins(b'/', rest)
}

fn block_length(text: &[u8]) -> Option<usize>
    ensures value { result ≡ spec.block_length text.now }
    ensures within { IfSome result (λ n. n ≤ length text.now) }
{
    for (i, byte) in text.iter().enumerate() {
        if closes_block(*byte, behind(text, i + 1)) {
            return Some(i + 2);
        }
    }
    None
}

/// How many bytes of white space or of one comment a text begins with: 0 where it begins with
/// neither.
pub fn blank_length(text: &[u8]) -> usize
    ensures value { result ≡ spec.blank_length text.now }
    ensures within { result ≤ length text.now }
{
    if is_white_first(text) {
        return 1;
    }
    if text.starts_with(b"--") && is_white_next(behind(text, 2)) {
        return 2 + line_length(behind(text, 2));
    }
    if text.starts_with(b"/*") && !begins(b'!', behind(text, 2)) {
        return match block_length(behind(text, 2)) {
            Some(count) => 2 + count,
            None => 0,
        };
    }
    0
}
