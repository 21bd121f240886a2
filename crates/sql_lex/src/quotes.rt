//! What stands in quotes.
ghost use Rattle.std.specs.Prelude.{◌≡◌, ◌++◌, ◌<◌, ◌≤◌, drop, length, IfOk, OnOk, IfSome};
ghost use Rattle.sql_lex.specs.Quotes as spec;

use std::alloc::Global;
use val_types::{Bytes, List, NoMemory};

/// The most bytes of a name.
pub const NAME_BYTES: usize = 64;

/// Whether a text begins with the byte.
pub fn begins(byte: u8, text: &[u8]) -> bool
    ensures { result ≡ spec.begins byte text.now }
{
    match text.first() {
        Some(first) => *first == byte,
        None => false,
    }
}

/// The bytes behind the first ones.
pub fn behind(text: &[u8], count: usize) -> &[u8]
    requires { count ≤ length text.now }
    ensures { result.now ≡ drop count text.now }
{
    text.split_at(count).1
}

fn leads(quote: u8, held: bool, byte: u8) -> bool
    ensures { result ≡ spec.leads quote held byte }
{
    !held && (byte == quote || byte == b'\\' && quote != b'`')
}

fn closes(quote: u8, held: bool, byte: u8, rest: &[u8]) -> bool
    ensures { result ≡ spec.closes quote held byte rest.now }
{
    !held && byte == quote && !begins(quote, rest)
}

/// How many bytes there are from behind an opening quote up to and with the closing one.
pub fn closing(quote: u8, text: &[u8]) -> Option<usize>
    ensures value { result ≡ spec.closing quote text.now }
    ensures within { IfSome result (λ n. (0 < n) × (n ≤ length text.now)) }
{
    let mut held = false;
    for (i, byte) in text.iter().enumerate() {
        if closes(quote, held, *byte, behind(text, i + 1)) {
            return Some(i + 1);
        }
        held = leads(quote, held, *byte);
    }
    None
}

fn escaped_byte(byte: u8) -> u8
    ensures { result ≡ spec.escaped_byte byte }
{
    match byte {
        b'0' => 0,
        b'b' => 8,
        b'n' => b'\n',
        b'r' => b'\r',
        b't' => b'\t',
        b'Z' => 26,
        other => other,
    }
}

fn push_escaped(out: &mut Bytes, byte: u8) -> Result<(), NoMemory>
    ensures { OnOk result (out.new ≡ out.old ++ spec.escaped byte) }
{
    if byte == b'%' || byte == b'_' {
        out.push(b'\\')?;
        return out.push(byte);
    }
    out.push(escaped_byte(byte))
}

fn push_meant(out: &mut Bytes, quote: u8, held: bool, byte: u8) -> Result<(), NoMemory>
    ensures { OnOk result (out.new ≡ out.old ++ spec.stands_for quote held byte) }
{
    if leads(quote, held, byte) {
        return Ok(());
    }
    if held && quote != b'`' {
        return push_escaped(out, byte);
    }
    out.push(byte)
}

/// What the bytes between two quotes stand for.
pub fn meant(alloc: Global, quote: u8, text: &[u8]) -> Result<Bytes, NoMemory>
    ensures { IfOk result (λ bytes. bytes ≡ spec.meant quote text.now) }
{
    let mut out = List::new(alloc);
    let mut held = false;
    for byte in text {
        push_meant(&mut out, quote, held, *byte)?;
        held = leads(quote, held, *byte);
    }
    Ok(out)
}

fn is_printable(byte: u8) -> bool
    ensures { result ≡ spec.is_printable byte }
{
    b' ' <= byte && byte <= b'~'
}

/// Whether the bytes between two backquotes are a name.
pub fn is_name(text: &[u8]) -> bool
    ensures { result ≡ spec.is_name (spec.meant 96 text.now) }
{
    let mut count = 0;
    let mut held = false;
    for byte in text {
        held = leads(b'`', held, *byte);
        if !held {
            if !is_printable(*byte) {
                return false;
            }
            count += 1;
        }
    }
    1 <= count && count <= NAME_BYTES
}
