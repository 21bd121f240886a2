//! What tokens say.
ghost use Rattle.std.specs.Prelude.{◌≡◌, IfOk};
ghost use Rattle.sql_lex.specs.Folded as folding;
ghost use Rattle.sql_lex.specs.Plain as spec;

use crate::keyword::{Keyword, keyword_of};
use crate::quotes::{behind, meant};
use crate::token::{Token, TokenKind, bytes_of};
use hex::FromHexError;
use std::alloc::{AllocError, Global};
use val_types::{Bytes, List, NoMemory};

/// What stands between the first and the last byte.
fn inside(bytes: &[u8]) -> &[u8]
    ensures { result.now ≡ spec.inside bytes.now }
{
    let tail = behind(bytes, bytes.len().min(1));
    tail.split_at(bytes.len().saturating_sub(2)).0
}

fn folded(alloc: Global, name: &[u8]) -> Result<Bytes, NoMemory>
    ensures { IfOk result (λ bytes. bytes ≡ folding.folded name.now) }
{
    let bytes: Vec<u8> = name.iter().map(|b| b.to_ascii_lowercase()).collect(alloc)?;
    Ok(List::from_vec(bytes))
}

fn quoted_name(alloc: Global, bytes: &[u8]) -> Result<Bytes, NoMemory>
    ensures { IfOk result (λ name. name ≡ spec.quoted_name bytes.now) }
{
    let name = meant(alloc, b'`', inside(bytes))?;
    folded(alloc, name.as_slice())
}

fn hex_bytes(alloc: Global, digits: &[u8]) -> Result<Bytes, NoMemory>
    ensures { IfOk result (λ bytes. bytes ≡ spec.hex_bytes digits.now) }
{
    match hex::decode(alloc, digits) {
        Ok(bytes) => Ok(List::from_vec(bytes)),
        Err(FromHexError::OutOfMemory) => Err(AllocError),
        Err(_) => Ok(List::new(alloc)),
    }
}

fn literal_bytes(alloc: Global, bytes: &[u8]) -> Result<Bytes, NoMemory>
    ensures { IfOk result (λ text. text ≡ spec.literal_bytes bytes.now) }
{
    let Some(first) = bytes.first() else {
        return Ok(List::new(alloc));
    };
    if *first == b'x' || *first == b'X' {
        hex_bytes(alloc, inside(behind(bytes, 1)))
    } else {
        meant(alloc, *first, inside(bytes))
    }
}

/// The name that a `Word` or a `Quoted` token is, in lower case; empty for another token.
pub fn name_of(alloc: Global, text: &[u8], token: Token) -> Result<Bytes, NoMemory>
    ensures { IfOk result (λ name. name ≡ spec.name_in (spec.plain_token text.now token)) }
{
    match token.kind {
        TokenKind::Word => folded(alloc, bytes_of(text, token)),
        TokenKind::Quoted => quoted_name(alloc, bytes_of(text, token)),
        _ => Ok(List::new(alloc)),
    }
}

/// The bytes that a `Text` token stands for; empty for another token.
pub fn text_of(alloc: Global, text: &[u8], token: Token) -> Result<Bytes, NoMemory>
    ensures { IfOk result (λ bytes. bytes ≡ spec.text_in (spec.plain_token text.now token)) }
{
    match token.kind {
        TokenKind::Text => literal_bytes(alloc, bytes_of(text, token)),
        _ => Ok(List::new(alloc)),
    }
}

/// The keyword that a `Word` token is, where it is one.
pub fn keyword_at(text: &[u8], token: Token) -> Option<Keyword>
    ensures { result ≡ spec.keyword_in (spec.plain_token text.now token) }
{
    match token.kind {
        TokenKind::Word => keyword_of(bytes_of(text, token)),
        _ => None,
    }
}
