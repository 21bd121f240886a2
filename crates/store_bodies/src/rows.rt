//! Values and rows at the front of some bytes.
ghost use Rattle.std.specs.Prelude.{◌≡◌, IfOk};
ghost use Rattle.std.specs.Int.{w64, cast_signed};
ghost use Rattle.store_model.specs.Reading.{read_as, number_of, text_behind, so_many, value_of_kind, value_in, row_in};
ghost use Rattle.store_bodies.specs.Seen.{seen};

use crate::taking::{take_one, take_signed, take_text};
use sharing::Shared;
use std::alloc::Global;
use val_types::{Bytes, NoMemory, Row, Value};

/// A number.
fn take_int(bytes: &[u8]) -> Option<(Value, &[u8])>
    ensures { seen result ≡ read_as (λ n. Value.Int (cast_signed w64 n)) (number_of 8 bytes.now) }
{
    match take_signed(bytes) {
        Some((number, rest)) => Some((Value::Int(number), rest)),
        None => None,
    }
}

/// A text.
fn take_words(alloc: Global, bytes: &[u8]) -> Result<Option<(Value, &[u8])>, NoMemory>
    ensures { IfOk result (λ o. seen o ≡ read_as (λ t. Value.Text t) (text_behind 4 bytes.now)) }
{
    match take_text(bytes) {
        Some((text, rest)) => Ok(Some((Value::Text(Bytes::from_slice(alloc, text)?), rest))),
        None => Ok(None),
    }
}

/// A value behind its kind.
fn take_kind(alloc: Global, kind: u8, bytes: &[u8]) -> Result<Option<(Value, &[u8])>, NoMemory>
    ensures { IfOk result (λ o. seen o ≡ value_of_kind kind bytes.now) }
{
    match kind {
        0 => Ok(Some((Value::Null, bytes))),
        1 => Ok(take_int(bytes)),
        2 => take_words(alloc, bytes),
        _ => Ok(None),
    }
}

/// A value.
fn take_value(alloc: Global, bytes: &[u8]) -> Result<Option<(Value, &[u8])>, NoMemory>
    ensures { IfOk result (λ o. seen o ≡ value_in bytes.now) }
{
    match take_one(bytes) {
        Some((kind, rest)) => take_kind(alloc, kind, rest),
        None => Ok(None),
    }
}

/// So many values.
fn take_values(alloc: Global, count: u8, bytes: &[u8]) -> Result<Option<(Row, &[u8])>, NoMemory>
    ensures { IfOk result (λ o. seen o ≡ so_many value_in count bytes.now) }
{
    let mut row = Row::new(alloc);
    let mut rest = bytes;
    for _value in 0..count {
        match take_value(alloc, rest)? {
            Some((value, next)) => {
                row.push(value)?;
                rest = next;
            }
            None => return Ok(None),
        }
    }
    Ok(Some((row, rest)))
}

/// A row, and what is behind it.
#[tactic(auto, unfolding(store_model::specs::Reading::row_in))]
fn take_row(alloc: Global, bytes: &[u8]) -> Result<Option<(Row, &[u8])>, NoMemory>
    ensures { IfOk result (λ o. seen o ≡ row_in bytes.now) }
{
    match take_one(bytes) {
        Some((count, rest)) => take_values(alloc, count, rest),
        None => Ok(None),
    }
}

/// A row, for others to hold too, and what is behind it.
pub fn take_shared_row(
    alloc: Global,
    bytes: &[u8],
) -> Result<Option<(Shared<Row>, &[u8])>, NoMemory>
    ensures { IfOk result (λ o. seen o ≡ row_in bytes.now) }
{
    let Some((row, rest)) = take_row(alloc, bytes)? else {
        return Ok(None);
    };
    Ok(Some((Shared::new(alloc, row)?, rest)))
}
