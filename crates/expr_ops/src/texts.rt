//! CONCAT, LENGTH and SUBSTRING.
ghost use Rattle.std.specs.Prelude.{◌≡◌, ◌++◌, length, IfOk, OnOk};
ghost use Rattle.std.specs.List.{flat_map, list_any};
ghost use Rattle.val_types.specs.Answers.{Gives};
ghost use Rattle.val_types.specs.Fitting.{is_null};
ghost use Rattle.value_rules.specs.Functions.{bytes_from, concatenated, count_of, length_value, piece_of, place_of, substring, text_value};

use std::alloc::Global;
use val_types::{Bytes, KINDS_MIXED, List, NoMemory, SqlError, SqlRefusal, TEXT_TOO_LONG, Value};

/// The greatest length of a text as an expression's value, in bytes.
const GREATEST_LENGTH: usize = 65_535;

/// Whether one of some values is NULL.
fn has_null(values: &[Value]) -> bool
    ensures { result ≡ list_any is_null values.now }
{
    values.iter().any(|value| value.is_null())
}

/// A text as an expression's value, which has at most 65,535 bytes.
fn text_value(text: Bytes) -> Result<Value, SqlError>
    ensures { result ≡ text_value text }
{
    if text.len() <= GREATEST_LENGTH {
        Ok(Value::Text(text))
    } else {
        Err(TEXT_TOO_LONG)
    }
}

/// Puts a value at the end of a text: a text itself, a number in decimal, nothing for NULL.
fn append_piece(alloc: Global, text: &mut Bytes, value: &Value) -> Result<(), NoMemory>
    ensures { OnOk result (text.new ≡ text.old ++ piece_of value.now) }
{
    match value {
        Value::Null => Ok(()),
        Value::Int(number) => text.extend_from_slice(number.to_string(alloc)?.as_bytes()),
        Value::Text(piece) => text.extend_from_slice(piece.as_slice()),
    }
}

/// All values as one text.
fn joined(alloc: Global, values: &List<Value>) -> Result<Bytes, NoMemory>
    ensures { IfOk result (λ text. text ≡ flat_map piece_of values.now) }
{
    let mut text = List::new(alloc);
    for value in values.as_slice() {
        append_piece(alloc, &mut text, value)?;
    }
    Ok(text)
}

/// CONCAT. NULL where an argument is NULL; a result longer than 65,535 bytes is 1153.
pub fn concat(alloc: Global, values: &List<Value>) -> Result<Value, SqlRefusal>
    ensures { Gives result (concatenated values.now) }
{
    if has_null(values.as_slice()) {
        Ok(Value::Null)
    } else {
        Ok(text_value(joined(alloc, values)?)?)
    }
}

/// LENGTH, in bytes.
pub fn length(value: &Value) -> Result<Value, SqlError>
    ensures { result ≡ length_value value.now }
{
    match value {
        Value::Null => Ok(Value::Null),
        Value::Int(_) => Err(KINDS_MIXED),
        Value::Text(text) => Ok(Value::Int(text.as_slice().len() as i64)),
    }
}

/// Where the p-th byte of so many stands, counted from 0. `p` counts from 1, or from the end where it
/// is negative. None where it is 0 or outside.
fn place_of(p: i64, count: usize) -> Option<usize>
    ensures { result ≡ place_of p count }
{
    let distance = p.unsigned_abs() as usize;
    if distance == 0 || count < distance {
        None
    } else if p > 0 {
        Some(distance - 1)
    } else {
        Some(count - distance)
    }
}

/// How many bytes are asked for: none where the number is below 1.
fn count_of(n: i64) -> usize
    ensures { result ≡ count_of n }
{
    if n < 0 { 0 } else { n as usize }
}

/// `n` bytes of a text from the `p`-th on, or up to its end.
fn part_of(alloc: Global, text: &Bytes, p: i64, n: i64) -> Result<Bytes, NoMemory>
    ensures { IfOk result
        (λ part. part ≡ bytes_from (place_of p (length text.now)) (count_of n) text.now) }
{
    match place_of(p, text.len()) {
        None => Ok(List::new(alloc)),
        Some(place) => {
            let rest = &text.as_slice()[place..];
            let count = count_of(n).min(rest.len());
            List::from_slice(alloc, &rest[..count])
        }
    }
}

/// SUBSTRING. NULL where an argument is NULL, then 30002 where the first is no text or another one is.
pub fn substring(alloc: Global, text: &Value, p: &Value, n: &Value) -> Result<Value, SqlRefusal>
    ensures { Gives result (substring text.now p.now n.now) }
{
    match (text, p, n) {
        (Value::Null, _, _) | (_, Value::Null, _) | (_, _, Value::Null) => Ok(Value::Null),
        (Value::Text(text), Value::Int(p), Value::Int(n)) => {
            Ok(Value::Text(part_of(alloc, text, *p, *n)?))
        }
        _ => Err(SqlRefusal::Sql(KINDS_MIXED)),
    }
}
