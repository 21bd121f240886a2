//! Values and rows as text: NULL, a decimal number, `'bytes'` or `X'..'`.
ghost use Rattle.std.specs.Prelude.{◌≡◌, ◌++◌, codes, IfOk};
ghost use Rattle.std.specs.List.{list_all};
ghost use Rattle.val_types.specs.Text.{text_of, row_text_of, quoted_of, is_plain};

use crate::list::{Bytes, List, NoMemory};
use crate::value::{Row, Value};
use std::alloc::Global;

/// Whether a byte stands for itself between quotes: printable ASCII, but neither `'` nor `\`.
fn is_plain(byte: u8) -> bool
    ensures { result ≡ is_plain byte }
{
    (0x20..=0x7e).contains(&byte) && byte != b'\'' && byte != b'\\'
}

/// Whether all bytes are plain.
fn all_plain(bytes: &[u8]) -> bool
    ensures { result ≡ list_all is_plain bytes.now }
{
    bytes.iter().all(|byte| is_plain(*byte))
}

/// `middle` between what opens it and a closing quote.
fn between(alloc: Global, opening: &[u8], middle: &[u8]) -> Result<Bytes, NoMemory>
    ensures { IfOk result (λ text. text ≡ opening.now ++ middle.now ++ codes "'") }
{
    let mut text = List::from_slice(alloc, opening)?;
    text.extend_from_slice(middle)?;
    text.push(b'\'')?;
    Ok(text)
}

/// A text as [`value_text`] shows it.
fn quoted(alloc: Global, bytes: &[u8]) -> Result<Bytes, NoMemory>
    ensures { IfOk result (λ text. text ≡ quoted_of bytes.now) }
{
    if all_plain(bytes) {
        between(alloc, b"'", bytes)
    } else {
        between(alloc, b"X'", hex::encode_upper(alloc, bytes)?.as_bytes())
    }
}

/// A value as answers and printed logs show it: `NULL`, a number in decimal, a text as `'bytes'`
/// where every byte is printable ASCII other than `'` and `\`, and any other text as `X'..'` with
/// upper case hexadecimal digits.
pub fn value_text(alloc: Global, value: &Value) -> Result<Bytes, NoMemory>
    ensures { IfOk result (λ text. text ≡ text_of value.now) }
{
    match value {
        Value::Null => List::from_slice(alloc, b"NULL"),
        Value::Int(n) => List::from_slice(alloc, n.to_string(alloc)?.as_bytes()),
        Value::Text(bytes) => quoted(alloc, bytes.as_slice()),
    }
}

/// The values of a row as [`value_text`] shows them, with `, ` between two.
pub fn row_text(alloc: Global, row: &Row) -> Result<Bytes, NoMemory>
    ensures { IfOk result (λ text. text ≡ row_text_of row.now) }
{
    let mut text = List::new(alloc);
    for (i, value) in row.as_slice().iter().enumerate() {
        if i > 0 {
            text.extend_from_slice(b", ")?;
        }
        text.append(value_text(alloc, value)?)?;
    }
    Ok(text)
}
