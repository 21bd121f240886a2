//! A column's type in a map, and its value in a row.
ghost use Rattle.std.specs.Prelude.{◌≡◌, ◌/◌, ◌<◌, ◌≤◌, length, nat_le, ◌&&◌};
ghost use Rattle.std.specs.Int.{w32, w64};
ghost use Rattle.byte_fields.specs.Field.{number_at};
ghost use Rattle.log_model.specs.Images.{is_set, number_value, text_of, text_value, value_at};
ghost use Rattle.row_image.specs.Walk.{column_at, metadata_behind, type_at, value_seen};

use byte_fields::u16_at;
use byteorder::{ByteOrder, LittleEndian};
use event_codec::VarValue;
use val_types::ColType;

/// The number of the type INT.
pub const LONG: u8 = 3;

/// The number of the type BIGINT.
pub const LONGLONG: u8 = 8;

/// The greatest length in front of some metadata.
#[tactic(auto, unfolding(byte_fields::specs::Field::number_at))]
fn greatest(metadata: &[u8]) -> u16
    ensures { result ≡ number_at 0 2 metadata.now }
{
    match metadata {
        [] => 0,
        [low] => u16::from(*low),
        [_, _, ..] => u16_at(metadata, 0),
    }
}

/// The type of the first of some columns.
pub fn column_type(kind: u8, metadata: &[u8]) -> ColType
    ensures { result ≡ type_at kind metadata.now }
{
    if kind == LONG {
        ColType::Int
    } else if kind == LONGLONG {
        ColType::BigInt
    } else {
        ColType::Varchar(greatest(metadata))
    }
}

/// The metadata of the columns behind it.
pub fn behind_type<'a>(kind: u8, metadata: &'a [u8]) -> &'a [u8]
    ensures { result.now ≡ metadata_behind kind metadata.now }
{
    if kind == LONG || kind == LONGLONG {
        return metadata;
    }
    match metadata {
        [_, _, rest @ ..] => rest,
        [] => &[],
        [_] => &[],
    }
}

/// Whether a column is NULL by the bits of a row.
fn is_null(nulls: &[u8], column: usize) -> bool
    requires { column / 8 < length nulls.now }
    ensures { result ≡ is_set nulls.now column }
{
    (nulls[column / 8] >> (column % 8)) % 2 == 1
}

/// A number of four bytes.
#[tactic(auto, unfolding(byte_fields::specs::Field::number_at))]
fn read_int(bytes: &[u8]) -> Option<(VarValue<'_>, &[u8])>
    ensures { value_seen result ≡ number_value w32 4 bytes.now }
{
    if bytes.len() < 4 {
        return None;
    }
    let number = i64::from(LittleEndian::read_i32(bytes));
    Some((VarValue::Int(number), &bytes[4..]))
}

/// A number of eight bytes.
#[tactic(auto, unfolding(byte_fields::specs::Field::number_at))]
fn read_bigint(bytes: &[u8]) -> Option<(VarValue<'_>, &[u8])>
    ensures { value_seen result ≡ number_value w64 8 bytes.now }
{
    if bytes.len() < 8 {
        return None;
    }
    let number = LittleEndian::read_i64(bytes);
    Some((VarValue::Int(number), &bytes[8..]))
}

/// A text of a length, which is at most the greatest.
fn read_bytes(most: u16, count: u16, bytes: &[u8]) -> Option<(VarValue<'_>, &[u8])>
    ensures { value_seen result ≡ text_of most count bytes.now }
{
    if count > most || usize::from(count) > bytes.len() {
        return None;
    }
    let (text, rest) = bytes.split_at(usize::from(count));
    Some((VarValue::Text(text), rest))
}

/// A length, and a text.
#[tactic(auto, unfolding(byte_fields::specs::Field::number_at))]
fn read_text(most: u16, bytes: &[u8]) -> Option<(VarValue<'_>, &[u8])>
    ensures { value_seen result ≡ text_value most bytes.now }
{
    if most <= 255 {
        let [count, rest @ ..] = bytes else {
            return None;
        };
        read_bytes(most, u16::from(*count), rest)
    } else {
        if bytes.len() < 2 {
            return None;
        }
        read_bytes(most, u16_at(bytes, 0), &bytes[2..])
    }
}

/// A value of a type.
fn read_value(kind: ColType, bytes: &[u8]) -> Option<(VarValue<'_>, &[u8])>
    ensures { value_seen result ≡ value_at kind bytes.now }
{
    match kind {
        ColType::Int => read_int(bytes),
        ColType::BigInt => read_bigint(bytes),
        ColType::Varchar(most) => read_text(most, bytes),
    }
}

/// A column's value, NULL where its bit is set.
pub fn read_column<'a>(
    kind: ColType,
    nulls: &[u8],
    column: usize,
    bytes: &'a [u8],
) -> Option<(VarValue<'a>, &'a [u8])>
    requires { column / 8 < length nulls.now }
    ensures { value_seen result ≡ column_at kind nulls.now column bytes.now }
{
    if is_null(nulls, column) {
        return Some((VarValue::Null, bytes));
    }
    read_value(kind, bytes)
}
