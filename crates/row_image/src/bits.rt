//! The bits of a row: one for each column, set where its value is NULL.
ghost use Rattle.std.specs.Prelude.{◌≡◌, ◌≤◌, ◌++◌, length, map, drop, take, OnOk, OnErr};
ghost use Rattle.val_types.specs.Fitting.{is_null};
ghost use Rattle.byte_fields.specs.Field.{BeginsWith};
ghost use Rattle.log_model.specs.Images.{bits_bytes, byte_of};
ghost use Rattle.row_image.specs.Walk.{bit_of};

use val_types::{Bytes, NoMemory, Value};

/// The bit of a value, 0 behind the last.
#[tactic(auto, using(crate::proofs::Packing::none_bit))]
fn bit(values: &[Value], place: usize) -> u8
    ensures exact { result ≡ bit_of (map is_null values.now) place }
    ensures one { result ≤ 1 }
{
    match values.get(place) {
        Some(value) => { if value.is_null() { 1 } else { 0 } }
        None => 0,
    }
}

/// The bits of the first eight values.
fn byte(values: &[Value]) -> u8
    ensures { result ≡ byte_of (take 8 (map is_null values.now)) }
{
    let low = bit(values, 0) + 2 * bit(values, 1) + 4 * bit(values, 2) + 8 * bit(values, 3);
    let high = bit(values, 4) + 2 * bit(values, 5) + 4 * bit(values, 6) + 8 * bit(values, 7);
    low + 16 * high
}

/// The values behind the first eight.
#[tactic(auto, using(crate::proofs::Packing::few_nulls, crate::proofs::Packing::drop_nulls))]
fn behind_eight(values: &[Value]) -> &[Value]
    ensures { map is_null result.now ≡ drop 8 (map is_null values.now) }
{
    if values.len() <= 8 {
        return &[];
    }
    &values[8..]
}

/// Puts the bits of a row at the end.
pub fn put_bits(row: &[Value], out: &mut Bytes) -> Result<(), NoMemory>
    ensures ok { OnOk result (out.new ≡ out.old ++ bits_bytes (map is_null row.now)) }
    ensures err { OnErr result (BeginsWith out.new out.old) }
{
    let mut rest = row;
    for _byte in 0..row.len().div_ceil(8) {
        out.push(byte(rest))?;
        rest = behind_eight(rest);
    }
    Ok(())
}
