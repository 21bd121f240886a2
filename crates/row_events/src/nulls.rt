//! The bits of a map: one for each column, set where it may be NULL.
ghost use Rattle.std.specs.Prelude.{◌≡◌, ◌≤◌, drop, map, take, IfOk};
ghost use Rattle.log_model.specs.Images.{bits_bytes, byte_of};
ghost use Rattle.log_model.specs.Items.{is_nullable};
ghost use Rattle.row_image.specs.Walk.{bit_of};

use std::alloc::Global;
use val_types::{Bytes, ColumnDef, NoMemory};

/// The bit of a column, 0 behind the last.
#[tactic(auto, using(crate::proofs::Nullable::none_bit))]
fn bit(columns: &[ColumnDef], place: usize) -> u8
    ensures exact { result ≡ bit_of (map is_nullable columns.now) place }
    ensures one { result ≤ 1 }
{
    match columns.get(place) {
        Some(column) => { if column.nullable { 1 } else { 0 } }
        None => 0,
    }
}

/// The bits of the first eight columns.
fn byte(columns: &[ColumnDef]) -> u8
    ensures { result ≡ byte_of (take 8 (map is_nullable columns.now)) }
{
    let low = bit(columns, 0) + 2 * bit(columns, 1) + 4 * bit(columns, 2) + 8 * bit(columns, 3);
    let high = bit(columns, 4) + 2 * bit(columns, 5) + 4 * bit(columns, 6) + 8 * bit(columns, 7);
    low + 16 * high
}

/// The columns behind the first eight.
#[tactic(auto, using(crate::proofs::Nullable::few_columns, crate::proofs::Nullable::drop_columns))]
fn behind_eight(columns: &[ColumnDef]) -> &[ColumnDef]
    ensures { map is_nullable result.now ≡ drop 8 (map is_nullable columns.now) }
{
    if columns.len() <= 8 {
        return &[];
    }
    &columns[8..]
}

/// The bits of columns that may be NULL.
pub fn nulls_of(alloc: Global, columns: &[ColumnDef]) -> Result<Bytes, NoMemory>
    ensures { IfOk result (λ bytes. bytes ≡ bits_bytes (map is_nullable columns.now)) }
{
    let mut bytes = Bytes::new(alloc);
    let mut rest = columns;
    for _byte in 0..columns.len().div_ceil(8) {
        bytes.push(byte(rest))?;
        rest = behind_eight(rest);
    }
    Ok(bytes)
}
