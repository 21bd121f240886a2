//! A bit for each column, eight in a byte.
ghost use Rattle.std.specs.Prelude.{◌≡◌, ◌==◌, ◌%◌, ◌+◌, ◌++◌, OnOk, OnErr};
ghost use Rattle.byte_fields.specs.Field.{BeginsWith};
ghost use Rattle.event_codec.specs.Bitmap.{bitmap_size, mask, all_present, present, present_bits};
ghost use Rattle.event_codec.specs.Parts.{flag_seen};

use crate::fault::Fault;
use crate::parts::some;
use val_types::{Bytes, NoMemory};

/// How many bytes the bits of so many columns take.
pub fn bitmap_size(columns: u64) -> u64
    ensures { result ≡ bitmap_size columns }
{
    columns / 8 + if columns % 8 == 0 { 0 } else { 1 }
}

/// The bits of a byte that stand for columns, where so many are left.
pub fn mask(columns: u64) -> u8
    ensures { result ≡ mask columns }
{
    match columns {
        0 => 0,
        1 => 1,
        2 => 3,
        3 => 7,
        4 => 15,
        5 => 31,
        6 => 63,
        7 => 127,
        _ => 255,
    }
}

/// Whether a byte has the bit of each column, where so many are left.
fn has_all(columns: u64, byte: u8) -> bool
    ensures { result ≡ (byte % (mask columns + 1) == mask columns) }
{
    u16::from(byte) % (u16::from(mask(columns)) + 1) == u16::from(mask(columns))
}

/// Whether each column's bit is set.
#[tactic(auto, using(crate::proofs::Stepping::present_step))]
fn all_present(columns: u64, bits: &[u8]) -> bool
    ensures { result ≡ all_present columns bits.now }
{
    let mut left = columns;
    for byte in bits {
        if !has_all(left, *byte) {
            return false;
        }
        left = left.saturating_sub(8);
    }
    true
}

/// A bitmap: whether each column is present, and the bytes behind it.
pub fn read_present(columns: u64, bytes: &[u8]) -> Result<(bool, &[u8]), Fault>
    ensures { flag_seen result ≡ present columns bytes.now }
{
    let (bits, rest) = some(bitmap_size(columns), bytes)?;
    Ok((all_present(columns, bits), rest))
}

/// Puts a bitmap with the bit of each column at the end.
#[tactic(auto, using(crate::proofs::Stepping::bits_step))]
pub fn put_present(columns: u64, out: &mut Bytes) -> Result<(), NoMemory>
    ensures ok { OnOk result (out.new ≡ out.old ++ present_bits (bitmap_size columns) columns) }
    ensures err { OnErr result (BeginsWith out.new out.old) }
{
    let mut left = columns;
    for _byte in 0..bitmap_size(columns) {
        out.push(mask(left))?;
        left = left.saturating_sub(8);
    }
    Ok(())
}
