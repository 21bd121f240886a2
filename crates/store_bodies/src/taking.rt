//! Numbers and texts at the front of some bytes, and what is behind them.
ghost use Rattle.std.specs.Prelude.{◌≡◌};
ghost use Rattle.std.specs.Int.{w64, cast_signed};
ghost use Rattle.store_model.specs.Reading.{read_as, number_of, piece_of, text_behind};
ghost use Rattle.store_bodies.specs.Seen.{seen, piece_seen};

use byte_fields::{u32_at, u64_at};
use byteorder::{ByteOrder, LittleEndian};

/// A number of one byte.
#[tactic(auto, unfolding(byte_fields::specs::Field::number_at))]
pub fn take_one(bytes: &[u8]) -> Option<(u8, &[u8])>
    ensures { seen result ≡ number_of 1 bytes.now }
{
    if bytes.len() < 1 {
        return None;
    }
    Some((bytes[0], &bytes[1..]))
}

/// A number of four bytes.
pub fn take_four(bytes: &[u8]) -> Option<(u32, &[u8])>
    ensures { seen result ≡ number_of 4 bytes.now }
{
    if bytes.len() < 4 {
        return None;
    }
    Some((u32_at(bytes, 0), &bytes[4..]))
}

/// A number of eight bytes.
pub fn take_eight(bytes: &[u8]) -> Option<(u64, &[u8])>
    ensures { seen result ≡ number_of 8 bytes.now }
{
    if bytes.len() < 8 {
        return None;
    }
    Some((u64_at(bytes, 0), &bytes[8..]))
}

/// A number of eight bytes with its sign.
#[tactic(auto, unfolding(byte_fields::specs::Field::number_at))]
pub fn take_signed(bytes: &[u8]) -> Option<(i64, &[u8])>
    ensures { seen result ≡ read_as (cast_signed w64) (number_of 8 bytes.now) }
{
    if bytes.len() < 8 {
        return None;
    }
    Some((LittleEndian::read_i64(bytes), &bytes[8..]))
}

/// So many bytes.
pub fn take_piece(count: usize, bytes: &[u8]) -> Option<(&[u8], &[u8])>
    ensures { piece_seen result ≡ piece_of count bytes.now }
{
    if bytes.len() < count {
        return None;
    }
    Some(bytes.split_at(count))
}

/// A text behind its length of one byte.
pub fn take_name(bytes: &[u8]) -> Option<(&[u8], &[u8])>
    ensures { piece_seen result ≡ text_behind 1 bytes.now }
{
    match take_one(bytes) {
        Some((count, rest)) => take_piece(usize::from(count), rest),
        None => None,
    }
}

/// A text behind its length of four bytes.
pub fn take_text(bytes: &[u8]) -> Option<(&[u8], &[u8])>
    ensures { piece_seen result ≡ text_behind 4 bytes.now }
{
    match take_four(bytes) {
        Some((count, rest)) => take_piece(count as usize, rest),
        None => None,
    }
}
