//! Numbers taken from bytes.
ghost use Rattle.std.specs.Prelude.{◌≡◌, ◌+◌, ◌≤◌, length};
ghost use Rattle.byte_fields.specs.Field.{number_at, field_at};
ghost use Rattle.byte_fields.specs.LengthEncoded.{lenenc_behind, lenenc_at};

use crate::refusal::{LenRefusal, Short};
use byteorder::{ByteOrder, LittleEndian};

/// The number in the two bytes from a place.
pub fn u16_at(bytes: &[u8], at: usize) -> u16
    requires { at + 2 ≤ length bytes.now }
    ensures { result ≡ number_at at 2 bytes.now }
{
    LittleEndian::read_u16(&bytes[at..])
}

/// The number in the four bytes from a place.
pub fn u32_at(bytes: &[u8], at: usize) -> u32
    requires { at + 4 ≤ length bytes.now }
    ensures { result ≡ number_at at 4 bytes.now }
{
    LittleEndian::read_u32(&bytes[at..])
}

/// The number in the six bytes from a place.
pub fn u48_at(bytes: &[u8], at: usize) -> u64
    requires { at + 6 ≤ length bytes.now }
    ensures { result ≡ number_at at 6 bytes.now }
{
    LittleEndian::read_u48(&bytes[at..])
}

/// The number in the eight bytes from a place.
pub fn u64_at(bytes: &[u8], at: usize) -> u64
    requires { at + 8 ≤ length bytes.now }
    ensures { result ≡ number_at at 8 bytes.now }
{
    LittleEndian::read_u64(&bytes[at..])
}

/// The number of one byte, and the place behind it.
#[tactic(auto, unfolding(crate::specs::Field::number_at))]
pub fn take_u8(bytes: &[u8], at: usize) -> Result<(u64, usize), Short>
    requires { at ≤ length bytes.now }
    ensures { result ≡ field_at 1 bytes.now at }
{
    if bytes.len() - at < 1 {
        return Err(Short { need: 1 });
    }
    Ok((u64::from(bytes[at]), at + 1))
}

/// The number of two bytes, and the place behind it.
pub fn take_u16(bytes: &[u8], at: usize) -> Result<(u64, usize), Short>
    requires { at ≤ length bytes.now }
    ensures { result ≡ field_at 2 bytes.now at }
{
    if bytes.len() - at < 2 {
        return Err(Short { need: 2 });
    }
    Ok((u64::from(u16_at(bytes, at)), at + 2))
}

/// The number of four bytes, and the place behind it.
pub fn take_u32(bytes: &[u8], at: usize) -> Result<(u64, usize), Short>
    requires { at ≤ length bytes.now }
    ensures { result ≡ field_at 4 bytes.now at }
{
    if bytes.len() - at < 4 {
        return Err(Short { need: 4 });
    }
    Ok((u64::from(u32_at(bytes, at)), at + 4))
}

/// The number of six bytes, and the place behind it.
pub fn take_u48(bytes: &[u8], at: usize) -> Result<(u64, usize), Short>
    requires { at ≤ length bytes.now }
    ensures { result ≡ field_at 6 bytes.now at }
{
    if bytes.len() - at < 6 {
        return Err(Short { need: 6 });
    }
    Ok((u48_at(bytes, at), at + 6))
}

/// The number of eight bytes, and the place behind it.
pub fn take_u64(bytes: &[u8], at: usize) -> Result<(u64, usize), Short>
    requires { at ≤ length bytes.now }
    ensures { result ≡ field_at 8 bytes.now at }
{
    if bytes.len() - at < 8 {
        return Err(Short { need: 8 });
    }
    Ok((u64_at(bytes, at), at + 8))
}

/// The number in so many bytes from a place.
fn number(bytes: &[u8], at: usize, count: usize) -> u64
    requires few { (1 ≤ count) × (count ≤ 8) }
    requires within { at + count ≤ length bytes.now }
    ensures { result ≡ number_at at count bytes.now }
{
    LittleEndian::read_uint(&bytes[at..], count)
}

/// The number of a length-encoded integer behind its first byte.
fn take_behind(bytes: &[u8], at: usize, count: usize) -> Result<(u64, usize), LenRefusal>
    requires few { (1 ≤ count) × (count ≤ 8) }
    requires within { at + 1 ≤ length bytes.now }
    ensures { result ≡ lenenc_behind count bytes.now at }
{
    if bytes.len() - at - 1 < count {
        return Err(LenRefusal::Short { need: 1 + count });
    }
    Ok((number(bytes, at + 1, count), at + 1 + count))
}

/// A length-encoded integer, and the place behind it.
#[tactic(auto, unfolding(crate::specs::LengthEncoded::lenenc_at))]
pub fn take_lenenc(bytes: &[u8], at: usize) -> Result<(u64, usize), LenRefusal>
    requires { at ≤ length bytes.now }
    ensures { result ≡ lenenc_at bytes.now at }
{
    if bytes.len() <= at {
        return Err(LenRefusal::Short { need: 1 });
    }
    match bytes[at] {
        251 | 255 => Err(LenRefusal::Bad),
        252 => take_behind(bytes, at, 2),
        253 => take_behind(bytes, at, 3),
        254 => take_behind(bytes, at, 8),
        first => Ok((u64::from(first), at + 1)),
    }
}
