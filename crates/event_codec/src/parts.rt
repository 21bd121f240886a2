//! Parts of a body: what was read, and the bytes behind it.
ghost use Rattle.std.specs.Prelude.{◌≡◌, ◌<◌, ◌++◌, length, OnOk, OnErr};
ghost use Rattle.byte_fields.specs.Field.{BeginsWith};
ghost use Rattle.byte_fields.specs.LengthEncoded.{lenenc_bytes};
ghost use Rattle.event_codec.specs.Parts.{number, part, text, lenenc, number_seen, bytes_seen};
ghost use Rattle.event_codec.specs.Writing.{text_bytes};

use crate::fault::Fault;
use byte_fields::{bytes_lenenc, take_lenenc, u16_at, u32_at, u48_at, u64_at};
use val_types::{Bytes, NoMemory};

/// A number of one byte.
#[tactic(auto, unfolding(byte_fields::specs::Field::number_at))]
pub fn one(bytes: &[u8]) -> Result<(u8, &[u8]), Fault>
    ensures { number_seen result ≡ number 1 bytes.now }
{
    match bytes {
        [] => Err(Fault::Damaged),
        [byte, rest @ ..] => Ok((*byte, rest)),
    }
}

/// A number of two bytes.
pub fn two(bytes: &[u8]) -> Result<(u16, &[u8]), Fault>
    ensures { number_seen result ≡ number 2 bytes.now }
{
    if bytes.len() < 2 {
        return Err(Fault::Damaged);
    }
    Ok((u16_at(bytes, 0), &bytes[2..]))
}

/// A number of four bytes.
pub fn four(bytes: &[u8]) -> Result<(u32, &[u8]), Fault>
    ensures { number_seen result ≡ number 4 bytes.now }
{
    if bytes.len() < 4 {
        return Err(Fault::Damaged);
    }
    Ok((u32_at(bytes, 0), &bytes[4..]))
}

/// A number of six bytes.
pub fn six(bytes: &[u8]) -> Result<(u64, &[u8]), Fault>
    ensures { number_seen result ≡ number 6 bytes.now }
{
    if bytes.len() < 6 {
        return Err(Fault::Damaged);
    }
    Ok((u48_at(bytes, 0), &bytes[6..]))
}

/// A number of eight bytes.
pub fn eight(bytes: &[u8]) -> Result<(u64, &[u8]), Fault>
    ensures { number_seen result ≡ number 8 bytes.now }
{
    if bytes.len() < 8 {
        return Err(Fault::Damaged);
    }
    Ok((u64_at(bytes, 0), &bytes[8..]))
}

/// So many bytes.
pub fn some(count: u64, bytes: &[u8]) -> Result<(&[u8], &[u8]), Fault>
    ensures { bytes_seen result ≡ part count bytes.now }
{
    if (bytes.len() as u64) < count {
        return Err(Fault::Damaged);
    }
    Ok(bytes.split_at(count as usize))
}

/// A text behind a byte with its length.
#[tactic(auto, unfolding(crate::specs::Parts::text))]
pub fn short_text(bytes: &[u8]) -> Result<(&[u8], &[u8]), Fault>
    ensures { bytes_seen result ≡ text bytes.now }
{
    let (count, rest) = one(bytes)?;
    some(u64::from(count), rest)
}

/// A length-encoded integer.
#[tactic(auto, unfolding(byte_fields::specs::LengthEncoded::lenenc_at))]
pub fn encoded(bytes: &[u8]) -> Result<(u64, &[u8]), Fault>
    ensures { number_seen result ≡ lenenc bytes.now }
{
    match take_lenenc(bytes, 0) {
        Ok((number, next)) => Ok((number, &bytes[next..])),
        Err(_) => Err(Fault::Damaged),
    }
}

/// Puts a text behind a byte with its length at the end.
#[tactic(auto, using(byte_fields::proofs::FieldLaws::begins_more))]
pub fn put_short_text(text: &[u8], out: &mut Bytes) -> Result<(), NoMemory>
    requires { length text.now < 256 }
    ensures ok { OnOk result (out.new ≡ out.old ++ text_bytes text.now) }
    ensures err { OnErr result (BeginsWith out.new out.old) }
{
    out.push(text.len() as u8)?;
    out.extend_from_slice(text)
}

/// Puts a length-encoded integer at the end, in its shortest spelling.
pub fn put_encoded(number: u64, out: &mut Bytes) -> Result<(), NoMemory>
    ensures ok { OnOk result (out.new ≡ out.old ++ lenenc_bytes number) }
    ensures err { OnErr result (out.new ≡ out.old) }
{
    let (bytes, count) = bytes_lenenc(number);
    out.extend_from_slice(&bytes[..count])
}

/// How many bytes a length-encoded integer takes.
pub fn encoded_size(number: u64) -> u64
    ensures { result ≡ length (lenenc_bytes number) }
{
    bytes_lenenc(number).1 as u64
}
