//! The bytes of numbers.
ghost use Rattle.std.specs.Prelude.{◌≡◌, ◌<◌, ◌^◌, take, length};
ghost use Rattle.byte_fields.specs.Field.{number_bytes};
ghost use Rattle.byte_fields.specs.LengthEncoded.{lenenc_bytes};

use byteorder::{ByteOrder, LittleEndian};

/// The one byte of a number.
#[tactic(auto, unfolding(crate::specs::Field::number_bytes))]
pub fn bytes_u8(v: u64) -> [u8; 1]
    requires { v < 2 ^ 8 }
    ensures { result ≡ number_bytes 1 v }
{
    [v as u8]
}

/// The two bytes of a number.
#[tactic(auto, unfolding(crate::specs::Field::number_bytes))]
pub fn bytes_u16(v: u64) -> [u8; 2]
    requires { v < 2 ^ 16 }
    ensures { result ≡ number_bytes 2 v }
{
    let mut bytes = [0; 2];
    LittleEndian::write_u16(&mut bytes, v as u16);
    bytes
}

/// The three bytes of a number.
#[tactic(auto, unfolding(crate::specs::Field::number_bytes))]
fn bytes_u24(v: u64) -> [u8; 3]
    requires { v < 2 ^ 24 }
    ensures { result ≡ number_bytes 3 v }
{
    let mut bytes = [0; 3];
    LittleEndian::write_u24(&mut bytes, v as u32);
    bytes
}

/// The four bytes of a number.
#[tactic(auto, unfolding(crate::specs::Field::number_bytes))]
pub fn bytes_u32(v: u64) -> [u8; 4]
    requires { v < 2 ^ 32 }
    ensures { result ≡ number_bytes 4 v }
{
    let mut bytes = [0; 4];
    LittleEndian::write_u32(&mut bytes, v as u32);
    bytes
}

/// The six bytes of a number.
#[tactic(auto, unfolding(crate::specs::Field::number_bytes))]
pub fn bytes_u48(v: u64) -> [u8; 6]
    requires { v < 2 ^ 48 }
    ensures { result ≡ number_bytes 6 v }
{
    let mut bytes = [0; 6];
    LittleEndian::write_u48(&mut bytes, v);
    bytes
}

/// The eight bytes of a number.
#[tactic(auto, unfolding(crate::specs::Field::number_bytes))]
pub fn bytes_u64(v: u64) -> [u8; 8]
    ensures { result ≡ number_bytes 8 v }
{
    let mut bytes = [0; 8];
    LittleEndian::write_u64(&mut bytes, v);
    bytes
}

/// The shortest spelling of a length-encoded integer, in the front of nine bytes, and how many of them
/// count.
#[tactic(auto, unfolding(crate::specs::LengthEncoded::lenenc_bytes, crate::specs::Field::number_bytes))]
pub fn bytes_lenenc(v: u64) -> ([u8; 9], usize)
    ensures bytes { take result.1 result.0 ≡ lenenc_bytes v }
    ensures count { result.1 ≡ length (lenenc_bytes v) }
{
    if v < 251 {
        ([v as u8, 0, 0, 0, 0, 0, 0, 0, 0], 1)
    } else if v < 0x1_0000 {
        let [a, b] = bytes_u16(v);
        ([252, a, b, 0, 0, 0, 0, 0, 0], 3)
    } else if v < 0x100_0000 {
        let [a, b, c] = bytes_u24(v);
        ([253, a, b, c, 0, 0, 0, 0, 0], 4)
    } else {
        let [a, b, c, d, e, f, g, h] = bytes_u64(v);
        ([254, a, b, c, d, e, f, g, h], 9)
    }
}
