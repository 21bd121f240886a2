//! The bytes of values.
ghost use Rattle.std.specs.Prelude.{◌≡◌, ◌<◌, ◌≤◌, ◌^◌, ◌++◌, length, OnOk, OnErr, FitsSigned};
ghost use Rattle.std.specs.Int.{w32, w64, cast_unsigned};
ghost use Rattle.byte_fields.specs.Field.{BeginsWith, number_bytes};
ghost use Rattle.log_model.specs.Images.{IsValue, length_size, value_bytes};

use byte_fields::{bytes_u8, bytes_u16};
use byteorder::{ByteOrder, LittleEndian};
use val_types::{Bytes, ColType, NoMemory, Value};

/// The four bytes of a number.
#[tactic(auto, unfolding(byte_fields::specs::Field::number_bytes))]
fn int_bytes(number: &i64) -> [u8; 4]
    requires { FitsSigned w32 number.now }
    ensures { result ≡ number_bytes 4 (cast_unsigned w32 number.now) }
{
    let mut bytes = [0; 4];
    LittleEndian::write_i32(&mut bytes, *number as i32);
    bytes
}

/// The eight bytes of a number.
#[tactic(auto, unfolding(byte_fields::specs::Field::number_bytes))]
fn bigint_bytes(number: &i64) -> [u8; 8]
    ensures { result ≡ number_bytes 8 (cast_unsigned w64 number.now) }
{
    let mut bytes = [0; 8];
    LittleEndian::write_i64(&mut bytes, *number);
    bytes
}

/// Puts a text behind its length at the end.
#[tactic(auto, using(byte_fields::proofs::FieldLaws::begins_more))]
fn put_text(most: u16, text: &[u8], out: &mut Bytes) -> Result<(), NoMemory>
    requires { length text.now ≤ most }
    ensures ok { OnOk result (out.new ≡ out.old ++ (number_bytes (length_size most) (length text.now) ++ text.now)) }
    ensures err { OnErr result (BeginsWith out.new out.old) }
{
    if most <= 255 {
        out.extend_from_slice(&bytes_u8(text.len() as u64))?;
    } else {
        out.extend_from_slice(&bytes_u16(text.len() as u64))?;
    }
    out.extend_from_slice(text)
}

/// Puts a value of a column's type at the end; NULL has no bytes.
pub fn put_value(kind: ColType, value: &Value, out: &mut Bytes) -> Result<(), NoMemory>
    requires { IsValue kind value.now }
    ensures ok { OnOk result (out.new ≡ out.old ++ value_bytes kind value.now) }
    ensures err { OnErr result (BeginsWith out.new out.old) }
{
    match (kind, value) {
        (_, Value::Null) => Ok(()),
        (ColType::Int, Value::Int(number)) => out.extend_from_slice(&int_bytes(number)),
        (ColType::BigInt, Value::Int(number)) => out.extend_from_slice(&bigint_bytes(number)),
        (ColType::Varchar(most), Value::Text(text)) => put_text(most, text.as_slice(), out),
        (ColType::Int | ColType::BigInt, Value::Text(_)) | (ColType::Varchar(_), Value::Int(_)) => {
            Ok(())
        }
    }
}
