//! The body of a USER_VAR: a user variable's name and value.
ghost use Rattle.std.specs.Prelude.{◌≡◌, ◌<◌, ◌≤◌, ◌^◌, ◌+◌, ◌∷◌, ◌++◌, length, OnOk, OnErr};
ghost use Rattle.std.specs.Int.{w64, cast_signed, cast_unsigned};
ghost use Rattle.byte_fields.specs.Field.{BeginsWith, number_at};
ghost use Rattle.event_codec.specs.Event.{value_of};
ghost use Rattle.event_codec.specs.Bodies.{typed, value_at, var_value, user_var_body};
ghost use Rattle.event_codec.specs.Parts.{value_seen};
ghost use Rattle.event_codec.specs.Reading.{event_seen, headed};
ghost use Rattle.event_codec.specs.Writing.{typed_bytes, value_bytes, user_var_bytes};

use crate::event::{Event, UserVarView, VarValue};
use crate::fault::Fault;
use crate::parts::{four, one, some};
use byte_fields::{bytes_u32, bytes_u64};
use byteorder::{ByteOrder, LittleEndian};
use val_types::{Bytes, NoMemory};

/// The type of a text.
const TEXT_TYPE: u8 = 0;

/// The type of an integer.
const INTEGER_TYPE: u8 = 2;

/// The character set of bytes.
const BINARY: u32 = 63;

/// The integer in eight bytes.
#[tactic(auto, unfolding(byte_fields::specs::Field::number_at))]
fn integer(bytes: &[u8]) -> i64
    requires { length bytes.now ≡ 8 }
    ensures { result ≡ cast_signed w64 (number_at 0 8 bytes.now) }
{
    LittleEndian::read_i64(bytes)
}

/// A value by its type.
fn read_typed(kind: u8, bytes: &[u8]) -> Result<VarValue<'_>, Fault>
    requires { kind ≡ 2 → length bytes.now ≡ 8 }
    ensures { value_seen result ≡ typed kind bytes.now }
{
    match kind {
        TEXT_TYPE => Ok(VarValue::Text(bytes)),
        INTEGER_TYPE => Ok(VarValue::Int(integer(bytes))),
        _ => Err(Fault::Foreign),
    }
}

/// A value that is not NULL.
#[tactic(auto, unfolding(crate::specs::Bodies::value_at))]
fn read_value(bytes: &[u8]) -> Result<VarValue<'_>, Fault>
    ensures { value_seen result ≡ value_at bytes.now }
{
    let (kind, rest) = one(bytes)?;
    let (charset, rest) = four(rest)?;
    let (count, rest) = four(rest)?;
    let (value, rest) = some(u64::from(count), rest)?;
    let (flags, rest) = one(rest)?;
    if !rest.is_empty() || (kind == INTEGER_TYPE && count != 8) {
        return Err(Fault::Damaged);
    }
    if charset != BINARY || flags != 0 {
        return Err(Fault::Foreign);
    }
    read_typed(kind, value)
}

/// The value, NULL where 1 stands.
fn read_content(null: u8, rest: &[u8]) -> Result<VarValue<'_>, Fault>
    ensures { value_seen result ≡ var_value null rest.now }
{
    if null == 1 {
        if rest.is_empty() {
            Ok(VarValue::Null)
        } else {
            Err(Fault::Damaged)
        }
    } else if null == 0 {
        read_value(rest)
    } else {
        Err(Fault::Damaged)
    }
}

/// The USER_VAR with this body.
#[tactic(auto, unfolding(crate::specs::Bodies::user_var_body))]
pub fn read_user_var(stamp: u32, length: u64, body: &[u8]) -> Result<Event<'_>, Fault>
    ensures { event_seen result ≡ headed stamp length (user_var_body body.now) }
{
    let (count, rest) = four(body)?;
    let (name, rest) = some(u64::from(count), rest)?;
    let (null, rest) = one(rest)?;
    let value = read_content(null, rest)?;
    Ok(Event::UserVar(UserVarView {
        stamp,
        length,
        name,
        value,
    }))
}

/// The 64 bits of an integer.
fn bits(number: &i64) -> u64
    ensures { result ≡ cast_unsigned w64 number.now }
{
    number.cast_unsigned()
}

/// How many bytes the value takes, with the byte that says whether it is NULL.
#[tactic(auto, unfolding(byte_fields::specs::Field::number_bytes))]
fn value_size(value: &VarValue) -> u64
    requires { length (value_bytes (value_of value.now)) ≤ 1200000000 }
    ensures { result ≡ length (value_bytes (value_of value.now)) }
{
    match value {
        VarValue::Null => 1,
        VarValue::Int(_) => 19,
        VarValue::Text(text) => 11 + text.len() as u64,
    }
}

/// How many bytes a USER_VAR takes.
#[tactic(auto, unfolding(crate::specs::Writing::user_var_bytes, byte_fields::specs::Field::number_bytes))]
pub fn user_var_size(v: &UserVarView) -> u64
    requires { 19 + length (user_var_bytes v.now.name.now (value_of v.now.value)) ≤ 1200000000 }
    ensures { result ≡ 19 + length (user_var_bytes v.now.name.now (value_of v.now.value)) }
{
    23 + v.name.len() as u64 + value_size(&v.value)
}

/// Puts a value of a type at the end, behind the byte that says that it is not NULL.
#[tactic(auto, using(byte_fields::proofs::FieldLaws::begins_more))]
fn put_typed(kind: u8, bytes: &[u8], out: &mut Bytes) -> Result<(), NoMemory>
    requires { length bytes.now < 2 ^ 32 }
    ensures ok { OnOk result (out.new ≡ out.old ++ (0 ∷ typed_bytes kind bytes.now)) }
    ensures err { OnErr result (BeginsWith out.new out.old) }
{
    out.push(0)?;
    out.push(kind)?;
    out.extend_from_slice(&bytes_u32(u64::from(BINARY)))?;
    out.extend_from_slice(&bytes_u32(bytes.len() as u64))?;
    out.extend_from_slice(bytes)?;
    out.push(0)
}

/// Puts the value at the end, with the byte that says whether it is NULL.
#[tactic(auto, unfolding(byte_fields::specs::Field::number_bytes))]
fn put_value(value: &VarValue, out: &mut Bytes) -> Result<(), NoMemory>
    requires { length (value_bytes (value_of value.now)) ≤ 1200000000 }
    ensures ok { OnOk result (out.new ≡ out.old ++ value_bytes (value_of value.now)) }
    ensures err { OnErr result (BeginsWith out.new out.old) }
{
    match value {
        VarValue::Null => out.push(1),
        VarValue::Int(number) => put_typed(INTEGER_TYPE, &bytes_u64(bits(number)), out),
        VarValue::Text(text) => put_typed(TEXT_TYPE, text, out),
    }
}

/// Puts the body of a USER_VAR at the end.
#[tactic(auto, using(byte_fields::proofs::FieldLaws::begins_more), unfolding(crate::specs::Writing::user_var_bytes))]
pub fn put_user_var(v: &UserVarView, out: &mut Bytes) -> Result<(), NoMemory>
    requires { 19 + length (user_var_bytes v.now.name.now (value_of v.now.value)) ≤ 1200000000 }
    ensures ok { OnOk result (out.new ≡ out.old ++ user_var_bytes v.now.name.now (value_of v.now.value)) }
    ensures err { OnErr result (BeginsWith out.new out.old) }
{
    out.extend_from_slice(&bytes_u32(v.name.len() as u64))?;
    out.extend_from_slice(v.name)?;
    put_value(&v.value, out)
}
