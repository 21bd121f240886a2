//! The bytes of numbers, texts, values, rows and changes.
ghost use Rattle.std.specs.Prelude.{◌≡◌, ◌<◌, ◌^◌, ◌++◌, flat_map, length, OnOk, OnErr};
ghost use Rattle.std.specs.Int.{w64, cast_unsigned};
ghost use Rattle.std.specs.List.{AllByRecursion};
ghost use Rattle.byte_fields.specs.Field.{number_bytes, BeginsWith};
ghost use Rattle.store_model.specs.Bodies.{text_bytes, value_bytes, row_bytes, change_bytes, changes_bytes, IsValue, IsRow, IsChange, AreChanges};

use byte_fields::{bytes_u8, bytes_u32};
use byteorder::{ByteOrder, LittleEndian};
use val_types::{Bytes, Change, List, NoMemory, Row, Value};

/// The eight bytes of a number with its sign.
#[tactic(auto, unfolding(byte_fields::specs::Field::number_bytes))]
fn signed_bytes(number: &i64) -> [u8; 8]
    ensures { result ≡ number_bytes 8 (cast_unsigned w64 number.now) }
{
    let mut bytes = [0; 8];
    LittleEndian::write_i64(&mut bytes, *number);
    bytes
}

/// Puts a text behind its length of one byte at the end.
#[tactic(auto, using(byte_fields::proofs::FieldLaws::begins_more))]
fn put_name(name: &Bytes, out: &mut Bytes) -> Result<(), NoMemory>
    requires { length name.now < 2 ^ 8 }
    ensures ok { OnOk result (out.new ≡ out.old ++ text_bytes 1 name.now) }
    ensures err { OnErr result (BeginsWith out.new out.old) }
{
    out.extend_from_slice(&bytes_u8(name.len() as u64))?;
    out.extend_from_slice(name.as_slice())
}

/// Puts a text behind its length of four bytes at the end.
#[tactic(auto, using(byte_fields::proofs::FieldLaws::begins_more))]
pub fn put_text(text: &Bytes, out: &mut Bytes) -> Result<(), NoMemory>
    requires { length text.now < 2 ^ 32 }
    ensures ok { OnOk result (out.new ≡ out.old ++ text_bytes 4 text.now) }
    ensures err { OnErr result (BeginsWith out.new out.old) }
{
    out.extend_from_slice(&bytes_u32(text.len() as u64))?;
    out.extend_from_slice(text.as_slice())
}

/// Puts a value behind its kind at the end.
#[tactic(auto, using(byte_fields::proofs::FieldLaws::begins_more))]
fn put_value(value: &Value, out: &mut Bytes) -> Result<(), NoMemory>
    requires { IsValue value.now }
    ensures ok { OnOk result (out.new ≡ out.old ++ value_bytes value.now) }
    ensures err { OnErr result (BeginsWith out.new out.old) }
{
    match value {
        Value::Null => out.extend_from_slice(&bytes_u8(0)),
        Value::Int(number) => {
            out.extend_from_slice(&bytes_u8(1))?;
            out.extend_from_slice(&signed_bytes(number))
        }
        Value::Text(text) => {
            out.extend_from_slice(&bytes_u8(2))?;
            put_text(text, out)
        }
    }
}

/// Puts values at the end, one behind the other.
#[tactic(auto, using(byte_fields::proofs::FieldLaws::begins_more))]
fn put_values(values: &[Value], out: &mut Bytes) -> Result<(), NoMemory>
    requires { AllByRecursion IsValue values.now }
    ensures ok { OnOk result (out.new ≡ out.old ++ flat_map value_bytes values.now) }
    ensures err { OnErr result (BeginsWith out.new out.old) }
{
    for value in values {
        put_value(value, out)?;
    }
    Ok(())
}

/// Puts a row behind the count of its values at the end.
#[tactic(auto, using(byte_fields::proofs::FieldLaws::begins_more), unfolding(store_model::specs::Bodies::row_bytes))]
pub fn put_row(row: &Row, out: &mut Bytes) -> Result<(), NoMemory>
    requires { IsRow row.now }
    ensures ok { OnOk result (out.new ≡ out.old ++ row_bytes row.now) }
    ensures err { OnErr result (BeginsWith out.new out.old) }
{
    out.extend_from_slice(&bytes_u8(row.len() as u64))?;
    put_values(row.as_slice(), out)
}

/// Puts the kind of a change and the name of its table at the end.
#[tactic(auto, using(byte_fields::proofs::FieldLaws::begins_more))]
fn put_named(kind: u8, name: &Bytes, out: &mut Bytes) -> Result<(), NoMemory>
    requires { length name.now < 2 ^ 8 }
    ensures ok { OnOk result (out.new ≡ out.old ++ (number_bytes 1 kind ++ text_bytes 1 name.now)) }
    ensures err { OnErr result (BeginsWith out.new out.old) }
{
    out.extend_from_slice(&bytes_u8(u64::from(kind)))?;
    put_name(name, out)
}

/// Puts a change behind its kind and the name of its table at the end.
#[tactic(auto, using(byte_fields::proofs::FieldLaws::begins_more), unfolding(store_model::specs::Bodies::change_bytes))]
fn put_change(change: &Change, out: &mut Bytes) -> Result<(), NoMemory>
    requires { IsChange change.now }
    ensures ok { OnOk result (out.new ≡ out.old ++ change_bytes change.now) }
    ensures err { OnErr result (BeginsWith out.new out.old) }
{
    match change {
        Change::Insert { table, row } => {
            put_named(1, table.get(), out)?;
            put_row(row.get(), out)
        }
        Change::Update {
            table,
            before,
            after,
        } => {
            put_named(2, table.get(), out)?;
            put_row(before.get(), out)?;
            put_row(after.get(), out)
        }
        Change::Delete { table, row } => {
            put_named(3, table.get(), out)?;
            put_row(row.get(), out)
        }
    }
}

/// Puts changes at the end, one behind the other.
#[tactic(auto, using(byte_fields::proofs::FieldLaws::begins_more))]
fn put_each(changes: &[Change], out: &mut Bytes) -> Result<(), NoMemory>
    requires { AllByRecursion IsChange changes.now }
    ensures ok { OnOk result (out.new ≡ out.old ++ flat_map change_bytes changes.now) }
    ensures err { OnErr result (BeginsWith out.new out.old) }
{
    for change in changes {
        put_change(change, out)?;
    }
    Ok(())
}

/// Puts changes behind their count at the end.
#[tactic(auto, using(byte_fields::proofs::FieldLaws::begins_more))]
pub fn put_changes(changes: &List<Change>, out: &mut Bytes) -> Result<(), NoMemory>
    requires { AreChanges changes.now }
    ensures ok { OnOk result (out.new ≡ out.old ++ changes_bytes changes.now) }
    ensures err { OnErr result (BeginsWith out.new out.old) }
{
    out.extend_from_slice(&bytes_u32(changes.len() as u64))?;
    put_each(changes.as_slice(), out)
}
