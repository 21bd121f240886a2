//! The body of a TABLE_MAP: a table's name and columns.
ghost use Rattle.std.specs.Prelude.{◌≡◌, ◌<◌, ◌≤◌, ◌^◌, ◌+◌, ◌++◌, length, OnOk, OnErr};
ghost use Rattle.byte_fields.specs.Field.{BeginsWith};
ghost use Rattle.event_codec.specs.Event.{map_of};
ghost use Rattle.event_codec.specs.Bodies.{table_map_body};
ghost use Rattle.event_codec.specs.Reading.{event_seen, headed};
ghost use Rattle.event_codec.specs.Writing.{columns_bytes, names_bytes, table_map_bytes};

use crate::columns::read_columns;
use crate::event::{Event, MapView};
use crate::fault::Fault;
use crate::parts::{encoded_size, one, put_encoded, put_short_text, short_text, six, two};
use crate::schema::{SCHEMA, is_schema};
use byte_fields::{bytes_u16, bytes_u48};
use val_types::{Bytes, NoMemory};

/// The TABLE_MAP with this body.
#[tactic(auto, unfolding(crate::specs::Bodies::table_map_body))]
pub fn read_table_map(stamp: u32, length: u64, body: &[u8]) -> Result<Event<'_>, Fault>
    ensures { event_seen result ≡ headed stamp length (table_map_body body.now) }
{
    let (id, rest) = six(body)?;
    let (_, rest) = two(rest)?;
    let (schema, rest) = short_text(rest)?;
    let (zero, rest) = one(rest)?;
    let (name, rest) = short_text(rest)?;
    let (end, rest) = one(rest)?;
    if zero != 0 || end != 0 {
        return Err(Fault::Damaged);
    }
    let columns = read_columns(rest)?;
    if !is_schema(schema) {
        return Err(Fault::Foreign);
    }
    Ok(Event::TableMap(MapView {
        stamp,
        length,
        id,
        name,
        kinds: columns.kinds,
        metadata: columns.metadata,
        nulls: columns.nulls,
    }))
}

/// How many bytes a TABLE_MAP takes.
#[tactic(auto, unfolding(crate::specs::Writing::table_map_bytes, crate::specs::Writing::names_bytes, byte_fields::specs::Field::number_bytes))]
pub fn table_map_size(m: &MapView) -> u64
    requires { 19 + length (table_map_bytes (map_of m.now)) ≤ 1200000000 }
    ensures { result ≡ 19 + length (table_map_bytes (map_of m.now)) }
{
    let columns = encoded_size(m.kinds.len() as u64) + m.kinds.len() as u64;
    let metadata = encoded_size(m.metadata.len() as u64) + m.metadata.len() as u64;
    33 + m.name.len() as u64 + columns + metadata + m.nulls.len() as u64
}

/// Puts the columns of a map at the end.
#[tactic(auto, using(byte_fields::proofs::FieldLaws::begins_more))]
fn put_columns(m: &MapView, out: &mut Bytes) -> Result<(), NoMemory>
    ensures ok { OnOk result (out.new ≡ out.old ++ columns_bytes (map_of m.now)) }
    ensures err { OnErr result (BeginsWith out.new out.old) }
{
    put_encoded(m.kinds.len() as u64, out)?;
    out.extend_from_slice(m.kinds)?;
    put_encoded(m.metadata.len() as u64, out)?;
    out.extend_from_slice(m.metadata)?;
    out.extend_from_slice(m.nulls)
}

/// Puts the id and the names of a map at the end.
#[tactic(auto, using(byte_fields::proofs::FieldLaws::begins_more), unfolding(crate::specs::Writing::names_bytes))]
fn put_names(m: &MapView, out: &mut Bytes) -> Result<(), NoMemory>
    requires id { m.now.id < 2 ^ 48 }
    requires name { length m.now.name.now < 256 }
    ensures ok { OnOk result (out.new ≡ out.old ++ names_bytes (map_of m.now)) }
    ensures err { OnErr result (BeginsWith out.new out.old) }
{
    out.extend_from_slice(&bytes_u48(m.id))?;
    out.extend_from_slice(&bytes_u16(0))?;
    put_short_text(&SCHEMA, out)?;
    out.push(0)?;
    put_short_text(m.name, out)?;
    out.push(0)
}

/// Puts the body of a TABLE_MAP at the end.
#[tactic(auto, using(byte_fields::proofs::FieldLaws::begins_more), unfolding(crate::specs::Writing::table_map_bytes))]
pub fn put_table_map(m: &MapView, out: &mut Bytes) -> Result<(), NoMemory>
    requires id { m.now.id < 2 ^ 48 }
    requires name { length m.now.name.now < 256 }
    ensures ok { OnOk result (out.new ≡ out.old ++ table_map_bytes (map_of m.now)) }
    ensures err { OnErr result (BeginsWith out.new out.old) }
{
    put_names(m, out)?;
    put_columns(m, out)
}
