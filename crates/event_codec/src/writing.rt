//! An event's bytes.
ghost use Rattle.std.specs.Prelude.{◌≡◌, ◌+◌, ◌<◌, ◌≤◌, ◌^◌, ◌++◌, OnOk, OnErr};
ghost use Rattle.byte_fields.specs.Field.{BeginsWith};
ghost use Rattle.event_codec.specs.Event.{body_of};
ghost use Rattle.event_codec.specs.Writing.{body_bytes, event_bytes, header_bytes, kind_of, rows_kind, size, CanWrite};

use crate::event::{Event, Header, RowsKind};
use crate::format_description::put_format_description;
use crate::numbers::{put_int_var, put_rand};
use crate::query::{put_query, query_size};
use crate::rotate::put_rotate;
use crate::rows::{put_rows, rows_size};
use crate::table_map::{put_table_map, table_map_size};
use crate::user_var::{put_user_var, user_var_size};
use byte_fields::{bytes_u16, bytes_u32, bytes_u64};
use val_types::{Bytes, NoMemory};

/// The type's number of a rows event.
fn kind_of_rows(kind: RowsKind) -> u8
    ensures { result ≡ rows_kind kind }
{
    match kind {
        RowsKind::Write => 30,
        RowsKind::Update => 31,
        RowsKind::Delete => 32,
    }
}

/// The number of an event's type.
fn kind(e: &Event) -> u8
    ensures { result ≡ kind_of (body_of e.now) }
{
    match e {
        Event::Query(_) => 2,
        Event::Rotate { .. } => 4,
        Event::IntVar { .. } => 5,
        Event::Rand { .. } => 13,
        Event::UserVar(_) => 14,
        Event::FormatDescription { .. } => 15,
        Event::Xid { .. } => 16,
        Event::TableMap(_) => 19,
        Event::Rows(r) => kind_of_rows(r.kind),
    }
}

/// How many bytes an event takes.
#[tactic(auto, unfolding(crate::specs::Writing::size, crate::specs::Writing::rotate_bytes, crate::specs::Writing::format_description_bytes, crate::specs::Writing::layout_bytes, crate::specs::LogName::log_name, byte_fields::specs::Field::number_bytes))]
fn size_of(e: &Event) -> u64
    requires { size (body_of e.now) ≤ 1200000000 }
    ensures { result ≡ size (body_of e.now) }
{
    match e {
        Event::Query(v) => query_size(v),
        Event::Rotate { .. } => 40,
        Event::IntVar { .. } => 28,
        Event::Rand { .. } => 35,
        Event::UserVar(v) => user_var_size(v),
        Event::FormatDescription { version, .. } => 69 + version.len() as u64,
        Event::Xid { .. } => 27,
        Event::TableMap(m) => table_map_size(m),
        Event::Rows(r) => rows_size(r),
    }
}

/// Puts the header of an event of a type and a length at the end.
#[tactic(auto, using(byte_fields::proofs::FieldLaws::begins_more), unfolding(crate::specs::Writing::header_bytes))]
fn put_header(kind: u8, size: u64, h: &Header, out: &mut Bytes) -> Result<(), NoMemory>
    requires { h.now.pos + size < 2 ^ 32 }
    ensures ok { OnOk result (out.new ≡ out.old ++ header_bytes kind size h.now) }
    ensures err { OnErr result (BeginsWith out.new out.old) }
{
    out.extend_from_slice(&bytes_u32(u64::from(h.stamp)))?;
    out.push(kind)?;
    out.extend_from_slice(&bytes_u32(u64::from(h.server_id)))?;
    out.extend_from_slice(&bytes_u32(size))?;
    out.extend_from_slice(&bytes_u32(h.pos + size))?;
    out.extend_from_slice(&bytes_u16(0))
}

/// Puts the body of an event at the end, or a front of it, written at a time.
#[tactic(auto, unfolding(crate::specs::Writing::size))]
fn put_body(e: &Event, h: &Header, out: &mut Bytes) -> Result<(), NoMemory>
    requires { CanWrite (body_of e.now) h.now.pos }
    ensures ok { OnOk result (out.new ≡ out.old ++ body_bytes h.now.stamp (body_of e.now)) }
    ensures err { OnErr result (BeginsWith out.new out.old) }
{
    match e {
        Event::Query(v) => put_query(v, out),
        Event::Rotate { next, .. } => put_rotate(*next, out),
        Event::IntVar { kind, value, .. } => put_int_var(*kind, *value, out),
        Event::Rand { first, second, .. } => put_rand(*first, *second, out),
        Event::UserVar(v) => put_user_var(v, out),
        Event::FormatDescription { version, .. } => put_format_description(h.stamp, version, out),
        Event::Xid { number, .. } => out.extend_from_slice(&bytes_u64(*number)),
        Event::TableMap(m) => put_table_map(m, out),
        Event::Rows(r) => put_rows(r, out),
    }
}

/// Puts an event at the end, or a front of it.
#[tactic(auto, using(byte_fields::proofs::FieldLaws::begins_more), unfolding(crate::specs::Writing::event_bytes))]
fn put_event(e: &Event, h: &Header, out: &mut Bytes) -> Result<(), NoMemory>
    requires { CanWrite (body_of e.now) h.now.pos }
    ensures ok { OnOk result (out.new ≡ out.old ++ event_bytes (body_of e.now) h.now) }
    ensures err { OnErr result (BeginsWith out.new out.old) }
{
    put_header(kind(e), size_of(e), h, out)?;
    put_body(e, h, out)
}

/// Writes an event to the end of `out`, with the header's timestamp and with the length that the
/// event takes: those that the event has are not looked at.
pub fn write_event(e: &Event, h: &Header, out: &mut Bytes) -> Result<(), NoMemory>
    requires { CanWrite (body_of e.now) h.now.pos }
    ensures ok { OnOk result (out.new ≡ out.old ++ event_bytes (body_of e.now) h.now) }
    ensures err { OnErr result (out.new ≡ out.old) }
{
    let start = out.len();
    let written = put_event(e, h, out);
    if written.is_err() {
        out.truncate(start);
    }
    written
}
