//! The body of a rows event.
ghost use Rattle.std.specs.Prelude.{◌≡◌, ◌<◌, ◌≤◌, ◌^◌, ◌+◌, ◌++◌, length, OnOk, OnErr};
ghost use Rattle.byte_fields.specs.Field.{BeginsWith};
ghost use Rattle.event_codec.specs.Event.{rows_of};
ghost use Rattle.event_codec.specs.Bodies.{present_after, rows_body};
ghost use Rattle.event_codec.specs.Parts.{flag_seen};
ghost use Rattle.event_codec.specs.Reading.{event_seen, headed};
ghost use Rattle.event_codec.specs.Writing.{present_bytes, rows_bytes};

use crate::bitmap::{bitmap_size, put_present, read_present};
use crate::event::{Event, RowsKind, RowsView};
use crate::fault::Fault;
use crate::parts::{encoded, encoded_size, put_encoded, six, two};
use byte_fields::{bytes_u16, bytes_u48};
use val_types::{Bytes, NoMemory};

/// The second bitmap, which UPDATE_ROWS alone has.
fn read_present_after(kind: RowsKind, columns: u64, bytes: &[u8]) -> Result<(bool, &[u8]), Fault>
    ensures { flag_seen result ≡ present_after kind columns bytes.now }
{
    match kind {
        RowsKind::Write => Ok((true, bytes)),
        RowsKind::Update => read_present(columns, bytes),
        RowsKind::Delete => Ok((true, bytes)),
    }
}

/// The rows event of a kind with this body.
#[tactic(auto, unfolding(crate::specs::Bodies::rows_body))]
pub fn read_rows(kind: RowsKind, stamp: u32, length: u64, body: &[u8]) -> Result<Event<'_>, Fault>
    ensures { event_seen result ≡ headed stamp length (rows_body kind body.now) }
{
    let (id, rest) = six(body)?;
    let (flags, rest) = two(rest)?;
    let (extra, rest) = two(rest)?;
    if extra != 2 {
        return Err(Fault::Foreign);
    }
    let (columns, rest) = encoded(rest)?;
    let (before, rest) = read_present(columns, rest)?;
    let (after, rows) = read_present_after(kind, columns, rest)?;
    if rows.is_empty() {
        return Err(Fault::Damaged);
    }
    if !(before && after) {
        return Err(Fault::Foreign);
    }
    let ends = flags % 2 == 1;
    Ok(Event::Rows(RowsView {
        stamp,
        length,
        kind,
        id,
        ends,
        columns,
        rows,
    }))
}

/// How many bytes the bitmaps take.
#[tactic(auto, using(crate::proofs::Stepping::bits_length))]
fn present_size(kind: RowsKind, columns: u64) -> u64
    requires { length (present_bytes kind columns) ≤ 1200000000 }
    ensures { result ≡ length (present_bytes kind columns) }
{
    match kind {
        RowsKind::Write => bitmap_size(columns),
        RowsKind::Update => 2 * bitmap_size(columns),
        RowsKind::Delete => bitmap_size(columns),
    }
}

/// How many bytes a rows event takes.
#[tactic(auto, unfolding(crate::specs::Writing::rows_bytes, byte_fields::specs::Field::number_bytes))]
pub fn rows_size(r: &RowsView) -> u64
    requires { 19 + length (rows_bytes (rows_of r.now)) ≤ 1200000000 }
    ensures { result ≡ 19 + length (rows_bytes (rows_of r.now)) }
{
    29 + encoded_size(r.columns) + present_size(r.kind, r.columns) + r.rows.len() as u64
}

/// Puts the bitmaps at the end.
#[tactic(auto, using(byte_fields::proofs::FieldLaws::begins_more))]
fn put_bitmaps(kind: RowsKind, columns: u64, out: &mut Bytes) -> Result<(), NoMemory>
    ensures ok { OnOk result (out.new ≡ out.old ++ present_bytes kind columns) }
    ensures err { OnErr result (BeginsWith out.new out.old) }
{
    match kind {
        RowsKind::Write => put_present(columns, out),
        RowsKind::Update => {
            put_present(columns, out)?;
            put_present(columns, out)
        }
        RowsKind::Delete => put_present(columns, out),
    }
}

/// Puts the body of a rows event at the end.
#[tactic(auto, using(byte_fields::proofs::FieldLaws::begins_more), unfolding(crate::specs::Writing::rows_bytes))]
pub fn put_rows(r: &RowsView, out: &mut Bytes) -> Result<(), NoMemory>
    requires { r.now.id < 2 ^ 48 }
    ensures ok { OnOk result (out.new ≡ out.old ++ rows_bytes (rows_of r.now)) }
    ensures err { OnErr result (BeginsWith out.new out.old) }
{
    out.extend_from_slice(&bytes_u48(r.id))?;
    out.extend_from_slice(&bytes_u16(if r.ends { 1 } else { 0 }))?;
    out.extend_from_slice(&bytes_u16(2))?;
    put_encoded(r.columns, out)?;
    put_bitmaps(r.kind, r.columns, out)?;
    out.extend_from_slice(r.rows)
}
