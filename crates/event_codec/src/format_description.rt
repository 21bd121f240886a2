//! The body of a FORMAT_DESCRIPTION: the layout of the log's events.
ghost use Rattle.std.specs.Prelude.{◌≡◌, ◌++◌, OnOk, OnErr};
ghost use Rattle.byte_fields.specs.Field.{BeginsWith};
ghost use Rattle.event_codec.specs.Bodies.{post_header_lengths, format_description_body};
ghost use Rattle.event_codec.specs.Reading.{event_seen, headed};
ghost use Rattle.event_codec.specs.Writing.{format_description_bytes, layout_bytes};

use crate::event::Event;
use crate::fault::Fault;
use crate::parts::{four, one, some, two};
use byte_fields::{bytes_u16, bytes_u32};
use val_types::{Bytes, NoMemory};

/// How long the fixed part behind the header is, for each type from 1 on.
pub const POST_HEADER_LENGTHS: [u8; 38] = [
    0x38, 0x0d, 0x00, 0x08, 0x00, 0x12, 0x00, 0x04, 0x04, 0x04, 0x04, 0x12, 0x00, 0x00, 0x5f, 0x00,
    0x04, 0x1a, 0x08, 0x00, 0x00, 0x00, 0x08, 0x08, 0x08, 0x02, 0x00, 0x00, 0x00, 0x0a, 0x0a, 0x0a,
    0x2a, 0x2a, 0x00, 0x12, 0x34, 0x00,
];

/// The FORMAT_DESCRIPTION with this body.
#[tactic(auto, unfolding(crate::specs::Bodies::format_description_body))]
pub fn read_format_description(stamp: u32, length: u64, body: &[u8]) -> Result<Event<'_>, Fault>
    ensures { event_seen result ≡ headed stamp length (format_description_body body.now) }
{
    let (log, rest) = two(body)?;
    let (version, rest) = some(50, rest)?;
    let (_, rest) = four(rest)?;
    let (header, rest) = one(rest)?;
    let (lengths, rest) = some(38, rest)?;
    let (checksum, rest) = one(rest)?;
    let (_, rest) = four(rest)?;
    if !rest.is_empty() {
        return Err(Fault::Damaged);
    }
    if log != 4 || header != 19 || lengths != POST_HEADER_LENGTHS.as_slice() || checksum != 0 {
        return Err(Fault::Foreign);
    }
    Ok(Event::FormatDescription {
        stamp,
        length,
        version,
    })
}

/// Puts a time and the layout of events at the end.
#[tactic(auto, using(byte_fields::proofs::FieldLaws::begins_more), unfolding(crate::specs::Writing::layout_bytes))]
fn put_layout(stamp: u32, out: &mut Bytes) -> Result<(), NoMemory>
    ensures ok { OnOk result (out.new ≡ out.old ++ layout_bytes stamp) }
    ensures err { OnErr result (BeginsWith out.new out.old) }
{
    out.extend_from_slice(&bytes_u32(u64::from(stamp)))?;
    out.push(19)?;
    out.extend_from_slice(&POST_HEADER_LENGTHS)?;
    out.push(0)?;
    out.extend_from_slice(&bytes_u32(0))
}

/// Puts the body of a FORMAT_DESCRIPTION at the end, made at a time.
#[tactic(auto, using(byte_fields::proofs::FieldLaws::begins_more), unfolding(crate::specs::Writing::format_description_bytes))]
pub fn put_format_description(stamp: u32, version: &[u8], out: &mut Bytes) -> Result<(), NoMemory>
    ensures ok { OnOk result (out.new ≡ out.old ++ format_description_bytes stamp version.now) }
    ensures err { OnErr result (BeginsWith out.new out.old) }
{
    out.extend_from_slice(&bytes_u16(4))?;
    out.extend_from_slice(version)?;
    put_layout(stamp, out)
}
