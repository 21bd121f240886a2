//! What stands at the front of some bytes of a log.
ghost use Rattle.std.specs.Prelude.{◌≡◌};
ghost use Rattle.event_codec.specs.Reading.{reading, reading_of, body_at, headed, event_seen, Within};

use crate::event::{Event, RowsKind};
use crate::fault::Fault;
use crate::format_description::read_format_description;
use crate::numbers::{read_int_var, read_rand, read_xid};
use crate::query::read_query;
use crate::rotate::read_rotate;
use crate::rows::read_rows;
use crate::table_map::read_table_map;
use crate::user_var::read_user_var;
use byte_fields::u32_at;

/// How many bytes a header has.
const HEADER_LENGTH: usize = 19;

/// Where the last event of a log ends at most.
const LAST_END: u64 = 1_200_000_000;

/// What stands at the front of some bytes: an event; fewer bytes than the `need` that show more; an
/// event outside its form; or one of a type, or with a value, that this log does not know. `pos` is
/// the place of the first byte in the log and `kind` the type's number.
#[derive(Clone, Copy)]
pub enum Read<'a> {
    Event(Event<'a>),
    Short { need: u64 },
    Damaged { pos: u64 },
    Foreign { pos: u64, kind: u8 },
}

/// The event of a type with this body.
fn read_body(kind: u8, stamp: u32, length: u64, body: &[u8]) -> Result<Event<'_>, Fault>
    ensures { event_seen result ≡ headed stamp length (body_at kind body.now) }
{
    match kind {
        2 => read_query(stamp, length, body),
        4 => read_rotate(stamp, length, body),
        5 => read_int_var(stamp, length, body),
        13 => read_rand(stamp, length, body),
        14 => read_user_var(stamp, length, body),
        15 => read_format_description(stamp, length, body),
        16 => read_xid(stamp, length, body),
        19 => read_table_map(stamp, length, body),
        30 => read_rows(RowsKind::Write, stamp, length, body),
        31 => read_rows(RowsKind::Update, stamp, length, body),
        32 => read_rows(RowsKind::Delete, stamp, length, body),
        _ => Err(Fault::Foreign),
    }
}

/// What stands at the front of `bytes`, which stand from `pos` on in their log.
#[tactic(auto, unfolding(crate::specs::Reading::reading))]
fn stands_at(bytes: &[u8], pos: u64) -> Read<'_>
    ensures exact { reading_of result ≡ reading bytes.now pos }
{
    if bytes.len() < HEADER_LENGTH {
        return Read::Short { need: 19 };
    }
    let stamp = u32_at(bytes, 0);
    let kind = bytes[4];
    let length = u64::from(u32_at(bytes, 9));
    let next = u64::from(u32_at(bytes, 13));
    if length < 19 || next > LAST_END || next.checked_sub(length) != Some(pos) {
        return Read::Damaged { pos };
    }
    if (bytes.len() as u64) < length {
        return Read::Short { need: length };
    }
    match read_body(kind, stamp, length, &bytes[HEADER_LENGTH..length as usize]) {
        Ok(event) => Read::Event(event),
        Err(Fault::Damaged) => Read::Damaged { pos },
        Err(Fault::Foreign) => Read::Foreign { pos, kind },
    }
}

/// Reads the event at the front of `bytes`, which stand from `pos` on in their log. What follows the
/// event is not looked at.
pub fn read_event(bytes: &[u8], pos: u64) -> Read<'_>
    ensures exact { reading_of result ≡ reading bytes.now pos }
    ensures within { Within bytes.now pos (reading_of result) }
{
    stands_at(bytes, pos)
}
