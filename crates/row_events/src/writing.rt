//! Events that are written one after the other.
ghost use Rattle.std.specs.Prelude.{◌≡◌, OnErr, IfOk};
ghost use Rattle.byte_fields.specs.Field.{BeginsWith};
ghost use Rattle.log_model.specs.Written.{CanWriteAll};
ghost use Rattle.row_events.specs.Writing.{one, Wrote};

use event_codec::{Event, Header, write_event};
use val_types::{Bytes, NoMemory};

/// Puts an event at the end, with a header's timestamp, server and place: the header behind it. Where
/// there is no memory, the bytes still begin as they were.
pub fn put(event: &Event, h: Header, out: &mut Bytes) -> Result<Header, NoMemory>
    requires { CanWriteAll h.pos (one h.stamp event.now) }
    ensures ok { IfOk result (λ to. Wrote (one h.stamp event.now) h to out.old out.new) }
    ensures err { OnErr result (BeginsWith out.new out.old) }
{
    let start = out.len();
    write_event(event, &h, out)?;
    Ok(Header {
        stamp: h.stamp,
        server_id: h.server_id,
        pos: h.pos + (out.len() - start) as u64,
    })
}
