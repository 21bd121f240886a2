//! The bytes of a transaction.
ghost use Rattle.std.specs.Prelude.{◌≡◌, flat_map, IfOk, OnErr};
ghost use Rattle.byte_fields.specs.Field.{BeginsWith};
ghost use Rattle.event_codec.specs.Event.{query, xid};
ghost use Rattle.binlog_sizes.specs.log_model.Items.{item_events, AreCarried};
ghost use Rattle.binlog_sizes.specs.log_model.Log.{begin_query, transaction};
ghost use Rattle.binlog_sizes.specs.log_model.Written.{bytes_of, CanWriteAll};
ghost use Rattle.binlog_sizes.specs.row_events.Writing.{Wrote};
ghost use Rattle.binlog_cache.specs.Sums.{begin_event, items_of, xid_event};

use crate::kept::Kept;
use binlog_sizes::log_entries::Carried;
use binlog_sizes::row_events::put;
use event_codec::{Event, Header, QueryView};
use item_events::put_item;
use std::alloc::Global;
use val_types::{Bytes, List, NoMemory};

/// Puts the BEGIN of a transaction at the end, with the timestamp and the thread of its first item:
/// the header behind it, whose timestamp is as it was.
fn put_begin(first: &Carried, h: Header, out: &mut Bytes) -> Result<Header, NoMemory>
    requires { CanWriteAll h.pos (begin_event first.now) }
    ensures ok { IfOk result (λ to. Wrote (begin_event first.now) h to out.old out.new) }
    ensures err { OnErr result (BeginsWith out.new out.old) }
{
    let own = Header {
        stamp: first.stamp,
        server_id: h.server_id,
        pos: h.pos,
    };
    let begin = Event::Query(QueryView {
        stamp: 0,
        length: 0,
        thread: first.connection,
        step: None,
        text: b"BEGIN",
    });
    let behind = put(&begin, own, out)?;
    Ok(Header {
        stamp: h.stamp,
        server_id: h.server_id,
        pos: behind.pos,
    })
}

/// Puts the events of items at the end.
fn put_items(
    alloc: Global,
    kept: &List<Kept>,
    h: Header,
    out: &mut Bytes,
) -> Result<Header, NoMemory>
    requires carried { AreCarried (items_of kept.now) }
    requires events { CanWriteAll h.pos (flat_map item_events (items_of kept.now)) }
    ensures ok { IfOk result (λ to. Wrote (flat_map item_events (items_of kept.now)) h to out.old out.new) }
    ensures err { OnErr result (BeginsWith out.new out.old) }
{
    let mut here = h;
    for place in 0..kept.len() {
        here = put_item(alloc, &kept[place].item, here, out)?;
    }
    Ok(here)
}

/// Puts an XID at the end.
fn put_xid(number: u64, h: Header, out: &mut Bytes) -> Result<Header, NoMemory>
    requires { CanWriteAll h.pos (xid_event h.stamp number) }
    ensures ok { IfOk result (λ to. Wrote (xid_event h.stamp number) h to out.old out.new) }
    ensures err { OnErr result (BeginsWith out.new out.old) }
{
    let event = Event::Xid {
        stamp: 0,
        length: 0,
        number,
    };
    put(&event, h, out)
}

/// The bytes of the transaction of items from a header's place on, for which so much room is made first.
pub fn encode_items(
    alloc: Global,
    kept: &List<Kept>,
    room: u64,
    number: u64,
    header: &Header,
) -> Result<Bytes, NoMemory>
    requires carried { AreCarried (items_of kept.now) }
    requires events { CanWriteAll header.now.pos (transaction header.now.stamp number (items_of kept.now)) }
    ensures { IfOk result (λ bytes. bytes ≡ bytes_of header.now.server_id header.now.pos (transaction header.now.stamp number (items_of kept.now))) }
{
    if kept.len() == 0 {
        return Ok(Bytes::new(alloc));
    }
    let mut out = Bytes::with_capacity(alloc, room as usize)?;
    let here = put_begin(&kept[0].item.carried, *header, &mut out)?;
    let here = put_items(alloc, kept, here, &mut out)?;
    put_xid(number, here, &mut out)?;
    Ok(out)
}
