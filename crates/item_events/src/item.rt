//! The events of an item.
ghost use Rattle.std.specs.Prelude.{IfOk, OnErr};
ghost use Rattle.byte_fields.specs.Field.{BeginsWith};
ghost use Rattle.row_events.specs.log_model.Items.{item_events, IsCarried};
ghost use Rattle.row_events.specs.log_model.Written.{CanWriteAll};
ghost use Rattle.row_events.specs.Writing.{Wrote};

use crate::text::put_text;
use event_codec::Header;
use row_events::log_entries::Item;
use row_events::put_rows;
use std::alloc::Global;
use val_types::{Bytes, NoMemory};

/// Puts the events of an item at the end, each with the item's timestamp, from a header's place on:
/// the header behind them, whose timestamp is as it was. Where there is no memory, the bytes still
/// begin as they were.
pub fn put_item(alloc: Global, item: &Item, h: Header, out: &mut Bytes) -> Result<Header, NoMemory>
    requires carried { IsCarried item.now.rows item.now }
    requires events { CanWriteAll h.pos (item_events item.now) }
    ensures ok { IfOk result (λ to. Wrote (item_events item.now) h to out.old out.new) }
    ensures err { OnErr result (BeginsWith out.new out.old) }
{
    let own = Header {
        stamp: item.carried.stamp,
        server_id: h.server_id,
        pos: h.pos,
    };
    let behind = if item.rows {
        put_rows(alloc, &item.defs, item.changes.as_slice(), own, out)?
    } else {
        put_text(&item.text, &item.carried, own, out)?
    };
    Ok(Header {
        stamp: h.stamp,
        server_id: h.server_id,
        pos: behind.pos,
    })
}
