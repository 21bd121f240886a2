//! The bytes of a CREATE, DROP or TRUNCATE.
ghost use Rattle.std.specs.Prelude.{◌≡◌, ◌<◌, ◌≤◌, ◌^◌, ℕ, IfOk, IfSome};
ghost use Rattle.log_entry_laws.specs.log_entries.declared.entries.Entry.TheVariants.{Definition};
ghost use Rattle.log_entry_laws.specs.log_model.Items.{step_of};
ghost use Rattle.binlog_items.specs.Items.{item_by_text};
ghost use Rattle.binlog_items.specs.Logged.{Encodes};

use crate::items::LAST_END;
use event_codec::{Event, Header, QueryView, Step};
use row_laws::row_events::put;
use session_ctx::Ctx;
use std::alloc::{AllocError, Global};
use val_types::{Bytes, NoMemory};

/// The most bytes that a QUERY has beside its text.
const HEAD: u64 = 40;

/// The two AUTO_INCREMENT variables, where they are not 1 and 1.
fn step(context: &Ctx) -> Option<Step>
    ensures value { result ≡ step_of context.now.increment context.now.offset }
    ensures counts { IfSome result (λ step. (1 ≤ step.increment) × (1 ≤ step.offset)) }
    ensures words { IfSome result (λ step. (step.increment < 2 ^ 16) × (step.offset < 2 ^ 16)) }
{
    let (increment, offset) = (context.increment(), context.offset());
    if increment == 1 && offset == 1 {
        None
    } else {
        Some(Step { increment, offset })
    }
}

/// The bytes of a definition with a text, made in a context, from a place on. A text that reads BEGIN, which is none, and a
/// place too far behind are refused as where memory is short.
pub fn encode_definition(
    alloc: Global,
    text: &[u8],
    context: &Ctx,
    server_id: u32,
    pos: u64,
) -> Result<Bytes, NoMemory>
    ensures { (committed : ℕ) → IfOk result (λ bytes. Encodes (Definition context.now.stamp server_id (item_by_text text.now context.now)) committed pos bytes) }
{
    let room = (text.len() as u64).saturating_add(HEAD);
    if text == b"BEGIN".as_slice() || pos.saturating_add(room) > LAST_END {
        return Err(AllocError);
    }
    let header = Header {
        stamp: context.stamp(),
        server_id,
        pos,
    };
    let event = Event::Query(QueryView {
        stamp: 0,
        length: 0,
        thread: context.connection(),
        step: step(context),
        text,
    });
    let mut out = Bytes::with_capacity(alloc, room as usize)?;
    put(&event, header, &mut out)?;
    Ok(out)
}
