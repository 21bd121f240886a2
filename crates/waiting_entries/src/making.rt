//! What entries leave, made before they are committed.
ghost use Rattle.std.specs.Prelude.{◌≡◌, ◌+◌, ◌<◌, ◌≤◌, ◌^◌, false, length, IfOk};
ghost use Rattle.std.specs.Bool.{OnTrue};
ghost use Rattle.binlog_items.specs.Items.{item_by_text};
ghost use Rattle.binlog_items.specs.binlog_cache.binlog_sizes.Sizes.{are_too_large, changes_size, most_bytes};
ghost use Rattle.commit_store.specs.store_model.log_entries.declared.entries.Entry.TheVariants.{Definition as AsDefinition, Transaction as AsTransaction};
ghost use Rattle.commit_store.specs.store_model.declared.record.Record.{Record as AnyRecord};
ghost use Rattle.commit_store.specs.store_model.Bodies.{IsHead};
ghost use Rattle.commit_store.specs.store_model.Held.{most_committed, latest_end};
ghost use Rattle.waiting_entries.specs.Making.{has_place};
ghost use Rattle.commit_store.specs.Next.{prepared_of};
ghost use Rattle.waiting_entries.specs.Waiting.{HasBody, Leaves};

use crate::waiting::Waiting;
use binlog_items::unsafe_rules::session_ctx::Ctx;
use binlog_items::{Items, encode_definition};
use commit_store::store_model::{Head, Record, bodies_are_counted};
use commit_store::{Prepared, are_changes};
use event_codec::Header;
use std::alloc::{AllocError, Global};
use val_types::{Bytes, Change, List, NoMemory};

/// What was made of an entry before it is committed, and where the log ends behind it.
#[derive(Drop)]
pub struct Made {
    pub waiting: Waiting,
    pub end: u32,
}

/// How many transactions a source may have.
const MOST_COMMITTED: u64 = 4_294_967_295;

/// Where its last log ends at the latest.
const LATEST_END: u32 = 1_150_000_000;

/// Whether a source's store may have an entry more at a place of a log, which then ends there.
fn fits(at: Head, end: u32) -> bool
    ensures { OnTrue result ((at.number < most_committed) × ((0 < at.log) × (end ≤ latest_end))) }
{
    at.number < MOST_COMMITTED && at.log > 0 && end <= LATEST_END
}

/// A fact of a head: its numbers have their widths.
fn is_head(head: Head)
    ensures { IsHead head }
{
    let _ = head;
}

/// The record of a transaction. Changes that have not the form of a body, of which there are none in a run, are refused as where memory
/// is short.
fn transaction_record(
    alloc: Global,
    head: Head,
    changes: List<Change>,
) -> Result<Prepared, NoMemory>
    requires { changes_size changes ≤ most_bytes }
    ensures made { IfOk result (λ p. p ≡ prepared_of (AnyRecord.Transaction head changes)) }
    ensures body { IfOk result (λ p. HasBody (AnyRecord.Transaction head changes)) }
{
    is_head(head);
    bodies_are_counted();
    if !are_changes(changes.as_slice()) {
        return Err(AllocError);
    }
    Prepared::new(alloc, &Record::Transaction { head, changes })
}

/// The record of a definition.
fn definition_record(alloc: Global, head: Head, text: &[u8]) -> Result<Prepared, NoMemory>
    requires { length text.now < 2 ^ 31 }
    ensures made { IfOk result (λ p. p ≡ prepared_of (AnyRecord.Definition head text.now)) }
    ensures body { IfOk result (λ p. HasBody (AnyRecord.Definition head text.now)) }
{
    is_head(head);
    let text = Bytes::from_slice(alloc, text)?;
    Prepared::new(alloc, &Record::Definition { head, text })
}

/// What the transaction of some items leaves, where so many were committed before, at a place of a log. One that no store may have there,
/// which never comes in a run, is refused as where memory is short.
pub fn made_transaction(
    alloc: Global,
    at: Head,
    stamp: u32,
    server_id: u32,
    items: &Items,
) -> Result<Made, NoMemory>
    requires some { 1 ≤ length items.now }
    requires small { are_too_large items.now ≡ false }
    requires few { at.number + 1 < 2 ^ 64 }
    ensures { IfOk result (λ made. Leaves (AsTransaction stamp server_id items.now) at.number (has_place at) made) }
{
    let header = Header {
        stamp,
        server_id,
        pos: u64::from(at.pos),
    };
    let tail = items.encode(alloc, at.number, &header)?;
    let end = at.pos + tail.len() as u32;
    if !fits(at, end) {
        return Err(AllocError);
    }
    let head = Head {
        number: at.number + 1,
        log: at.log,
        pos: end,
    };
    let changes = items.changes(alloc)?;
    let prepared = transaction_record(alloc, head, changes)?;
    let waiting = Waiting {
        tail,
        head: List::new(alloc),
        prepared,
        counts: true,
    };
    Ok(Made { waiting, end })
}

/// What a definition with a text leaves, made in a context, where so many transactions were committed before, at a place of a log. One
/// that no store may have there, which never comes in a run, is refused as where memory is short.
pub fn made_definition(
    alloc: Global,
    at: Head,
    text: &[u8],
    context: &Ctx,
    server_id: u32,
) -> Result<Made, NoMemory>
    requires few { at.number + 1 < 2 ^ 64 }
    ensures { IfOk result (λ made. Leaves (AsDefinition context.now.stamp server_id (item_by_text text.now context.now)) at.number (has_place at) made) }
{
    let tail = encode_definition(alloc, text, context, server_id, u64::from(at.pos))?;
    let end = at.pos + tail.len() as u32;
    if !fits(at, end) {
        return Err(AllocError);
    }
    let head = Head {
        number: at.number + 1,
        log: at.log,
        pos: end,
    };
    let prepared = definition_record(alloc, head, text)?;
    let waiting = Waiting {
        tail,
        head: List::new(alloc),
        prepared,
        counts: true,
    };
    Ok(Made { waiting, end })
}
