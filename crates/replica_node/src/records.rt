//! The records of what a replica does, made before it stands.
ghost use Rattle.std.specs.Prelude.{◌≡◌, ◌≤◌, IfOk};
ghost use Rattle.std.specs.Bool.{OnTrue};
ghost use Rattle.std.specs.List.{AllByRecursion};
ghost use Rattle.commit_store.specs.store_model.declared.record.Record.{Record as AnyRecord};
ghost use Rattle.commit_store.specs.store_model.Bodies.{IsChange, IsHead};
ghost use Rattle.replica_model.specs.apply_model.binlog_sizes.Sizes.{changes_size, most_bytes};
ghost use Rattle.replica_node.specs.Records.{IsMadeOf};

use commit_store::store_model::{Head, Record, bodies_are_counted};
use commit_store::{Prepared, are_changes};
use relay_log::Place;
use std::alloc::{AllocError, Global};
use stmt_apply::binlog_sizes::{MOST_BYTES, changes_size};
use stmt_apply::prog_run::Work;
use val_types::{Bytes, Change, NoMemory};

/// A text has fewer bytes, as no group has so many.
const TOO_LONG: usize = 2_147_483_648;

/// A fact of a head: its numbers have their widths.
fn is_head(head: Head)
    ensures { IsHead head }
{
    let _ = head;
}

/// Whether changes have the form of a body, and no more bytes than a transaction may have. In a run all do.
fn have_body(changes: &[Change]) -> bool
    ensures { OnTrue result (AllByRecursion IsChange changes.now × (changes_size changes.now ≤ most_bytes)) }
{
    changes_size(changes) <= MOST_BYTES && are_changes(changes)
}

/// The record of the changes that stand open. Those that can have no body are refused as where memory is short.
pub(crate) fn transaction_record(
    alloc: Global,
    head: Head,
    work: &Work,
) -> Result<Prepared, NoMemory>
    ensures { IfOk result (λ p. IsMadeOf p (AnyRecord.TransactionApplied head work.now.changes)) }
{
    is_head(head);
    bodies_are_counted();
    let changes = work.undo().since(0)?;
    if !have_body(changes.as_slice()) {
        return Err(AllocError);
    }
    Prepared::new(alloc, &Record::TransactionApplied { head, changes })
}

/// The record of a definition with a text.
pub(crate) fn definition_record(
    alloc: Global,
    head: Head,
    text: &[u8],
) -> Result<Prepared, NoMemory>
    ensures { IfOk result (λ p. IsMadeOf p (AnyRecord.DefinitionApplied head text.now)) }
{
    is_head(head);
    if text.len() >= TOO_LONG {
        return Err(AllocError);
    }
    let text = Bytes::from_slice(alloc, text)?;
    Prepared::new(alloc, &Record::DefinitionApplied { head, text })
}

/// The record of the end of a log, behind which a replica goes on at another place.
pub(crate) fn place_record(alloc: Global, head: Head) -> Result<Prepared, NoMemory>
    ensures { IfOk result (λ p. IsMadeOf p (AnyRecord.PlaceMoved head)) }
{
    is_head(head);
    Prepared::new(alloc, &Record::PlaceMoved { head })
}

/// What a record says first of so many groups and the place behind them.
pub(crate) fn head_at(number: u64, place: Place) -> Head
    ensures { result ≡ record { number = number; log = place.log; pos = place.pos } }
{
    Head {
        number,
        log: place.log,
        pos: place.pos,
    }
}
