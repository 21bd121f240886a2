//! A store over any disk, from record to record.
ghost use Rattle.std.specs.Prelude.{◌≡◌, IfOk, IfSome, OnOk};
ghost use Rattle.gate_journal.specs.Journal.{Rests};

use crate::forms::{has_form, has_room};
use commit_store::Store;
use disk_model::{Disk, OpenRefusal, put, settle, whole_file};
use std::alloc::Global;
use store_bodies::record_of;
use store_model::{Kind, Record};
use val_types::{Bytes, List};

/// The file of the first generation's journal, and that of the first log.
const JOURNAL: u32 = 2;

const LOG: u32 = 8;

/// A record's body, and the bytes that a source puts behind its first log before it commits; a replica puts none.
#[derive(Drop)]
pub struct Step {
    pub body: Bytes,
    pub piece: Bytes,
}

/// A store without a record on a disk that has none: five calls of the disk. None where its journal has bytes.
pub fn opened<D: Disk>(alloc: Global, d: &mut D, node: Kind) -> Result<Option<Store>, OpenRefusal>
    ensures rests { IfOk result (λ o. IfSome o (λ store. Rests (D.told d.new) store.journal)) }
    ensures file { IfOk result (λ o. IfSome o (λ store. store.journal.file ≡ JOURNAL)) }
{
    settle(d, JOURNAL)?;
    let bytes = whole_file(alloc, d, JOURNAL)?;
    if !bytes.is_empty() {
        return Ok(None);
    }
    let mut store = Store::new(alloc, node, 0, 0, List::new(alloc), 1, 4);
    store.start(d)?;
    Ok(Some(store))
}

/// Puts bytes behind the first log: four calls of the disk.
fn append<D: Disk>(store: &Store, d: &mut D, piece: &[u8]) -> Result<(), OpenRefusal>
    requires rests { Rests (D.told d.old) store.now.journal }
    requires file { store.now.journal.file ≡ JOURNAL }
    ensures { OnOk result (Rests (D.told d.new) store.now.journal) }
{
    settle(d, LOG)?;
    let at = d.length(LOG)?;
    put(d, LOG, at, piece)?;
    Ok(())
}

/// Commits a record: four calls of the disk. False where the store takes no such record.
fn commit<D: Disk>(
    alloc: Global,
    store: &mut Store,
    d: &mut D,
    r: &Record,
) -> Result<bool, OpenRefusal>
    requires rests { Rests (D.told d.old) store.old.journal }
    ensures rests { OnOk result (Rests (D.told d.new) store.new.journal) }
    ensures file { store.new.journal.file ≡ store.old.journal.file }
{
    if !has_form(store.node(), r) || !has_room(alloc, r)? {
        return Ok(false);
    }
    store.prepare(r)?;
    store.stage(d)?;
    store.commit(d)?;
    Ok(true)
}

/// Commits the record of a step, on a source behind its bytes of the log. False where its body is none.
pub fn commit_step<D: Disk>(
    alloc: Global,
    store: &mut Store,
    d: &mut D,
    step: &Step,
) -> Result<bool, OpenRefusal>
    requires rests { Rests (D.told d.old) store.old.journal }
    requires file { store.old.journal.file ≡ JOURNAL }
    ensures rests { OnOk result (Rests (D.told d.new) store.new.journal) }
    ensures file { store.new.journal.file ≡ JOURNAL }
{
    let Some(r) = record_of(alloc, store.node(), step.body.as_slice())? else {
        return Ok(false);
    };
    if !step.piece.is_empty() {
        append(store, d, step.piece.as_slice())?;
    }
    commit(alloc, store, d, &r)
}

/// Commits the records of steps, one by one. False where one is none.
pub fn commit_steps<D: Disk>(
    alloc: Global,
    store: &mut Store,
    d: &mut D,
    steps: &[Step],
) -> Result<bool, OpenRefusal>
    requires rests { Rests (D.told d.old) store.old.journal }
    requires file { store.old.journal.file ≡ JOURNAL }
    ensures { OnOk result (Rests (D.told d.new) store.new.journal) }
{
    for step in steps {
        if !commit_step(alloc, store, d, step)? {
            return Ok(false);
        }
    }
    Ok(true)
}
