//! The first log.
ghost use Rattle.std.specs.Prelude.{◌≡◌, ◌+◌, ◌≤◌, List as Items, Some, IfOk, OnOk, IfSome};
ghost use Rattle.answer_text.specs.declared.report.Mark.{Mark};
ghost use Rattle.disk_model.specs.Story.{count};
ghost use Rattle.disk_model.specs.Answers.{HasDiskCause};
ghost use Rattle.session_model.specs.log_entries.declared.entries.Entry.TheVariants.{LogStart};
ghost use Rattle.session_model.specs.Machine.{nowhere};
ghost use Rattle.store_model.specs.Held.{most_committed};
ghost use Rattle.waiting_entries.specs.Waiting.{waiting_of};
ghost use Rattle.durable_runs.specs.Runs.{behind_steps};
ghost use Rattle.durable_runs.specs.Sources.{SourceRuns, Stored, source_side};
ghost use Rattle.store_source.specs.Writing.{IsOn};
ghost use Rattle.store_source.specs.Beginning.{begun_with, calls_begun};

use crate::entry::write_entry;
use commit_store::{Prepared, Store};
use disk_model::{Disk, DiskRefusal};
use std::alloc::Global;
use store_model::{Head, Record};
use val_types::{List, NoMemory};
use waiting_entries::Waiting;
use waiting_entries::binlog_items::encode_start;

/// What the start of the first log leaves to be written.
fn first_start(alloc: Global, number: u64, stamp: u32, server_id: u32) -> Result<Waiting, NoMemory>
    ensures { IfOk result (λ w. w ≡ waiting_of (LogStart stamp server_id) number nowhere) }
{
    let head = Head {
        number,
        log: 1,
        pos: 123,
    };
    let start = Record::LogStart { head, old_end: 0 };
    Ok(Waiting {
        tail: List::new(alloc),
        head: encode_start(alloc, stamp, server_id)?,
        prepared: Prepared::new(alloc, &start)?,
        counts: false,
    })
}

/// Begins the first log where there is none: its head, and its record; else it does nothing.
pub fn begin_log<D: Disk>(
    alloc: Global,
    store: &mut Store,
    d: &mut D,
    stamp: u32,
    server_id: u32,
) -> Result<(), DiskRefusal>
    requires { (s : Stored) × (IsOn (D.told d.old) store.old s × (s.held.number ≤ most_committed)) }
    ensures run { (s : Stored) (marks : Items Mark) → IsOn (D.told d.old) store.old s → s.held.number ≤ most_committed
        → SourceRuns (D.told d.old) (D.told d.new) s (begun_with s.held.ends stamp server_id) marks marks }
    ensures on { (s after : Stored) → IsOn (D.told d.old) store.old s → s.held.number ≤ most_committed
        → behind_steps source_side (begun_with s.held.ends stamp server_id) s ≡ Some after → OnOk result (IsOn (D.told d.new) store.new after) }
    ensures generation { store.new.generation ≡ store.old.generation }
    ensures calls { OnOk result (IfSome (D.told d.old) (λ _. count (D.told d.new) ≡ count (D.told d.old) + calls_begun store.old.ends.list)) }
    ensures cause { HasDiskCause (D.faults d.old) (D.faults d.new) result }
{
    if !store.ends().is_empty() {
        return Ok(());
    }
    let w = first_start(alloc, store.number(), stamp, server_id)?;
    store.make_room(1)?;
    write_entry(store, d, w)
}
