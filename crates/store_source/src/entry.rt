//! One entry, written to the disk.
ghost use Rattle.std.specs.Prelude.{◌≡◌, ◌∷◌, [], ◌+◌, ◌^◌, ◌<◌, ◌≤◌, length, Some, OnOk, OnErr, IfSome};
ghost use Rattle.disk_model.specs.Story.{count, seen};
ghost use Rattle.disk_model.specs.Answers.{HasDiskCause};
ghost use Rattle.session_model.specs.log_entries.declared.entries.Entry.{Entry};
ghost use Rattle.session_model.specs.Machine.{Whole};
ghost use Rattle.durable_runs.specs.Sources.{Stored, end_of, entry_stored};
ghost use Rattle.store_source.specs.Writing.{CanWrite, IsOn, LeadsTo, PutsBehind, StaysOn, calls_of, only_for, put_calls};
ghost use Rattle.store_source.specs.Pushed.{begun};

use commit_store::Store;
use disk_model::{Disk, DiskRefusal, put};
use val_types::Bytes;
use waiting_entries::Waiting;

/// Puts a piece into the file of a log, at its end: two calls of the disk.
fn put_in_log<D: Disk>(
    store: &Store,
    d: &mut D,
    log: u32,
    at: u32,
    piece: &Bytes,
) -> Result<(), DiskRefusal>
    requires on { (s : Stored) × (IsOn (D.told d.old) store.now s × (at ≡ end_of log s.held.ends)) }
    requires log { 7 + log < 2 ^ 32 }
    requires some { 0 < log }
    ensures stays { (s : Stored) → IsOn (D.told d.old) store.now s → at ≡ end_of log s.held.ends → StaysOn (D.told d.old) (D.told d.new) s }
    ensures on { (s : Stored) → IsOn (D.told d.old) store.now s → at ≡ end_of log s.held.ends → OnOk result (IsOn (D.told d.new) store.now s) }
    ensures puts { (s : Stored) → IsOn (D.told d.old) store.now s → at ≡ end_of log s.held.ends
        → OnOk result (PutsBehind (D.told d.old) (D.told d.new) s.held.ends (only_for log piece.now)) }
    ensures calls { OnOk result (IfSome (D.told d.old) (λ _. count (D.told d.new) ≡ count (D.told d.old) + 2)) }
    ensures cause { HasDiskCause (D.faults d.old) (D.faults d.new) result }
{
    put(d, 7 + log, u64::from(at), piece.as_slice())
}

/// Puts the entry's bytes behind the last log, where there is one.
fn write_tail<D: Disk>(store: &Store, d: &mut D, tail: &Bytes) -> Result<(), DiskRefusal>
    requires { (s : Stored) × IsOn (D.told d.old) store.now s }
    ensures stays { (s : Stored) → IsOn (D.told d.old) store.now s → StaysOn (D.told d.old) (D.told d.new) s }
    ensures on { (s : Stored) → IsOn (D.told d.old) store.now s → OnOk result (IsOn (D.told d.new) store.now s) }
    ensures puts { (s : Stored) → IsOn (D.told d.old) store.now s → (s.held.ends ≡ [] → tail.now ≡ [])
        → OnOk result (PutsBehind (D.told d.old) (D.told d.new) s.held.ends (only_for (length s.held.ends) tail.now)) }
    ensures calls { OnOk result (IfSome (D.told d.old) (λ _. count (D.told d.new) ≡ count (D.told d.old) + put_calls store.now.ends.list)) }
    ensures cause { HasDiskCause (D.faults d.old) (D.faults d.new) result }
{
    let count = store.ends().len();
    if count == 0 {
        return Ok(());
    }
    let at = store.ends()[count - 1];
    put_in_log(store, d, count as u32, at, tail)
}

/// Puts the head of a log that begins into its file, where one does.
fn write_head<D: Disk>(store: &Store, d: &mut D, head: &Bytes) -> Result<(), DiskRefusal>
    requires { (s : Stored) × IsOn (D.told d.old) store.now s }
    ensures stays { (s : Stored) → IsOn (D.told d.old) store.now s → StaysOn (D.told d.old) (D.told d.new) s }
    ensures on { (s : Stored) → IsOn (D.told d.old) store.now s → OnOk result (IsOn (D.told d.new) store.now s) }
    ensures puts { (s : Stored) → IsOn (D.told d.old) store.now s
        → OnOk result (PutsBehind (D.told d.old) (D.told d.new) s.held.ends (only_for (length s.held.ends + 1) head.now)) }
    ensures calls { OnOk result (IfSome (D.told d.old) (λ _. count (D.told d.new) ≡ count (D.told d.old) + put_calls head.now)) }
    ensures cause { HasDiskCause (D.faults d.old) (D.faults d.new) result }
{
    if head.is_empty() {
        return Ok(());
    }
    let log = store.ends().len() as u32 + 1;
    put_in_log(store, d, log, 0, head)
}

/// Writes an entry: its bytes behind the last log, the head of a log that it begins, its record behind the closed gate, and then the
/// gate, each synced before the next. It takes no memory: where it begins a log, the store has room for one more.
pub(crate) fn write_entry<D: Disk>(
    store: &mut Store,
    d: &mut D,
    w: Waiting,
) -> Result<(), DiskRefusal>
    requires can { (s : Stored) × ((e : Entry Whole) × CanWrite (D.told d.old) store.old s (e ∷ []) (w ∷ [])) }
    requires room { begun (w ∷ []) ≤ store.old.ends.room }
    ensures leads { (s now : Stored) (e : Entry Whole) → CanWrite (D.told d.old) store.old s (e ∷ []) (w ∷ []) → entry_stored e s ≡ Some now
        → LeadsTo (D.told d.old) (D.told d.new) s now }
    ensures on { (s now : Stored) (e : Entry Whole) → CanWrite (D.told d.old) store.old s (e ∷ []) (w ∷ []) → entry_stored e s ≡ Some now
        → OnOk result (IsOn (D.told d.new) store.new now) }
    ensures number { OnErr result (store.new.number ≡ store.old.number) }
    ensures generation { store.new.generation ≡ store.old.generation }
    ensures ends { OnErr result (store.new.ends ≡ store.old.ends) }
    ensures room { OnOk result (store.old.ends.room ≤ store.new.ends.room + begun (w ∷ [])) }
    ensures calls { OnOk result (IfSome (D.told d.old) (λ _. count (D.told d.new) ≡ count (D.told d.old) + calls_of store.old.ends.list w)) }
    ensures cause { HasDiskCause (D.faults d.old) (D.faults d.new) result }
{
    let Waiting {
        tail,
        head,
        prepared,
        counts: _,
    } = w;
    store.take(prepared);
    write_tail(store, d, &tail)?;
    write_head(store, d, &head)?;
    store.stage(d)?;
    store.commit(d)
}
