//! The bytes of a log, read from its file.
ghost use Rattle.std.specs.Prelude.{◌≡◌, ◌+◌, ◌-◌, ◌≤◌, List as Items, drop, length, min, take, IfOk, IfSome};
ghost use Rattle.disk_model.specs.Answers.{HasDiskCause};
ghost use Rattle.disk_model.specs.Claims.{Quietly};
ghost use Rattle.disk_model.specs.Story.{seen};
ghost use Rattle.store_model.specs.Held.{LogEnd};
ghost use Rattle.commit_store.specs.Keeping.{positions};
ghost use Rattle.durable_runs.specs.Sources.{Stored, end_of};
ghost use Rattle.store_source.specs.Writing.{IsOn};

use commit_store::Store;
use disk_model::{Disk, DiskRefusal};
use std::alloc::Global;
use val_types::{Bytes, List};

/// Where a log ends, 0 where there is none with that number.
fn end_of_log(ends: &[u32], log: u32) -> u32
    ensures { (all : Items LogEnd) → ends.now ≡ positions all → result ≡ end_of log all }
{
    if log == 0 {
        return 0;
    }
    match ends.get(log as usize - 1) {
        Some(end) => *end,
        None => 0,
    }
}

/// The bytes of a log from a position on, so many at the most, and none behind its committed end. It gives none for a place that the
/// source does not have. It is at most one call of the disk, and changes nothing there; fewer bytes than there are come only of a disk
/// that tells nothing, where a read gives fewer.
pub fn log_bytes<D: Disk>(
    alloc: Global,
    store: &Store,
    d: &mut D,
    log: u32,
    pos: u32,
    max: u32,
) -> Result<Bytes, DiskRefusal>
    requires { (s : Stored) × IsOn (D.told d.old) store.now s }
    ensures bytes { (s : Stored) → IsOn (D.told d.old) store.now s → IfOk result (λ bytes. IfSome (D.told d.old) (λ _. bytes ≡ take max (drop pos (s.logs log)))) }
    ensures most { (s : Stored) → IsOn (D.told d.old) store.now s → IfOk result (λ bytes. length bytes ≤ min max (end_of log s.held.ends - pos)) }
    ensures end { (s : Stored) → IsOn (D.told d.old) store.now s → end_of log s.held.ends ≤ 4294967295 }
    ensures on { (s : Stored) → IsOn (D.told d.old) store.now s → IsOn (D.told d.new) store.now s }
    ensures quiet { Quietly (D.told d.old) (D.told d.new) }
    ensures cause { HasDiskCause (D.faults d.old) (D.faults d.new) result }
{
    let end = end_of_log(store.ends(), log);
    let count = end.saturating_sub(pos).min(max);
    if count == 0 {
        return Ok(List::new(alloc));
    }
    read_piece(alloc, d, 7 + log, u64::from(pos), count)
}

/// A piece of a file: one call of the disk.
fn read_piece<D: Disk>(
    alloc: Global,
    d: &mut D,
    file: u32,
    at: u64,
    count: u32,
) -> Result<Bytes, DiskRefusal>
    ensures bytes { IfOk result (λ bytes. IfSome (D.told d.old) (λ _. bytes ≡ take count (drop at (seen (D.told d.old) file)))) }
    ensures most { IfOk result (λ bytes. length bytes ≤ count) }
    ensures quiet { Quietly (D.told d.old) (D.told d.new) }
    ensures cause { HasDiskCause (D.faults d.old) (D.faults d.new) result }
{
    let mut bytes = vec![in alloc; 0u8; count as usize]?;
    let read = d.read(file, at, bytes.as_mut_slice())?;
    bytes.truncate(read);
    Ok(List::from_vec(bytes))
}
