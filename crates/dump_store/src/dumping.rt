//! A store that is opened and shown.
ghost use Rattle.std.specs.Prelude.{◌≡◌};
ghost use Rattle.fault_counts.specs.Causes.{Rose};
ghost use Rattle.disk_model.specs.Claims.{Quietly};
ghost use Rattle.run_streams.specs.Stops.{failed_writes};
ghost use Rattle.dump_store.specs.Ends.{DumpEnds, IsDoneOrShort, IsFaultless, IsHeld, damaged_at, disk_fault};

use crate::writing::write_base;
use answer_text::Status;
use disk_model::{Disk, OpenRefusal};
use port_traits::Sink;
use std::alloc::Global;
use store_model::Kind;
use store_open::load;

/// The fault of a node's disk.
fn disk_fault(node: Kind) -> Status
    ensures { result ≡ disk_fault node }
{
    match node {
        Kind::Source => Status::SourceDisk,
        Kind::Replica => Status::ReplicaDisk,
    }
}

/// Damage of a node's files.
fn damaged_at(node: Kind, file: u32, at: u64) -> Status
    ensures { result ≡ damaged_at node file at }
{
    match node {
        Kind::Source => Status::SourceDamaged { file, at },
        Kind::Replica => Status::ReplicaDamaged { file, at },
    }
}

/// The words `dump source` and `dump replica`: writes the lines that show what the store of a node holds: each object in order of
/// creation, and behind a table its rows in the order of their keys. The files are made durable, and nothing is written to the disk,
/// also where no store was begun.
pub fn dump<D: Disk, K: Sink>(alloc: Global, d: &mut D, out: &mut K, node: Kind) -> Status
    // At Done the lines of what the disk holds were written, at WriteFault a front of them, at NoMemory too or nothing; a disk's
    // fault and damage come before anything is written, and damage is just the first.
    ensures run { DumpEnds result node (D.told d.old) (K.written out.old) (K.written out.new) }

    // The disk reads the same, and a crash leaves at each moment what it might have left before.
    ensures quiet { Quietly (D.told d.old) (D.told d.new) }

    // A fault has its cause, whatever disk and output are, and one of the output is the last call on it.
    ensures source_fault { result ≡ Status.SourceDisk → Rose (D.faults d.old) (D.faults d.new) }
    ensures replica_fault { result ≡ Status.ReplicaDisk → Rose (D.faults d.old) (D.faults d.new) }
    ensures write_fault { result ≡ Status.WriteFault → Rose (K.faults out.old) (K.faults out.new) }
    ensures last_write { K.ended out.old ≡ 0 → K.ended out.new ≡ failed_writes result }

    // Where the disk holds something and neither fails, all was written or memory was short.
    ensures complete { IsHeld node (D.told d.old) → IsFaultless (D.faults d.old) (D.faults d.new)
        → IsFaultless (K.faults out.old) (K.faults out.new) → IsDoneOrShort result }
{
    match load(alloc, d, node) {
        Ok(opened) => match write_base(alloc, &opened.work, out) {
            Ok(()) => Status::Done,
            Err(status) => status,
        },
        Err(OpenRefusal::Disk) => disk_fault(node),
        Err(OpenRefusal::Damaged { file, at }) => damaged_at(node, file, at),
        Err(OpenRefusal::NoMemory) => Status::NoMemory,
    }
}
