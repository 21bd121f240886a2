//! The file of what a replica fetches, of which nothing is claimed after a crash.
ghost use Rattle.std.specs.Prelude.{◌≡◌, ◌+◌, ◌^◌, ◌<◌, ◌≤◌, [], List as Items, length, OnOk, IfSome};
ghost use Rattle.answer_text.specs.declared.report.Mark.{Mark};
ghost use Rattle.disk_model.specs.Answers.{HasDiskCause};
ghost use Rattle.disk_model.specs.Moments.{GoesOn};
ghost use Rattle.disk_model.specs.Story.{overwritten, seen};
ghost use Rattle.durable_runs.specs.Replicas.{ReplicaRuns};
ghost use Rattle.store_model.specs.Held.{Held};
ghost use Rattle.store_model.specs.Stores.{first_log};
ghost use Rattle.store_replica.specs.Writing.{IsOn};

use commit_store::Store;
use disk_model::{Disk, DiskRefusal, cut_unsynced, write_unsynced};

/// The number of the file.
const RELAY: u32 = 8;

/// Puts a piece that was fetched at a place of the file, and does not sync it: one call of the disk.
pub fn put_in_relay<D: Disk>(
    store: &Store,
    d: &mut D,
    at: u64,
    piece: &[u8],
) -> Result<(), DiskRefusal>
    requires { IfSome (D.told d.old) (λ _. at ≤ length (seen (D.told d.old) first_log)) }
    ensures stays { (held : Held) → IsOn (D.told d.old) store.now held → IsOn (D.told d.new) store.now held }
    ensures runs { (held : Held) (marks : Items Mark) → IsOn (D.told d.old) store.now held → ReplicaRuns (D.told d.old) (D.told d.new) held [] marks marks }
    ensures reads { OnOk result (IfSome (D.told d.old) (λ _. seen (D.told d.new) first_log ≡ overwritten at piece.now (seen (D.told d.old) first_log))) }
    ensures room { OnOk result (at + length piece.now < 2 ^ 64) }
    ensures goes { GoesOn (D.told d.old) (D.told d.new) }
    ensures cause { HasDiskCause (D.faults d.old) (D.faults d.new) result }
{
    write_unsynced(d, RELAY, at, piece)
}

/// Cuts the file to nothing, and does not sync it: one call of the disk.
pub(crate) fn empty_relay<D: Disk>(store: &Store, d: &mut D) -> Result<(), DiskRefusal>
    ensures stays { (held : Held) → IsOn (D.told d.old) store.now held → IsOn (D.told d.new) store.now held }
    ensures runs { (held : Held) (marks : Items Mark) → IsOn (D.told d.old) store.now held → ReplicaRuns (D.told d.old) (D.told d.new) held [] marks marks }
    ensures reads { OnOk result (IfSome (D.told d.old) (λ _. seen (D.told d.new) first_log ≡ [])) }
    ensures goes { GoesOn (D.told d.old) (D.told d.new) }
    ensures cause { HasDiskCause (D.faults d.old) (D.faults d.new) result }
{
    cut_unsynced(d, RELAY, 0)
}
