//! A checkpoint of a replica's store.
ghost use Rattle.std.specs.Prelude.{◌≡◌, ◌+◌, ◌-◌, ◌^◌, min, Ok, OnOk};
ghost use Rattle.disk_model.specs.Story.{count, seen};
ghost use Rattle.disk_model.specs.Moments.{Always, GoesOn};
ghost use Rattle.disk_model.specs.Answers.{HasNodeCause};
ghost use Rattle.checkpoint_model.specs.Pieces.{last_generation};
ghost use Rattle.store_model.specs.Held.{Held};
ghost use Rattle.store_model.specs.Stores.{first_log};
ghost use Rattle.store_source.specs.durable_runs.Replicas.{ReplicaStands};
ghost use Rattle.store_replica.specs.Writing.{IsOn};
ghost use Rattle.store_checkpoints.specs.Asking.{ReplicaCan};

use crate::bounds::{generation_fits, place_fits};
use checkpoint::checkpoint;
use commit_store::Store;
use disk_model::{Disk, NodeFault};
use row_store::Tables;
use snapshot_bodies::catalog_show_create::catalog_objects::Objects;
use snapshot_laws::held_is_read_again;
use std::alloc::Global;
use store_laws::held_is_made_again;

/// Writes what a replica's store holds as a snapshot of the next generation, if there is one. What it has fetched stays as it was.
pub fn checkpoint_replica<D: Disk>(
    alloc: Global,
    store: &mut Store,
    d: &mut D,
    tables: &Tables,
    objects: &Objects,
) -> Result<(), NodeFault>
    requires { (held : Held) × IsOn (D.told d.old) store.old held }
    ensures goes { (held : Held) → ReplicaCan (D.told d.old) store.old tables.now objects.now held → GoesOn (D.told d.old) (D.told d.new) }
    ensures images { (held : Held) → ReplicaCan (D.told d.old) store.old tables.now objects.now held
        → Always (count (D.told d.old)) (D.told d.new) (ReplicaStands held) }
    ensures on { (held : Held) → ReplicaCan (D.told d.old) store.old tables.now objects.now held → OnOk result (IsOn (D.told d.new) store.new held) }
    ensures fetched { (held : Held) → ReplicaCan (D.told d.old) store.old tables.now objects.now held
        → seen (D.told d.new) first_log ≡ seen (D.told d.old) first_log }
    ensures generation { OnOk result (store.new.generation ≡ min (store.old.generation + 1) (2 ^ 64 - 1)) }
    ensures number { store.new.number ≡ store.old.number }
    ensures last { store.old.generation ≡ last_generation → (result ≡ Ok tt) × (D.told d.new ≡ D.told d.old) × (store.new ≡ store.old) }
    ensures cause { HasNodeCause (D.faults d.old) (D.faults d.new) result }
{
    held_is_made_again();
    held_is_read_again();
    let _ = d.calls();
    generation_fits(store);
    place_fits(store);
    checkpoint(alloc, store, d, tables, objects)
}
