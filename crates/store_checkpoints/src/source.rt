//! A checkpoint of a source's store.
ghost use Rattle.std.specs.Prelude.{◌≡◌, ◌+◌, ◌-◌, ◌^◌, min, Ok, OnOk};
ghost use Rattle.disk_model.specs.Answers.{HasNodeCause};
ghost use Rattle.checkpoint_model.specs.Pieces.{last_generation};
ghost use Rattle.store_source.specs.durable_runs.Sources.{Stored};
ghost use Rattle.store_source.specs.Writing.{IsOn, StaysOn};
ghost use Rattle.store_checkpoints.specs.Asking.{SourceCan};

use crate::bounds::generation_fits;
use checkpoint::checkpoint;
use commit_store::Store;
use disk_model::{Disk, NodeFault};
use row_store::Tables;
use snapshot_bodies::catalog_show_create::catalog_objects::Objects;
use snapshot_laws::{held_is_read_again, sources_have_places};
use std::alloc::Global;
use store_laws::held_is_made_again;

/// Writes what a source's store holds as a snapshot of the next generation, if there is one. What the source has on its disk stays, its
/// logs too. A store without a log, which no source has, is answered as where memory is short.
pub fn checkpoint_source<D: Disk>(
    alloc: Global,
    store: &mut Store,
    d: &mut D,
    tables: &Tables,
    objects: &Objects,
) -> Result<(), NodeFault>
    requires { (s : Stored) × IsOn (D.told d.old) store.old s }
    ensures stays { (s : Stored) → SourceCan (D.told d.old) store.old tables.now objects.now s → StaysOn (D.told d.old) (D.told d.new) s }
    ensures on { (s : Stored) → SourceCan (D.told d.old) store.old tables.now objects.now s → OnOk result (IsOn (D.told d.new) store.new s) }
    ensures generation { OnOk result (store.new.generation ≡ min (store.old.generation + 1) (2 ^ 64 - 1)) }
    ensures number { store.new.number ≡ store.old.number }
    ensures last { store.old.generation ≡ last_generation → (result ≡ Ok tt) × (D.told d.new ≡ D.told d.old) × (store.new ≡ store.old) }
    ensures cause { HasNodeCause (D.faults d.old) (D.faults d.new) result }
{
    held_is_made_again();
    held_is_read_again();
    sources_have_places();
    let _ = d.calls();
    generation_fits(store);
    let generation = store.generation();
    if generation == u64::MAX {
        return Ok(());
    }
    if store.ends().is_empty() {
        return Err(NodeFault::NoMemory);
    }
    checkpoint(alloc, store, d, tables, objects)
}
