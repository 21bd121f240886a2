//! A checkpoint of a store.
ghost use Rattle.std.specs.Prelude.{◌≡◌, ◌+◌, ◌==◌, Ok, OnOk, OnErr, IfSome, if◌then◌else◌};
ghost use Rattle.disk_model.specs.Story.{seen};
ghost use Rattle.disk_model.specs.Answers.{HasNodeCause};
ghost use Rattle.gate_journal.specs.Journal.{IsAtGate};
ghost use Rattle.store_model.specs.Held.{Held};
ghost use Rattle.store_model.specs.Stores.{journal_of};
ghost use Rattle.commit_store.specs.Keeping.{AreDurable, Keeps};
ghost use Rattle.checkpoint_model.specs.Pieces.{last_generation, snapshot_file};
ghost use Rattle.checkpoint_model.specs.Moments.{StandsEither};
ghost use Rattle.checkpoint_pieces.specs.Working.{WorksOnBoth};
ghost use Rattle.checkpoint.specs.Checkpoints.{CanCheckpoint};

use crate::snapshot::framed_snapshot;
use checkpoint_pieces::put_pieces;
use commit_store::Store;
use disk_model::{Disk, NodeFault};
use row_store::Tables;
use snapshot_bodies::catalog_show_create::catalog_objects::Objects;
use std::alloc::Global;

/// Writes what a store holds as a snapshot of the next generation, and goes on in that generation's journal: the catalog, and the rows of the
/// tables that are there to stay, whatever is shown of them. All memory is taken before the first call of the disk. At the last generation it
/// does nothing.
pub fn checkpoint<D: Disk>(
    alloc: Global,
    s: &mut Store,
    d: &mut D,
    tables: &Tables,
    objects: &Objects,
) -> Result<(), NodeFault>
    requires durable { AreDurable s.old.node (D.told d.old) }

    // At each moment each image stands for what is held, at the store's generation or at the next; other files are as they might have
    // been left before.
    ensures images { (held : Held) → CanCheckpoint (D.told d.old) s.old tables.now objects.now held
        → WorksOnBoth (D.told d.old) (D.told d.new) (snapshot_file (s.old.generation + 1)) (journal_of (s.old.generation + 1))
        (StandsEither s.old.node s.old.generation held) }

    // After Ok the disk keeps what is held, at the next generation, if there is one, whose journal has no record.
    ensures keeps { (held : Held) → CanCheckpoint (D.told d.old) s.old tables.now objects.now held → OnOk result (Keeps (D.told d.new) s.new held) }
    ensures closed { (held : Held) → CanCheckpoint (D.told d.old) s.old tables.now objects.now held → (s.old.generation ≡ last_generation → ⊥)
        → OnOk result (IfSome (D.told d.new) (λ _. IsAtGate (seen (D.told d.new) (journal_of (s.old.generation + 1))) 0)) }
    ensures durable { OnOk result (AreDurable s.old.node (D.told d.new)) }
    ensures generation { OnOk result (s.new.generation ≡ (if s.old.generation == last_generation then s.old.generation else s.old.generation + 1)) }
    ensures rest { s.new ≡ record s.old { generation = s.new.generation; journal = s.new.journal; next = s.new.next } }

    // At the last generation nothing is done, and at an error the store is as it was.
    ensures last { s.old.generation ≡ last_generation → (result ≡ Ok tt) × (D.told d.new ≡ D.told d.old) × (s.new ≡ s.old) }
    ensures err { OnErr result (s.new ≡ s.old) }
    ensures cause { HasNodeCause (D.faults d.old) (D.faults d.new) result }
{
    let generation = s.generation();
    if generation == u64::MAX {
        return Ok(());
    }
    let next = generation + 1;
    let framed = framed_snapshot(alloc, s, next, tables, objects)?;
    put_pieces(d, next, framed.as_slice())?;
    s.move_to(next);
    Ok(())
}
