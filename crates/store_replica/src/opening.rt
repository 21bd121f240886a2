//! A store that is ready to be written to.
ghost use Rattle.std.specs.Prelude.{◌≡◌, ◌<◌, ◌^◌, [], List as Items, IfOk, IfSome, Ok};
ghost use Rattle.answer_text.specs.declared.report.Mark.{Mark};
ghost use Rattle.commit_store.specs.Keeping.{AreDurable};
ghost use Rattle.disk_model.specs.Answers.{HasOpenCause};
ghost use Rattle.disk_model.specs.Moments.{GoesOn};
ghost use Rattle.disk_model.specs.Story.{seen};
ghost use Rattle.durable_runs.specs.Replicas.{ReplicaRuns};
ghost use Rattle.prog_work.specs.Contents.{base_of};
ghost use Rattle.store_open.specs.store_load.Loading.{TellsDamage};
ghost use Rattle.store_model.specs.Held.{Held};
ghost use Rattle.store_model.specs.Stores.{held_by};
ghost use Rattle.store_model.specs.declared.record.Kind.TheVariants.{Replica};
ghost use Rattle.store_model.specs.sql_reach.Defining.{counters_begun};
ghost use Rattle.store_open.specs.Opened.{IsActive, held_with};
ghost use Rattle.store_replica.specs.Opening.{IsReady};
ghost use Rattle.store_replica.specs.Writing.{IsOn, OpensOn};

use crate::relay::empty_relay;
use commit_store::Store;
use disk_model::{Disk, OpenRefusal};
use std::alloc::Global;
use store_model::Kind;
use store_open::{Opened, load};

/// The number of a store is one of 64 bits.
fn number_fits(store: &Store)
    ensures { store.now.number < 2 ^ 64 }
{
    let _number = store.number();
}

/// Reads the store of a replica's disk, and starts its journal where it has no gate yet.
fn start_store<D: Disk>(alloc: Global, d: &mut D) -> Result<Opened, OpenRefusal>
    requires durable { AreDurable Replica (D.told d.old) }
    ensures on { IfOk result (λ o. IsOn (D.told d.new) o.store (held_with o.work o.store)) }
    ensures active { IfOk result (λ o. IsActive (D.told d.old) Replica o.store.generation) }
    ensures counters { IfOk result (λ o. o.work.counters ≡ counters_begun (base_of o.work)) }
    ensures none { IfOk result (λ o. o.work.changes ≡ []) }
    ensures told { IfOk result (λ o. IfSome (D.told d.old) (λ _. held_by Replica (seen (D.told d.old)) ≡ Ok (held_with o.work o.store))) }
    ensures runs { (held : Held) (marks : Items Mark) → OpensOn (D.told d.old) held → ReplicaRuns (D.told d.old) (D.told d.new) held [] marks marks }
    ensures damaged { TellsDamage (D.told d.old) Replica result }
    ensures goes { GoesOn (D.told d.old) (D.told d.new) }
    ensures cause { HasOpenCause (D.faults d.old) (D.faults d.new) result }
{
    let Opened { work, mut store } = load(alloc, d, Kind::Replica)?;
    number_fits(&store);
    store.start(d)?;
    Ok(Opened { work, store })
}

/// Opens the store of a replica's disk: its files are made durable and read, its journal is started where it has no gate yet, and the file of
/// what was fetched is emptied.
pub fn open_store<D: Disk>(alloc: Global, d: &mut D) -> Result<Opened, OpenRefusal>
    requires durable { AreDurable Replica (D.told d.old) }
    ensures ready { IfOk result (IsReady (D.told d.old) (D.told d.new)) }
    ensures runs { (held : Held) (marks : Items Mark) → OpensOn (D.told d.old) held → ReplicaRuns (D.told d.old) (D.told d.new) held [] marks marks }
    ensures damaged { TellsDamage (D.told d.old) Replica result }
    ensures goes { GoesOn (D.told d.old) (D.told d.new) }
    ensures cause { HasOpenCause (D.faults d.old) (D.faults d.new) result }
{
    let opened = start_store(alloc, d)?;
    empty_relay(&opened.store, d)?;
    Ok(opened)
}
