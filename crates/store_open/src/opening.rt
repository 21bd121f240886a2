//! A store, opened.
ghost use Rattle.std.specs.Prelude.{◌≡◌, [], Ok, IfOk, IfSome};
ghost use Rattle.disk_model.specs.Story.{seen};
ghost use Rattle.disk_model.specs.Moments.{Only};
ghost use Rattle.disk_model.specs.Claims.{Quietly};
ghost use Rattle.disk_model.specs.Answers.{HasOpenCause};
ghost use Rattle.gate_journal.specs.Journal.{IsFound};
ghost use Rattle.prog_work.specs.Contents.{base_of};
ghost use Rattle.store_model.specs.sql_reach.Defining.{counters_begun};
ghost use Rattle.store_model.specs.Stores.{held_by};
ghost use Rattle.commit_store.specs.Keeping.{AreDurable, Holds};
ghost use Rattle.store_load.specs.Loading.{TellsDamage};
ghost use Rattle.store_open.specs.Opened.{AreSettled, IsActive, IsOpened, held_with};

use crate::snapshots::begin;
use commit_store::Store;
use disk_model::{Disk, OpenRefusal};
use prog_work::Work;
use std::alloc::Global;
use store_load::{Reached, Stored, load_from, start_counters};
use store_model::Kind;
use val_types::NoMemory;

/// A store that is opened: catalog, tables and counters, and the store that goes on behind its records.
#[derive(Drop)]
pub struct Opened {
    pub work: Work,
    pub store: Store,
}

/// What was read, as a store that goes on, with its counters started.
fn started(alloc: Global, stored: Stored) -> Result<Opened, NoMemory>
    ensures { IfOk result (IsOpened stored) }
{
    let Stored {
        mut work,
        node,
        generation,
        reached,
        journal,
    } = stored;
    start_counters(alloc, &mut work)?;
    let Reached {
        number,
        ends,
        log,
        pos,
    } = reached;
    let store = Store::found(alloc, node, generation, number, ends, log, pos, journal);
    Ok(Opened { work, store })
}

/// Opens the store of a disk. Each file that it reads is made durable first, and nothing is written. A journal that has
/// no gate yet has none after it: the store is to be started.
pub fn load<D: Disk>(alloc: Global, d: &mut D, node: Kind) -> Result<Opened, OpenRefusal>
    ensures held { IfOk result (λ o. IfSome (D.told d.old) (λ _. held_by node (seen (D.told d.old)) ≡ Ok (held_with o.work o.store))) }
    ensures damaged { TellsDamage (D.told d.old) node result }
    ensures active { IfOk result (λ o. IsActive (D.told d.old) node o.store.generation) }
    ensures counters { IfOk result (λ o. o.work.counters ≡ counters_begun (base_of o.work)) }
    ensures none { IfOk result (λ o. o.work.changes ≡ []) }
    ensures node { IfOk result (λ o. o.store.node ≡ node) }
    ensures found { IfOk result (λ o. IsFound (D.told d.new) o.store.journal) }
    ensures durable { IfOk result (λ o. Only (D.told d.new) o.store.journal.file (seen (D.told d.new) o.store.journal.file)) }
    ensures settled { IfOk result (λ o. AreSettled (D.told d.new) o.store) }
    ensures holds { AreDurable node (D.told d.old) → IfOk result (λ o. Holds (D.told d.new) o.store (held_with o.work o.store)) }
    ensures quiet { Quietly (D.told d.old) (D.told d.new) }
    ensures cause { HasOpenCause (D.faults d.old) (D.faults d.new) result }
{
    let begun = begin(alloc, d, node)?;
    let stored = load_from(alloc, d, begun)?;
    Ok(started(alloc, stored)?)
}
