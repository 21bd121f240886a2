//! A store that is opened on a disk and checkpointed.
ghost use Rattle.std.specs.Prelude.{◌≡◌, Ok, IfOk, OnOk};
ghost use Rattle.checkpoint.specs.commit_store.Keeping.{AreDurable};

use checkpoint::checkpoint;
use disk_model::{Disk, NodeFault, OpenRefusal};
use sharing::Shared;
use std::alloc::Global;
use store_model::Kind;
use store_open::{Opened, load};
use val_types::{Bytes, Row};

/// What a node's call gave, as an opening tells it.
fn as_opening(made: Result<(), NodeFault>) -> Result<(), OpenRefusal>
    ensures { OnOk result (made ≡ Ok tt) }
{
    match made {
        Ok(()) => Ok(()),
        Err(NodeFault::Disk) => Err(OpenRefusal::Disk),
        Err(NodeFault::NoMemory) => Err(OpenRefusal::NoMemory),
    }
}

/// Opens a store, and starts its journal.
fn started<D: Disk>(alloc: Global, d: &mut D, node: Kind) -> Result<Opened, OpenRefusal>
    requires { AreDurable node (D.told d.old) }
    ensures node { IfOk result (λ o. o.store.node ≡ node) }
    ensures durable { IfOk result (λ o. AreDurable node (D.told d.new)) }
{
    let mut opened = load(alloc, d, node)?;
    opened.store.start(d)?;
    Ok(opened)
}

/// Opens a store, and makes one checkpoint.
fn once<D: Disk>(alloc: Global, d: &mut D, node: Kind) -> Result<(), OpenRefusal>
    requires { AreDurable node (D.told d.old) }
    ensures { OnOk result (AreDurable node (D.told d.new)) }
{
    let opened = started(alloc, d, node)?;
    let Opened { work, mut store } = opened;
    as_opening(checkpoint(
        alloc,
        &mut store,
        d,
        work.tables(),
        work.catalog().objects(),
    ))
}

/// Does so this many times, each time opening the store again.
pub fn checkpointed<D: Disk>(
    alloc: Global,
    d: &mut D,
    node: Kind,
    times: u32,
) -> Result<(), OpenRefusal>
    requires { AreDurable node (D.told d.old) }
    ensures { OnOk result (AreDurable node (D.told d.new)) }
{
    for _ in 0..times {
        once(alloc, d, node)?;
    }
    Ok(())
}

/// Opens a store, and makes one checkpoint beside a row that is put into a table and is not there to stay. False where the table does not take
/// it.
pub fn checkpointed_beside<D: Disk>(
    alloc: Global,
    d: &mut D,
    node: Kind,
    table: &Bytes,
    row: Row,
) -> Result<bool, OpenRefusal>
    requires { AreDurable node (D.told d.old) }
{
    let opened = started(alloc, d, node)?;
    let Opened { work, mut store } = opened;
    let mut tables = work.tables().copy()?;
    if !tables.fits(table, &row) || tables.insert(table, Shared::new(alloc, row)?).is_err() {
        return Ok(false);
    }
    as_opening(checkpoint(alloc, &mut store, d, &tables, work.catalog().objects()))?;
    Ok(true)
}
