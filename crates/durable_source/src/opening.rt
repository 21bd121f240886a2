//! A store that is ready to be written to.
ghost use Rattle.std.specs.Prelude.{◌≡◌, ◌≤◌, ◌<◌, ◌^◌, [], List as Items, Option, IfOk, length};
ghost use Rattle.std.specs.Bool.{OnTrue};
ghost use Rattle.answer_text.specs.declared.report.Mark.{Mark};
ghost use Rattle.disk_model.specs.Answers.{HasOpenCause};
ghost use Rattle.disk_model.specs.Moments.{IsSettled};
ghost use Rattle.disk_model.specs.Story.{Story};
ghost use Rattle.commit_store.specs.Keeping.{positions};
ghost use Rattle.store_checkpoints.specs.store_source.durable_runs.Sources.{SourceRuns, Stored};
ghost use Rattle.durable_source.specs.Opening.{IsReady};
ghost use Rattle.durable_source.specs.Standing.{OpensOn};
ghost use Rattle.store_open.specs.Opened.{IsActive};
ghost use Rattle.store_open.specs.store_load.Loading.{TellsDamage};
ghost use Rattle.store_model.specs.Held.{LogEnd, last_end, most_committed, most_logs};
ghost use Rattle.store_model.specs.declared.record.Kind.TheVariants.{Source};
ghost use Rattle.store_checkpoints.specs.store_source.Writing.{IsOn};

use commit_store::Store;
use disk_model::{Disk, OpenRefusal};
use std::alloc::Global;
use store_model::{Head, Kind};
use store_open::{Opened, load};

/// How many transactions a source has at the most.
const MOST_COMMITTED: u64 = 4_294_967_295;

/// How many logs.
const MOST_LOGS: usize = 60_000;

/// Whether a store has no more transactions and logs than a source may have. Each store that is read has.
fn is_within(store: &Store) -> bool
    ensures number { OnTrue result (store.now.number ≤ most_committed) }
    ensures logs { OnTrue result (length store.now.ends.list ≤ most_logs) }
{
    store.number() <= MOST_COMMITTED && store.ends().len() <= MOST_LOGS
}

/// Opens the store of a source's disk: its files are made durable and read, and its journal is started where it has no gate yet.
pub(crate) fn open_store<D: Disk>(alloc: Global, d: &mut D) -> Result<Opened, OpenRefusal>
    requires settled { IsSettled (D.told d.old) }
    ensures ready { IfOk result (IsReady (D.told d.old) (D.told d.new)) }
    ensures active { IfOk result (λ o. IsActive (D.told d.old) Source o.store.generation) }
    ensures runs { (from : Stored) (marks : Items Mark) → OpensOn (D.told d.old) from → SourceRuns (D.told d.old) (D.told d.new) from [] marks marks }
    ensures damaged { TellsDamage (D.told d.old) Source result }
    ensures cause { HasOpenCause (D.faults d.old) (D.faults d.new) result }
{
    let Opened { work, mut store } = load(alloc, d, Kind::Source)?;
    if !is_within(&store) {
        return Err(OpenRefusal::NoMemory);
    }
    store.start(d)?;
    Ok(Opened { work, store })
}

/// The last of some places, 0 where there is none.
fn last_of(ends: &[u32]) -> u32
    ensures { (all : Items LogEnd) → ends.now ≡ positions all → result ≡ last_end all }
{
    let count = ends.len();
    if count == 0 {
        return 0;
    }
    ends[count - 1]
}

/// How many transactions a source has committed, and where it writes the next one.
pub(crate) fn writer_of(store: &Store) -> Head
    requires { length store.now.ends.list < 2 ^ 32 }
    ensures { (t : Option Story) (s : Stored) → IsOn t store.now s
        → result ≡ record { number = s.held.number; log = length s.held.ends; pos = last_end s.held.ends } }
{
    Head {
        number: store.number(),
        log: store.ends().len() as u32,
        pos: last_of(store.ends()),
    }
}
