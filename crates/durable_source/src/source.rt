//! The source.
ghost use Rattle.std.specs.Prelude.{◌≡◌, ◌-◌, ◌≤◌, ◌<◌, ℕ, List as Items, [], Err, IfOk, IfSome, Ok, OnOk, drop, length, map, min, take};
ghost use Rattle.answer_text.specs.declared.report.Mark.{Mark};
ghost use Rattle.disk_model.specs.Answers.{HasDiskCause, HasNodeCause, HasOpenCause};
ghost use Rattle.disk_model.specs.Claims.{Quietly};
ghost use Rattle.disk_model.specs.Moments.{GoesOn, IsSettled};
ghost use Rattle.disk_model.specs.declared.refusals.OpenRefusal.TheVariants.{Damaged};
ghost use Rattle.disk_model.specs.Story.{seen};
ghost use Rattle.store_checkpoints.specs.store_source.durable_runs.Runs.{CallsFit};
ghost use Rattle.store_checkpoints.specs.store_source.durable_runs.Sources.{SourceRuns, Stored, end_of};
ghost use Rattle.durable_source.specs.Standing.{OpensOn, Stands, beginning_of};
ghost use Rattle.session_model.specs.binlog_sizes.Sizes.{most_text};
ghost use Rattle.session_model.specs.Holding.{Holds};
ghost use Rattle.session_model.specs.Machine.{Machine, kept_entry, machine_after, step, whole};
ghost use Rattle.session_model.specs.Openings.{opened_from, opening_entries, restarted};
ghost use Rattle.store_open.specs.store_load.Loading.{TellsDamage};
ghost use Rattle.store_model.specs.declared.record.Kind.TheVariants.{Source};
ghost use Rattle.source_node.specs.session_shared.waiting_entries.binlog_items.log_entry_laws.Entries.{CanLogAll};
ghost use Rattle.store_model.specs.Entries.{writer_at};
ghost use Rattle.store_model.specs.Held.{Held};
ghost use Rattle.store_model.specs.Stores.{begun_from, held_by};
ghost use Rattle.store_checkpoints.specs.store_source.Pushed.{ArePushed};

use crate::opening::{open_store, writer_of};
use answer_text::{Answer, Report};
use commit_store::Store;
use disk_model::{Disk, DiskRefusal, NodeFault, OpenRefusal};
use port_traits::{Draw, Identity};
use session_model::{openings_hold, runs_hold};
use source_node::SourceNode;
use std::alloc::Global;
use store_checkpoints::store_source::{begin_log, log_bytes, write_out};
use store_open::Opened;
use val_types::{Bytes, Duplicate};

/// A source in memory, and the store on the disk that it is handed with each call.
#[derive(Drop)]
pub struct DurableSource {
    pub(crate) alloc: Global,
    pub(crate) node: SourceNode,
    pub(crate) store: Store,
}

impl DurableSource {
    /// Opens a source on what its disk has. The store's files are made durable and read, its journal is started where it has no gate yet,
    /// and the first log is begun at the draw where there is none. Counters start behind the greatest numbers held.
    pub fn open<D: Disk>(
        alloc: Global,
        d: &mut D,
        identity: Identity,
        draw: &Draw,
    ) -> Result<DurableSource, OpenRefusal>
        requires settled { IsSettled (D.told d.old) }
        ensures identity { IfOk result (λ k. k.node.identity ≡ identity) }
        ensures stands { (from : Stored) → OpensOn (D.told d.old) from → IfOk result (λ k. IfSome (D.told d.old) (λ _.
            Stands (D.told d.new) k from (opened_from identity draw.entry.now (beginning_of from)))) }
        ensures some { IfOk result (λ k. (from : Stored) × Stands (D.told d.new) k from (opened_from identity draw.entry.now (beginning_of from))) }
        ensures held { IfOk result (λ _. IfSome (D.told d.old) (λ _. (held : Held) × (held_by Source (seen (D.told d.old)) ≡ Ok held))) }
        ensures active { IfOk result (λ k. IfSome (D.told d.old) (λ _. (begun : Held) × (begun_from Source (seen (D.told d.old)) ≡ Ok (k.store.generation, begun)))) }
        ensures runs { (from : Stored) (marks : Items Mark) → OpensOn (D.told d.old) from
            → SourceRuns (D.told d.old) (D.told d.new) from (opening_entries identity draw.entry.now (writer_at from.held)) marks marks }
        ensures damaged { TellsDamage (D.told d.old) Source result }
        ensures cause { HasOpenCause (D.faults d.old) (D.faults d.new) result }
    {
        let Opened { work, mut store } = open_store(alloc, d)?;
        begin_log(alloc, &mut store, d, draw.now, identity.server_id)?;
        let at = writer_of(&store);
        let node = SourceNode::found(alloc, identity, work, at)?;
        Ok(DurableSource { alloc, node, store })
    }

    /// Carries out a text of at most 1,048,576 bytes in the session of a number below 100, in memory, and then writes what its entries
    /// leave, with a mark behind each transaction that is kept. For each run for which the source stands, the answer is that of the
    /// machine's step, and the source stands for the run behind it. Whatever it answers, the disk's calls are a run over the step's
    /// entries; at a fault nothing is said of the source any more.
    pub fn exec<D: Disk>(
        &mut self,
        d: &mut D,
        session: u8,
        text: &[u8],
        draw: &Draw,
        report: &mut Report,
    ) -> Result<Answer, NodeFault>
        requires number { session < 100 }
        requires length { length text.now ≤ most_text }
        requires on { (from : Stored) × ((m : Machine) × (Stands (D.told d.old) self.old from m × Holds (beginning_of from) m)) }
        ensures identity { self.new.node.identity ≡ self.old.node.identity }
        ensures stands { (from : Stored) (m : Machine) → Stands (D.told d.old) self.old from m → Holds (beginning_of from) m → IfOk result (λ answer.
            (answer ≡ (step whole (self.old.node.identity) m.state session text.now draw.entry.now).answer)
            × Stands (D.told d.new) self.new from (machine_after m (step whole (self.old.node.identity) m.state session text.now draw.entry.now))) }
        ensures runs { (from : Stored) (m : Machine) (stands : Stands (D.told d.old) self.old from m) → Holds (beginning_of from) m → CallsFit (D.told d.new)
            → SourceRuns (D.told d.old) (D.told d.new) stands.now (step whole (self.old.node.identity) m.state session text.now draw.entry.now).committed
            report.old.marks report.new.marks }
        ensures can { (from : Stored) (m : Machine) → Stands (D.told d.old) self.old from m → Holds (beginning_of from) m → IfOk result (λ _.
            CanLogAll (map kept_entry (step whole (self.old.node.identity) m.state session text.now draw.entry.now).committed) m.state.shared.committed m.state.shared.place) }
        ensures goes { GoesOn (D.told d.old) (D.told d.new) }
        ensures some { IfOk result (λ _. (from : Stored) × ((m : Machine) × (Stands (D.told d.new) self.new from m × Holds (beginning_of from) m))) }
        ensures generation { OnOk result (self.new.store.generation ≡ self.old.store.generation) }
        ensures pushed { ArePushed report.old.now self.old.store.number self.new.store.number report.old.marks report.new.marks }
        ensures rest { report.new ≡ record report.old { marks = report.new.marks } }
        ensures cause { HasNodeCause (D.faults d.old) (D.faults d.new) result }
    {
        runs_hold();
        let Ok(answer) = self.node.exec(session, text, draw) else {
            return Err(NodeFault::NoMemory);
        };
        let queue = self.node.take_waiting();
        write_out(&mut self.store, d, queue, report)?;
        Ok(answer)
    }

    /// The bytes of a log from a position on, so many at the most, and none behind its committed end. It gives none for a place that the
    /// source does not have. It changes nothing; fewer bytes than there are come only of a disk that tells nothing.
    pub fn log_bytes<D: Disk>(
        &self,
        alloc: Global,
        d: &mut D,
        log: u32,
        pos: u32,
        max: u32,
    ) -> Result<Bytes, DiskRefusal>
        requires { (from : Stored) × ((m : Machine) × Stands (D.told d.old) self.now from m) }
        ensures bytes { (from : Stored) (m : Machine) (stands : Stands (D.told d.old) self.now from m) → IfOk result (λ bytes.
            IfSome (D.told d.old) (λ _. bytes ≡ take max (drop pos (stands.now.logs log)))) }
        ensures most { (from : Stored) (m : Machine) (stands : Stands (D.told d.old) self.now from m) → IfOk result (λ bytes.
            length bytes ≤ min max (end_of log stands.now.held.ends - pos)) }
        ensures end { (from : Stored) (m : Machine) (stands : Stands (D.told d.old) self.now from m) → end_of log stands.now.held.ends ≤ 4294967295 }
        ensures stands { (from : Stored) (m : Machine) → Stands (D.told d.old) self.now from m → Stands (D.told d.new) self.now from m }
        ensures runs { (from : Stored) (m : Machine) (stands : Stands (D.told d.old) self.now from m) (marks : Items Mark)
            → SourceRuns (D.told d.old) (D.told d.new) stands.now [] marks marks }
        ensures room { IfOk result (λ bytes. length bytes ≤ max) }
        ensures quiet { Quietly (D.told d.old) (D.told d.new) }
        ensures cause { HasDiskCause (D.faults d.old) (D.faults d.new) result }
    {
        log_bytes(alloc, &self.store, d, log, pos, max)
    }

    /// Drops all memory and opens again at a draw: sessions and open transactions are gone, and nobody writes.
    pub fn restart<D: Disk>(&mut self, d: &mut D, draw: &Draw) -> Result<(), OpenRefusal>
        requires { (from : Stored) × ((m : Machine) × (Stands (D.told d.old) self.old from m × Holds (beginning_of from) m)) }
        ensures identity { self.new.node.identity ≡ self.old.node.identity }
        ensures stands { (from : Stored) (m : Machine) → Stands (D.told d.old) self.old from m → Holds (beginning_of from) m → OnOk result (IfSome (D.told d.old) (λ _.
            Stands (D.told d.new) self.new from (restarted (self.old.node.identity) draw.entry.now m))) }
        ensures some { OnOk result ((from : Stored) × ((m : Machine) × (Stands (D.told d.new) self.new from m × Holds (beginning_of from) m))) }
        ensures runs { (from : Stored) (m : Machine) (stands : Stands (D.told d.old) self.old from m) (marks : Items Mark) → Holds (beginning_of from) m
            → SourceRuns (D.told d.old) (D.told d.new) stands.now (opening_entries (self.old.node.identity) draw.entry.now m.state.shared.place) marks marks }
        ensures generation { (from : Stored) (m : Machine) → Stands (D.told d.old) self.old from m
            → OnOk result (IfSome (D.told d.old) (λ _. self.new.store.generation ≡ self.old.store.generation)) }
        ensures whole { (from : Stored) (m : Machine) (file at : ℕ) → Stands (D.told d.old) self.old from m
            → IfSome (D.told d.old) (λ _. result ≡ Err (Damaged file at) → ⊥) }
        ensures cause { HasOpenCause (D.faults d.old) (D.faults d.new) result }
    {
        openings_hold();
        let identity = self.node.identity().duplicate(self.alloc)?;
        *self = DurableSource::open(self.alloc, d, identity, draw)?;
        Ok(())
    }

    /// How many transactions were committed.
    pub fn number(&self) -> u64
        ensures store { result ≡ self.now.store.number }
    {
        self.store.number()
    }
}
