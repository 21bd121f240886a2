//! A checkpoint of the source.
ghost use Rattle.std.specs.Prelude.{◌≡◌, ◌+◌, ◌-◌, ◌^◌, List as Items, [], Ok, OnOk, min};
ghost use Rattle.answer_text.specs.declared.report.Mark.{Mark};
ghost use Rattle.disk_model.specs.Answers.{HasNodeCause};
ghost use Rattle.disk_model.specs.Moments.{GoesOn};
ghost use Rattle.store_checkpoints.specs.store_source.durable_runs.Sources.{SourceRuns, Stored};
ghost use Rattle.durable_source.specs.Standing.{Stands, beginning_of};
ghost use Rattle.session_model.specs.Holding.{Holds};
ghost use Rattle.session_model.specs.Machine.{Machine};

use crate::source::DurableSource;
use disk_model::{Disk, NodeFault};
use store_checkpoints::checkpoint_source;

impl DurableSource {
    /// Writes what the store has as a snapshot of the next generation: the catalog, and the rows of the last commit, also beside an open
    /// transaction. Where there is no next generation it does nothing. In memory all is as before. The disk stands for what the source has
    /// at each moment, also at a fault; and at a fault nothing is said of the source any more.
    pub fn checkpoint<D: Disk>(&mut self, d: &mut D) -> Result<(), NodeFault>
        requires { (from : Stored) × ((m : Machine) × (Stands (D.told d.old) self.old from m × Holds (beginning_of from) m)) }
        ensures node { self.new.node ≡ self.old.node }
        ensures stands { (from : Stored) (m : Machine) → Stands (D.told d.old) self.old from m → Holds (beginning_of from) m
            → OnOk result (Stands (D.told d.new) self.new from m) }
        ensures runs { (from : Stored) (m : Machine) (stands : Stands (D.told d.old) self.old from m) (marks : Items Mark) → Holds (beginning_of from) m
            → SourceRuns (D.told d.old) (D.told d.new) stands.now [] marks marks }
        ensures goes { GoesOn (D.told d.old) (D.told d.new) }
        ensures some { OnOk result ((from : Stored) × ((m : Machine) × (Stands (D.told d.new) self.new from m × Holds (beginning_of from) m))) }
        ensures number { self.new.store.number ≡ self.old.store.number }
        ensures generation { OnOk result (self.new.store.generation ≡ min (self.old.store.generation + 1) (2 ^ 64 - 1)) }
        ensures last { self.old.store.generation ≡ 2 ^ 64 - 1 → (result ≡ Ok tt) × (D.told d.new ≡ D.told d.old) × (self.new ≡ self.old) }
        ensures cause { HasNodeCause (D.faults d.old) (D.faults d.new) result }
    {
        let tables = self.node.tables();
        let objects = self.node.objects();
        checkpoint_source(self.alloc, &mut self.store, d, tables, objects)
    }
}
