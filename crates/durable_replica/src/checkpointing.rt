//! A checkpoint of the replica.
ghost use Rattle.std.specs.Prelude.{◌≡◌, ◌+◌, ◌-◌, ◌^◌, List as Items, [], Ok, OnOk, min};
ghost use Rattle.answer_text.specs.declared.report.Mark.{Mark};
ghost use Rattle.disk_model.specs.Answers.{HasNodeCause};
ghost use Rattle.disk_model.specs.Moments.{GoesOn};
ghost use Rattle.durable_replica.specs.Standing.{IsOnDisk};
ghost use Rattle.store_checkpoints.specs.store_replica.durable_runs.Replicas.{ReplicaRuns};
ghost use Rattle.replica_node.specs.Kept.{held_of, replica_of};

use crate::replica::DurableReplica;
use disk_model::{Disk, NodeFault};
use store_checkpoints::checkpoint_replica;

impl DurableReplica {
    /// Writes what the store has as a snapshot of the next generation. Where there is none it does nothing. In memory all is as before, and
    /// so is what was fetched. The disk stands for what the replica has at each moment, also at a fault; and at a fault nothing is said of
    /// the replica any more.
    pub fn checkpoint<D: Disk>(&mut self, d: &mut D) -> Result<(), NodeFault>
        requires { IsOnDisk (D.told d.old) self.old }
        ensures node { self.new.node ≡ self.old.node }
        ensures on { OnOk result (IsOnDisk (D.told d.new) self.new) }
        ensures runs { (marks : Items Mark) → ReplicaRuns (D.told d.old) (D.told d.new) (held_of (replica_of self.old.node)) [] marks marks }
        ensures goes { GoesOn (D.told d.old) (D.told d.new) }
        ensures fetched { self.new.fetched ≡ self.old.fetched }
        ensures number { self.new.store.number ≡ self.old.store.number }
        ensures generation { OnOk result (self.new.store.generation ≡ min (self.old.store.generation + 1) (2 ^ 64 - 1)) }
        ensures last { self.old.store.generation ≡ 2 ^ 64 - 1 → (result ≡ Ok tt) × (D.told d.new ≡ D.told d.old) × (self.new ≡ self.old) }
        ensures cause { HasNodeCause (D.faults d.old) (D.faults d.new) result }
    {
        let tables = self.node.tables();
        let objects = self.node.objects();
        checkpoint_replica(self.alloc, &mut self.store, d, tables, objects)
    }
}
