//! Groups carried out, each in memory and then on the disk.
ghost use Rattle.std.specs.Prelude.{◌≡◌, ◌+◌, IfOk, OnErr, OnOk, length};
ghost use Rattle.disk_model.specs.Answers.{HasNodeCause};
ghost use Rattle.disk_model.specs.Moments.{GoesOn};
ghost use Rattle.durable_replica.specs.Going.{HasRun, IsDone};
ghost use Rattle.durable_replica.specs.Standing.{IsOnDisk, IsStateOf};
ghost use Rattle.store_checkpoints.specs.store_replica.durable_runs.Replicas.{Carries, CarriesTo};
ghost use Rattle.replica_node.specs.replica_model.Applying.{apply};
ghost use Rattle.replica_node.specs.Kept.{held_of, replica_of};
ghost use Rattle.replica_node.specs.Steps.{IsFront, IsTold};
ghost use Rattle.store_checkpoints.specs.store_replica.durable_runs.Runs.{CallsFit};
ghost use Rattle.store_checkpoints.specs.store_replica.Pushed.{ArePushed};

use crate::replica::DurableReplica;
use answer_text::Report;
use disk_model::{Disk, NodeFault};
use port_traits::Draw;
use replica_node::{Applied, Step};
use store_checkpoints::store_replica::keep;

impl DurableReplica {
    /// Carries out up to so many definitions and transactions of what was fetched: each in memory, then by its record on the disk, with a
    /// mark behind it. It stops at one that differs from what is there, and at bytes that no group has; that group is left as it is, and a
    /// later call tries it again. At a fault what was carried out before stands, and the replica is to be dropped.
    pub fn apply<D: Disk>(
        &mut self,
        d: &mut D,
        wanted: u32,
        draw: &Draw,
        report: &mut Report,
    ) -> Result<Applied, NodeFault>
        requires { IsOnDisk (D.told d.old) self.old }
        ensures identity { self.new.node.identity ≡ self.old.node.identity }
        ensures replica { OnOk result (replica_of self.new.node ≡ (apply wanted self.old.node.identity draw.entry.now (replica_of self.old.node)).replica) }
        ensures told { IfOk result (λ told. IsTold told (apply wanted self.old.node.identity draw.entry.now (replica_of self.old.node))) }
        ensures err { OnErr result (IsFront wanted self.old.node.identity draw.entry.now (replica_of self.old.node) (replica_of self.new.node)) }
        ensures on { OnOk result (IsOnDisk (D.told d.new) self.new) }
        ensures carries { CallsFit (D.told d.new) → Carries (IsStateOf wanted self.old.node.identity draw.entry.now (replica_of self.old.node))
            (D.told d.old) (D.told d.new) (held_of (replica_of self.old.node)) report.old.marks report.new.marks }
        ensures reaches { CallsFit (D.told d.new) → OnOk result (CarriesTo (IsStateOf wanted self.old.node.identity draw.entry.now (replica_of self.old.node))
            (D.told d.old) (D.told d.new) (held_of (replica_of self.old.node)) (held_of (replica_of self.new.node)) report.old.marks report.new.marks) }
        ensures pushed { ArePushed report.old.now (replica_of self.old.node).number self.new.store.number report.old.marks report.new.marks }
        ensures number { OnOk result (self.new.store.number ≡ (replica_of self.new.node).number) }
        ensures generation { OnOk result (self.new.store.generation ≡ self.old.store.generation) }
        ensures marks { IfOk result (λ told. length report.new.marks ≡ length report.old.marks + told.count) }
        ensures rest { report.new ≡ record report.old { marks = report.new.marks } }
        ensures goes { GoesOn (D.told d.old) (D.told d.new) }
        ensures cause { HasNodeCause (D.faults d.old) (D.faults d.new) result }
    {
        self.carry_on(d, wanted, draw, report)
    }

    /// The same, told of all at once.
    fn carry_on<D: Disk>(
        &mut self,
        d: &mut D,
        wanted: u32,
        draw: &Draw,
        report: &mut Report,
    ) -> Result<Applied, NodeFault>
        requires { IsOnDisk (D.told d.old) self.old }
        ensures identity { self.new.node.identity ≡ self.old.node.identity }
        ensures done { IfOk result (IsDone wanted self.old.node.identity draw.entry.now (replica_of self.old.node) (D.told d.old) report.old (D.told d.new) self.new report.new) }
        ensures err { OnErr result (IsFront wanted self.old.node.identity draw.entry.now (replica_of self.old.node) (replica_of self.new.node)) }
        ensures generation { self.new.store.generation ≡ self.old.store.generation }
        ensures run { HasRun wanted self.old.node.identity draw.entry.now (replica_of self.old.node) (D.told d.old) report.old (D.told d.new) self.new.store.number report.new }
        ensures cause { HasNodeCause (D.faults d.old) (D.faults d.new) result }
    {
        let mut count: u32 = 0;
        let mut ahead = self.node.here();
        while count < wanted {
            let Ok(step) = self.node.step(&ahead, draw) else {
                return Err(NodeFault::NoMemory);
            };
            match step {
                Step::Over(next) => ahead = next,
                Step::Moved(kept) => {
                    keep(&mut self.store, d, kept, false, report)?;
                    ahead = self.node.here();
                }
                Step::Carried(kept) => {
                    keep(&mut self.store, d, kept, true, report)?;
                    count += 1;
                    ahead = self.node.here();
                }
                Step::Waits => return Ok(self.node.applied(count, None)),
                Step::Stopped(stop) => return Ok(self.node.applied(count, Some(stop))),
            }
        }
        Ok(self.node.applied(count, None))
    }
}
