//! The replica.
ghost use Rattle.std.specs.Prelude.{◌≡◌, ◌≤◌, ◌+◌, ℕ, List as Items, [], Err, IfOk, IfSome, Ok, OnOk, length};
ghost use Rattle.answer_text.specs.declared.report.Mark.{Mark};
ghost use Rattle.commit_store.specs.Keeping.{AreDurable};
ghost use Rattle.disk_model.specs.Answers.{HasNodeCause, HasOpenCause};
ghost use Rattle.disk_model.specs.Moments.{GoesOn, IsSettled};
ghost use Rattle.disk_model.specs.Story.{seen};
ghost use Rattle.disk_model.specs.declared.refusals.OpenRefusal.TheVariants.{Damaged};
ghost use Rattle.durable_replica.specs.Standing.{IsOnDisk};
ghost use Rattle.store_checkpoints.specs.store_replica.durable_runs.Replicas.{ReplicaRuns};
ghost use Rattle.replica_node.specs.replica_model.Replica.{fetched, reopened, replica_from, want};
ghost use Rattle.replica_node.specs.replica_model.Selecting.{select_answer};
ghost use Rattle.replica_node.specs.replica_model.apply_model.binlog_sizes.Sizes.{most_text};
ghost use Rattle.replica_node.specs.Kept.{held_of, replica_of};
ghost use Rattle.store_checkpoints.specs.store_replica.store_open.store_load.Loading.{TellsDamage};
ghost use Rattle.store_model.specs.Held.{Held};
ghost use Rattle.store_model.specs.Stores.{begun_from, held_by};
ghost use Rattle.store_model.specs.declared.record.Kind.TheVariants.{Replica};
ghost use Rattle.store_checkpoints.specs.store_replica.Writing.{OpensOn};

use answer_text::Answer;
use commit_store::Store;
use disk_model::{Disk, NodeFault, OpenRefusal};
use port_traits::{Draw, Identity};
use replica_node::{Place, ReplicaNode};
use std::alloc::Global;
use store_checkpoints::store_replica::store_open::Opened;
use store_checkpoints::store_replica::{open_store, put_in_relay};
use val_types::{Bytes, Duplicate};

/// A replica in memory, the store on the disk that it is handed with each call, and how many bytes it has fetched since it opened.
#[derive(Drop)]
pub struct DurableReplica {
    pub(crate) alloc: Global,
    pub(crate) node: ReplicaNode,
    pub(crate) store: Store,
    pub(crate) fetched: u64,
}

impl DurableReplica {
    /// Opens a replica on what its disk has, where the files of its store are durable: what it had fetched may not be.
    fn found<D: Disk>(
        alloc: Global,
        d: &mut D,
        identity: Identity,
    ) -> Result<DurableReplica, OpenRefusal>
        requires durable { AreDurable Replica (D.told d.old) }
        ensures identity { IfOk result (λ k. k.node.identity ≡ identity) }
        ensures on { IfOk result (IsOnDisk (D.told d.new)) }
        ensures opens { (held : Held) → OpensOn (D.told d.old) held → IfOk result (λ k. IfSome (D.told d.old) (λ _.
            (replica_of k.node ≡ replica_from held.base held.number held.place) × (held_of (replica_of k.node) ≡ held))) }
        ensures reopened { IfOk result (λ k. replica_of k.node ≡ reopened (replica_of k.node)) }
        ensures active { IfOk result (λ k. IfSome (D.told d.old) (λ _. (begun : Held) × (begun_from Replica (seen (D.told d.old)) ≡ Ok (k.store.generation, begun)))) }
        ensures held { IfOk result (λ k. IfSome (D.told d.old) (λ _. held_by Replica (seen (D.told d.old)) ≡ Ok (held_of (replica_of k.node)))) }
        ensures runs { (held : Held) (marks : Items Mark) → OpensOn (D.told d.old) held → ReplicaRuns (D.told d.old) (D.told d.new) held [] marks marks }
        ensures damaged { TellsDamage (D.told d.old) Replica result }
        ensures goes { GoesOn (D.told d.old) (D.told d.new) }
        ensures cause { HasOpenCause (D.faults d.old) (D.faults d.new) result }
    {
        let Opened { work, store } = open_store(alloc, d)?;
        let place = Place {
            log: store.log(),
            pos: store.pos(),
        };
        let node = ReplicaNode::found(alloc, identity, work, store.number(), place);
        Ok(DurableReplica {
            alloc,
            node,
            store,
            fetched: 0,
        })
    }

    /// Opens a replica on what its disk has. The store's files are made durable and read, its journal is started where it has no gate
    /// yet, and the relay's file is cut to nothing. Counters start behind the greatest numbers held. It uses nothing of its draw.
    pub fn open<D: Disk>(
        alloc: Global,
        d: &mut D,
        identity: Identity,
        draw: &Draw,
    ) -> Result<DurableReplica, OpenRefusal>
        requires settled { IsSettled (D.told d.old) }
        ensures identity { IfOk result (λ k. k.node.identity ≡ identity) }
        ensures on { IfOk result (IsOnDisk (D.told d.new)) }
        ensures opens { (held : Held) → OpensOn (D.told d.old) held → IfOk result (λ k. IfSome (D.told d.old) (λ _.
            (replica_of k.node ≡ replica_from held.base held.number held.place) × (held_of (replica_of k.node) ≡ held))) }
        ensures reopened { IfOk result (λ k. replica_of k.node ≡ reopened (replica_of k.node)) }
        ensures active { IfOk result (λ k. IfSome (D.told d.old) (λ _. (begun : Held) × (begun_from Replica (seen (D.told d.old)) ≡ Ok (k.store.generation, begun)))) }
        ensures held { IfOk result (λ k. IfSome (D.told d.old) (λ _. held_by Replica (seen (D.told d.old)) ≡ Ok (held_of (replica_of k.node)))) }
        ensures runs { (held : Held) (marks : Items Mark) → OpensOn (D.told d.old) held → ReplicaRuns (D.told d.old) (D.told d.new) held [] marks marks }
        ensures damaged { TellsDamage (D.told d.old) Replica result }
        ensures goes { GoesOn (D.told d.old) (D.told d.new) }
        ensures cause { HasOpenCause (D.faults d.old) (D.faults d.new) result }
    {
        let _ = draw;
        DurableReplica::found(alloc, d, identity)
    }

    /// Takes a piece of the source's log from the place that is wanted on, which ends within 4,294,967,295: into memory, and then into the
    /// relay's file, in one call of the disk. At a fault nothing is said of the replica any more.
    pub fn fetch<D: Disk>(&mut self, d: &mut D, piece: &Bytes) -> Result<(), NodeFault>
        requires on { IsOnDisk (D.told d.old) self.old }
        requires room { (want (replica_of self.old.node)).pos + length piece.now ≤ 4294967295 }
        ensures identity { self.new.node.identity ≡ self.old.node.identity }
        ensures ok { OnOk result (replica_of self.new.node ≡ fetched piece.now (replica_of self.old.node)) }
        ensures on { OnOk result (IsOnDisk (D.told d.new) self.new) }
        ensures generation { OnOk result (self.new.store.generation ≡ self.old.store.generation) }
        ensures runs { (marks : Items Mark) → ReplicaRuns (D.told d.old) (D.told d.new) (held_of (replica_of self.old.node)) [] marks marks }
        ensures goes { GoesOn (D.told d.old) (D.told d.new) }
        ensures cause { HasNodeCause (D.faults d.old) (D.faults d.new) result }
    {
        let Ok(()) = self.node.fetch(piece) else {
            return Err(NodeFault::NoMemory);
        };
        put_in_relay(&self.store, d, self.fetched, piece.as_slice())?;
        self.fetched += piece.len() as u64;
        Ok(())
    }

    /// The answer to a text of at most 1,048,576 bytes whose first word is SELECT. It calls no disk, and changes nothing.
    pub fn select(&mut self, text: &[u8], draw: &Draw) -> Result<Answer, NodeFault>
        requires { length text.now ≤ most_text }
        ensures answer { IfOk result (λ answer. answer ≡ select_answer self.old.node.identity draw.entry.now (replica_of self.old.node).counters (replica_of self.old.node).base text.now) }
        ensures same { self.new ≡ self.old }
    {
        match self.node.select(text, draw) {
            Ok(answer) => Ok(answer),
            Err(_) => Err(NodeFault::NoMemory),
        }
    }

    /// Drops all memory and opens again: what was fetched and not carried out is gone, and is fetched again.
    pub fn restart<D: Disk>(&mut self, d: &mut D, draw: &Draw) -> Result<(), OpenRefusal>
        requires { IsOnDisk (D.told d.old) self.old }
        ensures identity { self.new.node.identity ≡ self.old.node.identity }
        ensures replica { OnOk result (IfSome (D.told d.old) (λ _. replica_of self.new.node ≡ reopened (replica_of self.old.node))) }
        ensures on { OnOk result (IsOnDisk (D.told d.new) self.new) }
        ensures generation { OnOk result (IfSome (D.told d.old) (λ _. self.new.store.generation ≡ self.old.store.generation)) }
        ensures runs { (marks : Items Mark) → ReplicaRuns (D.told d.old) (D.told d.new) (held_of (replica_of self.old.node)) [] marks marks }
        ensures whole { (file at : ℕ) → IfSome (D.told d.old) (λ _. result ≡ Err (Damaged file at) → ⊥) }
        ensures goes { GoesOn (D.told d.old) (D.told d.new) }
        ensures cause { HasOpenCause (D.faults d.old) (D.faults d.new) result }
    {
        let _ = draw;
        let identity = self.node.identity().duplicate(self.alloc)?;
        *self = DurableReplica::found(self.alloc, d, identity)?;
        Ok(())
    }

    /// How many definitions and transactions were carried out.
    pub fn number(&self) -> u64
        ensures { result ≡ (replica_of self.now.node).number }
    {
        self.node.number()
    }

    /// The log and the position from which the next bytes are fetched.
    pub fn want(&self) -> (u32, u32)
        ensures { record { log = result.0; pos = result.1 } ≡ want (replica_of self.now.node) }
    {
        self.node.want()
    }

    /// Who it is.
    pub fn identity(&self) -> &Identity
        ensures { result.now ≡ self.now.node.identity }
    {
        self.node.identity()
    }
}
