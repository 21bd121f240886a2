//! What stands where a disk is not called, as a contract of a function that does nothing.
ghost use Rattle.std.specs.Prelude.{◌≡◌, [], Ok, Option};
ghost use Rattle.commit_store.specs.declared.store.Store.{Store};
ghost use Rattle.disk_model.specs.Moments.{Each};
ghost use Rattle.disk_model.specs.Story.{Image, Story};
ghost use Rattle.durable_runs.specs.Replicas.{ReplicaStands};
ghost use Rattle.store_model.specs.Held.{Held};
ghost use Rattle.store_model.specs.Stores.{held_by};
ghost use Rattle.store_model.specs.declared.record.Kind.TheVariants.{Replica};
ghost use Rattle.store_replica.specs.Writing.{IsOn, OpensOn};

/// A crash leaves what a replica has, which is what is read of its disk; and whatever holds a replica's store, it has no logs.
pub fn replicas_stand()
    ensures each { (t : Option Story) (store : Store) (held : Held) → IsOn t store held → Each t (ReplicaStands held) }
    ensures opens { (t : Option Story) (store : Store) (held : Held) → IsOn t store held → OpensOn t held }
    ensures own { (image : Image) (held : Held) → held_by Replica image ≡ Ok held → held.ends ≡ [] }
{}
