//! One record, kept.
ghost use Rattle.std.specs.Prelude.{◌≡◌, ◌+◌, [], ◌∷◌, if◌then◌else◌, length, true, OnOk, OnErr, IfSome};
ghost use Rattle.disk_model.specs.Story.{count, seen};
ghost use Rattle.disk_model.specs.Answers.{HasDiskCause};
ghost use Rattle.disk_model.specs.Moments.{GoesOn};
ghost use Rattle.durable_runs.specs.Runs.{CallsFit};
ghost use Rattle.durable_runs.specs.Replicas.{ReplicaRuns};
ghost use Rattle.store_model.specs.declared.record.Record.{Record};
ghost use Rattle.store_model.specs.Held.{Held};
ghost use Rattle.store_model.specs.Stores.{first_log};
ghost use Rattle.store_replica.specs.Pushed.{ArePushed};
ghost use Rattle.store_replica.specs.Writing.{CanKeep, IsCounted, IsOn, LeadsTo};

use answer_text::{Mark, Report};
use commit_store::{Prepared, Store};
use disk_model::{Disk, DiskRefusal};
use val_types::List;

/// Stages a record and opens its gate, each synced before the next: four calls of the disk. It takes no memory.
fn write_record<D: Disk>(store: &mut Store, d: &mut D, p: Prepared) -> Result<(), DiskRefusal>
    requires { (r : Record) × ((held : Held) × ((now : Held) × CanKeep (D.told d.old) store.old p r held now)) }
    ensures leads { (r : Record) (held now : Held) → CanKeep (D.told d.old) store.old p r held now → LeadsTo (D.told d.old) (D.told d.new) held now }
    ensures on { (r : Record) (held now : Held) → CanKeep (D.told d.old) store.old p r held now → OnOk result (IsOn (D.told d.new) store.new now) }
    ensures number { OnErr result (store.new.number ≡ store.old.number) }
    ensures generation { store.new.generation ≡ store.old.generation }
    ensures relay { seen (D.told d.new) first_log ≡ seen (D.told d.old) first_log }
    ensures calls { OnOk result (IfSome (D.told d.old) (λ _. count (D.told d.new) ≡ count (D.told d.old) + 4)) }
    ensures cause { HasDiskCause (D.faults d.old) (D.faults d.new) result }
{
    store.take(p);
    store.stage(d)?;
    store.commit(d)
}

/// The same, with a mark behind it, for which there is room before the first call.
fn keep_counted<D: Disk>(
    store: &mut Store,
    d: &mut D,
    p: Prepared,
    now: Mark,
    marks: &mut List<Mark>,
) -> Result<(), DiskRefusal>
    requires { (r : Record) × ((held : Held) × ((next : Held) × (CanKeep (D.told d.old) store.old p r held next × IsCounted true held next))) }
    ensures run { (r : Record) (held next : Held) → CanKeep (D.told d.old) store.old p r held next → CallsFit (D.told d.new)
        → ReplicaRuns (D.told d.old) (D.told d.new) held (r ∷ []) marks.old marks.new }
    ensures goes { GoesOn (D.told d.old) (D.told d.new) }
    ensures on { (r : Record) (held next : Held) → CanKeep (D.told d.old) store.old p r held next → OnOk result (IsOn (D.told d.new) store.new next) }
    ensures pushed { (r : Record) (held next : Held) → CanKeep (D.told d.old) store.old p r held next → IsCounted true held next
        → ArePushed now held.number store.new.number marks.old marks.new }
    ensures marks { OnOk result (length marks.new ≡ length marks.old + 1) }
    ensures err { OnErr result (marks.new ≡ marks.old) }
    ensures number { OnErr result (store.new.number ≡ store.old.number) }
    ensures generation { store.new.generation ≡ store.old.generation }
    ensures relay { seen (D.told d.new) first_log ≡ seen (D.told d.old) first_log }
    ensures calls { OnOk result (IfSome (D.told d.old) (λ _. count (D.told d.new) ≡ count (D.told d.old) + 4)) }
    ensures cause { HasDiskCause (D.faults d.old) (D.faults d.new) result }
{
    let at = marks.len();
    marks.push(now)?;
    match write_record(store, d, p) {
        Ok(()) => {
            let mark = Mark {
                applied: store.number(),
                rep_calls: d.calls(),
                ..now
            };
            marks.set(at, mark);
            Ok(())
        }
        Err(refusal) => {
            marks.truncate(at);
            Err(refusal)
        }
    }
}

/// Keeps a record that was prepared before: it is staged, its gate is opened, and where it counts a transaction its mark is pushed. Room for
/// the mark is taken first; where there is none, no disk is called. Nothing else takes memory.
pub fn keep<D: Disk>(
    store: &mut Store,
    d: &mut D,
    p: Prepared,
    counts: bool,
    report: &mut Report,
) -> Result<(), DiskRefusal>
    requires { (r : Record) × ((held : Held) × ((now : Held) × (CanKeep (D.told d.old) store.old p r held now × IsCounted counts held now))) }
    ensures run { (r : Record) (held now : Held) → CanKeep (D.told d.old) store.old p r held now → CallsFit (D.told d.new)
        → ReplicaRuns (D.told d.old) (D.told d.new) held (r ∷ []) report.old.marks report.new.marks }
    ensures goes { GoesOn (D.told d.old) (D.told d.new) }
    ensures on { (r : Record) (held now : Held) → CanKeep (D.told d.old) store.old p r held now → OnOk result (IsOn (D.told d.new) store.new now) }
    ensures pushed { (r : Record) (held now : Held) → CanKeep (D.told d.old) store.old p r held now → IsCounted counts held now
        → ArePushed report.old.now held.number store.new.number report.old.marks report.new.marks }
    ensures marks { OnOk result (length report.new.marks ≡ length report.old.marks + (if counts then 1 else 0)) }
    ensures err { OnErr result (report.new ≡ report.old) }
    ensures rest { report.new ≡ record report.old { marks = report.new.marks } }
    ensures number { OnErr result (store.new.number ≡ store.old.number) }
    ensures generation { store.new.generation ≡ store.old.generation }
    ensures relay { seen (D.told d.new) first_log ≡ seen (D.told d.old) first_log }
    ensures calls { OnOk result (IfSome (D.told d.old) (λ _. count (D.told d.new) ≡ count (D.told d.old) + 4)) }
    ensures cause { HasDiskCause (D.faults d.old) (D.faults d.new) result }
{
    if counts {
        return keep_counted(store, d, p, report.now, &mut report.marks);
    }
    write_record(store, d, p)
}
