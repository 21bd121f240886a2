//! The pieces of a checkpoint, put one after the other.
ghost use Rattle.std.specs.Prelude.{◌≡◌, ◌≤◌, ◌<◌, ◌+◌, ◌%◌, ℕ, [], ◌∷◌, true, false, not, length, IfOk, OnOk, IfSome};
ghost use Rattle.disk_model.specs.Story.{seen, overwritten};
ghost use Rattle.disk_model.specs.Moments.{Only};
ghost use Rattle.disk_model.specs.Claims.{Puts, Quietly, Steps};
ghost use Rattle.disk_model.specs.Answers.{HasDiskCause};
ghost use Rattle.store_model.specs.declared.record.Kind.{Kind};
ghost use Rattle.store_model.specs.Held.{Held};
ghost use Rattle.store_model.specs.Stores.{journal_of};
ghost use Rattle.commit_store.specs.Keeping.{AreDurable};
ghost use Rattle.checkpoint_model.specs.Pieces.{is_to_close, snapshot_file};
ghost use Rattle.checkpoint_model.specs.Moments.{IsShut, StandsEither};
ghost use Rattle.checkpoint_pieces.specs.Working.{IsClosing, WorksOnBoth};
ghost use Rattle.checkpoint_pieces.specs.Newest.{IsNewest, IsToWork};

use disk_model::{Disk, DiskRefusal, put, settle};

/// The file of a generation's snapshot.
fn snapshot_file(generation: u64) -> u32
    ensures { result ≡ snapshot_file generation }
{
    (generation % 2) as u32
}

/// The file of its journal.
fn journal_file(generation: u64) -> u32
    ensures { result ≡ journal_of generation }
{
    2 + (generation % 2) as u32
}

/// Whether the gate of a snapshot's file stands closed before other bytes.
fn is_shut<D: Disk>(d: &mut D, file: u32) -> Result<bool, DiskRefusal>
    ensures is { IfOk result (λ shut. IfSome (D.told d.old) (λ _. shut ≡ not (is_to_close (seen (D.told d.old) file)))) }
    ensures quiet { Quietly (D.told d.old) (D.told d.new) }
    ensures cause { HasDiskCause (D.faults d.old) (D.faults d.new) result }
{
    let size = d.length(file)?;
    if size < 2 {
        return Ok(false);
    }
    let mut gate = [1u8; 1];
    d.read(file, 0, &mut gate)?;
    Ok(gate[0] == 0)
}

/// Closes the gate of a snapshot's file, and syncs, where it does not stand closed before other bytes. What is behind a closed gate does not
/// count, and a write over that gate could open it.
fn close_gate<D: Disk>(d: &mut D, file: u32) -> Result<(), DiskRefusal>
    requires durable { Only (D.told d.old) file (seen (D.told d.old) file) }
    ensures durable { OnOk result (Only (D.told d.new) file (seen (D.told d.new) file)) }
    ensures shut { OnOk result (IfSome (D.told d.old) (λ _. IsShut (seen (D.told d.new) file))) }
    ensures steps { Steps (D.told d.old) (D.told d.new) file (IsClosing (seen (D.told d.old) file)) }
    ensures cause { HasDiskCause (D.faults d.old) (D.faults d.new) result }
{
    settle(d, file)?;
    let shut = is_shut(d, file)?;
    if shut {
        return Ok(());
    }
    put(d, file, 0, &[0])
}

/// Closes the first gate of a journal, and syncs: it has no record then.
fn close_journal<D: Disk>(d: &mut D, journal: u32) -> Result<(), DiskRefusal>
    requires durable { Only (D.told d.old) journal (seen (D.told d.old) journal) }
    ensures durable { OnOk result (Only (D.told d.new) journal (seen (D.told d.new) journal)) }
    ensures reads { OnOk result (IfSome (D.told d.old) (λ _. seen (D.told d.new) journal ≡ overwritten 0 (0 ∷ []) (seen (D.told d.old) journal))) }
    ensures puts { Puts (D.told d.old) (D.told d.new) journal 0 (0 ∷ []) }
    ensures cause { HasDiskCause (D.faults d.old) (D.faults d.new) result }
{
    put(d, journal, 0, &[0])
}

/// Writes the length and the body of a snapshot behind its closed gate, and syncs.
fn write_body<D: Disk>(d: &mut D, file: u32, framed: &[u8]) -> Result<(), DiskRefusal>
    requires durable { Only (D.told d.old) file (seen (D.told d.old) file) }
    requires within { IfSome (D.told d.old) (λ _. IsShut (seen (D.told d.old) file)) }
    ensures durable { OnOk result (Only (D.told d.new) file (seen (D.told d.new) file)) }
    ensures reads { OnOk result (IfSome (D.told d.old) (λ _. seen (D.told d.new) file ≡ overwritten 1 framed.now (seen (D.told d.old) file))) }
    ensures puts { Puts (D.told d.old) (D.told d.new) file 1 framed.now }
    ensures cause { HasDiskCause (D.faults d.old) (D.faults d.new) result }
{
    put(d, file, 1, framed)
}

/// Opens the gate of a snapshot, and syncs: it counts.
fn open_gate<D: Disk>(d: &mut D, file: u32) -> Result<(), DiskRefusal>
    requires durable { Only (D.told d.old) file (seen (D.told d.old) file) }
    ensures durable { OnOk result (Only (D.told d.new) file (seen (D.told d.new) file)) }
    ensures reads { OnOk result (IfSome (D.told d.old) (λ _. seen (D.told d.new) file ≡ overwritten 0 (1 ∷ []) (seen (D.told d.old) file))) }
    ensures puts { Puts (D.told d.old) (D.told d.new) file 0 (1 ∷ []) }
    ensures cause { HasDiskCause (D.faults d.old) (D.faults d.new) result }
{
    put(d, file, 0, &[1])
}

/// Puts a snapshot of the next generation in its file, and closes the first gate of its journal before the snapshot counts.
pub fn put_pieces<D: Disk>(d: &mut D, next: u64, framed: &[u8]) -> Result<(), DiskRefusal>
    requires snapshot { Only (D.told d.old) (snapshot_file next) (seen (D.told d.old) (snapshot_file next)) }
    requires journal { Only (D.told d.old) (journal_of next) (seen (D.told d.old) (journal_of next)) }
    ensures images { (kind : Kind) (generation : ℕ) (held : Held) → next ≡ generation + 1 → IsToWork (D.told d.old) kind generation framed.now held
        → WorksOnBoth (D.told d.old) (D.told d.new) (snapshot_file next) (journal_of next) (StandsEither kind generation held) }
    ensures newest { (kind : Kind) (generation : ℕ) (held : Held) → next ≡ generation + 1 → IsToWork (D.told d.old) kind generation framed.now held
        → OnOk result (IsNewest (D.told d.new) kind next held) }
    ensures durable { (kind : Kind) → AreDurable kind (D.told d.old) → OnOk result (AreDurable kind (D.told d.new)) }
    ensures cause { HasDiskCause (D.faults d.old) (D.faults d.new) result }
{
    let file = snapshot_file(next);
    let journal = journal_file(next);
    close_gate(d, file)?;
    close_journal(d, journal)?;
    write_body(d, file, framed)?;
    open_gate(d, file)
}
