//! A queue of entries, written to the disk.
ghost use Rattle.std.specs.Prelude.{◌≡◌, ◌+◌, ◌<◌, ◌≤◌, length, map, reverse, slice_set, take, Some, OnOk, OnErr, IfSome};
ghost use Rattle.disk_model.specs.Story.{count};
ghost use Rattle.disk_model.specs.Answers.{HasDiskCause};
ghost use Rattle.disk_model.specs.Moments.{GoesOn};
ghost use Rattle.session_model.specs.log_entries.declared.entries.Entry.{Entry};
ghost use Rattle.session_model.specs.Machine.{Whole, kept_entry};
ghost use Rattle.store_model.specs.Entries.{writer_at};
ghost use Rattle.durable_runs.specs.Runs.{CallsFit, behind_steps};
ghost use Rattle.durable_runs.specs.Sources.{SourceRuns, Stored, source_side};
ghost use Rattle.store_source.specs.Writing.{CanWrite, IsOn};
ghost use Rattle.store_source.specs.Pushed.{ArePushed, all_calls, begun, wanted};

use crate::entry::write_entry;
use answer_text::{Mark, Report};
use commit_store::Store;
use disk_model::{Disk, DiskRefusal};
use val_types::{List, NoMemory};
use waiting_entries::Waiting;

/// Pushes a mark for each transaction of a queue, which takes the room of those to come.
fn push_all(marks: &mut List<Mark>, mark: Mark, queue: &[Waiting]) -> Result<(), NoMemory>
    ensures front { take (length marks.old) marks.new ≡ marks.old }
    ensures room { OnOk result (length marks.new ≡ length marks.old + wanted queue.now) }
{
    for w in queue {
        if w.counts {
            marks.push(mark)?;
        }
    }
    Ok(())
}

/// The same; where there is no memory, the marks are as before.
fn room_for_marks(marks: &mut List<Mark>, mark: Mark, queue: &[Waiting]) -> Result<(), NoMemory>
    ensures front { take (length marks.old) marks.new ≡ marks.old }
    ensures room { OnOk result (length marks.new ≡ length marks.old + wanted queue.now) }
    ensures err { OnErr result (marks.new ≡ marks.old) }
{
    let count = marks.len();
    let pushed = push_all(marks, mark, queue);
    if pushed.is_err() {
        marks.truncate(count);
    }
    pushed
}

/// Puts a mark in its place, and gives the next place.
#[tactic(auto, using(std::proofs::lemmas::Grind::common_steps))]
fn put_mark(marks: &mut List<Mark>, at: usize, mark: Mark) -> usize
    requires { at < length marks.old }
    ensures marks { marks.new ≡ slice_set marks.old at mark }
    ensures next { result ≡ at + 1 }
{
    let behind = marks.len() - at - 1;
    marks.set(at, mark);
    marks.len() - behind
}

/// How many logs a queue begins.
fn logs_begun(queue: &[Waiting]) -> usize
    ensures { result ≡ begun queue.now }
{
    let mut logs = 0;
    for w in queue {
        if !w.counts {
            logs += 1;
        }
    }
    logs
}

/// A queue from its last entry on.
fn backwards(queue: List<Waiting>) -> List<Waiting>
    ensures { result ≡ reverse queue }
{
    let mut queue = queue.into_vec();
    queue.reverse();
    List::from_vec(queue)
}

/// Writes entries one after the other, and sets the mark of each transaction behind its commit. It takes no memory.
fn write_each<D: Disk>(
    store: &mut Store,
    d: &mut D,
    queue: List<Waiting>,
    now: Mark,
    marks: &mut List<Mark>,
    at: &mut usize,
) -> Result<(), DiskRefusal>
    requires can { (s : Stored) × ((es : List (Entry Whole)) × CanWrite (D.told d.old) store.old s es queue) }
    requires room { at.old + wanted queue ≤ length marks.old }
    requires logs { begun queue ≤ store.old.ends.room }
    ensures run { (s : Stored) (es : List (Entry Whole)) → CanWrite (D.told d.old) store.old s es queue → CallsFit (D.told d.new)
        → SourceRuns (D.told d.old) (D.told d.new) s es (take at.old marks.old) (take at.new marks.new) }
    ensures goes { (s : Stored) (es : List (Entry Whole)) → CanWrite (D.told d.old) store.old s es queue → GoesOn (D.told d.old) (D.told d.new) }
    ensures pushed { (s : Stored) (es : List (Entry Whole)) → CanWrite (D.told d.old) store.old s es queue
        → ArePushed now s.held.number store.new.number (take at.old marks.old) (take at.new marks.new) }
    ensures on { (s after : Stored) (es : List (Entry Whole)) → CanWrite (D.told d.old) store.old s es queue → behind_steps source_side es s ≡ Some after
        → OnOk result (IsOn (D.told d.new) store.new after) }
    ensures generation { store.new.generation ≡ store.old.generation }
    ensures calls { (s : Stored) (es : List (Entry Whole)) → CanWrite (D.told d.old) store.old s es queue
        → OnOk result (IfSome (D.told d.old) (λ _. count (D.told d.new) ≡ count (D.told d.old) + all_calls (map kept_entry es) s.held.number (writer_at s.held))) }
    ensures cause { HasDiskCause (D.faults d.old) (D.faults d.new) result }
{
    let mut left = backwards(queue);
    while let Some(w) = left.pop() {
        let counts = w.counts;
        write_entry(store, d, w)?;
        if counts {
            let mark = Mark {
                committed: store.number(),
                src_calls: d.calls(),
                ..now
            };
            *at = put_mark(marks, *at, mark);
        }
    }
    Ok(())
}

/// Writes the entries that wait in a queue, in their order, and pushes a mark behind each transaction. Room for all marks, and for the
/// ends of logs that begin, is taken first; where there is none, no disk is called. Nothing else takes memory.
pub fn write_out<D: Disk>(
    store: &mut Store,
    d: &mut D,
    queue: List<Waiting>,
    report: &mut Report,
) -> Result<(), DiskRefusal>
    requires { (s : Stored) × ((es : List (Entry Whole)) × CanWrite (D.told d.old) store.old s es queue) }
    ensures run { (s : Stored) (es : List (Entry Whole)) → CanWrite (D.told d.old) store.old s es queue → CallsFit (D.told d.new)
        → SourceRuns (D.told d.old) (D.told d.new) s es report.old.marks report.new.marks }
    ensures goes { (s : Stored) (es : List (Entry Whole)) → CanWrite (D.told d.old) store.old s es queue → GoesOn (D.told d.old) (D.told d.new) }
    ensures pushed { (s : Stored) (es : List (Entry Whole)) → CanWrite (D.told d.old) store.old s es queue
        → ArePushed report.old.now s.held.number store.new.number report.old.marks report.new.marks }
    ensures on { (s after : Stored) (es : List (Entry Whole)) → CanWrite (D.told d.old) store.old s es queue → behind_steps source_side es s ≡ Some after
        → OnOk result (IsOn (D.told d.new) store.new after) }
    ensures generation { store.new.generation ≡ store.old.generation }
    ensures calls { (s : Stored) (es : List (Entry Whole)) → CanWrite (D.told d.old) store.old s es queue
        → OnOk result (IfSome (D.told d.old) (λ _. count (D.told d.new) ≡ count (D.told d.old) + all_calls (map kept_entry es) s.held.number (writer_at s.held))) }
    ensures rest { report.new ≡ record report.old { marks = report.new.marks } }
    ensures cause { HasDiskCause (D.faults d.old) (D.faults d.new) result }
{
    store.make_room(logs_begun(queue.as_slice()))?;
    let now = report.now;
    let mut at = report.marks.len();
    room_for_marks(&mut report.marks, now, queue.as_slice())?;
    let written = write_each(store, d, queue, now, &mut report.marks, &mut at);
    report.marks.truncate(at);
    written
}
