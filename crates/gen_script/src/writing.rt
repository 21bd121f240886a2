//! The made script, written some lines at a time.
ghost use Rattle.std.specs.Prelude.{◌≡◌, ◌≤◌, ◌++◌, IfErr, IfOk, OnErr, OnOk};
ghost use Rattle.fault_counts.specs.Causes.{Rose};
ghost use Rattle.run_streams.specs.Stops.{StopsWriting, failed_writes, status_of};
ghost use Rattle.run_streams.specs.Wrote.{Wrote, WroteFront};
ghost use Rattle.gen_script.specs.Ends.{GenEnds};
ghost use Rattle.gen_script.specs.Gathered.{Gathers};
ghost use Rattle.load_script.specs.Script.{load_text, turns_text};

use answer_text::Status;
use load_script::{put_first, put_last, put_turn};
use port_traits::Sink;
use run_streams::{with_status, write_line};
use std::alloc::Global;
use val_types::Bytes;

/// From how many bytes on what is gathered is written.
const PIECE: usize = 65_536;

/// Writes what is gathered, if that is much.
fn write_much<K: Sink>(text: &mut Bytes, out: &mut K) -> Result<(), Status>
    ensures ok { OnOk result (Gathers (K.written out.old) (K.written out.new) text.new text.old) }
    ensures err { OnErr result (WroteFront (K.written out.old) (K.written out.new) text.old) }
    ensures stop { IfErr result (λ status. StopsWriting status (K.faults out.old) (K.faults out.new)) }
    ensures later { K.faults out.old ≤ K.faults out.new }
    ensures ended { K.ended out.old ≡ 0 → K.ended out.new ≡ failed_writes (status_of result) }
{
    if text.len() < PIECE {
        return Ok(());
    }
    write_line(out, text.as_slice())?;
    text.clear();
    Ok(())
}

/// Writes the first line and those of all changes, but for some that are gathered and not written yet.
fn write_turns<K: Sink>(alloc: Global, changes: u32, out: &mut K) -> Result<Bytes, Status>
    ensures ok { IfOk result (λ text. Gathers (K.written out.old) (K.written out.new) text (turns_text changes)) }
    ensures err { OnErr result (WroteFront (K.written out.old) (K.written out.new) (load_text changes)) }
    ensures stop { IfErr result (λ status. StopsWriting status (K.faults out.old) (K.faults out.new)) }
    ensures later { K.faults out.old ≤ K.faults out.new }
    ensures ended { K.ended out.old ≡ 0 → K.ended out.new ≡ failed_writes (status_of result) }
{
    let mut text = Bytes::new(alloc);
    with_status(put_first(&mut text))?;
    let mut i = 0;
    while i < changes {
        i += 1;
        with_status(put_turn(alloc, &mut text, i))?;
        write_much(&mut text, out)?;
    }
    Ok(text)
}

/// Writes the script with so many changes.
fn write_all_lines<K: Sink>(alloc: Global, changes: u32, out: &mut K) -> Result<(), Status>
    ensures ok { OnOk result (Wrote (K.written out.old) (K.written out.new) (load_text changes)) }
    ensures err { OnErr result (WroteFront (K.written out.old) (K.written out.new) (load_text changes)) }
    ensures stop { IfErr result (λ status. StopsWriting status (K.faults out.old) (K.faults out.new)) }
    ensures ended { K.ended out.old ≡ 0 → K.ended out.new ≡ failed_writes (status_of result) }
{
    let mut text = write_turns(alloc, changes, out)?;
    with_status(put_last(&mut text))?;
    write_line(out, text.as_slice())
}

/// The word `gen`: writes the script with so many changes.
pub fn write_script<K: Sink>(alloc: Global, changes: u32, out: &mut K) -> Status
    // At Done the script was written, at any other status a front of it; each status comes only by its cause.
    ensures run { GenEnds result changes (K.written out.old) (K.written out.new) }

    // A fault has its cause, whatever the output is, and is the last call on it.
    ensures write_fault { result ≡ Status.WriteFault → Rose (K.faults out.old) (K.faults out.new) }
    ensures last_write { K.ended out.old ≡ 0 → K.ended out.new ≡ failed_writes result }
{
    match write_all_lines(alloc, changes, out) {
        Ok(()) => Status::Done,
        Err(status) => status,
    }
}
