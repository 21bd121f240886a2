//! A log that is read from the input and shown on the output.
ghost use Rattle.std.specs.Prelude.{◌≡◌, ◌≤◌, [], IfErr, OnErr, OnOk};
ghost use Rattle.fault_counts.specs.Causes.{Rose};
ghost use Rattle.log_reader.specs.log_model.Events.{events_from};
ghost use Rattle.log_reader.specs.run_streams.Stops.{StopsWriting, failed_writes, status_of};
ghost use Rattle.log_reader.specs.run_streams.Wrote.{Wrote, WroteFront};
ghost use Rattle.log_reader.specs.log_file_model.Printed.{lines_from};
ghost use Rattle.print_log.specs.Ends.{PrintEnds};

use crate::lines::put_lines;
use answer_text::Status;
use log_reader::run_streams::{with_status, write_line};
use log_reader::{Found, LogReader, read_magic};
use port_traits::{Sink, Source};
use std::alloc::Global;
use val_types::Bytes;

/// Writes the lines of the group that was read last. `lines` is a buffer that is used again for each group.
fn print_group<K: Sink>(
    alloc: Global,
    reader: &LogReader,
    lines: &mut Bytes,
    out: &mut K,
) -> Result<(), Status>
    ensures ok { OnOk result (Wrote (K.written out.old) (K.written out.new)
        (lines_from [] (events_from (record { bytes = reader.now.bytes; pos = reader.now.begin })))) }
    ensures err { OnErr result (WroteFront (K.written out.old) (K.written out.new)
        (lines_from [] (events_from (record { bytes = reader.now.bytes; pos = reader.now.begin })))) }
    ensures stop { IfErr result (λ status. StopsWriting status (K.faults out.old) (K.faults out.new)) }
    ensures later { K.faults out.old ≤ K.faults out.new }
    ensures ended { K.ended out.old ≡ 0 → K.ended out.new ≡ failed_writes (status_of result) }
{
    lines.clear();
    with_status(put_lines(alloc, lines, reader.bytes(), reader.begin()))?;
    write_line(out, lines.as_slice())
}

/// Writes the lines of the log on the input, and says why no other group follows.
fn print_groups<S: Source, K: Sink>(alloc: Global, input: &mut S, out: &mut K) -> Result<(), Status>
    ensures run { PrintEnds (status_of result) (S.left input.old) (S.left input.new) (K.written out.old) (K.written out.new) }
    ensures read_fault { result ≡ Err Status.ReadFault → Rose (S.faults input.old) (S.faults input.new) }
    ensures write_fault { result ≡ Err Status.WriteFault → Rose (K.faults out.old) (K.faults out.new) }
    ensures reads_once { S.ended input.old ≡ 0 → S.ended input.new ≤ 1 }
    ensures last_read { result ≡ Err Status.ReadFault → S.ended input.old ≡ 0 → S.ended input.new ≡ 1 }
    ensures read_end { status_of result ≡ Status.Done → S.ended input.old ≡ 0 → S.ended input.new ≡ 1 }
    ensures last_write { K.ended out.old ≡ 0 → K.ended out.new ≡ failed_writes (status_of result) }
{
    if !read_magic(alloc, input)? {
        return Err(Status::LogDamaged { pos: 0 });
    }
    let mut reader = LogReader::new(alloc);
    let mut lines = Bytes::new(alloc);
    loop {
        match reader.next(input)? {
            Found::Group => print_group(alloc, &reader, &mut lines, out)?,
            Found::End => return Ok(()),
            Found::Damaged { pos } => return Err(Status::LogDamaged { pos }),
            Found::Foreign { pos, kind } => return Err(Status::LogForeign { pos, kind }),
        }
    }
}

/// Writes the lines that show the log on the input: one for each event of each whole group, up to the log's end or to what is
/// damaged or not known.
pub fn print<S: Source, K: Sink>(alloc: Global, input: &mut S, out: &mut K) -> Status
    // At Done, LogDamaged and LogForeign the log ends so and just the lines of its groups were written, else a front of them; each
    // status comes only by its cause.
    ensures run { PrintEnds result (S.left input.old) (S.left input.new) (K.written out.old) (K.written out.new) }

    // A fault has its cause, whatever the streams are, and is the last call on its stream; nothing is read behind the end of the
    // input, and at Done it was read to there.
    ensures read_fault { result ≡ Status.ReadFault → Rose (S.faults input.old) (S.faults input.new) }
    ensures write_fault { result ≡ Status.WriteFault → Rose (K.faults out.old) (K.faults out.new) }
    ensures reads_once { S.ended input.old ≡ 0 → S.ended input.new ≤ 1 }
    ensures last_read { result ≡ Status.ReadFault → S.ended input.old ≡ 0 → S.ended input.new ≡ 1 }
    ensures read_end { result ≡ Status.Done → S.ended input.old ≡ 0 → S.ended input.new ≡ 1 }
    ensures last_write { K.ended out.old ≡ 0 → K.ended out.new ≡ failed_writes result }
{
    match print_groups(alloc, input, out) {
        Ok(()) => Status::Done,
        Err(status) => status,
    }
}
