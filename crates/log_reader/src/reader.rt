//! A reader of a log.
ghost use Rattle.std.specs.Prelude.{◌≡◌, ◌≤◌, ◌+◌, [], false, length, IfErr, IfOk, OnErr, OnOk, vec_len};
ghost use Rattle.run_streams.specs.Stops.{StopsReading};
ghost use Rattle.log_reader.specs.Reading.{Reads, Takes, begun_at};

use crate::groups::{keep, read_next};
use answer_text::Status;
use port_traits::Source;
use run_streams::with_status;
use std::alloc::Global;
use std::marker::Model;
use val_types::{Bytes, NoMemory};

/// How many bytes are asked of the input at once at most.
pub(crate) const PIECE: usize = 65_536;

/// The greatest position that a group may end at.
const MOST_POSITION: u32 = 1_200_000_000;

/// What stands in a log behind the groups that were read: one more group; nothing; an event that is damaged, or bytes of no whole
/// group at the input's end, with the place; an event of a type that is not known.
#[derive(Clone, Copy)]
pub enum Found {
    Group,
    End,
    Damaged { pos: u64 },
    Foreign { pos: u64, kind: u8 },
}

/// A reader of the log on an input, from its first group or from a position on. It holds the group that was read last; behind what is
/// damaged or not known, at the end and behind an error it holds none. Behind the name of the next log it is closed, and so it is from the
/// beginning where no group can end behind its position.
#[derive(Drop)]
pub struct LogReader {
    alloc: Global,
    buffer: Vec<u8>,
    bytes: Bytes,
    begin: u64,
    closed: bool,
}

impl Model for LogReader {
    ghost use Rattle.std.specs.Prelude.{◌≡◌, ◌+◌, ◌≤◌, false, length};
    ghost use Rattle.log_reader.specs.Reading.{Reader};

    ghost Value = { Reader };

    ghost view = { λ r. record { bytes = r.bytes; begin = r.begin; closed = r.closed } };

    ghost invariant = { λ r. (r.begin + length r.bytes ≤ 4294967295) × (r.closed ≡ false → r.begin + length r.bytes ≤ 1200000000) };
}

/// Makes a buffer for pieces of the input, where there is none yet.
pub(crate) fn make_buffer(alloc: Global, buffer: &mut Vec<u8>) -> Result<(), NoMemory>
    ensures { OnOk result (vec_len buffer.new ≡ 65536) }
{
    if buffer.len() != PIECE {
        *buffer = vec![in alloc; 0u8; PIECE]?;
    }
    Ok(())
}

impl LogReader {
    /// Before the first event of a log, behind its magic.
    pub fn new(alloc: Global) -> LogReader
        ensures { result ≡ record { bytes = []; begin = 4; closed = false } }
    {
        LogReader {
            alloc,
            buffer: Vec::new(alloc),
            bytes: Bytes::new(alloc),
            begin: 4,
            closed: false,
        }
    }

    /// At a position of a log, from which its groups are to be read.
    pub fn at(alloc: Global, pos: u32) -> LogReader
        ensures { result ≡ begun_at pos }
    {
        LogReader {
            alloc,
            buffer: Vec::new(alloc),
            bytes: Bytes::new(alloc),
            begin: pos as u64,
            closed: pos > MOST_POSITION,
        }
    }

    /// Reads one group more, and no byte behind it.
    pub fn next<S: Source>(&mut self, input: &mut S) -> Result<Found, Status>
        ensures reads { IfOk result (λ found. Reads self.old self.new (S.left input.old) (S.left input.new) found) }
        ensures takes { OnErr result (Takes (S.left input.old) (S.left input.new)) }
        ensures stop { IfErr result (λ status. StopsReading status (S.faults input.old) (S.faults input.new)) }
        ensures later { S.faults input.old ≤ S.faults input.new }
        ensures goes_on { result ≡ Ok Found.Group → S.ended input.old ≡ 0 → S.ended input.new ≡ 0 }
        ensures at_end { result ≡ Ok Found.End → S.ended input.old ≡ 0 → S.ended input.new ≡ 1 }
        ensures once { S.ended input.old ≡ 0 → S.ended input.new ≤ 1 }
        ensures last { result ≡ Err Status.ReadFault → S.ended input.old ≡ 0 → S.ended input.new ≡ 1 }
    {
        self.begin += self.bytes.len() as u64;
        self.bytes.clear();
        with_status(make_buffer(self.alloc, &mut self.buffer))?;
        let buffer = self.buffer.as_mut_slice();
        match read_next(input, buffer, &mut self.bytes, self.begin, self.closed) {
            Ok(taken) => {
                keep(taken, &mut self.bytes, &mut self.closed);
                Ok(taken.found)
            }
            Err(status) => {
                self.bytes.clear();
                Err(status)
            }
        }
    }

    /// The bytes of the group that was read last.
    pub fn bytes(&self) -> &[u8]
        ensures { result.now ≡ self.now.bytes }
    {
        self.bytes.as_slice()
    }

    /// The place of its first byte in the log.
    pub fn begin(&self) -> u64
        ensures { result ≡ self.now.begin }
    {
        self.begin
    }
}
