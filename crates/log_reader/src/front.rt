//! The bytes of a log before a position, which are not looked at behind the magic.
ghost use Rattle.std.specs.Prelude.{◌≡◌, ◌≤◌, ◌<◌, None, Ok, IfErr, IfOk, OnErr, length};
ghost use Rattle.run_streams.specs.Stops.{StopsReading};
ghost use Rattle.log_reader.specs.Filling.{PassesTo};
ghost use Rattle.log_reader.specs.Reading.{ReadsFront, Takes};

use crate::filling::fill;
use crate::magic::read_magic;
use crate::reader::{PIECE, make_buffer};
use answer_text::Status;
use port_traits::Source;
use run_streams::with_status;
use std::alloc::Global;
use val_types::Bytes;

/// How many bytes a log's magic has.
const MAGIC_LENGTH: u32 = 4;

/// Reads on to a position, and keeps nothing; else gives the place where the input ended before.
fn pass_to<S: Source>(
    alloc: Global,
    input: &mut S,
    buffer: &mut [u8],
    from: u32,
    pos: u32,
) -> Result<Option<u64>, Status>
    requires room { 0 < length buffer.old }
    requires before { from ≤ pos }
    ensures passes { IfOk result (λ found. PassesTo from pos (S.left input.old) (S.left input.new) found) }
    ensures takes { OnErr result (Takes (S.left input.old) (S.left input.new)) }
    ensures stop { IfErr result (λ status. StopsReading status (S.faults input.old) (S.faults input.new)) }
    ensures later { S.faults input.old ≤ S.faults input.new }
    ensures goes_on { result ≡ Ok None → S.ended input.old ≡ 0 → S.ended input.new ≡ 0 }
    ensures once { S.ended input.old ≡ 0 → S.ended input.new ≤ 1 }
    ensures last { result ≡ Err Status.ReadFault → S.ended input.old ≡ 0 → S.ended input.new ≡ 1 }
{
    let mut bytes = Bytes::new(alloc);
    let mut at = from;
    while at < pos {
        let count = PIECE.min((pos - at) as usize);
        let whole = fill(input, buffer, &mut bytes, count)?;
        at += bytes.len() as u32;
        bytes.clear();
        if !whole {
            return Ok(Some(at as u64));
        }
    }
    Ok(None)
}

/// Reads the bytes of a log before a position, in pieces that are let go, the magic first: behind them the next group begins. Else gives the
/// place where the log is damaged: its first byte, where the magic does not stand there; a position in the magic; or the log's end, where that
/// comes before the position.
pub fn read_front<S: Source>(alloc: Global, input: &mut S, pos: u32) -> Result<Option<u64>, Status>
    ensures front { IfOk result (λ found. ReadsFront pos (S.left input.old) (S.left input.new) found) }
    ensures takes { OnErr result (Takes (S.left input.old) (S.left input.new)) }
    ensures stop { IfErr result (λ status. StopsReading status (S.faults input.old) (S.faults input.new)) }
    ensures later { S.faults input.old ≤ S.faults input.new }
    ensures goes_on { result ≡ Ok None → S.ended input.old ≡ 0 → S.ended input.new ≡ 0 }
    ensures once { S.ended input.old ≡ 0 → S.ended input.new ≤ 1 }
    ensures last { result ≡ Err Status.ReadFault → S.ended input.old ≡ 0 → S.ended input.new ≡ 1 }
{
    if !read_magic(alloc, input)? {
        return Ok(Some(0));
    }
    if pos < MAGIC_LENGTH {
        return Ok(Some(pos as u64));
    }
    let mut buffer = Vec::new(alloc);
    with_status(make_buffer(alloc, &mut buffer))?;
    pass_to(alloc, input, buffer.as_mut_slice(), MAGIC_LENGTH, pos)
}
