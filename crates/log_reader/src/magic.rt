//! The bytes that begin a log.
ghost use Rattle.std.specs.Prelude.{◌≡◌, ◌≤◌, true, IfErr, IfOk, OnErr};
ghost use Rattle.run_streams.specs.Stops.{StopsReading};
ghost use Rattle.log_reader.specs.Reading.{ReadsMagic, Takes};

use crate::filling::fill;
use answer_text::Status;
use port_traits::Source;
use std::alloc::Global;
use val_types::Bytes;

/// What a log begins with.
const MAGIC: [u8; 4] = [0xfe, 0x62, 0x69, 0x6e];

/// Reads the four bytes that begin a log, and says whether they are its magic: they are not where the input ends before.
pub fn read_magic<S: Source>(alloc: Global, input: &mut S) -> Result<bool, Status>
    ensures magic { IfOk result (λ found. ReadsMagic (S.left input.old) (S.left input.new) found) }
    ensures takes { OnErr result (Takes (S.left input.old) (S.left input.new)) }
    ensures stop { IfErr result (λ status. StopsReading status (S.faults input.old) (S.faults input.new)) }
    ensures later { S.faults input.old ≤ S.faults input.new }
    ensures goes_on { result ≡ Ok true → S.ended input.old ≡ 0 → S.ended input.new ≡ 0 }
    ensures once { S.ended input.old ≡ 0 → S.ended input.new ≤ 1 }
    ensures last { result ≡ Err Status.ReadFault → S.ended input.old ≡ 0 → S.ended input.new ≡ 1 }
{
    let mut buffer = [0u8; 4];
    let mut bytes = Bytes::new(alloc);
    let whole = fill(input, buffer.as_mut_slice(), &mut bytes, 4)?;
    Ok(whole && bytes.as_slice() == MAGIC.as_slice())
}
