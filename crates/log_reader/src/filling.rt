//! Bytes read from an input up to a count.
ghost use Rattle.std.specs.Prelude.{◌≡◌, ◌≤◌, ◌<◌, ◌++◌, true, false, length, option_map, IfErr, IfOk, OnErr, OnOk};
ghost use Rattle.run_streams.specs.Stops.{StopsReading};
ghost use Rattle.log_reader.specs.Filling.{Grows, FillsTo};
ghost use Rattle.log_reader.specs.Reading.{IsEnd, Takes};

use answer_text::Status;
use port_traits::Source;
use run_streams::read_piece;
use val_types::Bytes;

/// Reads until there are so many bytes, and says whether there are: there are fewer where the input ends before.
pub(crate) fn fill<S: Source>(
    input: &mut S,
    buffer: &mut [u8],
    bytes: &mut Bytes,
    count: usize,
) -> Result<bool, Status>
    requires room { 0 < length buffer.old }
    requires few { length bytes.old ≤ count }
    ensures grows { OnOk result (Grows bytes.old bytes.new) }
    ensures joined { OnOk result (option_map (λ rest. bytes.new ++ rest) (S.left input.new)
        ≡ option_map (λ rest. bytes.old ++ rest) (S.left input.old)) }
    ensures fills { IfOk result (λ whole. FillsTo whole count bytes.new (S.left input.new)) }
    ensures takes { Takes (S.left input.old) (S.left input.new) }
    ensures stop { IfErr result (λ status. StopsReading status (S.faults input.old) (S.faults input.new)) }
    ensures later { S.faults input.old ≤ S.faults input.new }
    ensures goes_on { result ≡ Ok true → S.ended input.old ≡ 0 → S.ended input.new ≡ 0 }
    ensures at_end { result ≡ Ok false → S.ended input.old ≡ 0 → S.ended input.new ≡ 1 }
    ensures once { S.ended input.old ≡ 0 → S.ended input.new ≤ 1 }
    ensures last { result ≡ Err Status.ReadFault → S.ended input.old ≡ 0 → S.ended input.new ≡ 1 }
{
    while bytes.len() < count {
        let room = buffer.len().min(count - bytes.len());
        let (piece, _) = buffer.split_at_mut(room);
        if read_piece(input, piece, bytes)? == 0 {
            return Ok(false);
        }
    }
    Ok(true)
}
