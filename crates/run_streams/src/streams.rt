//! The input read to its end or past the limit, and bytes written whole.
ghost use Rattle.std.specs.Prelude.{◌≡◌, ℕ, ◌+◌, ◌<◌, ◌≤◌, ◌++◌, ◌⊎◌, if◌then◌else◌, is_err, List, [], length, drop, option_map, IfOk, IfErr, IfSome, OnOk, OnErr, vec_len};
ghost use Rattle.fault_counts.specs.Causes.{HasCause};
ghost use Rattle.script_read.specs.Script.{split_of};
ghost use Rattle.run_streams.specs.Wrote.{Wrote, WroteFront};
ghost use Rattle.run_streams.specs.Stops.{StopsReading, StopsWriting, failed_writes, status_of};
ghost use Rattle.run_streams.specs.Read.{IsRead, TakesUpToLimit};

use crate::statuses::with_status;
use answer_text::Status;
use port_traits::{Failed, Sink, Source};
use script_read::SCRIPT_LIMIT;
use std::alloc::Global;
use val_types::{Bytes, List, NoMemory};

/// How many bytes are asked of the input at once at most.
const PIECE: usize = 65_536;

/// A buffer of so many bytes.
fn make_buffer(alloc: Global, size: usize) -> Result<Vec<u8>, NoMemory>
    ensures { IfOk result (λ buffer. vec_len buffer ≡ size) }
{
    vec![in alloc; 0u8; size]
}

/// Reads once into the buffer and puts what came to the end of these bytes; says how many that were, 0 at the
/// end of the input.
pub fn read_piece<S: Source>(
    input: &mut S,
    buffer: &mut [u8],
    bytes: &mut Bytes,
) -> Result<usize, Status>
    requires { 0 < length buffer.old }
    ensures joined { OnOk result (option_map (λ rest. bytes.new ++ rest) (S.left input.new)
        ≡ option_map (λ rest. bytes.old ++ rest) (S.left input.old)) }
    ensures grows { OnOk result ((piece : List ℕ) × (bytes.new ≡ bytes.old ++ piece)) }
    ensures size { IfOk result (λ count. (length bytes.new ≡ length bytes.old + count)
        × (count ≤ length buffer.old)) }
    ensures end { result ≡ Ok 0 → IfSome (S.left input.new) (λ rest. rest ≡ []) }
    ensures taken { (count : ℕ) × (count ≤ length buffer.old)
        × (S.left input.new ≡ option_map (drop count) (S.left input.old)) }
    ensures goes_on { IfOk result (λ count. 0 < count → S.ended input.old ≡ 0 → S.ended input.new ≡ 0) }
    ensures at_end { result ≡ Ok 0 → S.ended input.old ≡ 0 → S.ended input.new ≡ 1 }
    ensures once { S.ended input.old ≡ 0 → S.ended input.new ≤ 1 }
    ensures last { result ≡ Err Status.ReadFault → S.ended input.old ≡ 0 → S.ended input.new ≡ 1 }
    ensures stop { IfErr result (λ status. StopsReading status (S.faults input.old) (S.faults input.new)) }
    ensures later { S.faults input.old ≤ S.faults input.new }
{
    match input.read(buffer) {
        Ok(count) => {
            let (piece, _) = buffer.split_at(count);
            with_status(bytes.extend_from_slice(piece))?;
            Ok(count)
        }
        Err(Failed) => Err(Status::ReadFault),
    }
}

/// Reads the input to its end, or one byte past the greatest length of a script.
fn read_front<S: Source>(alloc: Global, input: &mut S) -> Result<Bytes, Status>
    ensures joined { IfOk result (λ script. option_map (λ rest. script ++ rest) (S.left input.new)
        ≡ S.left input.old) }
    ensures size { IfOk result (λ script. length script ≤ 67108865) }
    ensures end { IfOk result (λ script. IfSome (S.left input.new) (λ rest. (rest ≡ [])
        ⊎ (67108864 < length script))) }
    ensures limit { TakesUpToLimit (S.left input.old) (S.left input.new) }
    ensures at_end { IfOk result (λ script. length script ≤ 67108864 → S.ended input.old ≡ 0 → S.ended input.new ≡ 1) }
    ensures once { S.ended input.old ≡ 0 → S.ended input.new ≤ 1 }
    ensures last { result ≡ Err Status.ReadFault → S.ended input.old ≡ 0 → S.ended input.new ≡ 1 }
    ensures stop { IfErr result (λ status. StopsReading status (S.faults input.old) (S.faults input.new)) }
    ensures later { S.faults input.old ≤ S.faults input.new }
{
    let mut buffer = with_status(make_buffer(alloc, PIECE))?;
    let mut script = List::new(alloc);
    while script.len() <= SCRIPT_LIMIT {
        let room = PIECE.min(SCRIPT_LIMIT + 1 - script.len());
        let (piece, _) = buffer.as_mut_slice().split_at_mut(room);
        if read_piece(input, piece, &mut script)? == 0 {
            break;
        }
    }
    Ok(script)
}

/// Reads the input to its end, or one byte past the greatest length of a script: what is read splits as the
/// whole input does, and where it splits nothing is left.
pub fn read_script<S: Source>(alloc: Global, input: &mut S) -> Result<Bytes, Status>
    ensures read { IfOk result (λ script. IfSome (S.left input.old) (λ all. IsRead script all (S.left input.new))) }
    ensures limit { TakesUpToLimit (S.left input.old) (S.left input.new) }
    ensures at_end { IfOk result (λ script. IfOk (split_of script) (λ commands. S.ended input.old ≡ 0 → S.ended input.new ≡ 1)) }
    ensures once { S.ended input.old ≡ 0 → S.ended input.new ≤ 1 }
    ensures last { result ≡ Err Status.ReadFault → S.ended input.old ≡ 0 → S.ended input.new ≡ 1 }
    ensures stop { IfErr result (λ status. StopsReading status (S.faults input.old) (S.faults input.new)) }
    ensures later { S.faults input.old ≤ S.faults input.new }
{
    let script = read_front(alloc, input)?;
    Ok(script)
}

/// Writes all of these bytes.
pub fn write_all<K: Sink>(out: &mut K, bytes: &[u8]) -> Result<(), Failed>
    ensures ok { OnOk result (Wrote (K.written out.old) (K.written out.new) bytes.now) }
    ensures err { OnErr result (WroteFront (K.written out.old) (K.written out.new) bytes.now) }
    ensures cause { HasCause (K.faults out.old) (K.faults out.new) result }
    ensures ended { K.ended out.old ≡ 0 → K.ended out.new ≡ (if is_err result then 1 else 0) }
{
    let mut rest = bytes;
    while !rest.is_empty() {
        let count = out.write(rest)?;
        if count == 0 {
            return Err(Failed);
        }
        let (_, behind) = rest.split_at(count);
        rest = behind;
    }
    Ok(())
}

/// Writes a line, or some lines, with a fault as a status: the one status that it gives.
pub fn write_line<K: Sink>(out: &mut K, line: &[u8]) -> Result<(), Status>
    ensures ok { OnOk result (Wrote (K.written out.old) (K.written out.new) line.now) }
    ensures err { OnErr result (WroteFront (K.written out.old) (K.written out.new) line.now) }
    ensures fault { IfErr result (λ status. status ≡ Status.WriteFault) }
    ensures stop { IfErr result (λ status. StopsWriting status (K.faults out.old) (K.faults out.new)) }
    ensures later { K.faults out.old ≤ K.faults out.new }
    ensures ended { K.ended out.old ≡ 0 → K.ended out.new ≡ failed_writes (status_of result) }
{
    match write_all(out, line) {
        Ok(()) => Ok(()),
        Err(Failed) => Err(Status::WriteFault),
    }
}
