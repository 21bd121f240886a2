//! The record at a gate.
ghost use Rattle.std.specs.Prelude.{◌≡◌, ℕ, ◌+◌, ◌<◌, length};
ghost use Rattle.gate_journal.specs.declared.record.NextRecord.TheVariants.{Record};
ghost use Rattle.gate_journal.specs.Records.{record_at};

use byte_fields::u32_at;

/// How many bytes a gate and a length have.
pub const HEAD: usize = 5;

/// What stands at a gate.
#[derive(Clone, Copy, PartialEq, Eq)]
pub enum NextRecord {
    /// The gate is closed.
    End,
    /// A record with a body of so many bytes, which begins [`HEAD`] bytes behind the gate. The next gate stands
    /// behind it.
    Record { size: u32 },
    /// An open record that is not whole.
    Damaged,
}

/// The record at a gate of a journal's file, its end, or the damage.
pub fn next_record(file: &[u8], gate: usize) -> NextRecord
    ensures value { result ≡ record_at file.now gate }
    ensures within { (size : ℕ) → result ≡ Record size → gate + 5 + size < length file.now }
{
    if file.len() <= 1 {
        return NextRecord::End;
    }
    match file.get(gate) {
        None | Some(0) => return NextRecord::End,
        Some(_) => {}
    }
    let behind = file.len() - gate;
    if behind <= HEAD {
        return NextRecord::Damaged;
    }
    let size = u32_at(file, gate + 1);
    if (size as usize) < behind - HEAD {
        NextRecord::Record { size }
    } else {
        NextRecord::Damaged
    }
}
