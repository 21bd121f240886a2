//! The open records of one journal, applied to what is held.
ghost use Rattle.std.specs.Prelude.{◌≡◌, ◌<◌, ◌≤◌, ◌+◌, ℕ, [], length, Ok, Err, IfOk, OnOk, IfSome, true};
ghost use Rattle.disk_model.specs.Story.{seen};
ghost use Rattle.disk_model.specs.Claims.{Quietly};
ghost use Rattle.disk_model.specs.Answers.{HasOpenCause};
ghost use Rattle.gate_journal.specs.Journal.{IsFound};
ghost use Rattle.gate_journal.specs.Records.{Opened, records};
ghost use Rattle.store_model.specs.Stores.{journal_applied};
ghost use Rattle.store_load.specs.Loading.{GoesOn, Reads, TellsGate, held_in};

use crate::applying::apply_body;
use crate::stored::Stored;
use disk_model::{Disk, OpenRefusal, whole_file};
use gate_journal::{HEAD, Journal, NextRecord, next_record};
use std::alloc::{AllocError, Global};

/// Why the records of some bytes are not applied.
enum Stop {
    Damaged(usize),
    NoMemory,
}

impl From<AllocError> for Stop {
    ghost use Rattle.store_load.specs.declared.journal.Stop.TheVariants.{NoMemory};

    ghost from_gives = { λ _ stop. stop ≡ NoMemory };

    fn from(_error: AllocError) -> Stop {
        Stop::NoMemory
    }
}

/// The open records of some bytes applied, one by one; the gate behind them.
fn apply_all(alloc: Global, stored: &mut Stored, bytes: &[u8]) -> Result<usize, Stop>
    requires { stored.old.work.changes ≡ [] }
    ensures held { OnOk result (journal_applied stored.old.node bytes.now (held_in stored.old) ≡ Ok (held_in stored.new)) }
    ensures gate { IfOk result (λ gate. (opened : Opened) × (records bytes.now ≡ Ok opened) × (opened.gate ≡ gate)) }
    ensures goes { OnOk result (GoesOn stored.old stored.new) }
    ensures damaged { (at : ℕ) → result ≡ Err (Stop.Damaged at) → journal_applied stored.old.node bytes.now (held_in stored.old) ≡ Err at }
{
    let mut gate = 0;
    for _ in 0..bytes.len() {
        match next_record(bytes, gate) {
            NextRecord::End => return Ok(gate),
            NextRecord::Damaged => return Err(Stop::Damaged(gate)),
            NextRecord::Record { size } => {
                let from = gate + HEAD;
                let to = from + size as usize;
                if !apply_body(alloc, stored, &bytes[from..to])? {
                    return Err(Stop::Damaged(gate));
                }
                gate = to;
            }
        }
    }
    Ok(gate)
}

/// Applies the open records of a journal's file, and goes on behind them.
pub(crate) fn read_journal<D: Disk>(
    alloc: Global,
    d: &mut D,
    file: u32,
    stored: &mut Stored,
) -> Result<(), OpenRefusal>
    requires { stored.old.work.changes ≡ [] }
    ensures held { OnOk result (IfSome (D.told d.old) (λ _. journal_applied stored.old.node (seen (D.told d.old) file) (held_in stored.old) ≡ Ok (held_in stored.new))) }
    ensures damaged { TellsGate (D.told d.old) stored.old.node file (held_in stored.old) result }
    ensures journal { OnOk result (IsFound (D.told d.new) stored.new.journal) }
    ensures file { OnOk result (stored.new.journal.file ≡ file) }
    ensures goes { OnOk result (Reads stored.old stored.new) }
    ensures quiet { Quietly (D.told d.old) (D.told d.new) }
    ensures cause { HasOpenCause (D.faults d.old) (D.faults d.new) result }
{
    let bytes = whole_file(alloc, d, file)?;
    let contents = bytes.as_slice();
    match apply_all(alloc, stored, contents) {
        Ok(gate) => {
            stored.journal = Journal::found(alloc, file, contents, gate);
            Ok(())
        }
        Err(Stop::Damaged(at)) => Err(OpenRefusal::Damaged {
            file,
            at: at as u64,
        }),
        Err(Stop::NoMemory) => Err(OpenRefusal::NoMemory),
    }
}

/// Applies the open records of one journal to what is held before them. It reads the file and writes nothing.
pub fn load_journal<D: Disk>(
    alloc: Global,
    d: &mut D,
    file: u32,
    from: Stored,
) -> Result<Stored, OpenRefusal>
    requires { from.work.changes ≡ [] }
    ensures held { IfOk result (λ s. IfSome (D.told d.old) (λ _. journal_applied from.node (seen (D.told d.old) file) (held_in from) ≡ Ok (held_in s))) }
    ensures damaged { TellsGate (D.told d.old) from.node file (held_in from) result }
    ensures journal { IfOk result (λ s. IsFound (D.told d.new) s.journal) }
    ensures file { IfOk result (λ s. s.journal.file ≡ file) }
    ensures goes { IfOk result (λ s. Reads from s) }
    ensures quiet { Quietly (D.told d.old) (D.told d.new) }
    ensures cause { HasOpenCause (D.faults d.old) (D.faults d.new) result }
{
    let mut stored = from;
    read_journal(alloc, d, file, &mut stored)?;
    Ok(stored)
}
