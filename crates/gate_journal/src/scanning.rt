//! The journal, as it is read.
ghost use Rattle.std.specs.Prelude.{◌≡◌, ◌<◌, ◌≤◌, ◌+◌, ℕ, length, max, Ok, Err, IfOk, IfSome};
ghost use Rattle.disk_model.specs.Story.{seen};
ghost use Rattle.disk_model.specs.Claims.{Quietly};
ghost use Rattle.disk_model.specs.Answers.{HasOpenCause};
ghost use Rattle.gate_journal.specs.Records.{records};
ghost use Rattle.gate_journal.specs.Journal.{IsFound, TellsDamage};

use crate::journal::Journal;
use crate::record::{HEAD, NextRecord, next_record};
use disk_model::{Disk, OpenRefusal, whole_file};
use std::alloc::{AllocError, Global};
use val_types::{Bytes, List};

/// The open records of a file, and its journal.
#[derive(Drop)]
pub struct Records {
    pub bodies: List<Bytes>,
    /// Where the records' gates stand.
    pub gates: List<u64>,
    pub journal: Journal,
}

/// The open records of some bytes, and where the present gate stands.
struct Found {
    bodies: List<Bytes>,
    gates: List<u64>,
    gate: usize,
}

/// Why some bytes have no list of records.
enum Stop {
    Damaged(usize),
    NoMemory,
}

impl From<AllocError> for Stop {
    ghost use Rattle.gate_journal.specs.declared.scanning.Stop.TheVariants.{NoMemory};

    ghost from_gives = { λ _ stop. stop ≡ NoMemory };

    fn from(_error: AllocError) -> Stop {
        Stop::NoMemory
    }
}

/// The open records of some bytes, one by one.
fn read_records(alloc: Global, bytes: &[u8]) -> Result<Found, Stop>
    ensures found { IfOk result (λ f. records bytes.now ≡ Ok (record { bodies = f.bodies; gates = f.gates; gate = f.gate })) }
    ensures damaged { (at : ℕ) → result ≡ Err (Stop.Damaged at) → records bytes.now ≡ Err at }
{
    let mut bodies = List::new(alloc);
    let mut gates = List::new(alloc);
    let mut gate = 0;
    for _ in 0..bytes.len() {
        match next_record(bytes, gate) {
            NextRecord::End => return Ok(Found {
                bodies,
                gates,
                gate,
            }),
            NextRecord::Damaged => return Err(Stop::Damaged(gate)),
            NextRecord::Record { size } => {
                let from = gate + HEAD;
                let to = from + size as usize;
                bodies.push(List::from_slice(alloc, &bytes[from..to])?)?;
                gates.push(gate as u64)?;
                gate = to;
            }
        }
    }
    Ok(Found {
        bodies,
        gates,
        gate,
    })
}

/// Reads the open records of a file, and where its present gate is.
pub fn scan<D: Disk>(alloc: Global, d: &mut D, file: u32) -> Result<Records, OpenRefusal>
    ensures records { IfOk result (λ r. IfSome (D.told d.old) (λ _. records (seen (D.told d.old) file)
        ≡ Ok (record { bodies = r.bodies; gates = r.gates; gate = r.journal.gate }))) }
    ensures file { IfOk result (λ r. r.journal.file ≡ file) }
    ensures journal { IfOk result (λ r. IsFound (D.told d.new) r.journal) }
    ensures damaged { TellsDamage (D.told d.old) file result }
    ensures quiet { Quietly (D.told d.old) (D.told d.new) }
    ensures cause { HasOpenCause (D.faults d.old) (D.faults d.new) result }
{
    let bytes = whole_file(alloc, d, file)?;
    let contents = bytes.as_slice();
    match read_records(alloc, contents) {
        Ok(
            Found {
                bodies,
                gates,
                gate,
            },
        ) => Ok(Records {
            bodies,
            gates,
            journal: Journal::found(alloc, file, contents, gate),
        }),
        Err(Stop::Damaged(at)) => Err(OpenRefusal::Damaged {
            file,
            at: at as u64,
        }),
        Err(Stop::NoMemory) => Err(OpenRefusal::NoMemory),
    }
}
