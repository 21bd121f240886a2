//! A journal over any disk.
ghost use Rattle.std.specs.Prelude.{◌≡◌, ◌^◌, ◌<◌, length, IfOk, OnOk};
ghost use Rattle.gate_journal.specs.Journal.{Rests};

use disk_model::{Disk, OpenRefusal, settle};
use gate_journal::{Journal, scan};
use std::alloc::Global;
use val_types::{Bytes, List};

/// The journal of a file, which is made durable first: three calls of the disk, and two more where it has no gate.
pub fn opened<D: Disk>(alloc: Global, d: &mut D, file: u32) -> Result<Journal, OpenRefusal>
    ensures { IfOk result (λ journal. Rests (D.told d.new) journal) }
{
    settle(d, file)?;
    let mut journal = scan(alloc, d, file)?.journal;
    journal.start(d)?;
    Ok(journal)
}

/// Puts a body into a journal: four calls of the disk.
pub fn put_body<D: Disk>(journal: &mut Journal, d: &mut D, body: &Bytes) -> Result<(), OpenRefusal>
    requires rests { Rests (D.told d.old) journal.old }
    requires fits { length body.now < 2 ^ 32 }
    ensures { OnOk result (Rests (D.told d.new) journal.new) }
{
    journal.prepare(body)?;
    journal.stage(d)?;
    journal.open_gate(d)?;
    Ok(())
}

/// Puts bodies into the journal of a file, one by one; one that is too long ends it.
pub fn put_bodies<D: Disk>(
    alloc: Global,
    d: &mut D,
    file: u32,
    bodies: &List<Bytes>,
) -> Result<(), OpenRefusal> {
    let mut journal = opened(alloc, d, file)?;
    for body in bodies.as_slice() {
        if body.len() as u64 > u64::from(u32::MAX) {
            return Err(OpenRefusal::NoMemory);
        }
        put_body(&mut journal, d, body)?;
    }
    Ok(())
}
