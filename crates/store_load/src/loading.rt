//! A store from where its snapshots leave off: its journal, and then its logs.
ghost use Rattle.std.specs.Prelude.{◌≡◌, ◌≤◌, [], Ok, length, IfOk, IfSome};
ghost use Rattle.disk_model.specs.Story.{seen};
ghost use Rattle.disk_model.specs.Moments.{Only};
ghost use Rattle.disk_model.specs.Claims.{Quietly};
ghost use Rattle.disk_model.specs.Answers.{HasOpenCause};
ghost use Rattle.gate_journal.specs.Journal.{IsFound};
ghost use Rattle.store_model.specs.Held.{most_logs};
ghost use Rattle.store_model.specs.Stores.{held_by, journal_of};
ghost use Rattle.store_load.specs.Loading.{LogsAreSettled, Begins, Reads, TellsDamage, held_in};

use crate::journal::load_journal;
use crate::logs::look_at_logs;
use crate::stored::Stored;
use disk_model::{Disk, OpenRefusal, settle};
use std::alloc::Global;

/// The number of the file that a generation's journal stands in.
fn journal_file(generation: u64) -> u32
    ensures { result ≡ journal_of generation }
{
    2 + (generation % 2) as u32
}

/// Reads the journal that goes on from where the snapshots of a store leave off, and looks at the logs; each of these files is
/// made durable first, and nothing is written.
pub fn load_from<D: Disk>(alloc: Global, d: &mut D, begun: Stored) -> Result<Stored, OpenRefusal>
    requires none { begun.work.changes ≡ [] }
    requires few { length begun.reached.ends ≤ most_logs }
    requires begins { Begins (D.told d.old) begun }
    ensures held { IfOk result (λ s. IfSome (D.told d.old) (λ _. held_by begun.node (seen (D.told d.old)) ≡ Ok (held_in s))) }
    ensures damaged { TellsDamage (D.told d.old) begun.node result }
    ensures journal { IfOk result (λ s. IsFound (D.told d.new) s.journal) }
    ensures file { IfOk result (λ s. s.journal.file ≡ journal_of begun.generation) }
    ensures goes { IfOk result (λ s. Reads begun s) }
    ensures durable { IfOk result (λ s. Only (D.told d.new) (journal_of begun.generation) (seen (D.told d.new) (journal_of begun.generation))) }
    ensures settled { IfOk result (λ s. LogsAreSettled (D.told d.new) (length s.reached.ends)) }
    ensures quiet { Quietly (D.told d.old) (D.told d.new) }
    ensures cause { HasOpenCause (D.faults d.old) (D.faults d.new) result }
{
    let file = journal_file(begun.generation);
    settle(d, file)?;
    let stored = load_journal(alloc, d, file, begun)?;
    look_at_logs(d, &stored.reached.ends)?;
    Ok(stored)
}
