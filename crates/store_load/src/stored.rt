//! What a store holds, in memory.
ghost use Rattle.std.specs.Prelude.{◌≡◌};

use crate::reached::Reached;
use gate_journal::Journal;
use prog_work::Work;
use std::alloc::Global;
use store_model::Kind;

/// Catalog and tables with what else is held, and the journal that goes on.
#[derive(Drop)]
pub struct Stored {
    pub work: Work,
    pub node: Kind,
    pub generation: u64,
    pub reached: Reached,
    pub journal: Journal,
}

impl Stored {
    /// What a snapshot holds, or nothing, before a journal is read.
    pub fn begun(alloc: Global, work: Work, node: Kind, generation: u64, reached: Reached) -> Stored
        ensures { result ≡ record {
          work = work;
          node = node;
          generation = generation;
          reached = reached;
          journal = result.journal;
        } }
    {
        Stored {
            work,
            node,
            generation,
            reached,
            journal: Journal::found(alloc, 2, &[], 0),
        }
    }
}
