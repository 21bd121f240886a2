//! What a store's readers give behind a record that is prepared.
ghost use Rattle.std.specs.Prelude.{◌≡◌};
ghost use Rattle.commit_store.specs.Next.{next_of};

use store_model::{Head, Record};

/// What the record that is prepared sets.
#[derive(Clone, Copy)]
pub(crate) enum Next {
    /// None is prepared.
    Nothing,
    /// A source's number, and where its last log ends.
    Committed(Head),
    /// Where a source's last log ends, and where the one behind it does, which begins.
    LogBegun { old_end: u32, pos: u32 },
    /// A replica's number and place.
    CarriedOut(Head),
}

/// What a record sets.
pub(crate) fn next_of(r: &Record) -> Next
    ensures { result ≡ next_of r.now }
{
    match r {
        Record::Transaction { head, .. } => Next::Committed(*head),
        Record::Definition { head, .. } => Next::Committed(*head),
        Record::LogStart { head, old_end } => Next::LogBegun {
            old_end: *old_end,
            pos: head.pos,
        },
        Record::TransactionApplied { head, .. } => Next::CarriedOut(*head),
        Record::DefinitionApplied { head, .. } => Next::CarriedOut(*head),
        Record::PlaceMoved { head } => Next::CarriedOut(*head),
    }
}
