//! Why a row is not stored.
ghost use Rattle.std.specs.Prelude.{◌≡◌};
ghost use Rattle.row_store.specs.Refusals.{Answers, Refuses, Tells};
ghost use Rattle.row_store.specs.declared.refusal.RowRefusal.TheVariants.{NoMemory};

use table_sheet::SheetRefusal;
use thiserror::Error;
use val_types::NoMemory;

/// Why a row is not stored, replaced or deleted; the tables are then as before.
#[derive(Clone, Copy, PartialEq, Eq, Debug, Error)]
pub enum RowRefusal {
    /// Another row has this key of the row: 0 is the primary key, then come the unique keys in order
    /// of definition.
    #[error("another row has key {which}")]
    Taken { which: u16 },
    /// There is no row of the key, or no table of the name.
    #[error("there is no such row")]
    Absent,
    #[error("out of memory")]
    NoMemory,
}

impl From<NoMemory> for RowRefusal {
    ghost from_gives = { λ _ refusal. refusal ≡ NoMemory };

    fn from(_error: NoMemory) -> RowRefusal {
        RowRefusal::NoMemory
    }
}

/// The refusal where a key is taken. Where its number does not fit, which takes more than 65,535 unique
/// keys, this is want of memory, so that no other number is told.
fn taken(which: usize) -> RowRefusal
    ensures { Refuses which result }
{
    match u16::try_from(which) {
        Ok(which) => RowRefusal::Taken { which },
        Err(_) => RowRefusal::NoMemory,
    }
}

/// A sheet's refusal, told on.
fn refused(refusal: SheetRefusal) -> RowRefusal
    ensures { Tells refusal result }
{
    match refusal {
        SheetRefusal::Taken { which } => taken(which),
        SheetRefusal::Absent => RowRefusal::Absent,
        SheetRefusal::NoMemory => RowRefusal::NoMemory,
    }
}

/// A sheet's answer, told on.
pub(crate) fn told(answer: Result<(), SheetRefusal>) -> Result<(), RowRefusal>
    ensures { Answers answer result }
{
    match answer {
        Ok(()) => Ok(()),
        Err(refusal) => Err(refused(refusal)),
    }
}
