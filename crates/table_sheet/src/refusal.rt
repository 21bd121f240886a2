//! Why a row is not stored.
ghost use Rattle.std.specs.Prelude.{◌≡◌};
ghost use Rattle.table_sheet.specs.declared.refusal.SheetRefusal.TheVariants.{NoMemory};

use val_types::NoMemory;

/// Why a row is not stored, replaced or deleted; the rows that are shown are then as before.
#[derive(Clone, Copy, PartialEq, Eq)]
pub enum SheetRefusal {
    /// Another row has this key of the row: 0 is the primary key, then come the unique keys in order of definition.
    Taken { which: usize },
    /// There is no row of the key.
    Absent,
    NoMemory,
}

impl From<NoMemory> for SheetRefusal {
    ghost from_gives = { λ _ refusal. refusal ≡ NoMemory };

    fn from(_error: NoMemory) -> SheetRefusal {
        SheetRefusal::NoMemory
    }
}
