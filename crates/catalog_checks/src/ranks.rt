//! Ranks: how early an error comes in the order of checks.
ghost use Rattle.std.specs.Prelude.{◌≡◌};
ghost use Rattle.catalog_objects.specs.catalog_rules.Ranks.{code_of, rank_unless};

use val_types::SqlError;

/// No such table (1146).
pub(crate) const NO_TABLE: u8 = 0;
/// No such column (1054).
pub(crate) const NO_COLUMN: u8 = 1;
/// No such function or procedure (1305).
pub(crate) const NO_ROUTINE: u8 = 2;
/// Another number of arguments (1318).
pub(crate) const OTHER_COUNT: u8 = 3;
/// No such variable (1193).
pub(crate) const NO_VARIABLE: u8 = 4;
/// A LIMIT by a name that is no local (1327).
pub(crate) const NO_LOCAL: u8 = 5;
/// A column twice (1110).
pub(crate) const COLUMN_TWICE: u8 = 6;
/// Another number of values than columns (1136).
pub(crate) const OTHER_WIDTH: u8 = 7;
/// The table that is changed is read (1093).
pub(crate) const READS_TARGET: u8 = 8;
/// A column without a default is left out (1364).
pub(crate) const LEFT_OUT: u8 = 9;
/// No error.
pub(crate) const NOTHING: u8 = 10;

/// The rank of an error, unless something is there.
pub(crate) fn unless(is_there: bool, rank: u8) -> u8
    ensures { result ≡ rank_unless is_there rank }
{
    if is_there { NOTHING } else { rank }
}

/// The error of a rank, None where there is none.
pub(crate) fn code_of(rank: u8) -> Option<SqlError>
    ensures { result ≡ code_of rank }
{
    match rank {
        NO_TABLE => Some(1146),
        NO_COLUMN => Some(1054),
        NO_ROUTINE => Some(1305),
        OTHER_COUNT => Some(1318),
        NO_VARIABLE => Some(1193),
        NO_LOCAL => Some(1327),
        COLUMN_TWICE => Some(1110),
        OTHER_WIDTH => Some(1136),
        READS_TARGET => Some(1093),
        LEFT_OUT => Some(1364),
        _ => None,
    }
}
