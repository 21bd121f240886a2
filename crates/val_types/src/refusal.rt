//! The numbers of SQL errors, and refusals that carry one.
ghost use Rattle.std.specs.Prelude.{◌≡◌};
ghost use Rattle.val_types.specs.declared.refusal.SqlRefusal.TheVariants.{Sql, NoMemory};

use crate::list::NoMemory;
use thiserror::Error;

/// The number of an SQL error, as MySQL's manual lists them; those from 30001 on are this project's.
pub type SqlError = u16;

/// A text is longer than an expression's value may be (ER_NET_PACKET_TOO_LARGE).
pub const TEXT_TOO_LONG: SqlError = 1153;

/// A number is past the range of its column's type (ER_WARN_DATA_OUT_OF_RANGE).
pub const OUT_OF_RANGE: SqlError = 1264;

/// DIV or MOD by zero (ER_DIVISION_BY_ZERO).
pub const DIVISION_BY_ZERO: SqlError = 1365;

/// A text is longer than its column allows (ER_DATA_TOO_LONG).
pub const TOO_LONG_FOR_COLUMN: SqlError = 1406;

/// A number is past 64 bits (ER_DATA_OUT_OF_RANGE).
pub const NUMBER_OVERFLOW: SqlError = 1690;

/// A text stands where a number is wanted, or a number where a text is, or one is compared with the
/// other (this project's number).
pub const KINDS_MIXED: SqlError = 30002;

/// Why a call that allocates gives no value: SQL refuses it, or there is no memory.
#[derive(Clone, Copy, PartialEq, Eq, Debug, Error)]
pub enum SqlRefusal {
    #[error("SQL error {0}")]
    Sql(SqlError),
    #[error("out of memory")]
    NoMemory,
}

impl From<NoMemory> for SqlRefusal {
    ghost from_gives = { λ _ refusal. refusal ≡ NoMemory };

    fn from(_error: NoMemory) -> SqlRefusal {
        SqlRefusal::NoMemory
    }
}

impl From<SqlError> for SqlRefusal {
    ghost from_gives = { λ error refusal. refusal ≡ Sql error };

    fn from(error: SqlError) -> SqlRefusal {
        SqlRefusal::Sql(error)
    }
}
