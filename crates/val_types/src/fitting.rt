//! Which values fit a column, and which rows fit a table.
ghost use Rattle.std.specs.Prelude.{◌≡◌};
ghost use Rattle.val_types.specs.Fitting.{fitting, greatest_of, is_null, may_hold, row_fits};

use crate::definitions::{ColType, ColumnDef};
use crate::list::List;
use crate::refusal::{KINDS_MIXED, OUT_OF_RANGE, SqlError, TOO_LONG_FOR_COLUMN};
use crate::value::{Row, Value};

/// Whether a number fits INT, which has 32 bits.
fn int_fits(number: i64) -> Result<(), SqlError>
    ensures { result ≡ fitting ColType.Int (Value.Int number) }
{
    match i32::try_from(number) {
        Ok(_) => Ok(()),
        Err(_) => Err(OUT_OF_RANGE),
    }
}

/// Whether a number fits BIGINT, which has 64 bits, as the numbers of SQL have.
fn bigint_fits(number: i64) -> Result<(), SqlError>
    ensures { result ≡ fitting ColType.BigInt (Value.Int number) }
{
    let _ = number;
    Ok(())
}

/// Whether a value may be put where a type is declared, as that of a parameter, a result or a local
/// variable: 30002 where the kinds differ, 1264 for a number past the range of INT (32 bits) or BIGINT
/// (64 bits), 1406 for a text of more bytes than VARCHAR allows. NULL fits every type.
pub fn type_fits(kind: ColType, value: &Value) -> Result<(), SqlError>
    ensures { result ≡ fitting kind value.now }
{
    match (kind, value) {
        (_, Value::Null) => Ok(()),
        (ColType::Int, Value::Int(number)) => int_fits(*number),
        (ColType::BigInt, Value::Int(number)) => bigint_fits(*number),
        (ColType::Varchar(most), Value::Text(text)) => {
            if text.len() <= usize::from(most) {
                Ok(())
            } else {
                Err(TOO_LONG_FOR_COLUMN)
            }
        }
        (ColType::Int | ColType::BigInt, Value::Text(_)) | (ColType::Varchar(_), Value::Int(_)) => {
            Err(KINDS_MIXED)
        }
    }
}

/// Whether a value may be put into a column, as [`type_fits`] says of its type. NULL fits every column
/// here; NOT NULL is tested when the row is stored.
pub fn fits(column: &ColumnDef, value: &Value) -> Result<(), SqlError>
    ensures { result ≡ fitting column.now.kind value.now }
{
    type_fits(column.kind, value)
}

/// The greatest number of a type: 2147483647 of INT, 9223372036854775807 of BIGINT. VARCHAR, which has
/// none, counts as BIGINT.
pub fn greatest(kind: ColType) -> i64
    ensures { result ≡ greatest_of kind }
{
    match kind {
        ColType::Int => i64::from(i32::MAX),
        ColType::BigInt | ColType::Varchar(_) => i64::MAX,
    }
}

/// Whether a stored row may hold a value in a column: it fits, and it is not NULL where the column is
/// NOT NULL.
fn may_hold(column: &ColumnDef, value: &Value) -> bool
    ensures { result ≡ may_hold column.now value.now }
{
    fits(column, value).is_ok() && (column.nullable || !value.is_null())
}

/// Whether a row may stand in a table with these columns: it has one value for each, which fits the
/// column and is not NULL where the column is NOT NULL.
pub fn row_fits(columns: &List<ColumnDef>, row: &Row) -> bool
    ensures { result ≡ row_fits columns.now row.now }
{
    if columns.len() != row.len() {
        return false;
    }
    for (i, column) in columns.as_slice().iter().enumerate() {
        if !may_hold(column, &row[i]) {
            return false;
        }
    }
    true
}
