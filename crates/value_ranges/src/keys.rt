//! Rows by the first values of their primary keys.
ghost use Rattle.std.specs.Prelude.{◌≡◌};
ghost use Rattle.value_ranges.specs.Keys.{row_is_from, row_is_in, row_is_to};
ghost use Rattle.value_ranges.specs.Ranges.{range_of};

use crate::ranges::{ValueRange, is_from, is_to};
use val_types::{Row, TableDef, Value, value_at};

/// Whether a row's primary key does not begin before a range.
pub fn row_is_from(definition: &TableDef, range: ValueRange<'_>, row: &Row) -> bool
    ensures { result ≡ row_is_from definition.now (range_of range.entry) row.now }
{
    match definition.primary.get(0) {
        Some(column) => is_from(range.low, value_at(row, *column, &Value::Null)),
        None => is_from(range.low, &Value::Null),
    }
}

/// Whether it does not begin behind one.
pub fn row_is_to(definition: &TableDef, range: ValueRange<'_>, row: &Row) -> bool
    ensures { result ≡ row_is_to definition.now (range_of range.entry) row.now }
{
    match definition.primary.get(0) {
        Some(column) => is_to(range.high, value_at(row, *column, &Value::Null)),
        None => is_to(range.high, &Value::Null),
    }
}

/// Whether it begins in one.
pub fn row_is_in(definition: &TableDef, range: ValueRange<'_>, row: &Row) -> bool
    ensures { result ≡ row_is_in definition.now (range_of range.entry) row.now }
{
    row_is_from(definition, range, row) && row_is_to(definition, range, row)
}
