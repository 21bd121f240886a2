//! A row and its columns: values put where they belong, what is left out, and NOT NULL.
#![tactic(auto, using(crate::proofs::Fitted::columns))]

ghost use Rattle.std.specs.Prelude.{◌≡◌, ◌==◌, false, IfOk, slice_index_or, slice_set};
ghost use Rattle.val_types.specs.declared.value.Value.TheVariants.{Null};
ghost use Rattle.val_types.specs.Fitting.{is_null};
ghost use Rattle.std.specs.Option.{option_map_or};
ghost use Rattle.sql_evaluation.specs.Seen.{Anywhere};
ghost use Rattle.sql_evaluation.specs.sql_meaning.Changing.{asked_place, asks, has_missing, is_missing, left_out_row, left_out_value, none_missing, put_at};

use std::alloc::Global;
use val_types::{
    ColumnDef, Duplicate, List, NoMemory, Row, SqlError, SqlRefusal, TableDef, Value, type_fits,
    value_at,
};

/// A column that is not there.
pub(crate) const NO_SUCH_COLUMN: SqlError = 1054;

/// A NULL in a NOT NULL column.
const NULL_GIVEN: SqlError = 1048;

/// A row with a value in the place of another.
pub(crate) fn with_value(mut row: Row, place: usize, value: Value) -> Row
    ensures { result ≡ slice_set row place value }
{
    if place < row.len() {
        row.set(place, value);
    }
    row
}

/// A row with a value put at a place: 1054 where there is no column, or why the value does not fit.
pub(crate) fn put_at(
    definition: &TableDef,
    row: Row,
    place: usize,
    value: Value,
) -> Result<Row, SqlRefusal>
    ensures { Anywhere result (put_at definition.now row (place, value)) }
{
    let Some(column) = definition.columns.get(place) else {
        return Err(SqlRefusal::Sql(NO_SUCH_COLUMN));
    };
    type_fits(column.kind, &value)?;
    Ok(with_value(row, place, value))
}

/// Whether a place is that of the AUTO_INCREMENT column.
fn is_place(auto: Option<u16>, place: usize) -> bool
    ensures { result ≡ option_map_or (λ p. p == place) auto false }
{
    match auto {
        Some(auto) => usize::from(auto) == place,
        None => false,
    }
}

/// What stands in a column that is left out: its DEFAULT, 0 where a value is to be generated, else NULL.
fn left_out_value(
    alloc: Global,
    definition: &TableDef,
    place: usize,
    column: &ColumnDef,
) -> Result<Value, NoMemory>
    ensures { IfOk result (λ v. v ≡ left_out_value definition.now (place, column.now)) }
{
    if let Some(value) = &column.preset {
        return value.duplicate(alloc);
    }
    if is_place(definition.auto, place) {
        return Ok(Value::Int(0));
    }
    Ok(Value::Null)
}

/// A row of which every column is left out.
pub(crate) fn left_out_row(alloc: Global, definition: &TableDef) -> Result<Row, NoMemory>
    ensures { IfOk result (λ row. row ≡ left_out_row definition.now) }
{
    let mut row = List::with_capacity(alloc, definition.columns.len())?;
    for (place, column) in definition.columns.as_slice().iter().enumerate() {
        row.push(left_out_value(alloc, definition, place, column)?)?;
    }
    Ok(row)
}

/// Whether the AUTO_INCREMENT column asks for a value: NULL or 0.
pub(crate) fn asks(value: &Value) -> bool
    ensures { result ≡ asks value.now }
{
    match value {
        Value::Null => true,
        Value::Int(number) => *number == 0,
        Value::Text(_) => false,
    }
}

/// The place of the AUTO_INCREMENT column, where the row asks for a value there.
pub(crate) fn asked_place(definition: &TableDef, row: &Row) -> Option<u16>
    ensures { result ≡ asked_place definition.now row.now }
{
    match definition.auto {
        Some(place) => {
            if asks(value_at(row, place, &Value::Null)) {
                Some(place)
            } else {
                None
            }
        }
        None => None,
    }
}

/// Whether NULL stands at a place of a row, or nothing.
fn is_null_at(row: &Row, place: usize) -> bool
    ensures { result ≡ is_null (slice_index_or row.now place Null) }
{
    if place < row.len() {
        row[place].is_null()
    } else {
        true
    }
}

/// Whether a NULL stands in a NOT NULL column, other than one that asks.
fn is_missing(row: &Row, asked: Option<u16>, place: usize, column: &ColumnDef) -> bool
    ensures { result ≡ is_missing row.now asked (place, column.now) }
{
    !column.nullable && is_null_at(row, place) && !is_place(asked, place)
}

/// Whether it does so in any.
fn has_missing(definition: &TableDef, row: &Row, asked: Option<u16>) -> bool
    ensures { result ≡ has_missing definition.now row.now asked }
{
    for (place, column) in definition.columns.as_slice().iter().enumerate() {
        if is_missing(row, asked, place, column) {
            return true;
        }
    }
    false
}

/// NOT NULL: 1048.
pub(crate) fn none_missing(
    definition: &TableDef,
    row: &Row,
    asked: Option<u16>,
) -> Result<(), SqlRefusal>
    ensures { Anywhere result (none_missing definition.now row.now asked) }
{
    if has_missing(definition, row, asked) {
        return Err(SqlRefusal::Sql(NULL_GIVEN));
    }
    Ok(())
}
