//! The key of a row.
ghost use Rattle.std.specs.Prelude.{◌≡◌, slice_index_or, IfOk};
ghost use Rattle.val_types.specs.Keys.{primary_key, values_at};

use crate::definitions::TableDef;
use crate::duplicate::Duplicate;
use crate::list::{List, NoMemory};
use crate::value::{Row, Value};
use std::alloc::Global;

/// The value of a row in a column, another one where the row does not have that column.
pub fn value_at<'a>(row: &'a Row, column: u16, missing: &'a Value) -> &'a Value
    ensures { result.now ≡ slice_index_or row.now column missing.now }
{
    match row.get(usize::from(column)) {
        Some(value) => value,
        None => missing,
    }
}

/// The primary key of a row: its values in the key's columns, in the key's order. A column that the
/// row does not have counts as NULL.
pub fn key_of(alloc: Global, definition: &TableDef, row: &Row) -> Result<Row, NoMemory>
    ensures { IfOk result (λ key. key ≡ primary_key definition.now row.now) }
{
    let mut key = List::with_capacity(alloc, definition.primary.len())?;
    for column in definition.primary.as_slice() {
        key.push(value_at(row, *column, &Value::Null).duplicate(alloc)?)?;
    }
    Ok(key)
}
