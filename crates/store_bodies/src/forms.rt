//! Whether changes have the form that a record's body asks for. In a run they have it: the rows of a change are of a table that a
//! CREATE TABLE made, whose name has at most 64 bytes and whose columns are at most 64.
ghost use Rattle.std.specs.Prelude.{◌<◌, ◌^◌, FitsSigned, length};
ghost use Rattle.std.specs.Bool.{OnTrue};
ghost use Rattle.std.specs.Int.{w64};
ghost use Rattle.std.specs.List.{AllByRecursion};
ghost use Rattle.store_model.specs.Bodies.{IsChange, IsRow, IsValue};

use val_types::{Bytes, Change, Row, Value};

/// A fact of a number: it has 64 bits.
fn is_number(number: i64)
    ensures { FitsSigned w64 number }
{
    let _ = number;
}

/// Whether a value has it.
fn is_value(value: &Value) -> bool
    ensures { OnTrue result (IsValue value.now) }
{
    match value {
        Value::Null => true,
        Value::Int(number) => {
            is_number(*number);
            true
        }
        Value::Text(text) => text.len() < 0x1_0000_0000,
    }
}

/// Whether all values have it.
fn are_values(values: &[Value]) -> bool
    ensures { OnTrue result (AllByRecursion IsValue values.now) }
{
    for value in values {
        if !is_value(value) {
            return false;
        }
    }
    true
}

/// Whether a row has it: few values.
fn is_row(row: &Row) -> bool
    ensures { OnTrue result (IsRow row.now) }
{
    row.len() < 0x100 && are_values(row.as_slice())
}

/// Whether a name has it: few bytes.
fn is_name(name: &Bytes) -> bool
    ensures { OnTrue result (length name.now < 2 ^ 8) }
{
    name.len() < 0x100
}

/// Whether a change has it.
fn is_change(change: &Change) -> bool
    ensures { OnTrue result (IsChange change.now) }
{
    match change {
        Change::Insert { table, row } | Change::Delete { table, row } => {
            is_name(table.get()) && is_row(row.get())
        }
        Change::Update {
            table,
            before,
            after,
        } => is_name(table.get()) && is_row(before.get()) && is_row(after.get()),
    }
}

/// Whether all changes have the form that the body of a record asks for.
pub fn are_changes(changes: &[Change]) -> bool
    ensures { OnTrue result (AllByRecursion IsChange changes.now) }
{
    for change in changes {
        if !is_change(change) {
            return false;
        }
    }
    true
}
