//! Whether a row has the form that a body asks for. In a run each has: it is of a table that a CREATE TABLE made, whose columns are
//! at most 64, and it fits them.
ghost use Rattle.std.specs.Prelude.{◌<◌, ◌^◌, FitsSigned, length};
ghost use Rattle.std.specs.Bool.{OnTrue};
ghost use Rattle.std.specs.Int.{w64};
ghost use Rattle.std.specs.List.{AllByRecursion};
ghost use Rattle.store_model.specs.Bodies.{IsRow, IsValue};

use val_types::{Row, Value};

/// A fact of a number: it has 64 bits.
fn is_number(number: i64)
    ensures { FitsSigned w64 number }
{
    let _ = number;
}

/// Whether a value has it.
fn is_value(value: &Value) -> bool
    ensures { OnTrue result (IsValue value.now) }
{
    match value {
        Value::Null => true,
        Value::Int(number) => {
            is_number(*number);
            true
        }
        Value::Text(text) => text.len() < 0x1_0000_0000,
    }
}

/// Whether all values have it.
fn are_values(values: &[Value]) -> bool
    ensures { OnTrue result (AllByRecursion IsValue values.now) }
{
    for value in values {
        if !is_value(value) {
            return false;
        }
    }
    true
}

/// Whether a row has it: few values.
pub(crate) fn is_row(row: &Row) -> bool
    ensures { OnTrue result (IsRow row.now) }
{
    row.len() < 0x100 && are_values(row.as_slice())
}
