//! What counters start with.
ghost use Rattle.std.specs.Prelude.{◌≡◌, ◌<◌, ◌^◌};
ghost use Rattle.auto_inc.specs.Counting.{greatest_held, number_held, start_value};

use val_types::{Row, Value, value_at};

/// What the counter of a table starts with: the number behind the greatest one held in its AUTO_INCREMENT column, 1 where
/// there is none above 0, and where there is no such column.
pub fn start_value(auto: Option<u16>, rows: &[Row]) -> u64
    ensures { result ≡ start_value auto rows.now }
{
    match auto {
        None => 1,
        Some(column) => greatest_held(column, rows) + 1,
    }
}

/// The greatest number that a column holds.
fn greatest_held(column: u16, rows: &[Row]) -> u64
    ensures value { result ≡ greatest_held column rows.now }
    ensures fits { result < 2 ^ 63 }
{
    let mut greatest = 0;
    for row in rows {
        greatest = number_held(value_at(row, column, &Value::Null)).max(greatest);
    }
    greatest
}

/// The number that a value is, 0 where it is none above 0.
fn number_held(value: &Value) -> u64
    ensures value { result ≡ number_held value.now }
    ensures fits { result < 2 ^ 63 }
{
    match value {
        Value::Int(number) if 0 <= *number => *number as u64,
        _ => 0,
    }
}
