//! Comparisons.
ghost use Rattle.std.specs.Prelude.{◌≡◌};
ghost use Rattle.std.specs.Option.{option_map};
ghost use Rattle.std.specs.Ordering.{is_eq};
ghost use Rattle.value_rules.specs.Operators.{comparison, with_value};

use std::cmp::Ordering;
use val_types::{KINDS_MIXED, SqlError, Value};

/// How two values compare, None where one is NULL. A text and a number are refused.
pub fn compare(a: &Value, b: &Value) -> Result<Option<Ordering>, SqlError>
    ensures { result ≡ comparison a.now b.now }
{
    match (a, b) {
        (Value::Null, _) | (_, Value::Null) => Ok(None),
        (Value::Int(m), Value::Int(n)) => Ok(Some(m.cmp(n))),
        (Value::Text(s), Value::Text(t)) => Ok(Some(s.cmp(t))),
        (Value::Int(_), Value::Text(_)) | (Value::Text(_), Value::Int(_)) => Err(KINDS_MIXED),
    }
}

/// Whether two values are equal, as IN asks of each item: None where one is NULL. A text and a number are refused.
pub fn equal(a: &Value, b: &Value) -> Result<Option<bool>, SqlError>
    ensures { result ≡ with_value (option_map is_eq) (comparison a.now b.now) }
{
    match compare(a, b)? {
        None => Ok(None),
        Some(order) => Ok(Some(order.is_eq())),
    }
}
