//! Values of rows in a unique key, compared where they stand.
ghost use Rattle.std.specs.Prelude.{◌≡◌, []};
ghost use Rattle.std.specs.List.{list_any};
ghost use Rattle.val_types.specs.Fitting.{is_null};
ghost use Rattle.val_types.specs.Keys.{values_at};
ghost use Rattle.val_types.specs.Order.{key_order};

use std::cmp::Ordering;
use val_types::{KeyDef, List, Row, Value, value_at};

/// How the values of a row in a unique key stand to those of another.
pub(crate) fn values_cmp(row: &Row, other: &Row, key: &KeyDef) -> Ordering
    ensures { result ≡ key_order (values_at key.now.columns row.now) (values_at key.now.columns other.now) }
{
    for column in key.columns.as_slice() {
        let own = value_at(row, *column, &Value::Null);
        let order = own.cmp(value_at(other, *column, &Value::Null));
        if !order.is_eq() {
            return order;
        }
    }
    Ordering::Equal
}

/// How no values at all stand to those of a row.
pub(crate) fn nothing_cmp(row: &Row, key: &KeyDef) -> Ordering
    ensures { result ≡ key_order [] (values_at key.now.columns row.now) }
{
    if key.columns.is_empty() {
        Ordering::Equal
    } else {
        Ordering::Less
    }
}

/// How the values of a row in some columns stand to values that are looked for.
pub fn columns_cmp(row: &Row, columns: &List<u16>, values: &Row) -> Ordering
    ensures { result ≡ key_order (values_at columns.now row.now) values.now }
{
    for (i, column) in columns.as_slice().iter().enumerate() {
        if i == values.len() {
            return Ordering::Greater;
        }
        let order = value_at(row, *column, &Value::Null).cmp(&values[i]);
        if !order.is_eq() {
            return order;
        }
    }
    if columns.len() < values.len() {
        Ordering::Less
    } else {
        Ordering::Equal
    }
}

/// How no values at all stand to values that are looked for.
pub fn no_columns_cmp(values: &Row) -> Ordering
    ensures { result ≡ key_order [] values.now }
{
    if values.is_empty() {
        Ordering::Equal
    } else {
        Ordering::Less
    }
}

/// Whether a row has a NULL in a unique key.
pub(crate) fn has_null(row: &Row, key: &KeyDef) -> bool
    ensures { result ≡ list_any is_null (values_at key.now.columns row.now) }
{
    for column in key.columns.as_slice() {
        if value_at(row, *column, &Value::Null).is_null() {
            return true;
        }
    }
    false
}
