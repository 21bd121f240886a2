//! Keys of rows, compared where they stand.
ghost use Rattle.std.specs.Prelude.{◌≡◌, []};
ghost use Rattle.val_types.specs.Keys.{primary_key, same_values, values_at};
ghost use Rattle.val_types.specs.Order.{key_order};
ghost use Rattle.table_sheet.specs.Standing.{have_same_keys};

use std::cmp::Ordering;
use val_types::{KeyDef, Row, TableDef, Value, value_at};

/// How the primary key of a row stands to that of another.
pub(crate) fn rows_cmp(definition: &TableDef, row: &Row, other: &Row) -> Ordering
    ensures { result ≡ key_order (primary_key definition.now row.now) (primary_key definition.now other.now) }
{
    for column in definition.primary.as_slice() {
        let order = value_at(row, *column, &Value::Null).cmp(value_at(
            other,
            *column,
            &Value::Null,
        ));
        if !order.is_eq() {
            return order;
        }
    }
    Ordering::Equal
}

/// How no values at all stand to the primary key of a row.
pub(crate) fn nothing_row_cmp(definition: &TableDef, row: &Row) -> Ordering
    ensures { result ≡ key_order [] (primary_key definition.now row.now) }
{
    if definition.primary.is_empty() {
        Ordering::Equal
    } else {
        Ordering::Less
    }
}

/// Whether two rows have the same values in the columns of a unique key.
fn same_on(a: &Row, b: &Row, key: &KeyDef) -> bool
    ensures { result ≡ same_values (values_at key.now.columns a.now) (values_at key.now.columns b.now) }
{
    for column in key.columns.as_slice() {
        let own = value_at(a, *column, &Value::Null);
        if !own.cmp(value_at(b, *column, &Value::Null)).is_eq() {
            return false;
        }
    }
    true
}

/// Whether two rows have the same primary key, and the same values in the columns of each unique key.
pub(crate) fn same_keys(definition: &TableDef, a: &Row, b: &Row) -> bool
    ensures { result ≡ have_same_keys definition.now a.now b.now }
{
    if !rows_cmp(definition, a, b).is_eq() {
        return false;
    }
    for key in definition.uniques.as_slice() {
        if !same_on(a, b, key) {
            return false;
        }
    }
    true
}
