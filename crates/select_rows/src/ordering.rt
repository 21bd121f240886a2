//! ORDER BY.
ghost use Rattle.std.specs.Prelude.{◌≡◌, slice_index_or, IfOk, OnOk};
ghost use Rattle.val_types.specs.declared.value.Value.TheVariants.{Null};
ghost use Rattle.value_rules.specs.Selecting.{by_items, directed, in_order};
ghost use Rattle.select_rows.specs.Keyed.{comes_before, ordered_rows};

use crate::keyed::Keyed;
use std::alloc::Global;
use std::cmp::Ordering;
use val_types::{Duplicate, List, NoMemory, Value};

/// How two values of an item stand, the other way round where it is descending.
fn compare_values(down: bool, a: &Value, b: &Value) -> Ordering
    ensures { result ≡ directed down a.now b.now }
{
    if down { b.cmp(a) } else { a.cmp(b) }
}

/// How the values of two rows at a place stand. A missing value counts as NULL.
fn compare_at(down: bool, place: usize, a: &[Value], b: &[Value]) -> Ordering
    ensures { result
        ≡ directed down (slice_index_or a.now place Null) (slice_index_or b.now place Null) }
{
    match (a.get(place), b.get(place)) {
        (Some(a), Some(b)) => compare_values(down, a, b),
        (Some(a), None) => compare_values(down, a, &Value::Null),
        (None, Some(b)) => compare_values(down, &Value::Null, b),
        (None, None) => Ordering::Equal,
    }
}

/// How two rows stand by the values of their items.
pub fn compare(down: &[bool], a: &[Value], b: &[Value]) -> Ordering
    ensures { result ≡ by_items down.now a.now b.now }
{
    for i in 0..down.len() {
        let order = compare_at(down[i], i, a, b);
        if order != Ordering::Equal {
            return order;
        }
    }
    Ordering::Equal
}

/// Puts rows into the order of their items. Want of memory leaves them as they were.
fn sort(down: &[bool], rows: &mut Vec<Keyed>) -> Result<(), NoMemory>
    ensures { OnOk result (rows.new.items ≡ in_order (comes_before down.now) rows.old.items) }
{
    rows.sort_by(|x, y| compare(down, x.by.as_slice(), y.by.as_slice()))
}

/// Rows in the order of their items. Rows whose items are equal stay in the order in which they came.
/// Which items are descending is what the first row says, as all rows do.
pub fn order(alloc: Global, rows: List<Keyed>) -> Result<List<Keyed>, NoMemory>
    ensures { IfOk result (λ ordered. ordered ≡ ordered_rows rows) }
{
    let down = match rows.get(0) {
        Some(first) => first.down.duplicate(alloc)?,
        None => return Ok(rows),
    };
    let mut rows = rows.into_vec();
    sort(down.as_slice(), &mut rows)?;
    Ok(List::from_vec(rows))
}
