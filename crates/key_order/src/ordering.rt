//! ORDER BY the columns of the primary key.
ghost use Rattle.std.specs.Prelude.{◌≡◌, map, reverse};
ghost use Rattle.sql_tree.specs.View.{view_order, view_orders};
ghost use Rattle.key_order.specs.Columns.{are_columns};
ghost use Rattle.key_order.specs.Given.{OrderedByKey};

use crate::columns::is_column;
use sharing::Shared;
use sql_tree::OrderItem;
use val_types::{List, Row, TableDef};
use where_candidates::where_keys::Outside;

/// Whether the items of ORDER BY are just the columns at some places, in this order, all falling or all rising.
#[tactic(auto, using(crate::proofs::Items::items))]
pub(crate) fn are_columns(
    outside: &Outside<'_>,
    definition: &TableDef,
    down: bool,
    order: &[OrderItem],
    places: &[u16],
) -> bool
    ensures { result ≡ are_columns outside.now definition.now down (map view_order order.now) places.now }
{
    match (order.split_first(), places.split_first()) {
        (None, None) => true,
        (Some((item, items)), Some((place, behind))) => {
            item.descending == down
                && is_column(outside, definition, usize::from(*place), &item.by)
                && are_columns(outside, definition, down, items, behind)
        }
        _ => false,
    }
}

/// Rows the other way round.
fn turned(rows: List<Shared<Row>>) -> List<Shared<Row>>
    ensures { result ≡ reverse rows }
{
    let mut rows = rows.into_vec();
    rows.reverse();
    List::from_vec(rows)
}

/// Rows of a table, which rise by its primary key, in the order of ORDER BY, where that needs no sort; else the rows as they are.
pub fn by_key(
    outside: &Outside<'_>,
    definition: &TableDef,
    order: &List<OrderItem>,
    rows: List<Shared<Row>>,
) -> Result<List<Shared<Row>>, List<Shared<Row>>>
    ensures { OrderedByKey outside.now definition.now (view_orders order.now) rows result }
{
    let primary = definition.primary.as_slice();
    if are_columns(outside, definition, false, order.as_slice(), primary) {
        return Ok(rows);
    }
    if are_columns(outside, definition, true, order.as_slice(), primary) {
        return Ok(turned(rows));
    }
    Err(rows)
}
