//! The only row that ORDER BY and LIMIT 1 leave of a whole table.
ghost use Rattle.std.specs.Prelude.{◌≡◌, ℕ, true, List, Option, Some, IfOk, if◌then◌else◌, option_copied, option_to_list, reverse, take};
ghost use Rattle.table_rules.specs.Stored.{rows_of};
ghost use Rattle.table_rules.specs.Stores.{place_of};
ghost use Rattle.sql_tree.specs.Tree.{from_table, no_part};
ghost use Rattle.sql_tree.specs.View.{view_from, view_orders};
ghost use Rattle.sql_tree.specs.declared.expressions.Limit.{Limit as Leaving};
ghost use Rattle.key_order.specs.Given.{IsEdge, IsWay, LeavesOne};

use crate::ordering::are_columns;
use sharing::Shared;
use sql_tree::{Count, FromClause, Limit, OrderItem};
use std::alloc::Global;
use val_types::{Bytes, List, NoMemory, Row, TableDef};
use where_candidates::SeenTable;
use where_candidates::row_store::{Tables, tables_are_kept};
use where_candidates::where_keys::Outside;

/// Whether LIMIT leaves just the first row.
fn is_one(limit: &Option<Limit>) -> bool
    ensures { result ≡ true → LeavesOne limit.now }
{
    match limit {
        Some(limit) => match (&limit.count, &limit.offset) {
            (Count::Number(count), None) => *count == 1,
            _ => false,
        },
        None => false,
    }
}

/// Whether ORDER BY turns rows that rise by the primary key, or leaves them as they stand; None where it may do more.
fn way_of(outside: &Outside<'_>, definition: &TableDef, order: &List<OrderItem>) -> Option<bool>
    ensures { IsWay outside.now definition.now (view_orders order.now) result }
{
    if order.is_empty() {
        return Some(false);
    }
    let primary = definition.primary.as_slice();
    if are_columns(outside, definition, false, order.as_slice(), primary) {
        return Some(false);
    }
    if are_columns(outside, definition, true, order.as_slice(), primary) {
        return Some(true);
    }
    None
}

/// The row that may be there.
fn rows_of_one(alloc: Global, row: Option<&Shared<Row>>) -> Result<List<Shared<Row>>, NoMemory>
    ensures { IfOk result (λ rows. rows ≡ option_to_list (option_copied row.entry)) }
{
    let mut rows = List::new(alloc);
    if let Some(row) = row {
        rows.push(row.share()?)?;
    }
    Ok(rows)
}

/// The first row of a table, or the last.
#[tactic(auto, using(crate::proofs::OneRow::taken))]
fn edge_rows(
    alloc: Global,
    tables: &Tables,
    at: usize,
    down: bool,
) -> Result<List<Shared<Row>>, NoMemory>
    ensures { (name : List ℕ) → place_of name tables.now.tables ≡ Some at
        → IfOk result (λ rows. rows ≡ take 1 (if down then reverse (rows_of name tables.now.tables) else rows_of name tables.now.tables)) }
{
    if down {
        rows_of_one(alloc, tables.last(at))
    } else {
        rows_of_one(alloc, tables.first(at))
    }
}

/// The table of a name with the row that ORDER BY and LIMIT 1 leave of it, if there is one; None where that is not known without a walk.
fn edge_of(
    alloc: Global,
    tables: &Tables,
    outside: &Outside<'_>,
    name: &Bytes,
    order: &List<OrderItem>,
) -> Result<Option<SeenTable>, NoMemory>
    ensures { (limit : Option Leaving) → LeavesOne limit → IsEdge outside.now (from_table name.now no_part (view_orders order.now) limit) tables.now.tables result }
{
    tables_are_kept(tables);
    let Some(at) = tables.place(name) else {
        return Ok(None);
    };
    let Some(definition) = tables.shared_definition(at) else {
        return Ok(None);
    };
    let Some(down) = way_of(outside, definition.get(), order) else {
        return Ok(None);
    };
    let definition = definition.share()?;
    let rows = edge_rows(alloc, tables, at, down)?;
    Ok(Some(SeenTable { definition, rows }))
}

/// A table with the row that is left of it for a SELECT to show, if there is one: where there is no WHERE, and LIMIT is 1. None where that
/// is not known without a walk.
pub fn row_at_edge(
    alloc: Global,
    tables: &Tables,
    outside: &Outside<'_>,
    from: &FromClause,
) -> Result<Option<SeenTable>, NoMemory>
    ensures { IsEdge outside.now (view_from from.now) tables.now.tables result }
{
    match &from.filter {
        Some(_) => Ok(None),
        None => {
            if is_one(&from.limit) {
                edge_of(alloc, tables, outside, &from.table, &from.order)
            } else {
                Ok(None)
            }
        }
    }
}
