//! COUNT, MIN and MAX of a whole table.
ghost use Rattle.std.specs.Prelude.{◌≡◌, ℕ, true, List, Some, None, IfOk, map, option_copied};
ghost use Rattle.table_rules.specs.Stored.{rows_of};
ghost use Rattle.table_rules.specs.Stores.{place_of};
ghost use Rattle.sql_tree.specs.Tree.{aggregates, from_table, no_order, no_part};
ghost use Rattle.sql_tree.specs.View.{view_aggregate, view_aggregates, view_from, view_selected, view_tree};
ghost use Rattle.sql_tree.specs.declared.expressions.FromClause.{out-FromClause};
ghost use Rattle.key_order.specs.Columns.{count_in, edge_value, end_in, end_of, ends_in, key_column};
ghost use Rattle.key_order.specs.Given.{IsWholeAnswer};

use crate::columns::is_column;
use sharing::Shared;
use sql_tree::{Aggregate, Expr, FromClause, Selection};
use std::alloc::Global;
use val_types::{Agg, Bytes, Duplicate, List, NoMemory, Row, TableDef, Value};
use where_candidates::row_store::{Tables, tables_are_kept};
use where_candidates::where_keys::Outside;

/// How many, where that is a number of 64 bits.
fn count_value(count: usize) -> Option<Value>
    ensures { result ≡ count_in count }
{
    if count <= 9_223_372_036_854_775_807 {
        Some(Value::Int(count as i64))
    } else {
        None
    }
}

/// The place of the primary key's column, where it has just one, which is never NULL.
fn key_column(definition: &TableDef) -> Option<usize>
    ensures { result ≡ key_column definition.now }
{
    match definition.primary.as_slice() {
        [only] => match definition.columns.get(usize::from(*only)) {
            Some(column) => {
                if column.nullable {
                    None
                } else {
                    Some(usize::from(*only))
                }
            }
            None => None,
        },
        _ => None,
    }
}

/// The value at a place of a row, NULL where there is none.
#[tactic(auto, using(crate::proofs::AtEnds::nothing_there))]
fn edge_value(alloc: Global, place: usize, row: Option<&Shared<Row>>) -> Result<Value, NoMemory>
    ensures { IfOk result (λ v. v ≡ edge_value place (option_copied row.entry)) }
{
    match row {
        Some(row) => match row.get().get(place) {
            Some(value) => value.duplicate(alloc),
            None => Ok(Value::Null),
        },
        None => Ok(Value::Null),
    }
}

/// An aggregate of the key's column, None where it is not read at the ends.
fn end_of(
    alloc: Global,
    tables: &Tables,
    at: usize,
    function: Agg,
    place: usize,
) -> Result<Option<Value>, NoMemory>
    ensures { (name : List ℕ) → place_of name tables.now.tables ≡ Some at
        → IfOk result (λ v. v ≡ end_of function place (rows_of name tables.now.tables)) }
{
    match function {
        Agg::Count => Ok(count_value(tables.count(at))),
        Agg::Sum => Ok(None),
        Agg::Min => Ok(Some(edge_value(alloc, place, tables.first(at))?)),
        Agg::Max => Ok(Some(edge_value(alloc, place, tables.last(at))?)),
    }
}

/// An aggregate over an expression.
fn end_over(
    alloc: Global,
    tables: &Tables,
    outside: &Outside<'_>,
    at: usize,
    definition: &TableDef,
    function: Agg,
    e: &Expr,
) -> Result<Option<Value>, NoMemory>
    ensures { (name : List ℕ) → place_of name tables.now.tables ≡ Some at
        → IfOk result (λ v. v ≡ end_in outside.now definition.now (rows_of name tables.now.tables) (Some (function, view_tree e.now))) }
{
    match key_column(definition) {
        Some(place) => {
            if is_column(outside, definition, place, e) {
                end_of(alloc, tables, at, function, place)
            } else {
                Ok(None)
            }
        }
        None => Ok(None),
    }
}

/// An aggregate of a whole table.
fn end(
    alloc: Global,
    tables: &Tables,
    outside: &Outside<'_>,
    at: usize,
    definition: &TableDef,
    one: &Aggregate,
) -> Result<Option<Value>, NoMemory>
    ensures { (name : List ℕ) → place_of name tables.now.tables ≡ Some at
        → IfOk result (λ v. v ≡ end_in outside.now definition.now (rows_of name tables.now.tables) (view_aggregate one.now)) }
{
    match one {
        Aggregate::CountAll => Ok(count_value(tables.count(at))),
        Aggregate::Of(function, e) => end_over(
            alloc,
            tables,
            outside,
            at,
            definition,
            *function,
            e.get(),
        ),
    }
}

/// Each of some aggregates, None where one is not read at the ends.
fn ends(
    alloc: Global,
    tables: &Tables,
    outside: &Outside<'_>,
    at: usize,
    definition: &TableDef,
    aggregates: &List<Aggregate>,
) -> Result<Option<Row>, NoMemory>
    ensures { (name : List ℕ) → place_of name tables.now.tables ≡ Some at
        → IfOk result (λ row. row ≡ ends_in outside.now definition.now (rows_of name tables.now.tables) (map view_aggregate aggregates.now)) }
{
    let mut values = List::with_capacity(alloc, aggregates.len())?;
    for one in aggregates.as_slice() {
        match end(alloc, tables, outside, at, definition, one)? {
            Some(value) => values.push(value)?,
            None => return Ok(None),
        }
    }
    Ok(Some(values))
}

/// Whether a table is looked at as it stands: no WHERE, ORDER BY or LIMIT.
#[tactic(auto, using(crate::proofs::Whole::whole))]
fn is_whole(from: &FromClause) -> bool
    ensures { result ≡ true → view_from from.now ≡ from_table (out-FromClause from.now).table no_part no_order None }
{
    match (&from.filter, &from.limit) {
        (None, None) => from.order.is_empty(),
        _ => false,
    }
}

/// What aggregates over a table as it stands show, where that is read at its ends.
fn ends_of_table(
    alloc: Global,
    tables: &Tables,
    outside: &Outside<'_>,
    name: &Bytes,
    wanted: &List<Aggregate>,
) -> Result<Option<Row>, NoMemory>
    ensures { IsWholeAnswer outside.now (aggregates (view_aggregates wanted.now)) (from_table name.now no_part no_order None) tables.now.tables result }
{
    tables_are_kept(tables);
    let Some(at) = tables.place(name) else {
        return Ok(None);
    };
    let Some(definition) = tables.definition(at) else {
        return Ok(None);
    };
    ends(alloc, tables, outside, at, definition, wanted)
}

/// The only row that a SELECT shows, where that is read at the ends of its table: how many rows there are, the first and the last.
pub fn row_of_ends(
    alloc: Global,
    tables: &Tables,
    outside: &Outside<'_>,
    what: &Selection,
    from: &FromClause,
) -> Result<Option<Row>, NoMemory>
    ensures { IsWholeAnswer outside.now (view_selected what.now) (view_from from.now) tables.now.tables result }
{
    match what {
        Selection::Aggregates(aggregates) => {
            if is_whole(from) {
                ends_of_table(alloc, tables, outside, &from.table, aggregates)
            } else {
                Ok(None)
            }
        }
        _ => Ok(None),
    }
}
