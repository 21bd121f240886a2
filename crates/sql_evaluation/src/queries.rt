//! The rows of SELECTs, and the expressions that are SELECTs.
ghost use Rattle.std.specs.Prelude.{◌≡◌, IfOk};
ghost use Rattle.value_rules.specs.Selecting.{first_value};
ghost use Rattle.sql_tree.specs.Tree.{exists, subquery};
ghost use Rattle.sql_tree.specs.View.{view_from, view_orders, view_part, view_query, view_selected, view_tree, view_trees};
ghost use Rattle.key_order.specs.where_candidates.session_ctx.sql_meaning.Values.{has_rows, only_value};
ghost use Rattle.exec_state.specs.Stage.{EndsAs, LeadsOn, scene_of};
ghost use Rattle.sql_evaluation.specs.Seen.{Anywhere, Evaluates, LeadsAlways, alone_in, from_in, items_in, kept_in, keyed_in, ordered_in, rows_in, shown_in, value_in, where_in};

use crate::aggregates::aggregate_rows;
use crate::choices::holds;
use crate::outside::outside_of;
use crate::shortcuts::{placed_rows, rows_of_table};
use crate::sorting::{in_order, limited, order_values};
use crate::value_lists::values;
use crate::views::{Views, seeing};
use crate::world::Around;
use exec_state::Stage;
use expr_ops::value_of_truth;
use key_order::tables_are_kept;
use key_order::where_candidates::{SeenTable, rows_to_see};
use sharing::Shared;
use sql_tree::{Expr, FromClause, OrderItem, Select, Selection};
use std::alloc::Global;
use val_types::{Boxed, Duplicate, List, NoMemory, Row, SqlRefusal, TableDef, Value};

/// A copy of the first value of a row, NULL where there is none.
fn first_value(alloc: Global, row: &Row) -> Result<Value, NoMemory>
    ensures { IfOk result (λ v. v ≡ first_value row.now) }
{
    match row.as_slice().split_first() {
        Some((value, _)) => value.duplicate(alloc),
        None => Ok(Value::Null),
    }
}

/// The only value of the only row, NULL where there is none; 1242 for more rows.
#[tactic(auto, using(crate::proofs::Scanning::single))]
fn only_value(alloc: Global, rows: &[Shared<Row>]) -> Result<Value, SqlRefusal>
    ensures { Anywhere result (only_value rows.now) }
{
    match rows.split_first() {
        None => Ok(Value::Null),
        Some((row, rest)) => {
            if rest.is_empty() {
                Ok(first_value(alloc, row.get())?)
            } else {
                Err(SqlRefusal::Sql(1242))
            }
        }
    }
}

/// Whether there is a row.
fn has_rows(rows: &[Shared<Row>]) -> bool
    ensures { result ≡ has_rows rows.now }
{
    match rows.split_first() {
        None => false,
        Some(_) => true,
    }
}

/// A scalar subquery.
#[tactic(auto, using(crate::proofs::Steps::steps, crate::proofs::Steps::anywhere_here))]
pub fn subquery_value<V: Fn(&mut Stage, &Expr, &Views) -> Result<Value, SqlRefusal>>(
    alloc: Global,
    evaluate: &V,
    around: &Around<'_>,
    stage: &mut Stage,
    select: &Select,
    views: &Views,
) -> Result<Value, SqlRefusal>
    requires callable { V.IsAlwaysCallable evaluate.now }
    requires gives { Evaluates (V.post evaluate.now) around.now }
    requires leads { LeadsAlways (V.post evaluate.now) }
    ensures gives { EndsAs result (scene_of stage.new) (value_in around.now views.now (subquery (view_query select.now)) (scene_of stage.old)) }
    ensures leads { LeadsOn stage.old stage.new }
{
    let rows = rows_of_query(alloc, evaluate, around, stage, select, views)?;
    only_value(alloc, rows.as_slice())
}

/// EXISTS
pub fn exists_value<V: Fn(&mut Stage, &Expr, &Views) -> Result<Value, SqlRefusal>>(
    alloc: Global,
    evaluate: &V,
    around: &Around<'_>,
    stage: &mut Stage,
    select: &Select,
    views: &Views,
) -> Result<Value, SqlRefusal>
    requires callable { V.IsAlwaysCallable evaluate.now }
    requires gives { Evaluates (V.post evaluate.now) around.now }
    requires leads { LeadsAlways (V.post evaluate.now) }
    ensures gives { EndsAs result (scene_of stage.new) (value_in around.now views.now (exists (view_query select.now)) (scene_of stage.old)) }
    ensures leads { LeadsOn stage.old stage.new }
{
    let rows = rows_of_query(alloc, evaluate, around, stage, select, views)?;
    Ok(value_of_truth(Some(has_rows(rows.as_slice()))))
}

/// The rows of a SELECT.
#[tactic(auto, using(crate::proofs::Steps::steps, crate::proofs::Scanning::selects))]
pub fn rows_of_query<V: Fn(&mut Stage, &Expr, &Views) -> Result<Value, SqlRefusal>>(
    alloc: Global,
    evaluate: &V,
    around: &Around<'_>,
    stage: &mut Stage,
    select: &Select,
    views: &Views,
) -> Result<List<Shared<Row>>, SqlRefusal>
    requires callable { V.IsAlwaysCallable evaluate.now }
    requires gives { Evaluates (V.post evaluate.now) around.now }
    requires leads { LeadsAlways (V.post evaluate.now) }
    ensures gives { EndsAs result (scene_of stage.new) (rows_in around.now views.now (view_query select.now) (scene_of stage.old)) }
    ensures leads { LeadsOn stage.old stage.new }
{
    match &select.from {
        None => row_alone(alloc, evaluate, around, stage, &select.what, views),
        Some(from) => { rows_of_table(alloc, evaluate, around, stage, &select.what, from, views) }
    }
}

/// The row of a SELECT without a table.
fn row_alone<V: Fn(&mut Stage, &Expr, &Views) -> Result<Value, SqlRefusal>>(
    alloc: Global,
    evaluate: &V,
    around: &Around<'_>,
    stage: &mut Stage,
    what: &Selection,
    views: &Views,
) -> Result<List<Shared<Row>>, SqlRefusal>
    requires callable { V.IsAlwaysCallable evaluate.now }
    requires gives { Evaluates (V.post evaluate.now) around.now }
    requires leads { LeadsAlways (V.post evaluate.now) }
    ensures gives { EndsAs result (scene_of stage.new) (alone_in around.now views.now (view_selected what.now) (scene_of stage.old)) }
    ensures leads { LeadsOn stage.old stage.new }
{
    match what {
        Selection::Items(items) => {
            let row = values(alloc, evaluate, around, stage, items, views)?;
            let mut rows = List::new(alloc);
            rows.push(Shared::new(alloc, row)?)?;
            Ok(rows)
        }
        Selection::All => Ok(List::new(alloc)),
        Selection::Aggregates(_) => Ok(List::new(alloc)),
    }
}

/// WHERE for all rows that it has to look at, then ORDER BY for those kept, then LIMIT, then the items.
#[tactic(auto, using(crate::proofs::Steps::steps, crate::proofs::Scanning::clauses, crate::proofs::Steps::stage_on_twice))]
pub fn rows_from<V: Fn(&mut Stage, &Expr, &Views) -> Result<Value, SqlRefusal>>(
    alloc: Global,
    evaluate: &V,
    around: &Around<'_>,
    stage: &mut Stage,
    what: &Selection,
    from: &FromClause,
    views: &Views,
) -> Result<List<Shared<Row>>, SqlRefusal>
    requires callable { V.IsAlwaysCallable evaluate.now }
    requires gives { Evaluates (V.post evaluate.now) around.now }
    requires leads { LeadsAlways (V.post evaluate.now) }
    ensures gives { EndsAs result (scene_of stage.new) (from_in around.now views.now (view_selected what.now) (view_from from.now) (scene_of stage.old)) }
    ensures leads { LeadsOn stage.old stage.new }
{
    let outside = outside_of(around);
    tables_are_kept(&stage.tables);
    let SeenTable { definition, rows } = rows_to_see(
        alloc,
        &stage.tables,
        &outside,
        &from.table,
        &from.filter,
    )?;
    let rows = where_rows(
        alloc,
        evaluate,
        around,
        stage,
        &from.filter,
        &definition,
        rows,
        views,
    )?;
    let rows = placed_rows(
        alloc,
        evaluate,
        around,
        stage,
        &from.order,
        &definition,
        rows,
        views,
    )?;
    let rows = limited(around.locals, &from.limit, rows);
    shown_rows(
        alloc,
        evaluate,
        around,
        stage,
        what,
        &definition,
        rows,
        views,
    )
}

/// The rows that WHERE keeps, all where there is none.
fn where_rows<V: Fn(&mut Stage, &Expr, &Views) -> Result<Value, SqlRefusal>>(
    alloc: Global,
    evaluate: &V,
    around: &Around<'_>,
    stage: &mut Stage,
    filter: &Option<Boxed<Expr>>,
    definition: &Shared<TableDef>,
    rows: List<Shared<Row>>,
    views: &Views,
) -> Result<List<Shared<Row>>, SqlRefusal>
    requires callable { V.IsAlwaysCallable evaluate.now }
    requires gives { Evaluates (V.post evaluate.now) around.now }
    requires leads { LeadsAlways (V.post evaluate.now) }
    ensures gives { EndsAs result (scene_of stage.new) (where_in around.now views.now definition.now (view_part filter.now) rows (scene_of stage.old)) }
    ensures leads { LeadsOn stage.old stage.new }
{
    match filter {
        None => Ok(rows),
        Some(filter) => kept_rows(
            alloc,
            evaluate,
            around,
            stage,
            filter.get(),
            definition,
            rows,
            views,
        ),
    }
}

/// The rows for which a condition is true.
#[tactic(auto, using(crate::proofs::Steps::steps, crate::proofs::Scanning::keeping))]
pub fn kept_rows<V: Fn(&mut Stage, &Expr, &Views) -> Result<Value, SqlRefusal>>(
    alloc: Global,
    evaluate: &V,
    around: &Around<'_>,
    stage: &mut Stage,
    filter: &Expr,
    definition: &Shared<TableDef>,
    rows: List<Shared<Row>>,
    views: &Views,
) -> Result<List<Shared<Row>>, SqlRefusal>
    requires callable { V.IsAlwaysCallable evaluate.now }
    requires gives { Evaluates (V.post evaluate.now) around.now }
    requires leads { LeadsAlways (V.post evaluate.now) }
    ensures gives { EndsAs result (scene_of stage.new) (kept_in around.now views.now definition.now (view_tree filter.now) rows (scene_of stage.old)) }
    ensures leads { LeadsOn stage.old stage.new }
{
    let mut kept = List::new(alloc);
    let mut inner = seeing(alloc, definition, views)?;
    for row in rows.as_slice() {
        inner.see(row.share()?);
        if holds(evaluate, around, stage, filter, &inner)? {
            kept.push(row.share()?)?;
        }
    }
    Ok(kept)
}

/// The rows in the order of ORDER BY.
#[tactic(auto, using(crate::proofs::Steps::steps, crate::proofs::Scanning::unordered))]
pub fn ordered_rows<V: Fn(&mut Stage, &Expr, &Views) -> Result<Value, SqlRefusal>>(
    alloc: Global,
    evaluate: &V,
    around: &Around<'_>,
    stage: &mut Stage,
    order: &List<OrderItem>,
    definition: &Shared<TableDef>,
    rows: List<Shared<Row>>,
    views: &Views,
) -> Result<List<Shared<Row>>, SqlRefusal>
    requires callable { V.IsAlwaysCallable evaluate.now }
    requires gives { Evaluates (V.post evaluate.now) around.now }
    requires leads { LeadsAlways (V.post evaluate.now) }
    ensures gives { EndsAs result (scene_of stage.new) (ordered_in around.now views.now definition.now (view_orders order.now) rows (scene_of stage.old)) }
    ensures leads { LeadsOn stage.old stage.new }
{
    if order.is_empty() {
        return Ok(rows);
    }
    let keyed = keyed_rows(
        alloc, evaluate, around, stage, order, definition, rows, views,
    )?;
    Ok(in_order(alloc, order, keyed)?)
}

/// The rows with the values by which they are sorted.
#[tactic(auto, using(crate::proofs::Steps::steps, crate::proofs::Scanning::keying))]
fn keyed_rows<V: Fn(&mut Stage, &Expr, &Views) -> Result<Value, SqlRefusal>>(
    alloc: Global,
    evaluate: &V,
    around: &Around<'_>,
    stage: &mut Stage,
    order: &List<OrderItem>,
    definition: &Shared<TableDef>,
    rows: List<Shared<Row>>,
    views: &Views,
) -> Result<List<(List<Value>, Shared<Row>)>, SqlRefusal>
    requires callable { V.IsAlwaysCallable evaluate.now }
    requires gives { Evaluates (V.post evaluate.now) around.now }
    requires leads { LeadsAlways (V.post evaluate.now) }
    ensures gives { EndsAs result (scene_of stage.new) (keyed_in around.now views.now definition.now (view_orders order.now) rows (scene_of stage.old)) }
    ensures leads { LeadsOn stage.old stage.new }
{
    let mut keyed = List::with_capacity(alloc, rows.len())?;
    let mut inner = seeing(alloc, definition, views)?;
    for row in rows.as_slice() {
        inner.see(row.share()?);
        let by = order_values(alloc, evaluate, around, stage, order, &inner)?;
        keyed.push((by, row.share()?))?;
    }
    Ok(keyed)
}

/// What is shown of some rows of a table.
#[tactic(auto, using(crate::proofs::Steps::steps), unfolding(crate::specs::Seen::frame_of))]
pub fn shown_rows<V: Fn(&mut Stage, &Expr, &Views) -> Result<Value, SqlRefusal>>(
    alloc: Global,
    evaluate: &V,
    around: &Around<'_>,
    stage: &mut Stage,
    what: &Selection,
    definition: &Shared<TableDef>,
    rows: List<Shared<Row>>,
    views: &Views,
) -> Result<List<Shared<Row>>, SqlRefusal>
    requires callable { V.IsAlwaysCallable evaluate.now }
    requires gives { Evaluates (V.post evaluate.now) around.now }
    requires leads { LeadsAlways (V.post evaluate.now) }
    ensures gives { EndsAs result (scene_of stage.new) (shown_in around.now views.now definition.now (view_selected what.now) rows (scene_of stage.old)) }
    ensures leads { LeadsOn stage.old stage.new }
{
    match what {
        Selection::All => Ok(rows),
        Selection::Items(items) => item_rows(
            alloc, evaluate, around, stage, items, definition, rows, views,
        ),
        Selection::Aggregates(aggregates) => {
            aggregate_rows(
                alloc, evaluate, around, stage, aggregates, definition, rows, views,
            )
        }
    }
}

/// The values of the items for each row.
#[tactic(auto, using(crate::proofs::Steps::steps, crate::proofs::Scanning::itemizing))]
fn item_rows<V: Fn(&mut Stage, &Expr, &Views) -> Result<Value, SqlRefusal>>(
    alloc: Global,
    evaluate: &V,
    around: &Around<'_>,
    stage: &mut Stage,
    items: &List<Expr>,
    definition: &Shared<TableDef>,
    rows: List<Shared<Row>>,
    views: &Views,
) -> Result<List<Shared<Row>>, SqlRefusal>
    requires callable { V.IsAlwaysCallable evaluate.now }
    requires gives { Evaluates (V.post evaluate.now) around.now }
    requires leads { LeadsAlways (V.post evaluate.now) }
    ensures gives { EndsAs result (scene_of stage.new) (items_in around.now views.now definition.now (view_trees items.now) rows (scene_of stage.old)) }
    ensures leads { LeadsOn stage.old stage.new }
{
    let mut shown = List::with_capacity(alloc, rows.len())?;
    let mut inner = seeing(alloc, definition, views)?;
    for row in rows.as_slice() {
        inner.see(row.share()?);
        let values = values(alloc, evaluate, around, stage, items, &inner)?;
        shown.push(Shared::new(alloc, values)?)?;
    }
    Ok(shown)
}
