//! Aggregates over the rows of a SELECT.
ghost use Rattle.std.specs.Prelude.{◌≡◌, IfOk, slice_index_or};
ghost use Rattle.val_types.specs.Answers.{Gives};
ghost use Rattle.val_types.specs.declared.value.Value.TheVariants.{Null};
ghost use Rattle.sql_tree.specs.View.{view_aggregate, view_aggregates};
ghost use Rattle.key_order.specs.where_candidates.session_ctx.sql_meaning.Values.{functions_of};
ghost use Rattle.exec_state.specs.Stage.{EndsAs, LeadsOn, scene_of};
ghost use Rattle.sql_evaluation.specs.Seen.{Evaluates, LeadsAlways, aggregated_in, argument_in, argument_rows_in, arguments_in, column_at, formed_values, function_in};

use crate::views::{Views, seeing};
use crate::world::Around;
use exec_state::Stage;
use select_rows::aggregate;
use sharing::Shared;
use sql_tree::{Aggregate, Expr};
use std::alloc::Global;
use val_types::{Agg, Duplicate, List, NoMemory, Row, SqlRefusal, TableDef, Value};

/// The row of aggregates over some rows of a table.
#[tactic(auto, using(crate::proofs::Steps::steps, crate::proofs::Forming::forming))]
pub fn aggregate_rows<V: Fn(&mut Stage, &Expr, &Views) -> Result<Value, SqlRefusal>>(
    alloc: Global,
    evaluate: &V,
    around: &Around<'_>,
    stage: &mut Stage,
    aggregates: &List<Aggregate>,
    definition: &Shared<TableDef>,
    rows: List<Shared<Row>>,
    views: &Views,
) -> Result<List<Shared<Row>>, SqlRefusal>
    requires callable { V.IsAlwaysCallable evaluate.now }
    requires gives { Evaluates (V.post evaluate.now) around.now }
    requires leads { LeadsAlways (V.post evaluate.now) }
    ensures gives { EndsAs result (scene_of stage.new) (aggregated_in around.now views.now definition.now (view_aggregates aggregates.now) rows (scene_of stage.old)) }
    ensures leads { LeadsOn stage.old stage.new }
{
    let arguments = argument_rows(
        alloc, evaluate, around, stage, aggregates, definition, rows, views,
    )?;
    let row = formed(alloc, aggregates, &arguments)?;
    let mut shown = List::new(alloc);
    shown.push(Shared::new(alloc, row)?)?;
    Ok(shown)
}

/// The arguments of aggregates for each row.
#[tactic(auto, using(crate::proofs::Steps::steps, crate::proofs::Forming::arguing))]
fn argument_rows<V: Fn(&mut Stage, &Expr, &Views) -> Result<Value, SqlRefusal>>(
    alloc: Global,
    evaluate: &V,
    around: &Around<'_>,
    stage: &mut Stage,
    aggregates: &List<Aggregate>,
    definition: &Shared<TableDef>,
    rows: List<Shared<Row>>,
    views: &Views,
) -> Result<List<List<Value>>, SqlRefusal>
    requires callable { V.IsAlwaysCallable evaluate.now }
    requires gives { Evaluates (V.post evaluate.now) around.now }
    requires leads { LeadsAlways (V.post evaluate.now) }
    ensures gives { EndsAs result (scene_of stage.new) (argument_rows_in around.now views.now definition.now (view_aggregates aggregates.now) rows (scene_of stage.old)) }
    ensures leads { LeadsOn stage.old stage.new }
{
    let mut arguments = List::with_capacity(alloc, rows.len())?;
    let mut inner = seeing(alloc, definition, views)?;
    for row in rows.as_slice() {
        inner.see(row.share()?);
        arguments.push(argument_values(alloc, evaluate, around, stage, aggregates, &inner)?)?;
    }
    Ok(arguments)
}

/// The arguments of aggregates; a row counts as 1 for COUNT(*).
#[tactic(auto, using(crate::proofs::Steps::steps, crate::proofs::Forming::argument_lists))]
fn argument_values<V: Fn(&mut Stage, &Expr, &Views) -> Result<Value, SqlRefusal>>(
    alloc: Global,
    evaluate: &V,
    around: &Around<'_>,
    stage: &mut Stage,
    aggregates: &List<Aggregate>,
    views: &Views,
) -> Result<List<Value>, SqlRefusal>
    requires callable { V.IsAlwaysCallable evaluate.now }
    requires gives { Evaluates (V.post evaluate.now) around.now }
    requires leads { LeadsAlways (V.post evaluate.now) }
    ensures gives { EndsAs result (scene_of stage.new) (arguments_in around.now views.now (view_aggregates aggregates.now) (scene_of stage.old)) }
    ensures leads { LeadsOn stage.old stage.new }
{
    let mut arguments = List::with_capacity(alloc, aggregates.len())?;
    for aggregate in aggregates.as_slice() {
        arguments.push(argument(evaluate, around, stage, aggregate, views)?)?;
    }
    Ok(arguments)
}

/// The argument of an aggregate.
fn argument<V: Fn(&mut Stage, &Expr, &Views) -> Result<Value, SqlRefusal>>(
    evaluate: &V,
    around: &Around<'_>,
    stage: &mut Stage,
    aggregate: &Aggregate,
    views: &Views,
) -> Result<Value, SqlRefusal>
    requires callable { V.IsAlwaysCallable evaluate.now }
    requires gives { Evaluates (V.post evaluate.now) around.now }
    requires leads { LeadsAlways (V.post evaluate.now) }
    ensures gives { EndsAs result (scene_of stage.new) (argument_in around.now views.now (view_aggregate aggregate.now) (scene_of stage.old)) }
    ensures leads { LeadsOn stage.old stage.new }
{
    let _ = around;
    match aggregate {
        Aggregate::CountAll => Ok(Value::Int(1)),
        Aggregate::Of(_, e) => evaluate(stage, e.get(), views),
    }
}

/// The function of an aggregate.
fn function_of(aggregate: &Aggregate) -> Agg
    ensures { result ≡ function_in (view_aggregate aggregate.now) }
{
    match aggregate {
        Aggregate::CountAll => Agg::Count,
        Aggregate::Of(function, _) => *function,
    }
}

/// The value at a place, NULL where there is none.
#[tactic(auto, using(crate::proofs::Forming::nothing_there))]
fn value_at(alloc: Global, row: &List<Value>, place: usize) -> Result<Value, NoMemory>
    ensures { IfOk result (λ v. v ≡ slice_index_or row.now place Null) }
{
    match row.get(place) {
        Some(value) => value.duplicate(alloc),
        None => Ok(Value::Null),
    }
}

/// The values at a place of some rows.
fn column_of(alloc: Global, rows: &List<List<Value>>, place: usize) -> Result<List<Value>, NoMemory>
    ensures { IfOk result (λ column. column ≡ column_at rows.now place) }
{
    let mut column = List::with_capacity(alloc, rows.len())?;
    for row in rows.as_slice() {
        column.push(value_at(alloc, row, place)?)?;
    }
    Ok(column)
}

/// Each aggregate of the values of its argument, left to right.
#[tactic(auto, using(crate::proofs::Forming::formed_lists))]
fn formed(
    alloc: Global,
    aggregates: &List<Aggregate>,
    rows: &List<List<Value>>,
) -> Result<List<Value>, SqlRefusal>
    ensures { Gives result (formed_values (functions_of (view_aggregates aggregates.now)) 0 rows.now) }
{
    let mut formed = List::with_capacity(alloc, aggregates.len())?;
    for (place, one) in aggregates.as_slice().iter().enumerate() {
        let column = column_of(alloc, rows, place)?;
        formed.push(aggregate(alloc, function_of(one), &column)?)?;
    }
    Ok(formed)
}
