//! ORDER BY and LIMIT over shared rows.
ghost use Rattle.std.specs.Prelude.{◌≡◌, IfOk, OnOk, map, unwrap_or};
ghost use Rattle.value_rules.specs.Selecting.{cut, in_order};
ghost use Rattle.sql_tree.specs.View.{view_orders};
ghost use Rattle.key_order.specs.where_candidates.session_ctx.sql_meaning.Frames.{count_value, limited, number_or_none};
ghost use Rattle.key_order.specs.where_candidates.session_ctx.sql_meaning.Values.{directions, sorted};
ghost use Rattle.exec_state.specs.Stage.{EndsAs, LeadsOn, scene_of};
ghost use Rattle.sql_evaluation.specs.Seen.{Evaluates, LeadsAlways, comes_before, order_in};

use crate::views::Views;
use crate::world::Around;
use exec_state::Stage;
use select_rows::compare;
use sharing::Shared;
use sql_locals::Locals;
use sql_tree::{Count, Expr, Limit, OrderItem};
use std::alloc::Global;
use val_types::{List, NoMemory, Row, SqlRefusal, Value};

/// The values of ORDER BY.
#[tactic(auto, using(crate::proofs::Steps::steps, crate::proofs::Scanning::ordering_values))]
pub fn order_values<V: Fn(&mut Stage, &Expr, &Views) -> Result<Value, SqlRefusal>>(
    alloc: Global,
    evaluate: &V,
    around: &Around<'_>,
    stage: &mut Stage,
    order: &List<OrderItem>,
    views: &Views,
) -> Result<List<Value>, SqlRefusal>
    requires callable { V.IsAlwaysCallable evaluate.now }
    requires gives { Evaluates (V.post evaluate.now) around.now }
    requires leads { LeadsAlways (V.post evaluate.now) }
    ensures gives { EndsAs result (scene_of stage.new) (order_in around.now views.now (view_orders order.now) (scene_of stage.old)) }
    ensures leads { LeadsOn stage.old stage.new }
{
    let _ = around;
    let mut by = List::with_capacity(alloc, order.len())?;
    for item in order.as_slice() {
        by.push(evaluate(stage, &item.by, views)?)?;
    }
    Ok(by)
}

/// The directions of ORDER BY.
fn directions(alloc: Global, order: &List<OrderItem>) -> Result<List<bool>, NoMemory>
    ensures { IfOk result (λ down. down ≡ directions (view_orders order.now)) }
{
    let mut down = List::with_capacity(alloc, order.len())?;
    for item in order.as_slice() {
        down.push(item.descending)?;
    }
    Ok(down)
}

/// Puts rows into their order; those that are alike stay as they stand.
fn sort(down: &[bool], rows: &mut Vec<(List<Value>, Shared<Row>)>) -> Result<(), NoMemory>
    ensures { OnOk result (rows.new.items ≡ in_order (comes_before down.now) rows.old.items) }
{
    rows.sort_by(|x, y| compare(down, x.0.as_slice(), y.0.as_slice()))
}

/// The rows alone.
fn rows_of(
    alloc: Global,
    keyed: &[(List<Value>, Shared<Row>)],
) -> Result<List<Shared<Row>>, NoMemory>
    ensures { IfOk result (λ rows. rows ≡ map (λ r. r.1) keyed.now) }
{
    let mut rows = List::with_capacity(alloc, keyed.len())?;
    for one in keyed {
        rows.push(one.1.share()?)?;
    }
    Ok(rows)
}

/// The rows in the order of their items.
pub fn in_order(
    alloc: Global,
    order: &List<OrderItem>,
    rows: List<(List<Value>, Shared<Row>)>,
) -> Result<List<Shared<Row>>, NoMemory>
    ensures { IfOk result (λ ordered. ordered ≡ sorted (directions (view_orders order.now)) rows) }
{
    let down = directions(alloc, order)?;
    let mut rows = rows.into_vec();
    sort(down.as_slice(), &mut rows)?;
    let ordered = rows_of(alloc, rows.as_slice())?;
    Ok(ordered)
}

/// The number of a LIMIT.
pub fn count_of(locals: &Locals, count: &Count) -> u64
    ensures { result ≡ count_value locals.now count.now }
{
    match count {
        Count::Number(number) => *number,
        Count::Name(name) => match locals.find(name) {
            Some(local) => number_of(&local.value),
            None => 0,
        },
    }
}

fn number_of(value: &Value) -> u64
    ensures { result ≡ unwrap_or (number_or_none value.now) 0 }
{
    match value {
        Value::Int(number) => {
            if *number >= 0 {
                number.unsigned_abs()
            } else {
                0
            }
        }
        Value::Null | Value::Text(_) => 0,
    }
}

/// The rows behind the first `skip`, and of these the first `take`.
pub fn cut(skip: u64, take: u64, rows: List<Shared<Row>>) -> List<Shared<Row>>
    ensures { result ≡ cut skip take rows }
{
    let mut rows = rows.into_vec();
    let passed = (skip as usize).min(rows.len());
    rows.rotate_left(passed);
    rows.truncate(rows.len() - passed);
    rows.truncate(take as usize);
    List::from_vec(rows)
}

/// The rows that LIMIT leaves.
pub fn limited(locals: &Locals, limit: &Option<Limit>, rows: List<Shared<Row>>) -> List<Shared<Row>>
    ensures { result ≡ limited locals.now limit.now rows }
{
    let Some(limit) = limit else {
        return rows;
    };
    let skip = match &limit.offset {
        Some(offset) => count_of(locals, offset),
        None => 0,
    };
    cut(skip, count_of(locals, &limit.count), rows)
}
