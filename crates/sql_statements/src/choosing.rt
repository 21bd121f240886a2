//! The rows that UPDATE and DELETE change: those that WHERE keeps, by ORDER BY, up to LIMIT.
ghost use Rattle.std.specs.Prelude.{◌≡◌};
ghost use Rattle.sql_tree.specs.View.{view_orders, view_part};
ghost use Rattle.changed_rows.specs.sql_meaning.Frames.{limited_to};
ghost use Rattle.exec_state.specs.Stage.{EndsAs, LeadsOn, scene_of};
ghost use Rattle.changed_rows.specs.sql_evaluation.Seen.{Evaluates, LeadsAlways, where_in};
ghost use Rattle.sql_statements.specs.Changed.{chosen_in};

use changed_rows::sql_evaluation::{Around, Views, count_of, cut, kept_rows, ordered_rows};
use exec_state::Stage;
use sharing::Shared;
use sql_locals::Locals;
use sql_tree::{Count, Expr, OrderItem};
use std::alloc::Global;
use val_types::{List, Row, SqlRefusal, TableDef, Value};

/// The rows that LIMIT leaves; that of a change has no offset.
fn limited_to(locals: &Locals, limit: &Option<Count>, rows: List<Shared<Row>>) -> List<Shared<Row>>
    ensures { result ≡ limited_to locals.now limit.now rows }
{
    match limit {
        None => rows,
        Some(count) => cut(0, count_of(locals, count), rows),
    }
}

/// The rows that WHERE keeps, all where there is none.
#[tactic(auto, using(exec_state::proofs::Leading::leading))]
fn where_rows<V: Fn(&mut Stage, &Expr, &Views) -> Result<Value, SqlRefusal>>(
    alloc: Global,
    evaluate: &V,
    around: &Around<'_>,
    stage: &mut Stage,
    filter: &Option<Expr>,
    definition: &Shared<TableDef>,
    rows: List<Shared<Row>>,
    views: &Views,
) -> Result<List<Shared<Row>>, SqlRefusal>
    requires callable { V.IsAlwaysCallable evaluate.now }
    requires gives { Evaluates (V.post evaluate.now) around.now }
    requires leads { LeadsAlways (V.post evaluate.now) }
    ensures gives { EndsAs result (scene_of stage.new) (where_in around.now views.now definition.now (view_part filter.now) rows (scene_of stage.old)) }
    ensures leads { LeadsOn stage.old stage.new }
{
    match filter {
        None => Ok(rows),
        Some(filter) => kept_rows(
            alloc, evaluate, around, stage, filter, definition, rows, views,
        ),
    }
}

/// The rows that WHERE keeps, in the order of ORDER BY, up to LIMIT.
#[tactic(auto, using(exec_state::proofs::Leading::leading, crate::proofs::Picked::choosing))]
pub fn chosen_rows<V: Fn(&mut Stage, &Expr, &Views) -> Result<Value, SqlRefusal>>(
    alloc: Global,
    evaluate: &V,
    around: &Around<'_>,
    stage: &mut Stage,
    filter: &Option<Expr>,
    order: &List<OrderItem>,
    limit: &Option<Count>,
    definition: &Shared<TableDef>,
    rows: List<Shared<Row>>,
    views: &Views,
) -> Result<List<Shared<Row>>, SqlRefusal>
    requires callable { V.IsAlwaysCallable evaluate.now }
    requires gives { Evaluates (V.post evaluate.now) around.now }
    requires leads { LeadsAlways (V.post evaluate.now) }
    ensures gives { EndsAs result (scene_of stage.new) (chosen_in around.now views.now definition.now (view_part filter.now) (view_orders order.now) limit.now rows (scene_of stage.old)) }
    ensures leads { LeadsOn stage.old stage.new }
{
    let kept = where_rows(
        alloc, evaluate, around, stage, filter, definition, rows, views,
    )?;
    let ordered = ordered_rows(
        alloc, evaluate, around, stage, order, definition, kept, views,
    )?;
    Ok(limited_to(around.locals, limit, ordered))
}
