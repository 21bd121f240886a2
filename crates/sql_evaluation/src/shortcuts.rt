//! Sorts and walks that the order of a table's primary key saves.
ghost use Rattle.sql_tree.specs.View.{view_from, view_orders, view_selected};
ghost use Rattle.exec_state.specs.Stage.{EndsAs, LeadsOn, scene_of};
ghost use Rattle.sql_evaluation.specs.Seen.{AreTabled, Evaluates, LeadsAlways, from_in, ordered_in};

use crate::outside::outside_of;
use crate::queries::{ordered_rows, rows_from, shown_rows};
use crate::views::Views;
use crate::world::Around;
use exec_state::Stage;
use key_order::where_candidates::SeenTable;
use key_order::{by_key, row_at_edge, row_of_ends};
use sharing::Shared;
use sql_tree::{Expr, FromClause, OrderItem, Selection};
use std::alloc::Global;
use val_types::{List, Row, SqlRefusal, TableDef, Value};

/// The rows of a SELECT with a table: of the ends of this alone where they say all.
#[tactic(auto, using(crate::proofs::Steps::steps, crate::proofs::Saving::ends))]
pub fn rows_of_table<V: Fn(&mut Stage, &Expr, &Views) -> Result<Value, SqlRefusal>>(
    alloc: Global,
    evaluate: &V,
    around: &Around<'_>,
    stage: &mut Stage,
    what: &Selection,
    from: &FromClause,
    views: &Views,
) -> Result<List<Shared<Row>>, SqlRefusal>
    requires callable { V.IsAlwaysCallable evaluate.now }
    requires gives { Evaluates (V.post evaluate.now) around.now }
    requires leads { LeadsAlways (V.post evaluate.now) }
    ensures gives { EndsAs result (scene_of stage.new) (from_in around.now views.now (view_selected what.now) (view_from from.now) (scene_of stage.old)) }
    ensures leads { LeadsOn stage.old stage.new }
{
    let outside = outside_of(around);
    match row_of_ends(alloc, &stage.tables, &outside, what, from)? {
        Some(row) => {
            let mut rows = List::new(alloc);
            rows.push(Shared::new(alloc, row)?)?;
            Ok(rows)
        }
        None => rows_at_edge(alloc, evaluate, around, stage, what, from, views),
    }
}

/// The same: of one row alone where LIMIT leaves no more, and the order of the primary key says which.
#[tactic(auto, using(crate::proofs::Steps::steps, crate::proofs::Saving::edge))]
fn rows_at_edge<V: Fn(&mut Stage, &Expr, &Views) -> Result<Value, SqlRefusal>>(
    alloc: Global,
    evaluate: &V,
    around: &Around<'_>,
    stage: &mut Stage,
    what: &Selection,
    from: &FromClause,
    views: &Views,
) -> Result<List<Shared<Row>>, SqlRefusal>
    requires callable { V.IsAlwaysCallable evaluate.now }
    requires gives { Evaluates (V.post evaluate.now) around.now }
    requires leads { LeadsAlways (V.post evaluate.now) }
    ensures gives { EndsAs result (scene_of stage.new) (from_in around.now views.now (view_selected what.now) (view_from from.now) (scene_of stage.old)) }
    ensures leads { LeadsOn stage.old stage.new }
{
    let outside = outside_of(around);
    match row_at_edge(alloc, &stage.tables, &outside, from)? {
        Some(SeenTable { definition, rows }) => shown_rows(
            alloc,
            evaluate,
            around,
            stage,
            what,
            &definition,
            rows,
            views,
        ),
        None => rows_from(alloc, evaluate, around, stage, what, from, views),
    }
}

/// The rows in the order of ORDER BY: as they stand, or turned, where this is the order of their primary key.
#[tactic(auto, using(crate::proofs::Steps::steps, crate::proofs::Saving::placing))]
pub fn placed_rows<V: Fn(&mut Stage, &Expr, &Views) -> Result<Value, SqlRefusal>>(
    alloc: Global,
    evaluate: &V,
    around: &Around<'_>,
    stage: &mut Stage,
    order: &List<OrderItem>,
    definition: &Shared<TableDef>,
    rows: List<Shared<Row>>,
    views: &Views,
) -> Result<List<Shared<Row>>, SqlRefusal>
    requires callable { V.IsAlwaysCallable evaluate.now }
    requires gives { Evaluates (V.post evaluate.now) around.now }
    requires leads { LeadsAlways (V.post evaluate.now) }
    ensures gives { AreTabled definition.now rows → EndsAs result (scene_of stage.new) (ordered_in around.now views.now definition.now (view_orders order.now) rows (scene_of stage.old)) }
    ensures leads { LeadsOn stage.old stage.new }
{
    let outside = outside_of(around);
    match by_key(&outside, definition.get(), order, rows) {
        Ok(placed) => Ok(placed),
        Err(rows) => ordered_rows(
            alloc, evaluate, around, stage, order, definition, rows, views,
        ),
    }
}
