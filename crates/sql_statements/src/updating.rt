//! UPDATE.
ghost use Rattle.sql_tree.specs.StatementView.{view_sets};
ghost use Rattle.exec_state.specs.Stage.{EndsAs, EndsAsBy, LeadsOn, scene_of};
ghost use Rattle.changed_rows.specs.sql_evaluation.Seen.{Evaluates, LeadsAlways, world_of};
ghost use Rattle.changed_rows.specs.Changed.{StandsAt};
ghost use Rattle.sql_statements.specs.Changed.{update_in, updates_in};
ghost use Rattle.sql_statements.specs.Did.{did_of};

use crate::choosing::chosen_rows;
use crate::did::{Did, affecting};
use crate::target::{find_target, rows_there};
use changed_rows::sql_evaluation::{Around, Views};
use changed_rows::{ChangedTable, Executor, update_row};
use exec_state::Stage;
use sharing::Shared;
use sql_tree::{ColumnSet, Expr, UpdateStmt};
use std::alloc::Global;
use val_types::{List, Row, SqlRefusal, Value};

/// Updates rows one after the other; how many of them that changes.
#[tactic(auto, using(exec_state::proofs::Leading::leading, crate::proofs::Aimed::standing, crate::proofs::Changes::updating))]
fn update_each<E: Executor>(
    table: &ChangedTable<'_, E>,
    stage: &mut Stage,
    sets: &List<ColumnSet>,
    rows: &[Shared<Row>],
) -> Result<u64, SqlRefusal>
    requires serves { E.serves table.now.executor.now (world_of table.now.around.now).below }
    requires stands { StandsAt table.now.at table.now.definition.now stage.old }
    ensures gives { EndsAs result (scene_of stage.new) (updates_in table.now.around.now table.now.definition.now (view_sets sets.now) rows.now (scene_of stage.old)) }
    ensures leads { LeadsOn stage.old stage.new }
{
    let mut count = 0u64;
    for row in rows {
        let more = update_row(table, stage, sets, row)?;
        count += more;
    }
    Ok(count)
}

/// UPDATE: the rows that it changes are chosen before the first is changed.
#[tactic(auto, using(exec_state::proofs::Leading::leading, crate::proofs::Aimed::standing, crate::proofs::Changes::update))]
pub(crate) fn update<V: Fn(&mut Stage, &Expr, &Views) -> Result<Value, SqlRefusal>, E: Executor>(
    alloc: Global,
    evaluate: &V,
    executor: &E,
    around: &Around<'_>,
    stage: &mut Stage,
    statement: &UpdateStmt,
) -> Result<Did, SqlRefusal>
    requires callable { V.IsAlwaysCallable evaluate.now }
    requires gives { Evaluates (V.post evaluate.now) around.now }
    requires leads { LeadsAlways (V.post evaluate.now) }
    requires serves { E.serves executor.now (world_of around.now).below }
    ensures gives { EndsAsBy did_of result (scene_of stage.new) (update_in around.now statement.now (scene_of stage.old)) }
    ensures leads { LeadsOn stage.old stage.new }
{
    let target = find_target(stage, &statement.table)?;
    let rows = rows_there(
        alloc,
        around,
        stage,
        &statement.table,
        &target,
        &statement.filter,
    )?;
    let views = Views::new(alloc);
    let chosen = chosen_rows(
        alloc,
        evaluate,
        around,
        stage,
        &statement.filter,
        &statement.order,
        &statement.limit,
        &target.definition,
        rows,
        &views,
    )?;
    let table = ChangedTable {
        alloc,
        executor,
        around,
        at: target.at,
        definition: &target.definition,
    };
    let count = update_each(&table, stage, &statement.sets, chosen.as_slice())?;
    Ok(affecting(count))
}
