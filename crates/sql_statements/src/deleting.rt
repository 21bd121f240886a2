//! DELETE.
ghost use Rattle.exec_state.specs.Stage.{EndsAs, EndsAsBy, LeadsOn, scene_of};
ghost use Rattle.changed_rows.specs.sql_evaluation.Seen.{Evaluates, LeadsAlways, world_of};
ghost use Rattle.changed_rows.specs.Changed.{StandsAt};
ghost use Rattle.sql_statements.specs.Changed.{delete_in, deletes_in};
ghost use Rattle.sql_statements.specs.Did.{did_of};

use crate::choosing::chosen_rows;
use crate::did::{Did, affecting};
use crate::target::{find_target, rows_there};
use changed_rows::sql_evaluation::{Around, Views};
use changed_rows::{ChangedTable, Executor, delete_row};
use exec_state::Stage;
use sharing::Shared;
use sql_tree::{DeleteStmt, Expr};
use std::alloc::Global;
use val_types::{Row, SqlRefusal, Value};

/// Deletes rows one after the other; how many they are.
#[tactic(auto, using(exec_state::proofs::Leading::leading, crate::proofs::Aimed::standing, crate::proofs::Changes::deleting_rows))]
fn delete_each<E: Executor>(
    table: &ChangedTable<'_, E>,
    stage: &mut Stage,
    rows: &[Shared<Row>],
) -> Result<u64, SqlRefusal>
    requires serves { E.serves table.now.executor.now (world_of table.now.around.now).below }
    requires stands { StandsAt table.now.at table.now.definition.now stage.old }
    ensures gives { EndsAs result (scene_of stage.new) (deletes_in table.now.around.now table.now.definition.now rows.now (scene_of stage.old)) }
    ensures leads { LeadsOn stage.old stage.new }
{
    for row in rows {
        delete_row(table, stage, row)?;
    }
    Ok(rows.len() as u64)
}

/// DELETE: the rows that it deletes are chosen before the first is deleted.
#[tactic(auto, using(exec_state::proofs::Leading::leading, crate::proofs::Aimed::standing, crate::proofs::Changes::delete))]
pub(crate) fn delete<V: Fn(&mut Stage, &Expr, &Views) -> Result<Value, SqlRefusal>, E: Executor>(
    alloc: Global,
    evaluate: &V,
    executor: &E,
    around: &Around<'_>,
    stage: &mut Stage,
    statement: &DeleteStmt,
) -> Result<Did, SqlRefusal>
    requires callable { V.IsAlwaysCallable evaluate.now }
    requires gives { Evaluates (V.post evaluate.now) around.now }
    requires leads { LeadsAlways (V.post evaluate.now) }
    requires serves { E.serves executor.now (world_of around.now).below }
    ensures gives { EndsAsBy did_of result (scene_of stage.new) (delete_in around.now statement.now (scene_of stage.old)) }
    ensures leads { LeadsOn stage.old stage.new }
{
    let target = find_target(stage, &statement.table)?;
    let rows = rows_there(
        alloc,
        around,
        stage,
        &statement.table,
        &target,
        &statement.filter,
    )?;
    let views = Views::new(alloc);
    let chosen = chosen_rows(
        alloc,
        evaluate,
        around,
        stage,
        &statement.filter,
        &statement.order,
        &statement.limit,
        &target.definition,
        rows,
        &views,
    )?;
    let table = ChangedTable {
        alloc,
        executor,
        around,
        at: target.at,
        definition: &target.definition,
    };
    let count = delete_each(&table, stage, chosen.as_slice())?;
    Ok(affecting(count))
}
