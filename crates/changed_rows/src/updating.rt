//! One row updated.
ghost use Rattle.std.specs.Prelude.{◌≡◌, ◌≤◌, [], IfOk};
ghost use Rattle.sql_tree.specs.StatementView.{view_set, view_sets};
ghost use Rattle.sql_evaluation.specs.exec_state.Stage.{EndsAs, LeadsOn, scene_of};
ghost use Rattle.sql_evaluation.specs.sql_meaning.Changing.{assign_column};
ghost use Rattle.sql_evaluation.specs.Seen.{Anywhere, frame_of, seen, world_of};
ghost use Rattle.changed_rows.specs.Changed.{StandsAt, assigned_in, put_named, stored_in, updated_in};

use crate::columns::{NO_SUCH_COLUMN, none_missing, put_at};
use crate::executor::Executor;
use crate::firing::{after, before_update};
use crate::standing::store_update;
use crate::table::ChangedTable;
use sharing::Shared;
use sql_evaluation::exec_state::Stage;
use sql_evaluation::{Views, place_of, seeing};
use sql_tree::{Cause, ColumnSet};
use std::alloc::Global;
use val_types::{Bytes, Duplicate, List, Row, SqlRefusal, TableDef, Value};

/// Updates a row of a table: the assignments left to right, each of which sees the row as the earlier ones left it, BEFORE
/// UPDATE, NOT NULL, the row, AFTER UPDATE. Gives 1 where that is a change, else 0.
///
/// 1054 for a column that is not there; 30002, 1264 or 1406 for a value that does not fit; 1048 for a NULL in a NOT NULL
/// column; 1032 where the old row does not stand there; 1062 where a key of the new one is that of a third; and what
/// evaluation and the triggers refuse.
#[tactic(auto, using(crate::proofs::Places::standing, crate::proofs::Updates::updates))]
pub fn update_row<E: Executor>(
    table: &ChangedTable<'_, E>,
    stage: &mut Stage,
    sets: &List<ColumnSet>,
    old: &Shared<Row>,
) -> Result<u64, SqlRefusal>
    requires serves { E.serves table.now.executor.now (world_of table.now.around.now).below }
    requires stands { StandsAt table.now.at table.now.definition.now stage.old }
    ensures gives { EndsAs result (scene_of stage.new) (updated_in table.now.around.now table.now.definition.now (view_sets sets.now) old.now (scene_of stage.old)) }
    ensures one { IfOk result (λ count. count ≤ 1) }
    ensures leads { LeadsOn stage.old stage.new }
{
    let assigned = assigned_row(table, stage, sets, old)?;
    let left = before_update(table, stage, assigned, old)?;
    store_left(table, stage, old, &left)
}

/// A copy of a row with a value put into the column of a name: 1054 where there is none, or why the value does not fit.
#[tactic(auto, using(crate::proofs::Updates::naming))]
fn put_named(
    alloc: Global,
    definition: &Shared<TableDef>,
    row: &Shared<Row>,
    column: &Bytes,
    value: Value,
) -> Result<Shared<Row>, SqlRefusal>
    ensures { Anywhere result (put_named definition.now row.now column.now value) }
{
    let Some(place) = place_of(definition.get(), column) else {
        return Err(SqlRefusal::Sql(NO_SUCH_COLUMN));
    };
    let row = put_at(definition.get(), row.get().duplicate(alloc)?, place, value)?;
    Ok(Shared::new(alloc, row)?)
}

/// The row as an assignment leaves it, whose value sees the row as it is.
#[tactic(auto, using(crate::proofs::Places::standing))]
fn assign_column<E: Executor>(
    table: &ChangedTable<'_, E>,
    stage: &mut Stage,
    views: &Views,
    row: &Shared<Row>,
    set: &ColumnSet,
) -> Result<Shared<Row>, SqlRefusal>
    requires serves { E.serves table.now.executor.now (world_of table.now.around.now).below }
    requires shown { views.now ≡ seen table.now.definition.now row.now [] }
    ensures gives { EndsAs result (scene_of stage.new) (assign_column (world_of table.now.around.now) (frame_of table.now.around.now []) table.now.definition.now row.now (view_set set.now) (scene_of stage.old)) }
    ensures leads { LeadsOn stage.old stage.new }
{
    let value = table
        .executor
        .value(table.around, stage, &set.value, views)?;
    put_named(table.alloc, table.definition, row, &set.column, value)
}

/// The row as the assignments leave it.
#[tactic(auto, using(crate::proofs::Places::standing, crate::proofs::Updates::assignments))]
fn assigned_row<E: Executor>(
    table: &ChangedTable<'_, E>,
    stage: &mut Stage,
    sets: &List<ColumnSet>,
    old: &Shared<Row>,
) -> Result<Shared<Row>, SqlRefusal>
    requires serves { E.serves table.now.executor.now (world_of table.now.around.now).below }
    ensures gives { EndsAs result (scene_of stage.new) (assigned_in table.now.around.now table.now.definition.now (view_sets sets.now) old.now (scene_of stage.old)) }
    ensures leads { LeadsOn stage.old stage.new }
{
    let mut row = old.share()?;
    let outer = Views::new(table.alloc);
    let mut inner = seeing(table.alloc, table.definition, &outer)?;
    for set in sets.as_slice() {
        inner.see(row.share()?);
        row = assign_column(table, stage, &inner, &row, set)?;
    }
    Ok(row)
}

/// NOT NULL, the row, AFTER UPDATE.
#[tactic(auto, using(crate::proofs::Places::standing, crate::proofs::Updates::storing))]
fn store_left<E: Executor>(
    table: &ChangedTable<'_, E>,
    stage: &mut Stage,
    old: &Shared<Row>,
    left: &Shared<Row>,
) -> Result<u64, SqlRefusal>
    requires serves { E.serves table.now.executor.now (world_of table.now.around.now).below }
    requires stands { StandsAt table.now.at table.now.definition.now stage.old }
    ensures gives { EndsAs result (scene_of stage.new) (stored_in table.now.around.now table.now.definition.now old.now left.now (scene_of stage.old)) }
    ensures one { IfOk result (λ count. count ≤ 1) }
    ensures leads { LeadsOn stage.old stage.new }
{
    none_missing(table.definition.get(), left.get(), None)?;
    let count = store_update(stage, table.at, table.definition, old, left)?;
    after(table, stage, Cause::Update, Some(left.get()), Some(old))?;
    Ok(count)
}
