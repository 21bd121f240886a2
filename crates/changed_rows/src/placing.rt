//! A row put into its table, and what is done with those in its way.
#![tactic(auto, using(crate::proofs::Places::standing, crate::proofs::Inserts::placing))]

ghost use Rattle.std.specs.Prelude.{◌≡◌, ◌≤◌, ◌+◌, ◌*◌, [], IfOk, IfSome};
ghost use Rattle.table_rules.specs.Stored.{has_key_in_way, key_tests};
ghost use Rattle.sql_tree.specs.StatementView.{view_sets};
ghost use Rattle.sql_evaluation.specs.sql_meaning.Changing.{clear_way, replacing, update_row, updating};
ghost use Rattle.sql_evaluation.specs.exec_state.Stage.{EndsAs, EndsAsBy, LeadsOn, scene_of};
ghost use Rattle.sql_evaluation.specs.Seen.{world_of};
ghost use Rattle.changed_rows.specs.Changed.{StandsAt, frame_behind, inserting_of, manner_of};
ghost use Rattle.changed_rows.specs.Inserted.{IsBehind, InWay, cleared_by, counted_of, placed_in, put_row_in};

use crate::counting::Counted;
use crate::deleting::delete_row;
use crate::executor::Executor;
use crate::firing::after;
use crate::inserting::{Inserting, Manner};
use crate::looking::{is_in_way, row_met, row_on_key};
use crate::standing::put_in;
use crate::table::ChangedTable;
use crate::updating::update_row;
use sharing::Shared;
use sql_evaluation::exec_state::Stage;
use sql_evaluation::{Around, View};
use sql_tree::{Cause, ColumnSet};
use std::alloc::Global;
use val_types::{List, NoMemory, Row, SqlError, SqlRefusal, TableDef};

/// A key of the row is that of another.
const DUPLICATE_KEY: SqlError = 1062;

/// The row put in, and its AFTER trigger.
fn put_row<E: Executor>(
    table: &ChangedTable<'_, E>,
    stage: &mut Stage,
    counted: Counted,
    affected: u64,
    last_id: Option<i64>,
) -> Result<Inserting, SqlRefusal>
    requires serves { E.serves table.now.executor.now (world_of table.now.around.now).below }
    requires stands { StandsAt table.now.at table.now.definition.now stage.old }
    ensures gives { EndsAsBy inserting_of result (scene_of stage.new) (put_row_in table.now.around.now table.now.definition.now (counted_of counted) affected last_id (scene_of stage.old)) }
    ensures leads { LeadsOn stage.old stage.new }
{
    let Counted {
        row,
        sequence,
        generated,
    } = counted;
    let Some(affected) = affected.checked_add(1) else {
        return Err(SqlRefusal::NoMemory);
    };
    let row = Shared::new(table.alloc, row)?;
    put_in(stage, table.at, table.definition, row.share()?)?;
    after(table, stage, Cause::Insert, Some(row.get()), None)?;
    Ok(Inserting {
        sequence,
        affected,
        last_id: last_id.or(generated),
    })
}

/// Deletes the first row that has the key of a number in common with a row; gives 1 where there is one, else 0.
fn clear_key<E: Executor>(
    table: &ChangedTable<'_, E>,
    stage: &mut Stage,
    row: &Row,
    which: usize,
) -> Result<u64, SqlRefusal>
    requires serves { E.serves table.now.executor.now (world_of table.now.around.now).below }
    requires stands { StandsAt table.now.at table.now.definition.now stage.old }
    ensures gives { EndsAs result (scene_of stage.new) (cleared_by table.now.around.now table.now.definition.now (has_key_in_way table.now.definition.now row.now which) (scene_of stage.old)) }
    ensures one { IfOk result (λ count. count ≤ 1) }
    ensures leads { LeadsOn stage.old stage.new }
{
    match row_on_key(table.alloc, stage, table.at, table.definition, row, which)? {
        Some(found) => {
            delete_row(table, stage, &found)?;
            Ok(1)
        }
        None => Ok(0),
    }
}

/// Deletes, for each key of a row in turn, the row that has it; gives how many they are.
#[tactic(auto, using(crate::proofs::Places::standing, crate::proofs::Inserts::clearing))]
fn clear_way<E: Executor>(
    table: &ChangedTable<'_, E>,
    stage: &mut Stage,
    row: &Row,
) -> Result<u64, SqlRefusal>
    requires serves { E.serves table.now.executor.now (world_of table.now.around.now).below }
    requires stands { StandsAt table.now.at table.now.definition.now stage.old }
    ensures gives { EndsAs result (scene_of stage.new) (clear_way (world_of table.now.around.now) table.now.definition.now (key_tests table.now.definition.now row.now) (scene_of stage.old)) }
    ensures leads { LeadsOn stage.old stage.new }
{
    let mut deleted: u64 = 0;
    let Some(keys) = table.definition.get().uniques.len().checked_add(1) else {
        return Err(SqlRefusal::NoMemory);
    };
    for which in 0..keys {
        let more = clear_key(table, stage, row, which)?;
        deleted += more;
    }
    Ok(deleted)
}

/// REPLACE: the rows in the way are deleted, and the row is put in.
fn replace<E: Executor>(
    table: &ChangedTable<'_, E>,
    stage: &mut Stage,
    counted: Counted,
    affected: u64,
    last_id: Option<i64>,
) -> Result<Inserting, SqlRefusal>
    requires serves { E.serves table.now.executor.now (world_of table.now.around.now).below }
    requires stands { StandsAt table.now.at table.now.definition.now stage.old }
    requires in_way { InWay table.now.definition.now counted.row (scene_of stage.old) }
    ensures gives { EndsAsBy inserting_of result (scene_of stage.new) (placed_in table.now.around.now table.now.definition.now replacing (counted_of counted) affected last_id (scene_of stage.old)) }
    ensures leads { LeadsOn stage.old stage.new }
{
    let deleted = clear_way(table, stage, &counted.row)?;
    let Some(affected) = affected.checked_add(deleted) else {
        return Err(SqlRefusal::NoMemory);
    };
    put_row(table, stage, counted, affected, last_id)
}

/// What is round the assignments behind ON DUPLICATE KEY UPDATE: the row that was to be inserted too.
#[tactic(auto, using(crate::proofs::Inserts::is_behind))]
fn behind<'a>(around: &Around<'a>, row: &'a View) -> Around<'a>
    ensures { IsBehind result around.now row.now }
{
    Around {
        catalog: around.catalog,
        context: around.context,
        uuid: around.uuid,
        nesting: around.nesting,
        running: around.running,
        locals: around.locals,
        new_row: around.new_row,
        old_row: around.old_row,
        inserted: Some(row),
    }
}

/// Updates a row behind ON DUPLICATE KEY UPDATE.
#[tactic(auto, using(crate::proofs::Places::standing, crate::proofs::Inserts::seen_behind))]
fn update_behind<'x, E: Executor>(
    table: &ChangedTable<'x, E>,
    inserted: &'x View,
    stage: &mut Stage,
    sets: &List<ColumnSet>,
    old: &Shared<Row>,
) -> Result<u64, SqlRefusal>
    requires serves { E.serves table.now.executor.now (world_of table.now.around.now).below }
    requires stands { StandsAt table.now.at table.now.definition.now stage.old }
    ensures gives { EndsAs result (scene_of stage.new) (update_row (world_of table.now.around.now) (frame_behind table.now.around.now inserted.now []) table.now.definition.now (view_sets sets.now) old.now (scene_of stage.old)) }
    ensures leads { LeadsOn stage.old stage.new }
{
    let inner = behind(table.around, inserted);
    let table = ChangedTable {
        alloc: table.alloc,
        executor: table.executor,
        around: &inner,
        at: table.at,
        definition: table.definition,
    };
    update_row(&table, stage, sets, old)
}

/// The same with a row that is seen for that time alone.
fn update_seeing<E: Executor>(
    table: &ChangedTable<'_, E>,
    inserted: &View,
    stage: &mut Stage,
    sets: &List<ColumnSet>,
    old: &Shared<Row>,
) -> Result<u64, SqlRefusal>
    requires serves { E.serves table.now.executor.now (world_of table.now.around.now).below }
    requires stands { StandsAt table.now.at table.now.definition.now stage.old }
    ensures gives { EndsAs result (scene_of stage.new) (update_row (world_of table.now.around.now) (frame_behind table.now.around.now inserted.now []) table.now.definition.now (view_sets sets.now) old.now (scene_of stage.old)) }
    ensures leads { LeadsOn stage.old stage.new }
{
    update_behind(table, inserted, stage, sets, old)
}

/// A row as it is seen.
fn seen_as(alloc: Global, definition: &Shared<TableDef>, row: Row) -> Result<View, NoMemory>
    ensures { IfOk result (λ v. v ≡ record { definition = definition.now; row = row }) }
{
    Ok(View {
        definition: definition.share()?,
        row: Shared::new(alloc, row)?,
    })
}

/// ON DUPLICATE KEY UPDATE: the first row in the way is updated, which counts 2, or 0 where it stays as it is.
fn update_other<E: Executor>(
    table: &ChangedTable<'_, E>,
    stage: &mut Stage,
    sets: &List<ColumnSet>,
    counted: Counted,
    affected: u64,
    last_id: Option<i64>,
) -> Result<Inserting, SqlRefusal>
    requires serves { E.serves table.now.executor.now (world_of table.now.around.now).below }
    requires stands { StandsAt table.now.at table.now.definition.now stage.old }
    requires in_way { InWay table.now.definition.now counted.row (scene_of stage.old) }
    ensures gives { EndsAsBy inserting_of result (scene_of stage.new) (placed_in table.now.around.now table.now.definition.now (updating (view_sets sets.now)) (counted_of counted) affected last_id (scene_of stage.old)) }
    ensures leads { LeadsOn stage.old stage.new }
{
    let other = row_met(table.alloc, stage, table.at, table.definition, &counted.row)?;
    let Counted {
        row,
        sequence,
        generated: _,
    } = counted;
    let inserted = seen_as(table.alloc, table.definition, row)?;
    let count = update_seeing(table, &inserted, stage, sets, &other)?;
    let Some(affected) = with_twice(affected, count) else {
        return Err(SqlRefusal::NoMemory);
    };
    Ok(Inserting {
        sequence,
        affected,
        last_id,
    })
}

/// A count with twice another, None past 64 bits.
fn with_twice(affected: u64, count: u64) -> Option<u64>
    ensures { IfSome result (λ sum. sum ≡ affected + 2 * count) }
{
    affected.checked_add(count.checked_mul(2)?)
}

/// What is done where a row has a key in the way.
fn settle<E: Executor>(
    table: &ChangedTable<'_, E>,
    manner: Manner<'_>,
    stage: &mut Stage,
    counted: Counted,
    affected: u64,
    last_id: Option<i64>,
) -> Result<Inserting, SqlRefusal>
    requires serves { E.serves table.now.executor.now (world_of table.now.around.now).below }
    requires stands { StandsAt table.now.at table.now.definition.now stage.old }
    requires in_way { InWay table.now.definition.now counted.row (scene_of stage.old) }
    ensures gives { EndsAsBy inserting_of result (scene_of stage.new) (placed_in table.now.around.now table.now.definition.now (manner_of manner.entry) (counted_of counted) affected last_id (scene_of stage.old)) }
    ensures leads { LeadsOn stage.old stage.new }
{
    match manner {
        Manner::Refusing => Err(SqlRefusal::Sql(DUPLICATE_KEY)),
        Manner::Ignoring => Ok(Inserting {
            sequence: counted.sequence,
            affected,
            last_id,
        }),
        Manner::Replacing => replace(table, stage, counted, affected, last_id),
        Manner::Updating(sets) => update_other(table, stage, sets, counted, affected, last_id),
    }
}

/// The row put in, or what the manner says of the first row in its way.
pub(crate) fn place_row<E: Executor>(
    table: &ChangedTable<'_, E>,
    manner: Manner<'_>,
    stage: &mut Stage,
    counted: Counted,
    affected: u64,
    last_id: Option<i64>,
) -> Result<Inserting, SqlRefusal>
    requires serves { E.serves table.now.executor.now (world_of table.now.around.now).below }
    requires stands { StandsAt table.now.at table.now.definition.now stage.old }
    ensures gives { EndsAsBy inserting_of result (scene_of stage.new) (placed_in table.now.around.now table.now.definition.now (manner_of manner.entry) (counted_of counted) affected last_id (scene_of stage.old)) }
    ensures leads { LeadsOn stage.old stage.new }
{
    if is_in_way(stage, table.at, table.definition, &counted.row) {
        return settle(table, manner, stage, counted, affected, last_id);
    }
    put_row(table, stage, counted, affected, last_id)
}
