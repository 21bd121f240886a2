//! The triggers of a table, before and after a row is changed.
ghost use Rattle.std.specs.Prelude.{None, Some};
ghost use Rattle.std.specs.Option.{option_copied};
ghost use Rattle.sql_tree.specs.declared.statements.Cause.TheVariants as causes;
ghost use Rattle.sql_evaluation.specs.sql_meaning.Changing.{after_row, before_row};
ghost use Rattle.sql_evaluation.specs.exec_state.Stage.{EndsAs, EndsAsBy, LeadsOn, scene_of};
ghost use Rattle.sql_evaluation.specs.Seen.{world_of};
ghost use Rattle.changed_rows.specs.Changed.{left_in};
ghost use Rattle.changed_rows.specs.Firing.{left_of};

use crate::executor::Executor;
use crate::table::ChangedTable;
use sharing::Shared;
use sql_evaluation::exec_state::Stage;
use sql_tree::{Cause, Time};
use val_types::{Row, SqlRefusal};

/// BEFORE: the row that is left to be stored, None where it is as it was given.
pub(crate) fn before<E: Executor>(
    table: &ChangedTable<'_, E>,
    stage: &mut Stage,
    event: Cause,
    new: Option<&Row>,
    old: Option<&Shared<Row>>,
) -> Result<Option<Row>, SqlRefusal>
    requires serves { E.serves table.now.executor.now (world_of table.now.around.now).below }
    ensures gives { EndsAsBy (left_of (option_copied new.entry)) result (scene_of stage.new)
        (before_row (world_of table.now.around.now) event table.now.definition.now (option_copied new.entry) (option_copied old.entry) (scene_of stage.old)) }
    ensures leads { LeadsOn stage.old stage.new }
{
    table.executor.fire(
        table.around,
        stage,
        Time::Before,
        event,
        table.definition,
        new,
        old,
    )
}

/// AFTER.
pub(crate) fn after<E: Executor>(
    table: &ChangedTable<'_, E>,
    stage: &mut Stage,
    event: Cause,
    new: Option<&Row>,
    old: Option<&Shared<Row>>,
) -> Result<(), SqlRefusal>
    requires serves { E.serves table.now.executor.now (world_of table.now.around.now).below }
    ensures gives { EndsAs result (scene_of stage.new)
        (after_row (world_of table.now.around.now) event table.now.definition.now (option_copied new.entry) (option_copied old.entry) (scene_of stage.old)) }
    ensures leads { LeadsOn stage.old stage.new }
{
    table.executor.fire(
        table.around,
        stage,
        Time::After,
        event,
        table.definition,
        new,
        old,
    )?;
    Ok(())
}

/// The row that BEFORE INSERT leaves.
pub(crate) fn before_insert<E: Executor>(
    table: &ChangedTable<'_, E>,
    stage: &mut Stage,
    row: Row,
) -> Result<Row, SqlRefusal>
    requires serves { E.serves table.now.executor.now (world_of table.now.around.now).below }
    ensures gives { EndsAs result (scene_of stage.new) (left_in table.now.around.now causes.Insert table.now.definition.now row None (scene_of stage.old)) }
    ensures leads { LeadsOn stage.old stage.new }
{
    match before(table, stage, Cause::Insert, Some(&row), None)? {
        Some(left) => Ok(left),
        None => Ok(row),
    }
}

/// The row that BEFORE UPDATE leaves.
pub(crate) fn before_update<E: Executor>(
    table: &ChangedTable<'_, E>,
    stage: &mut Stage,
    row: Shared<Row>,
    old: &Shared<Row>,
) -> Result<Shared<Row>, SqlRefusal>
    requires serves { E.serves table.now.executor.now (world_of table.now.around.now).below }
    ensures gives { EndsAs result (scene_of stage.new) (left_in table.now.around.now causes.Update table.now.definition.now row (Some old.now) (scene_of stage.old)) }
    ensures leads { LeadsOn stage.old stage.new }
{
    match before(table, stage, Cause::Update, Some(row.get()), Some(old))? {
        Some(left) => Ok(Shared::new(table.alloc, left)?),
        None => Ok(row),
    }
}
