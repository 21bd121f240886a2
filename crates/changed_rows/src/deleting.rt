//! One row deleted.
ghost use Rattle.sql_evaluation.specs.exec_state.Stage.{EndsAs, LeadsOn, scene_of};
ghost use Rattle.sql_evaluation.specs.Seen.{world_of};
ghost use Rattle.changed_rows.specs.Changed.{StandsAt, deleted_in};

use crate::executor::Executor;
use crate::firing::{after, before};
use crate::standing::take_out;
use crate::table::ChangedTable;
use sharing::Shared;
use sql_evaluation::exec_state::Stage;
use sql_tree::Cause;
use val_types::{Row, SqlRefusal};

/// Deletes a row of a table: BEFORE DELETE, the row taken out, AFTER DELETE. 1032 where the row does not stand there; and
/// what the triggers refuse.
#[tactic(auto, using(crate::proofs::Places::standing))]
pub fn delete_row<E: Executor>(
    table: &ChangedTable<'_, E>,
    stage: &mut Stage,
    row: &Shared<Row>,
) -> Result<(), SqlRefusal>
    requires serves { E.serves table.now.executor.now (world_of table.now.around.now).below }
    requires stands { StandsAt table.now.at table.now.definition.now stage.old }
    ensures gives { EndsAs result (scene_of stage.new) (deleted_in table.now.around.now table.now.definition.now row.now (scene_of stage.old)) }
    ensures leads { LeadsOn stage.old stage.new }
{
    before(table, stage, Cause::Delete, None, Some(row))?;
    take_out(stage, table.at, table.definition, row)?;
    after(table, stage, Cause::Delete, None, Some(row))
}
