//! Who evaluates the expressions of a change, and fires its triggers.
ghost use Rattle.std.specs.Option.{option_copied};
ghost use Rattle.sql_evaluation.specs.sql_meaning.Frames.{Below};
ghost use Rattle.sql_tree.specs.View.{view_tree};
ghost use Rattle.sql_evaluation.specs.exec_state.Stage.{EndsAs, EndsAsBy, LeadsOn, scene_of};
ghost use Rattle.sql_evaluation.specs.Seen.{value_in, world_of};
ghost use Rattle.changed_rows.specs.Firing.{left_of};

use sharing::Shared;
use sql_evaluation::exec_state::Stage;
use sql_evaluation::{Around, Views};
use sql_tree::{Cause, Expr, Time};
use val_types::{Row, SqlRefusal, TableDef, Value};

/// Evaluates the expressions of a change, and fires its triggers.
pub trait Executor {
    /// What the programs do for which it stands.
    ghost serves: { Self → Below → Type 0 };

    /// The value of an expression with the rows in view, in what is round it.
    fn value(
        &self,
        around: &Around<'_>,
        stage: &mut Stage,
        e: &Expr,
        views: &Views,
    ) -> Result<Value, SqlRefusal>
        requires serves { serves self.now (world_of around.now).below }
        ensures gives { EndsAs result (scene_of stage.new) (value_in around.now views.now (view_tree e.now) (scene_of stage.old)) }
        ensures leads { LeadsOn stage.old stage.new };

    /// An event of a row of a table, before or after it: the row that its trigger leaves to be stored, None where it is as it
    /// was given.
    fn fire(
        &self,
        around: &Around<'_>,
        stage: &mut Stage,
        time: Time,
        event: Cause,
        definition: &Shared<TableDef>,
        new: Option<&Row>,
        old: Option<&Shared<Row>>,
    ) -> Result<Option<Row>, SqlRefusal>
        requires serves { serves self.now (world_of around.now).below }
        ensures gives { EndsAsBy (left_of (option_copied new.entry)) result (scene_of stage.new)
            ((world_of around.now).below.fire (world_of around.now).running time event definition.now (option_copied new.entry) (option_copied old.entry) (scene_of stage.old)) }
        ensures leads { LeadsOn stage.old stage.new };
}
