//! Statements whose errors take back what they did.
ghost use Rattle.std.specs.Prelude.{[], OnErr};
ghost use Rattle.sql_tree.specs.View.{view_trees};
ghost use Rattle.sql_tree.specs.StatementView.{view};
ghost use Rattle.statement_names.specs.sql_meaning.Scenes.{undone};
ghost use Rattle.statement_names.specs.sql_meaning.Running.{perform};
ghost use Rattle.exec_state.specs.Stage.{EndsAs, EndsAsBy, LeadsOn, scene_of};
ghost use Rattle.stored_programs.specs.sql_evaluation.Seen.{frame_of, values_in, world_of};
ghost use Rattle.stored_programs.specs.sql_statements.Did.{did_of};
ghost use Rattle.stage_undo.specs.Back.{IsBack};

use crate::programs::{evaluated, performed};
use exec_state::Stage;
use sql_tree::{Expr, Stmt};
use stage_undo::take_back_at_error;
use std::alloc::Global;
use stored_programs::sql_evaluation::Around;
use stored_programs::sql_statements::Did;
use val_types::{List, SqlRefusal, Value};

/// Does a statement; an error takes its changes back.
#[tactic(auto, using(crate::proofs::Undone::undoing))]
pub(crate) fn undo_failed(
    alloc: Global,
    around: &Around<'_>,
    forced: Option<i64>,
    stage: &mut Stage,
    statement: &Stmt,
) -> Result<Did, SqlRefusal>
    ensures gives { EndsAsBy did_of result (scene_of stage.new) (undone (perform (world_of around.now) (frame_of around.now []) forced (view statement.now)) (scene_of stage.old)) }
    ensures leads { LeadsOn stage.old stage.new }
    ensures back { OnErr result (IsBack stage.old stage.new) }
{
    let mark = stage.undo.mark();
    let done = performed(alloc, around, forced, stage, statement);
    take_back_at_error(stage, mark, &done);
    done
}

/// The values of expressions; an error takes back what functions changed.
#[tactic(auto, using(crate::proofs::Undone::undoing))]
pub(crate) fn undo_unknown(
    alloc: Global,
    around: &Around<'_>,
    stage: &mut Stage,
    expressions: &List<Expr>,
) -> Result<List<Value>, SqlRefusal>
    ensures gives { EndsAs result (scene_of stage.new) (undone (values_in around.now [] (view_trees expressions.now)) (scene_of stage.old)) }
    ensures leads { LeadsOn stage.old stage.new }
    ensures back { OnErr result (IsBack stage.old stage.new) }
{
    let mark = stage.undo.mark();
    let done = evaluated(alloc, around, stage, expressions);
    take_back_at_error(stage, mark, &done);
    done
}
