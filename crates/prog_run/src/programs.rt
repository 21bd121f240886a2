//! Statements and expressions with the stored programs that they reach.
ghost use Rattle.std.specs.Prelude.{[]};
ghost use Rattle.std.specs.Option.{option_copied};
ghost use Rattle.sql_tree.specs.View.{view_tree, view_trees};
ghost use Rattle.sql_tree.specs.StatementView.{view};
ghost use Rattle.statement_names.specs.sql_meaning.Running.{perform};
ghost use Rattle.exec_state.specs.Stage.{EndsAs, EndsAsBy, LeadsOn, scene_of};
ghost use Rattle.stored_programs.specs.sql_evaluation.Seen.{Calls, CallsLead, frame_of, running_of, value_in, values_in, world_of};
ghost use Rattle.stored_programs.specs.changed_rows.Firing.{left_of};
ghost use Rattle.stored_programs.specs.sql_statements.Did.{did_of};

use exec_state::{Running, Stage};
use sharing::Shared;
use sql_tree::{Cause, Expr, Stmt, Time};
use std::alloc::Global;
use stored_programs::sql_evaluation::{Around, Views, value, values};
use stored_programs::sql_statements::{Did, perform};
use stored_programs::{call_function, fire_trigger};
use val_types::{Bytes, List, Row, SqlRefusal, TableDef, Value};

/// More levels than a statement has that was read.
const LEVELS: u16 = 400;

/// Does a statement.
pub(crate) fn performed(
    alloc: Global,
    around: &Around<'_>,
    forced: Option<i64>,
    stage: &mut Stage,
    statement: &Stmt,
) -> Result<Did, SqlRefusal>
    ensures gives { EndsAsBy did_of result (scene_of stage.new) (perform (world_of around.now) (frame_of around.now []) forced (view statement.now) (scene_of stage.old)) }
    ensures leads { LeadsOn stage.old stage.new }
{
    let run = |s: &mut Stage, running: &Running<'_>, name: &Bytes, arguments: List<
        Value,
    >| -> Result<Value, SqlRefusal>
        ensures gives { EndsAs result (scene_of s.new) ((world_of around.entry.now).below.call (running_of running.now) name.now arguments (scene_of s.old)) }
        ensures leads { LeadsOn s.old s.new }
    { call_function(alloc, around, s, running, name, arguments) };
    let fire = |s: &mut Stage, running: &Running<'_>, time: Time, event: Cause, definition: &Shared<
        TableDef,
    >, new: Option<&Row>, old: Option<&Shared<Row>>| -> Result<Option<Row>, SqlRefusal>
        ensures gives { EndsAsBy (left_of (option_copied new.entry)) result (scene_of s.new) ((world_of around.entry.now).below.fire (running_of running.now) time event definition.now (option_copied new.entry) (option_copied old.entry) (scene_of s.old)) }
        ensures leads { LeadsOn s.old s.new }
    { fire_trigger(alloc, around, s, running, time, event, definition, new, old) };
    perform(alloc, &run, &fire, around, LEVELS, forced, stage, statement)
}

/// The values of expressions, where calls are handed in.
fn evaluated_by<F: Fn(&mut Stage, &Running<'_>, &Bytes, List<Value>) -> Result<Value, SqlRefusal>>(
    alloc: Global,
    run: &F,
    around: &Around<'_>,
    stage: &mut Stage,
    expressions: &List<Expr>,
) -> Result<List<Value>, SqlRefusal>
    requires calls { F.IsAlwaysCallable run.now }
    requires called { Calls (F.post run.now) around.now }
    requires call_leads { CallsLead (F.post run.now) }
    ensures gives { EndsAs result (scene_of stage.new) (values_in around.now [] (view_trees expressions.now) (scene_of stage.old)) }
    ensures leads { LeadsOn stage.old stage.new }
{
    let views = Views::new(alloc);
    let evaluate = |s: &mut Stage, e: &Expr, seen: &Views| -> Result<Value, SqlRefusal>
        requires calls { F.IsAlwaysCallable run.now }
        requires called { Calls (F.post run.now) around.now }
        requires call_leads { CallsLead (F.post run.now) }
        ensures gives { EndsAs result (scene_of s.new) (value_in around.entry.now seen.now (view_tree e.now) (scene_of s.old)) }
        ensures leads { LeadsOn s.old s.new }
    { value(alloc, run, around, LEVELS, s, e, seen) };
    values(alloc, &evaluate, around, stage, expressions, &views)
}

/// The values of expressions.
pub(crate) fn evaluated(
    alloc: Global,
    around: &Around<'_>,
    stage: &mut Stage,
    expressions: &List<Expr>,
) -> Result<List<Value>, SqlRefusal>
    ensures gives { EndsAs result (scene_of stage.new) (values_in around.now [] (view_trees expressions.now) (scene_of stage.old)) }
    ensures leads { LeadsOn stage.old stage.new }
{
    let run = |s: &mut Stage, running: &Running<'_>, name: &Bytes, arguments: List<
        Value,
    >| -> Result<Value, SqlRefusal>
        ensures gives { EndsAs result (scene_of s.new) ((world_of around.entry.now).below.call (running_of running.now) name.now arguments (scene_of s.old)) }
        ensures leads { LeadsOn s.old s.new }
    { call_function(alloc, around, s, running, name, arguments) };
    evaluated_by(alloc, &run, around, stage, expressions)
}
