//! Calls of functions and events of rows, one program inside the other.
ghost use Rattle.std.specs.Prelude.{◌≡◌, ◌<◌, ◌-◌};
ghost use Rattle.std.specs.Option.{option_copied};
ghost use Rattle.sql_tree.specs.StatementView.{view_program, view_trigger};
ghost use Rattle.sql_statements.specs.sql_meaning.Running.{function_body, in_function};
ghost use Rattle.exec_state.specs.Stage.{EndsAs, EndsAsBy, LeadsOn, scene_of};
ghost use Rattle.sql_evaluation.specs.Seen.{running_of, setting_of, world_of};
ghost use Rattle.sql_statements.specs.changed_rows.Firing.{left_of};
ghost use Rattle.stored_programs.specs.Steps.{triggered_in};

use crate::programs::{function_body, trigger_body};
use exec_body_checks::is_called;
use exec_state::{Running, Stage};
use sharing::Shared;
use sql_evaluation::Around;
use sql_tree::{Cause, Routine, Time, TriggerDef};
use std::alloc::Global;
use val_types::{Bytes, List, Row, SqlError, SqlRefusal, TableDef, Value};

/// A name that is no function's.
const NO_SUCH_FUNCTION: SqlError = 1305;

/// Another number of arguments than the function has parameters.
const OTHER_COUNT: SqlError = 1318;

/// The function is under way already.
const CALLED_ALREADY: SqlError = 1424;

/// As many programs are running one inside the other as may be.
const NESTED_TOO_DEEP: SqlError = 30003;

/// A function inside what is under way.
#[tactic(auto, using(crate::proofs::Nesting::function_inside))]
fn inside<'a>(name: &'a Bytes, running: &'a Running<'a>) -> Running<'a>
    ensures { running_of result ≡ in_function name.now (running_of running.now) }
{
    Running::Function(name, running)
}

/// What is round a program one level of nesting further down, inside what is under way.
fn further_down<'a>(around: &Around<'a>, running: &'a Running<'a>) -> Around<'a>
    requires { 0 < around.now.nesting }
    ensures setting { setting_of result ≡ setting_of around.now }
    ensures nesting { result.nesting ≡ around.now.nesting - 1 }
    ensures running { running_of result.running.now ≡ running_of running.now }
{
    Around {
        nesting: around.nesting - 1,
        running,
        ..*around
    }
}

/// The body of a function, in what is round it: calls and events inside it are one level of nesting further down.
#[cycle(nesting)]
fn run_function(
    alloc: Global,
    around: &Around<'_>,
    stage: &mut Stage,
    routine: &Routine,
    arguments: List<Value>,
) -> Result<Value, SqlRefusal>
    ensures gives { EndsAs result (scene_of stage.new) (function_body (world_of around.now) (view_program routine.now) arguments (scene_of stage.old)) }
    ensures leads { LeadsOn stage.old stage.new }
{
    let run = |s: &mut Stage, running: &Running<'_>, name: &Bytes, values: List<Value>| -> Result<
        Value,
        SqlRefusal,
    >
        ensures gives { EndsAs result (scene_of s.new) ((world_of around.entry.now).below.call (running_of running.now) name.now values (scene_of s.old)) }
        ensures leads { LeadsOn s.old s.new }
    { call_function(alloc, around, s, running, name, values) };
    let fire = |s: &mut Stage, running: &Running<'_>, time: Time, event: Cause, definition: &Shared<
        TableDef,
    >, new: Option<&Row>, old: Option<&Shared<Row>>| -> Result<Option<Row>, SqlRefusal>
        ensures gives { EndsAsBy (left_of (option_copied new.entry)) result (scene_of s.new) ((world_of around.entry.now).below.fire (running_of running.now) time event definition.now (option_copied new.entry) (option_copied old.entry) (scene_of s.old)) }
        ensures leads { LeadsOn s.old s.new }
    { fire_trigger(alloc, around, s, running, time, event, definition, new, old) };
    function_body(alloc, &run, &fire, around, stage, routine, arguments)
}

/// A call of a function: 1305 where there is none, 1318 for another number of arguments, 1424 where it is under way
/// already, 30003 where it would be nested too deep; then its value, or the error of its body.
#[cycle(nesting)]
#[tactic(auto, using(crate::proofs::Nesting::calls, exec_state::proofs::Leading::leading))]
pub fn call_function(
    alloc: Global,
    around: &Around<'_>,
    stage: &mut Stage,
    running: &Running<'_>,
    name: &Bytes,
    arguments: List<Value>,
) -> Result<Value, SqlRefusal>
    ensures gives { EndsAs result (scene_of stage.new) ((world_of around.now).below.call (running_of running.now) name.now arguments (scene_of stage.old)) }
    ensures leads { LeadsOn stage.old stage.new }
{
    let Some(routine) = around.catalog.function(name) else {
        return Err(SqlRefusal::Sql(NO_SUCH_FUNCTION));
    };
    if routine.parameters.len() != arguments.len() {
        return Err(SqlRefusal::Sql(OTHER_COUNT));
    }
    if is_called(&*running, &*name) {
        return Err(SqlRefusal::Sql(CALLED_ALREADY));
    }
    if around.nesting == 0 {
        return Err(SqlRefusal::Sql(NESTED_TOO_DEEP));
    }
    let function = inside(&*name, &*running);
    let inner = further_down(&*around, &function);
    run_function(alloc, &inner, stage, routine, arguments)
}

/// The body of a trigger, likewise.
#[cycle(nesting)]
fn run_trigger(
    alloc: Global,
    around: &Around<'_>,
    stage: &mut Stage,
    definition: &Shared<TableDef>,
    new: Option<&Row>,
    old: Option<&Shared<Row>>,
    trigger: &TriggerDef,
) -> Result<Option<Row>, SqlRefusal>
    ensures gives { EndsAsBy (left_of (option_copied new.entry)) result (scene_of stage.new) (triggered_in around.now definition.now (option_copied new.entry) (option_copied old.entry) (view_trigger trigger.now) (scene_of stage.old)) }
    ensures leads { LeadsOn stage.old stage.new }
{
    let run = |s: &mut Stage, running: &Running<'_>, name: &Bytes, values: List<Value>| -> Result<
        Value,
        SqlRefusal,
    >
        ensures gives { EndsAs result (scene_of s.new) ((world_of around.entry.now).below.call (running_of running.now) name.now values (scene_of s.old)) }
        ensures leads { LeadsOn s.old s.new }
    { call_function(alloc, around, s, running, name, values) };
    let fire = |s: &mut Stage, running: &Running<'_>, time: Time, event: Cause, table: &Shared<
        TableDef,
    >, after: Option<&Row>, before: Option<&Shared<Row>>| -> Result<Option<Row>, SqlRefusal>
        ensures gives { EndsAsBy (left_of (option_copied after.entry)) result (scene_of s.new) ((world_of around.entry.now).below.fire (running_of running.now) time event table.now (option_copied after.entry) (option_copied before.entry) (scene_of s.old)) }
        ensures leads { LeadsOn s.old s.new }
    { fire_trigger(alloc, around, s, running, time, event, table, after, before) };
    trigger_body(
        alloc, &run, &fire, around, stage, definition, new, old, trigger,
    )
}

/// An event of a row of a table, before or after it: the row that its trigger leaves to be stored, None where it is as it
/// was given, as where there is no trigger; 30003 where the trigger would be nested too deep.
#[cycle(nesting)]
#[tactic(auto, using(crate::proofs::Nesting::events, exec_state::proofs::Leading::leading))]
pub fn fire_trigger(
    alloc: Global,
    around: &Around<'_>,
    stage: &mut Stage,
    running: &Running<'_>,
    time: Time,
    event: Cause,
    definition: &Shared<TableDef>,
    new: Option<&Row>,
    old: Option<&Shared<Row>>,
) -> Result<Option<Row>, SqlRefusal>
    ensures gives { EndsAsBy (left_of (option_copied new.entry)) result (scene_of stage.new) ((world_of around.now).below.fire (running_of running.now) time event definition.now (option_copied new.entry) (option_copied old.entry) (scene_of stage.old)) }
    ensures leads { LeadsOn stage.old stage.new }
{
    let Some(trigger) = around.catalog.trigger(&definition.get().name, time, event) else {
        return Ok(None);
    };
    if around.nesting == 0 {
        return Err(SqlRefusal::Sql(NESTED_TOO_DEEP));
    }
    let inner = further_down(&*around, &*running);
    run_trigger(alloc, &inner, stage, definition, new, old, trigger)
}
