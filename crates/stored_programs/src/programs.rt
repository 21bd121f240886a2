//! Whole bodies of functions and triggers.
ghost use Rattle.std.specs.Prelude.{◌≡◌, true, is_some, IfOk, List, Option};
ghost use Rattle.std.specs.Option.{option_copied};
ghost use Rattle.val_types.specs.declared.value.Value.{Value as SqlValue};
ghost use Rattle.sql_tree.specs.StatementView.{view_program, view_trigger};
ghost use Rattle.sql_statements.specs.sql_meaning.Running.{fitted_result, function_body, local_for};
ghost use Rattle.exec_state.specs.Stage.{EndsAs, EndsAsBy, LeadsOn, scene_of};
ghost use Rattle.sql_evaluation.specs.Seen.{Anywhere, Calls, CallsLead, world_of};
ghost use Rattle.sql_statements.specs.changed_rows.Firing.{Fires, FiresLead, left_of};
ghost use Rattle.stored_programs.specs.Bodies.{view_in};
ghost use Rattle.stored_programs.specs.Steps.{locals_for, row_of_view, triggered_in};

use crate::body::{Body, fit, given_row, old_row, take_first, written_type};
use crate::steps::step;
use exec_state::{Running, Stage};
use sharing::Shared;
use sql_evaluation::{Around, View};
use sql_locals::{Local, Locals};
use sql_tree::{Cause, Parameter, Routine, SqlType, Time, TriggerDef};
use std::alloc::Global;
use val_types::{
    Bytes, Duplicate, List, NoMemory, Row, SqlError, SqlRefusal, TableDef, Value, key_cmp,
};

/// A function ended without RETURN.
const NO_RETURN: SqlError = 1321;

/// A parameter with the value of its argument, fitted to its type.
#[tactic(auto, using(crate::proofs::Calling::parameters))]
fn local_for(alloc: Global, parameter: &Parameter, value: Value) -> Result<Local, SqlRefusal>
    ensures { Anywhere result (local_for (parameter.now, value)) }
{
    let kind = written_type(parameter.kind)?;
    let value = fit(kind, value)?;
    let name = parameter.name.duplicate(alloc)?;
    Ok(Local { name, kind, value })
}

/// The parameters with the values of their arguments.
#[tactic(auto, using(crate::proofs::Calling::all_parameters))]
fn locals_for(
    alloc: Global,
    parameters: &List<Parameter>,
    mut arguments: List<Value>,
) -> Result<Locals, SqlRefusal>
    ensures { Anywhere result (locals_for parameters.now arguments) }
{
    let mut locals = Locals::new(alloc);
    for parameter in parameters.as_slice() {
        let Some(value) = take_first(&mut arguments) else {
            return Ok(locals);
        };
        locals.push(local_for(alloc, parameter, value)?)?;
    }
    Ok(locals)
}

/// What a function returns, fitted to the type of its result.
#[tactic(auto, using(crate::proofs::Calling::results))]
fn fit_result(returns: Option<SqlType>, value: Value) -> Result<Value, SqlRefusal>
    ensures { Anywhere result (fitted_result returns value) }
{
    match returns {
        None => Ok(value),
        Some(kind) => fit(written_type(kind)?, value),
    }
}

/// The body of a function, with the values of its arguments: its value.
#[tactic(auto, using(crate::proofs::Calling::functions, exec_state::proofs::Leading::leading))]
pub(crate) fn function_body<
    F: Fn(&mut Stage, &Running<'_>, &Bytes, List<Value>) -> Result<Value, SqlRefusal>,
    T: Fn(
        &mut Stage,
        &Running<'_>,
        Time,
        Cause,
        &Shared<TableDef>,
        Option<&Row>,
        Option<&Shared<Row>>,
    ) -> Result<Option<Row>, SqlRefusal>,
>(
    alloc: Global,
    run: &F,
    fire: &T,
    around: &Around<'_>,
    stage: &mut Stage,
    routine: &Routine,
    arguments: List<Value>,
) -> Result<Value, SqlRefusal>
    requires calls { F.IsAlwaysCallable run.now }
    requires called { Calls (F.post run.now) around.now }
    requires call_leads { CallsLead (F.post run.now) }
    requires fires { T.IsAlwaysCallable fire.now }
    requires fired { Fires (T.post fire.now) around.now }
    requires fire_leads { FiresLead (T.post fire.now) }
    ensures gives { EndsAs result (scene_of stage.new) (function_body (world_of around.now) (view_program routine.now) arguments (scene_of stage.old)) }
    ensures leads { LeadsOn stage.old stage.new }
{
    let mut body = Body {
        locals: locals_for(alloc, &routine.parameters, arguments)?,
        new_row: None,
        old_row: None,
    };
    match step(alloc, run, fire, around, stage, &mut body, &routine.body)? {
        Some(value) => fit_result(routine.returns, value),
        None => Err(SqlRefusal::Sql(NO_RETURN)),
    }
}

/// Whether two rows are the same.
fn is_same(a: &Row, b: &Row) -> bool
    ensures { result ≡ true → a.now ≡ b.now }
{
    key_cmp(a, b).is_eq()
}

/// The row that a trigger leaves, None where it is the one that it was given.
#[tactic(auto, using(crate::proofs::Calling::leaving))]
fn left(alloc: Global, given: Option<&Row>, left: &Option<View>) -> Result<Option<Row>, NoMemory>
    requires { is_some left.now ≡ is_some given }
    ensures { IfOk result (λ row. left_of (option_copied given.entry) row ≡ row_of_view (view_in left.now)) }
{
    match (given, left) {
        (None, None) => Ok(None),
        (Some(given), Some(view)) => {
            if is_same(given, view.row.get()) {
                Ok(None)
            } else {
                Ok(Some(view.row.get().duplicate(alloc)?))
            }
        }
        (None, Some(_)) => unreachable!(),
        (Some(_), None) => unreachable!(),
    }
}

/// The body of a trigger on an event of a row: the row that is left to be stored, None where it is as it was given.
#[tactic(auto, using(crate::proofs::Calling::triggers, exec_state::proofs::Leading::leading))]
pub(crate) fn trigger_body<
    F: Fn(&mut Stage, &Running<'_>, &Bytes, List<Value>) -> Result<Value, SqlRefusal>,
    T: Fn(
        &mut Stage,
        &Running<'_>,
        Time,
        Cause,
        &Shared<TableDef>,
        Option<&Row>,
        Option<&Shared<Row>>,
    ) -> Result<Option<Row>, SqlRefusal>,
>(
    alloc: Global,
    run: &F,
    fire: &T,
    around: &Around<'_>,
    stage: &mut Stage,
    definition: &Shared<TableDef>,
    new: Option<&Row>,
    old: Option<&Shared<Row>>,
    trigger: &TriggerDef,
) -> Result<Option<Row>, SqlRefusal>
    requires calls { F.IsAlwaysCallable run.now }
    requires called { Calls (F.post run.now) around.now }
    requires call_leads { CallsLead (F.post run.now) }
    requires fires { T.IsAlwaysCallable fire.now }
    requires fired { Fires (T.post fire.now) around.now }
    requires fire_leads { FiresLead (T.post fire.now) }
    ensures gives { EndsAsBy (left_of (option_copied new.entry)) result (scene_of stage.new) (triggered_in around.now definition.now (option_copied new.entry) (option_copied old.entry) (view_trigger trigger.now) (scene_of stage.old)) }
    ensures leads { LeadsOn stage.old stage.new }
{
    let mut body = Body {
        locals: Locals::new(alloc),
        new_row: given_row(alloc, definition, new)?,
        old_row: old_row(definition, old)?,
    };
    step(alloc, run, fire, around, stage, &mut body, &trigger.body)?;
    Ok(left(alloc, new, &body.new_row)?)
}
