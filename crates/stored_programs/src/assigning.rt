//! SET of locals and of NEW.
ghost use Rattle.std.specs.Prelude.{◌≡◌, slice_set};
ghost use Rattle.sql_tree.specs.Statement.{set_all};
ghost use Rattle.sql_tree.specs.StatementView.{view, view_assignments};
ghost use Rattle.sql_statements.specs.sql_meaning.Changing.{put_at};
ghost use Rattle.sql_statements.specs.sql_meaning.Running.{assign_local, assign_new, assign_one};
ghost use Rattle.exec_state.specs.Stage.{EndsAs, EndsAsBy, LeadsOn, scene_of};
ghost use Rattle.sql_evaluation.specs.Seen.{Anywhere, Calls, CallsLead};
ghost use Rattle.stored_programs.specs.Bodies.{AnywhereBy, body_of, body_then, ended_at, put_in_column, world_with};
ghost use Rattle.stored_programs.specs.Steps.{all_assigned, assigned_values, step_in, values_to_set};

use crate::body::{Body, fit, take_first};
use crate::evaluating::{check_statement_here, value_here, with_statement};
use exec_state::{Running, Stage};
use sharing::Shared;
use sql_evaluation::{Around, View, place_of};
use sql_tree::{Assignment, Stmt, Target};
use std::alloc::Global;
use val_types::{Bytes, Duplicate, List, Row, SqlError, SqlRefusal, TableDef, Value, type_fits};

/// No local of a name, or no NEW.
const NO_VARIABLE: SqlError = 1193;

/// A column that is not there.
const NO_SUCH_COLUMN: SqlError = 1054;

/// A body writes only locals and NEW.
const NOT_ALLOWED: SqlError = 30005;

/// Gives a local another value, fitted to its type.
#[tactic(auto, using(crate::proofs::Assigned::locals))]
fn assign_local(body: &mut Body, name: &Bytes, value: Value) -> Result<(), SqlRefusal>
    ensures { AnywhereBy (body_then body.new) result (assign_local (body_of body.old) name.now value) }
{
    let kind = match body.locals.find(name) {
        Some(local) => local.kind,
        None => return Err(SqlRefusal::Sql(NO_VARIABLE)),
    };
    let value = fit(kind, value)?;
    body.locals.assign(name, value);
    Ok(())
}

/// A row with a value in the place of another.
fn put(mut row: Row, place: usize, value: Value) -> Row
    ensures { result ≡ slice_set row place value }
{
    if place < row.len() {
        row.set(place, value);
    }
    row
}

/// A copy of a row with a value put at a place: 1054 where there is no column, or why the value does not fit.
#[tactic(auto, using(crate::proofs::Assigned::putting))]
fn with_value(
    alloc: Global,
    definition: &TableDef,
    row: &Row,
    place: usize,
    value: Value,
) -> Result<Row, SqlRefusal>
    ensures { Anywhere result (put_at definition.now row.now (place, value)) }
{
    let Some(column) = definition.columns.get(place) else {
        return Err(SqlRefusal::Sql(NO_SUCH_COLUMN));
    };
    type_fits(column.kind, &value)?;
    let row = row.duplicate(alloc)?;
    Ok(put(row, place, value))
}

/// NEW with a value in a column.
#[tactic(auto, using(crate::proofs::Assigned::columns))]
fn new_with(
    alloc: Global,
    view: &View,
    column: &Bytes,
    value: Value,
) -> Result<Shared<Row>, SqlRefusal>
    ensures { Anywhere result (put_in_column view.now column.now value) }
{
    let definition = view.definition.get();
    match place_of(definition, column) {
        Some(place) => {
            let row = with_value(alloc, definition, view.row.get(), place, value)?;
            Ok(Shared::new(alloc, row)?)
        }
        None => Err(SqlRefusal::Sql(NO_SUCH_COLUMN)),
    }
}

/// Gives a column of NEW another value, fitted to its type.
#[tactic(auto, using(crate::proofs::Assigned::rows))]
fn assign_new(
    alloc: Global,
    body: &mut Body,
    column: &Bytes,
    value: Value,
) -> Result<(), SqlRefusal>
    ensures { AnywhereBy (body_then body.new) result (assign_new (body_of body.old) column.now value) }
{
    match &mut body.new_row {
        None => Err(SqlRefusal::Sql(NO_VARIABLE)),
        Some(view) => {
            let row = new_with(alloc, view, column, value)?;
            view.row = row;
            Ok(())
        }
    }
}

/// One assignment.
fn assign_one(
    alloc: Global,
    body: &mut Body,
    target: &Target,
    value: Value,
) -> Result<(), SqlRefusal>
    ensures { AnywhereBy (body_then body.new) result (assign_one (body_of body.old) (target.now, value)) }
{
    match target {
        Target::Plain(name) => assign_local(body, name, value),
        Target::New(column) => assign_new(alloc, body, column, value),
        Target::User(_) => Err(SqlRefusal::Sql(NOT_ALLOWED)),
        Target::System(_) => Err(SqlRefusal::Sql(NOT_ALLOWED)),
    }
}

/// The assignments of values that stand already, left to right.
#[tactic(auto, using(crate::proofs::Assigned::assignments))]
fn assign_all(
    alloc: Global,
    body: &mut Body,
    assignments: &List<Assignment>,
    mut values: List<Value>,
) -> Result<(), SqlRefusal>
    ensures { AnywhereBy (body_then body.new) result (all_assigned (body_of body.old) (view_assignments assignments.now) values) }
{
    for assignment in assignments.as_slice() {
        let Some(value) = take_first(&mut values) else {
            return Ok(());
        };
        assign_one(alloc, body, &assignment.target, value)?;
    }
    Ok(())
}

/// The values of assignments, left to right.
#[tactic(auto, using(crate::proofs::Assigned::evaluations, exec_state::proofs::Leading::leading))]
fn assigned_values<
    'a,
    F: Fn(&mut Stage, &Running<'_>, &Bytes, List<Value>) -> Result<Value, SqlRefusal>,
>(
    alloc: Global,
    run: &F,
    around: &Around<'a>,
    running: &'a Running<'a>,
    stage: &mut Stage,
    body: &'a Body,
    assignments: &List<Assignment>,
) -> Result<List<Value>, SqlRefusal>
    requires calls { F.IsAlwaysCallable run.now }
    requires called { Calls (F.post run.now) around.now }
    requires call_leads { CallsLead (F.post run.now) }
    ensures gives { EndsAs result (scene_of stage.new) (assigned_values (world_with around.now running.now) (body_of body.now) (view_assignments assignments.now) (scene_of stage.old)) }
    ensures leads { LeadsOn stage.old stage.new }
{
    let mut values = List::with_capacity(alloc, assignments.len())?;
    for assignment in assignments.as_slice() {
        let value = value_here(alloc, run, around, running, stage, body, &assignment.value)?;
        values.push(value)?;
    }
    Ok(values)
}

/// The values of a SET, behind its checks.
#[tactic(auto, using(crate::proofs::Assigned::checked_values, exec_state::proofs::Leading::leading))]
fn set_values<F: Fn(&mut Stage, &Running<'_>, &Bytes, List<Value>) -> Result<Value, SqlRefusal>>(
    alloc: Global,
    run: &F,
    around: &Around<'_>,
    stage: &mut Stage,
    body: &Body,
    s: &Stmt,
    assignments: &List<Assignment>,
) -> Result<List<Value>, SqlRefusal>
    requires calls { F.IsAlwaysCallable run.now }
    requires called { Calls (F.post run.now) around.now }
    requires call_leads { CallsLead (F.post run.now) }
    ensures gives { EndsAs result (scene_of stage.new) (values_to_set around.now (body_of body.now) (view s.now) (view_assignments assignments.now) (scene_of stage.old)) }
    ensures leads { LeadsOn stage.old stage.new }
{
    check_statement_here(around, body, s)?;
    let running = with_statement(s, around.running);
    assigned_values(alloc, run, around, &running, stage, body, assignments)
}

/// SET: the values first, then the assignments.
#[tactic(auto, using(crate::proofs::Assigned::setting, exec_state::proofs::Leading::leading))]
pub(crate) fn set_step<
    F: Fn(&mut Stage, &Running<'_>, &Bytes, List<Value>) -> Result<Value, SqlRefusal>,
>(
    alloc: Global,
    run: &F,
    around: &Around<'_>,
    stage: &mut Stage,
    body: &mut Body,
    s: &Stmt,
    assignments: &List<Assignment>,
) -> Result<Option<Value>, SqlRefusal>
    requires calls { F.IsAlwaysCallable run.now }
    requires called { Calls (F.post run.now) around.now }
    requires call_leads { CallsLead (F.post run.now) }
    requires set { view s.now ≡ set_all (view_assignments assignments.now) }
    ensures gives { EndsAsBy (ended_at (body_of body.new)) result (scene_of stage.new) (step_in around.now (body_of body.old) (set_all (view_assignments assignments.now)) (scene_of stage.old)) }
    ensures leads { LeadsOn stage.old stage.new }
{
    let values = set_values(alloc, run, around, stage, body, s, assignments)?;
    assign_all(alloc, body, assignments, values)?;
    Ok(None)
}
