//! The steps of a body.
ghost use Rattle.std.specs.Prelude.{◌≡◌};
ghost use Rattle.sql_tree.specs.Statement.{block, if_steps, return_value, while_steps};
ghost use Rattle.sql_tree.specs.StatementView.{view, view_branches, view_declarations, view_otherwise, view_statements};
ghost use Rattle.sql_tree.specs.View.{view_tree};
ghost use Rattle.exec_state.specs.Stage.{EndsAsBy, LeadsOn, scene_of};
ghost use Rattle.sql_evaluation.specs.Seen.{Calls, CallsLead};
ghost use Rattle.sql_statements.specs.changed_rows.Firing.{Fires, FiresLead};
ghost use Rattle.stored_programs.specs.Bodies.{body_of, ended_at};
ghost use Rattle.stored_programs.specs.Steps.{is_other, otherwise_in, step_in, steps_in, taken_at, taken_in};

use crate::assigning::set_step;
use crate::body::Body;
use crate::declaring::declare_all;
use crate::evaluating::{body_value, condition_holds};
use crate::performing::perform_step;
use crate::turns::spend_turn;
use exec_state::{Running, Stage};
use sharing::Shared;
use sql_evaluation::Around;
use sql_tree::{Branch, Cause, Declaration, Expr, Stmt, Time};
use std::alloc::Global;
use val_types::{Bytes, List, Row, SqlRefusal, TableDef, Value};

/// Whether a step is a change, DO or another statement that a body hands on.
fn is_other(s: &Stmt) -> bool
    ensures { result ≡ is_other (view s.now) }
{
    match s {
        Stmt::Block { .. } => false,
        Stmt::If { .. } => false,
        Stmt::While { .. } => false,
        Stmt::Return(_) => false,
        Stmt::Set(_) => false,
        _ => true,
    }
}

/// RETURN.
#[tactic(auto, using(crate::proofs::Stepping::returning, exec_state::proofs::Leading::leading))]
fn return_step<F: Fn(&mut Stage, &Running<'_>, &Bytes, List<Value>) -> Result<Value, SqlRefusal>>(
    alloc: Global,
    run: &F,
    around: &Around<'_>,
    stage: &mut Stage,
    body: &Body,
    e: &Expr,
) -> Result<Option<Value>, SqlRefusal>
    requires calls { F.IsAlwaysCallable run.now }
    requires called { Calls (F.post run.now) around.now }
    requires call_leads { CallsLead (F.post run.now) }
    ensures gives { EndsAsBy (ended_at (body_of body.now)) result (scene_of stage.new) (step_in around.now (body_of body.now) (return_value (view_tree e.now)) (scene_of stage.old)) }
    ensures leads { LeadsOn stage.old stage.new }
{
    let value = body_value(alloc, run, around, stage, body, e)?;
    Ok(Some(value))
}

/// A step of a body; the value is that of a RETURN. The last arm has no statement left.
#[cycle(step)]
#[tactic(auto, using(crate::proofs::Stepping::others, exec_state::proofs::Leading::leading))]
pub(crate) fn step<
    F: Fn(&mut Stage, &Running<'_>, &Bytes, List<Value>) -> Result<Value, SqlRefusal>,
    T: Fn(
        &mut Stage,
        &Running<'_>,
        Time,
        Cause,
        &Shared<TableDef>,
        Option<&Row>,
        Option<&Shared<Row>>,
    ) -> Result<Option<Row>, SqlRefusal>,
>(
    alloc: Global,
    run: &F,
    fire: &T,
    around: &Around<'_>,
    stage: &mut Stage,
    body: &mut Body,
    s: &Stmt,
) -> Result<Option<Value>, SqlRefusal>
    requires calls { F.IsAlwaysCallable run.now }
    requires called { Calls (F.post run.now) around.now }
    requires call_leads { CallsLead (F.post run.now) }
    requires fires { T.IsAlwaysCallable fire.now }
    requires fired { Fires (T.post fire.now) around.now }
    requires fire_leads { FiresLead (T.post fire.now) }
    ensures gives { EndsAsBy (ended_at (body_of body.new)) result (scene_of stage.new) (step_in around.now (body_of body.old) (view s.now) (scene_of stage.old)) }
    ensures leads { LeadsOn stage.old stage.new }
{
    if is_other(s) {
        return perform_step(alloc, run, fire, around, stage, body, s);
    }
    match s {
        Stmt::Block {
            declarations,
            body: list,
        } => block_step(alloc, run, fire, around, stage, body, declarations, list),
        Stmt::If { arms, otherwise } => {
            match taken_branch(alloc, run, fire, around, stage, body, arms)? {
                Some(returned) => Ok(returned),
                None => otherwise_step(alloc, run, fire, around, stage, body, otherwise),
            }
        }
        Stmt::While { condition, steps } => {
            while_step(alloc, run, fire, around, stage, body, steps, condition)
        }
        Stmt::Return(e) => return_step(alloc, run, around, stage, body, e),
        Stmt::Set(assignments) => set_step(alloc, run, around, stage, body, s, assignments),
        _ => unreachable!(),
    }
}

/// Steps, one after the other, up to a RETURN.
#[cycle(step)]
#[tactic(auto, using(crate::proofs::Stepping::stepping, exec_state::proofs::Leading::leading))]
fn steps<
    F: Fn(&mut Stage, &Running<'_>, &Bytes, List<Value>) -> Result<Value, SqlRefusal>,
    T: Fn(
        &mut Stage,
        &Running<'_>,
        Time,
        Cause,
        &Shared<TableDef>,
        Option<&Row>,
        Option<&Shared<Row>>,
    ) -> Result<Option<Row>, SqlRefusal>,
>(
    alloc: Global,
    run: &F,
    fire: &T,
    around: &Around<'_>,
    stage: &mut Stage,
    body: &mut Body,
    list: &List<Stmt>,
) -> Result<Option<Value>, SqlRefusal>
    requires calls { F.IsAlwaysCallable run.now }
    requires called { Calls (F.post run.now) around.now }
    requires call_leads { CallsLead (F.post run.now) }
    requires fires { T.IsAlwaysCallable fire.now }
    requires fired { Fires (T.post fire.now) around.now }
    requires fire_leads { FiresLead (T.post fire.now) }
    ensures gives { EndsAsBy (ended_at (body_of body.new)) result (scene_of stage.new) (steps_in around.now (body_of body.old) (view_statements list.now) (scene_of stage.old)) }
    ensures leads { LeadsOn stage.old stage.new }
{
    for s in list.as_slice() {
        if let Some(value) = step(alloc, run, fire, around, stage, body, s)? {
            return Ok(Some(value));
        }
    }
    Ok(None)
}

/// A block: its locals end with it.
#[cycle(step)]
#[tactic(auto, using(crate::proofs::Stepping::blocks, exec_state::proofs::Leading::leading))]
fn block_step<
    F: Fn(&mut Stage, &Running<'_>, &Bytes, List<Value>) -> Result<Value, SqlRefusal>,
    T: Fn(
        &mut Stage,
        &Running<'_>,
        Time,
        Cause,
        &Shared<TableDef>,
        Option<&Row>,
        Option<&Shared<Row>>,
    ) -> Result<Option<Row>, SqlRefusal>,
>(
    alloc: Global,
    run: &F,
    fire: &T,
    around: &Around<'_>,
    stage: &mut Stage,
    body: &mut Body,
    declarations: &List<Declaration>,
    list: &List<Stmt>,
) -> Result<Option<Value>, SqlRefusal>
    requires calls { F.IsAlwaysCallable run.now }
    requires called { Calls (F.post run.now) around.now }
    requires call_leads { CallsLead (F.post run.now) }
    requires fires { T.IsAlwaysCallable fire.now }
    requires fired { Fires (T.post fire.now) around.now }
    requires fire_leads { FiresLead (T.post fire.now) }
    ensures gives { EndsAsBy (ended_at (body_of body.new)) result (scene_of stage.new) (step_in around.now (body_of body.old) (block (view_declarations declarations.now) (view_statements list.now)) (scene_of stage.old)) }
    ensures leads { LeadsOn stage.old stage.new }
{
    let outer = body.locals.count();
    declare_all(alloc, run, around, stage, body, declarations)?;
    let returned = steps(alloc, run, fire, around, stage, body, list)?;
    body.locals.cut(outer);
    Ok(returned)
}

/// The steps behind the first condition that holds; None where none does.
#[cycle(step)]
#[tactic(auto, using(crate::proofs::Stepping::branching, exec_state::proofs::Leading::leading))]
fn taken_branch<
    F: Fn(&mut Stage, &Running<'_>, &Bytes, List<Value>) -> Result<Value, SqlRefusal>,
    T: Fn(
        &mut Stage,
        &Running<'_>,
        Time,
        Cause,
        &Shared<TableDef>,
        Option<&Row>,
        Option<&Shared<Row>>,
    ) -> Result<Option<Row>, SqlRefusal>,
>(
    alloc: Global,
    run: &F,
    fire: &T,
    around: &Around<'_>,
    stage: &mut Stage,
    body: &mut Body,
    arms: &List<Branch>,
) -> Result<Option<Option<Value>>, SqlRefusal>
    requires calls { F.IsAlwaysCallable run.now }
    requires called { Calls (F.post run.now) around.now }
    requires call_leads { CallsLead (F.post run.now) }
    requires fires { T.IsAlwaysCallable fire.now }
    requires fired { Fires (T.post fire.now) around.now }
    requires fire_leads { FiresLead (T.post fire.now) }
    ensures gives { EndsAsBy (taken_at (body_of body.new)) result (scene_of stage.new) (taken_in around.now (body_of body.old) (view_branches arms.now) (scene_of stage.old)) }
    ensures leads { LeadsOn stage.old stage.new }
{
    for arm in arms.as_slice() {
        if condition_holds(alloc, run, around, stage, body, &arm.condition)? {
            let returned = steps(alloc, run, fire, around, stage, body, &arm.steps)?;
            return Ok(Some(returned));
        }
    }
    Ok(None)
}

/// The steps behind ELSE, if there is one.
#[cycle(step)]
#[tactic(auto, using(crate::proofs::Stepping::elses, exec_state::proofs::Leading::leading))]
fn otherwise_step<
    F: Fn(&mut Stage, &Running<'_>, &Bytes, List<Value>) -> Result<Value, SqlRefusal>,
    T: Fn(
        &mut Stage,
        &Running<'_>,
        Time,
        Cause,
        &Shared<TableDef>,
        Option<&Row>,
        Option<&Shared<Row>>,
    ) -> Result<Option<Row>, SqlRefusal>,
>(
    alloc: Global,
    run: &F,
    fire: &T,
    around: &Around<'_>,
    stage: &mut Stage,
    body: &mut Body,
    otherwise: &Option<List<Stmt>>,
) -> Result<Option<Value>, SqlRefusal>
    requires calls { F.IsAlwaysCallable run.now }
    requires called { Calls (F.post run.now) around.now }
    requires call_leads { CallsLead (F.post run.now) }
    requires fires { T.IsAlwaysCallable fire.now }
    requires fired { Fires (T.post fire.now) around.now }
    requires fire_leads { FiresLead (T.post fire.now) }
    ensures gives { EndsAsBy (ended_at (body_of body.new)) result (scene_of stage.new) (otherwise_in around.now (body_of body.old) (view_otherwise otherwise.now) (scene_of stage.old)) }
    ensures leads { LeadsOn stage.old stage.new }
{
    match otherwise {
        None => Ok(None),
        Some(list) => steps(alloc, run, fire, around, stage, body, list),
    }
}

/// WHILE.
#[cycle(step)]
#[tactic(auto, using(crate::proofs::Stepping::looping, exec_state::proofs::Leading::leading))]
fn while_step<
    F: Fn(&mut Stage, &Running<'_>, &Bytes, List<Value>) -> Result<Value, SqlRefusal>,
    T: Fn(
        &mut Stage,
        &Running<'_>,
        Time,
        Cause,
        &Shared<TableDef>,
        Option<&Row>,
        Option<&Shared<Row>>,
    ) -> Result<Option<Row>, SqlRefusal>,
>(
    alloc: Global,
    run: &F,
    fire: &T,
    around: &Around<'_>,
    stage: &mut Stage,
    body: &mut Body,
    list: &List<Stmt>,
    condition: &Expr,
) -> Result<Option<Value>, SqlRefusal>
    requires calls { F.IsAlwaysCallable run.now }
    requires called { Calls (F.post run.now) around.now }
    requires call_leads { CallsLead (F.post run.now) }
    requires fires { T.IsAlwaysCallable fire.now }
    requires fired { Fires (T.post fire.now) around.now }
    requires fire_leads { FiresLead (T.post fire.now) }
    ensures gives { EndsAsBy (ended_at (body_of body.new)) result (scene_of stage.new) (step_in around.now (body_of body.old) (while_steps (view_tree condition.now) (view_statements list.now)) (scene_of stage.old)) }
    ensures leads { LeadsOn stage.old stage.new }
{
    while condition_holds(alloc, run, around, stage, body, condition)? {
        spend_turn(stage)?;
        if let Some(value) = steps(alloc, run, fire, around, stage, body, list)? {
            return Ok(Some(value));
        }
    }
    Ok(None)
}
