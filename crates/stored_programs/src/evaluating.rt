//! The value of an expression of a body, behind its checks.
ghost use Rattle.std.specs.Prelude.{◌≡◌, ◌++◌};
ghost use Rattle.sql_tree.specs.View.{view_part, view_tree};
ghost use Rattle.sql_tree.specs.StatementView.{view};
ghost use Rattle.sql_statements.specs.catalog_rules.Checks.{expression_refusal};
ghost use Rattle.sql_statements.specs.catalog_rules.Nodes.{no_sight, nodes_of, nodes_of_tree};
ghost use Rattle.sql_statements.specs.sql_meaning.Running.{body_checked, checked, frame_of, scope_of, tables_named};
ghost use Rattle.sql_statements.specs.sql_meaning.Values.{value};
ghost use Rattle.exec_state.specs.Stage.{EndsAs, LeadsOn, scene_of};
ghost use Rattle.sql_evaluation.specs.Seen.{Anywhere, Calls, CallsLead, running_of, setting_of, world_of};
ghost use Rattle.stored_programs.specs.Bodies.{body_of, world_with};
ghost use Rattle.stored_programs.specs.Steps.{holds_in_body, preset_in_body, value_in_body};

use crate::body::{Body, row_in};
use exec_body_checks::{check_expression, check_statement};
use exec_state::{Running, Stage};
use expr_ops::holds;
use sql_evaluation::{Around, Views, value};
use sql_tree::{Expr, Stmt};
use std::alloc::Global;
use val_types::{Bytes, List, SqlRefusal, Value};

/// More levels than an expression has that was read.
pub(crate) const LEVELS: u16 = 400;

/// An expression of a body, round which something is under way.
#[tactic(auto, using(crate::proofs::Evaluated::also_expression))]
fn with_expression<'a>(e: &'a Expr, running: &'a Running<'a>) -> Running<'a>
    ensures { running_of result ≡ record { tables = tables_named (nodes_of_tree (view_tree e.now) no_sight) ++ (running_of running.now).tables; functions = (running_of running.now).functions } }
{
    Running::Expression(e, running)
}

/// A statement of a body, likewise.
#[tactic(auto, using(crate::proofs::Evaluated::also_statement))]
pub(crate) fn with_statement<'a>(s: &'a Stmt, running: &'a Running<'a>) -> Running<'a>
    ensures { running_of result ≡ record { tables = tables_named (nodes_of (view s.now)) ++ (running_of running.now).tables; functions = (running_of running.now).functions } }
{
    Running::Statement(s, running)
}

/// The checks of an expression where a body stands.
fn check_here<'a>(around: &Around<'a>, body: &'a Body, e: &Expr) -> Result<(), SqlRefusal>
    ensures { Anywhere result (checked (expression_refusal (setting_of around.now).catalog (scope_of (body_of body.now)) (view_tree e.now)) (body_of body.now).locals (nodes_of_tree (view_tree e.now) no_sight)) }
{
    let here = Around {
        locals: &body.locals,
        new_row: row_in(&body.new_row),
        old_row: row_in(&body.old_row),
        inserted: None,
        ..*around
    };
    check_expression(&here, e)
}

/// The checks of a statement where a body stands.
#[tactic(auto, unfolding(sql_evaluation::specs::Seen::world_of))]
pub(crate) fn check_statement_here<'a>(
    around: &Around<'a>,
    body: &'a Body,
    s: &Stmt,
) -> Result<(), SqlRefusal>
    ensures { Anywhere result (body_checked (world_of around.now) (body_of body.now) (view s.now)) }
{
    let here = Around {
        locals: &body.locals,
        new_row: row_in(&body.new_row),
        old_row: row_in(&body.old_row),
        inserted: None,
        ..*around
    };
    check_statement(&here, s)
}

/// The value of an expression where a body stands, without checks.
#[tactic(auto, unfolding(sql_evaluation::specs::Seen::world_of, sql_evaluation::specs::Seen::frame_of))]
pub(crate) fn value_here<
    'a,
    F: Fn(&mut Stage, &Running<'_>, &Bytes, List<Value>) -> Result<Value, SqlRefusal>,
>(
    alloc: Global,
    run: &F,
    around: &Around<'a>,
    running: &'a Running<'a>,
    stage: &mut Stage,
    body: &'a Body,
    e: &Expr,
) -> Result<Value, SqlRefusal>
    requires calls { F.IsAlwaysCallable run.now }
    requires called { Calls (F.post run.now) around.now }
    requires call_leads { CallsLead (F.post run.now) }
    ensures gives { EndsAs result (scene_of stage.new) (value (world_with around.now running.now) (frame_of (body_of body.now)) (view_tree e.now) (scene_of stage.old)) }
    ensures leads { LeadsOn stage.old stage.new }
{
    let here = Around {
        running,
        locals: &body.locals,
        new_row: row_in(&body.new_row),
        old_row: row_in(&body.old_row),
        inserted: None,
        ..*around
    };
    let views = Views::new(alloc);
    value(alloc, run, &here, LEVELS, stage, e, &views)
}

/// The value of a condition, a DEFAULT or a RETURN.
#[tactic(auto, using(crate::proofs::Evaluated::evaluating, exec_state::proofs::Leading::leading))]
pub(crate) fn body_value<
    F: Fn(&mut Stage, &Running<'_>, &Bytes, List<Value>) -> Result<Value, SqlRefusal>,
>(
    alloc: Global,
    run: &F,
    around: &Around<'_>,
    stage: &mut Stage,
    body: &Body,
    e: &Expr,
) -> Result<Value, SqlRefusal>
    requires calls { F.IsAlwaysCallable run.now }
    requires called { Calls (F.post run.now) around.now }
    requires call_leads { CallsLead (F.post run.now) }
    ensures gives { EndsAs result (scene_of stage.new) (value_in_body around.now (body_of body.now) (view_tree e.now) (scene_of stage.old)) }
    ensures leads { LeadsOn stage.old stage.new }
{
    check_here(around, body, e)?;
    let running = with_expression(e, around.running);
    value_here(alloc, run, around, &running, stage, body, e)
}

/// Whether a condition holds; unknown does not.
#[tactic(auto, using(crate::proofs::Evaluated::conditions, exec_state::proofs::Leading::leading))]
pub(crate) fn condition_holds<
    F: Fn(&mut Stage, &Running<'_>, &Bytes, List<Value>) -> Result<Value, SqlRefusal>,
>(
    alloc: Global,
    run: &F,
    around: &Around<'_>,
    stage: &mut Stage,
    body: &Body,
    e: &Expr,
) -> Result<bool, SqlRefusal>
    requires calls { F.IsAlwaysCallable run.now }
    requires called { Calls (F.post run.now) around.now }
    requires call_leads { CallsLead (F.post run.now) }
    ensures gives { EndsAs result (scene_of stage.new) (holds_in_body around.now (body_of body.now) (view_tree e.now) (scene_of stage.old)) }
    ensures leads { LeadsOn stage.old stage.new }
{
    let value = body_value(alloc, run, around, stage, body, e)?;
    Ok(holds(&value)?)
}

/// The DEFAULT of a DECLARE, NULL where there is none.
#[tactic(auto, using(crate::proofs::Evaluated::presets, exec_state::proofs::Leading::leading))]
pub(crate) fn preset_value<
    F: Fn(&mut Stage, &Running<'_>, &Bytes, List<Value>) -> Result<Value, SqlRefusal>,
>(
    alloc: Global,
    run: &F,
    around: &Around<'_>,
    stage: &mut Stage,
    body: &Body,
    preset: &Option<Expr>,
) -> Result<Value, SqlRefusal>
    requires calls { F.IsAlwaysCallable run.now }
    requires called { Calls (F.post run.now) around.now }
    requires call_leads { CallsLead (F.post run.now) }
    ensures gives { EndsAs result (scene_of stage.new) (preset_in_body around.now (body_of body.now) (view_part preset.now) (scene_of stage.old)) }
    ensures leads { LeadsOn stage.old stage.new }
{
    match preset {
        None => Ok(Value::Null),
        Some(e) => body_value(alloc, run, around, stage, body, e),
    }
}
