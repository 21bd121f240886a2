//! Statements run on what all sessions share.
ghost use Rattle.std.specs.Prelude.{◌≡◌, true, false};
ghost use Rattle.sql_tree.specs.StatementView.{view};
ghost use Rattle.sql_tree.specs.View.{view_trees};
ghost use Rattle.proc_parts.specs.sql_reach.Reach.{is_definition};
ghost use Rattle.proc_parts.specs.prog_work.Outcomes.{Spends};
ghost use Rattle.proc_parts.specs.Calls.{left_of};
ghost use Rattle.session_shared.specs.session_model.Running.{is_other};
ghost use Rattle.session_shared.specs.Desk.{shared_of};
ghost use Rattle.session_statement.specs.Ran.{Comes, Gives, fuel_at, place_at};

use port_traits::Draw;
use proc_parts::prog_run::{
    Meter, Outcome, eval_list, eval_list_beside, run_stmt, run_stmt_beside,
};
use proc_parts::session_ctx::Ctx;
use session_shared::Desk;
use sql_locals::Locals;
use sql_tree::{Expr, Stmt};
use std::alloc::Global;
use val_types::{List, SqlRefusal, Value};

/// Runs a statement that sees the open changes.
fn run_own(
    alloc: Global,
    desk: &mut Desk,
    number: u8,
    statement: &Stmt,
    context: &mut Ctx,
    draw: &Draw,
    meter: &mut Meter,
) -> Result<Outcome, SqlRefusal>
    requires own { is_other number (desk.old.lock) ≡ false }
    requires plain { is_definition (view statement.now) ≡ false }
    ensures comes { Comes number draw.entry.now (left_of meter.old) (view statement.now) result (fuel_at meter.new) (place_at (shared_of desk.old) context.old) (place_at (shared_of desk.new) context.new) }
    ensures log { desk.new.log ≡ desk.old.log }
    ensures committed { desk.new.committed ≡ desk.old.committed }
    ensures spends { Spends meter.old meter.new }
{
    desk.work.together();
    run_stmt(alloc, &mut desk.work, statement, context, draw, meter)
}

/// Runs a statement beside another session's open changes: on the rows that were last committed. The counters that it
/// moved stay moved.
fn run_beside(
    alloc: Global,
    desk: &mut Desk,
    number: u8,
    statement: &Stmt,
    context: &mut Ctx,
    draw: &Draw,
    meter: &mut Meter,
) -> Result<Outcome, SqlRefusal>
    requires other { is_other number (desk.old.lock) ≡ true }
    requires plain { is_definition (view statement.now) ≡ false }
    ensures comes { Comes number draw.entry.now (left_of meter.old) (view statement.now) result (fuel_at meter.new) (place_at (shared_of desk.old) context.old) (place_at (shared_of desk.new) context.new) }
    ensures log { desk.new.log ≡ desk.old.log }
    ensures committed { desk.new.committed ≡ desk.old.committed }
    ensures spends { Spends meter.old meter.new }
{
    run_stmt_beside(alloc, &mut desk.work, statement, context, draw, meter)
}

/// Runs a change, a SELECT or a DO of a session.
pub(crate) fn run(
    alloc: Global,
    desk: &mut Desk,
    number: u8,
    statement: &Stmt,
    context: &mut Ctx,
    draw: &Draw,
    meter: &mut Meter,
) -> Result<Outcome, SqlRefusal>
    requires { is_definition (view statement.now) ≡ false }
    ensures comes { Comes number draw.entry.now (left_of meter.old) (view statement.now) result (fuel_at meter.new) (place_at (shared_of desk.old) context.old) (place_at (shared_of desk.new) context.new) }
    ensures log { desk.new.log ≡ desk.old.log }
    ensures committed { desk.new.committed ≡ desk.old.committed }
    ensures spends { Spends meter.old meter.new }
{
    if desk.is_other(number) {
        run_beside(alloc, desk, number, statement, context, draw, meter)
    } else {
        run_own(alloc, desk, number, statement, context, draw, meter)
    }
}

/// Evaluates expressions that see the open changes.
fn evaluate_own(
    alloc: Global,
    desk: &mut Desk,
    number: u8,
    expressions: &List<Expr>,
    locals: &Locals,
    context: &mut Ctx,
    draw: &Draw,
    meter: &mut Meter,
) -> Result<List<Value>, SqlRefusal>
    requires own { is_other number (desk.old.lock) ≡ false }
    ensures gives { Gives number draw.entry.now (left_of meter.old) locals.now (view_trees expressions.now) result (fuel_at meter.new) (place_at (shared_of desk.old) context.old) (place_at (shared_of desk.new) context.new) }
    ensures log { desk.new.log ≡ desk.old.log }
    ensures committed { desk.new.committed ≡ desk.old.committed }
    ensures spends { Spends meter.old meter.new }
{
    desk.work.together();
    eval_list(
        alloc,
        &mut desk.work,
        expressions,
        locals,
        context,
        draw,
        meter,
    )
}

/// Evaluates expressions beside another session's open changes.
fn evaluate_beside(
    alloc: Global,
    desk: &mut Desk,
    number: u8,
    expressions: &List<Expr>,
    locals: &Locals,
    context: &mut Ctx,
    draw: &Draw,
    meter: &mut Meter,
) -> Result<List<Value>, SqlRefusal>
    requires other { is_other number (desk.old.lock) ≡ true }
    ensures gives { Gives number draw.entry.now (left_of meter.old) locals.now (view_trees expressions.now) result (fuel_at meter.new) (place_at (shared_of desk.old) context.old) (place_at (shared_of desk.new) context.new) }
    ensures log { desk.new.log ≡ desk.old.log }
    ensures committed { desk.new.committed ≡ desk.old.committed }
    ensures spends { Spends meter.old meter.new }
{
    eval_list_beside(
        alloc,
        &mut desk.work,
        expressions,
        locals,
        context,
        draw,
        meter,
    )
}

/// Evaluates expressions of a session where locals are in scope, as the DO over them.
pub(crate) fn evaluate(
    alloc: Global,
    desk: &mut Desk,
    number: u8,
    expressions: &List<Expr>,
    locals: &Locals,
    context: &mut Ctx,
    draw: &Draw,
    meter: &mut Meter,
) -> Result<List<Value>, SqlRefusal>
    ensures gives { Gives number draw.entry.now (left_of meter.old) locals.now (view_trees expressions.now) result (fuel_at meter.new) (place_at (shared_of desk.old) context.old) (place_at (shared_of desk.new) context.new) }
    ensures log { desk.new.log ≡ desk.old.log }
    ensures committed { desk.new.committed ≡ desk.old.committed }
    ensures spends { Spends meter.old meter.new }
{
    if desk.is_other(number) {
        evaluate_beside(
            alloc,
            desk,
            number,
            expressions,
            locals,
            context,
            draw,
            meter,
        )
    } else {
        evaluate_own(
            alloc,
            desk,
            number,
            expressions,
            locals,
            context,
            draw,
            meter,
        )
    }
}
