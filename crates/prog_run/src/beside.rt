//! A statement run, and expressions evaluated, beside open changes: on the rows that were last committed.
ghost use Rattle.std.specs.Prelude.{◌≡◌, false, OnErr};
ghost use Rattle.sql_tree.specs.View.{view_trees};
ghost use Rattle.sql_tree.specs.StatementView.{view};
ghost use Rattle.statement_names.specs.sql_reach.Reach.{is_definition};
ghost use Rattle.prog_work.specs.Contents.{contents_of};
ghost use Rattle.prog_work.specs.Outcomes.{Spends};
ghost use Rattle.prog_work.specs.Together.{AreTogether};
ghost use Rattle.prog_run.specs.Runs.{Beside, Evaluated, LeavesAll, Runs, moment};

use crate::number::number_of_bytes;
use crate::running::{begin, end};
use crate::staged::{evaluate_on, run_on};
use exec_state::Stage;
use port_traits::Draw;
use prog_work::catalog::Catalog;
use prog_work::{Meter, OpenChanges, Outcome, Work};
use session_ctx::Ctx;
use sql_locals::Locals;
use sql_tree::{Expr, Stmt};
use std::alloc::Global;
use val_types::{List, SqlRefusal, Value};

/// Runs a change, a SELECT or a DO on a stage whose open changes are set aside, and puts these back at every end.
#[tactic(auto, using(crate::proofs::Aside::not_begun, exec_state::proofs::Leading::turns_led))]
fn run_aside(
    alloc: Global,
    catalog: &Catalog,
    stage: &mut Stage,
    statement: &Stmt,
    context: &mut Ctx,
    draw: &Draw,
    meter: &mut Meter,
) -> Result<Outcome, SqlRefusal>
    requires { AreTogether catalog.now stage.old.tables stage.old.undo stage.old.counters }
    ensures together { AreTogether catalog.now stage.new.tables stage.new.undo stage.new.counters }
    ensures runs { Beside (Runs draw.entry.now (view statement.now) result) (moment (contents_of catalog.now stage.old) context.old meter.old) (moment (contents_of catalog.now stage.new) context.new meter.new) }
    ensures err { OnErr result (LeavesAll (contents_of catalog.now stage.old) (contents_of catalog.now stage.new)) }
    ensures spends { Spends meter.old meter.new }
{
    let uuid = number_of_bytes(&draw.uuid);
    let depth = meter.depth;
    let aside = OpenChanges::set_aside(alloc, stage)?;
    begin(stage, context, meter);
    let result = run_on(
        alloc,
        catalog.objects(),
        stage,
        statement,
        context,
        uuid,
        depth,
    );
    end(stage, meter);
    aside.put_back(stage);
    result
}

/// Evaluates expressions on a stage whose open changes are set aside, and puts these back at every end.
#[tactic(auto, using(crate::proofs::Aside::not_begun, exec_state::proofs::Leading::turns_led))]
fn evaluate_aside(
    alloc: Global,
    catalog: &Catalog,
    stage: &mut Stage,
    expressions: &List<Expr>,
    locals: &Locals,
    context: &mut Ctx,
    draw: &Draw,
    meter: &mut Meter,
) -> Result<List<Value>, SqlRefusal>
    requires { AreTogether catalog.now stage.old.tables stage.old.undo stage.old.counters }
    ensures together { AreTogether catalog.now stage.new.tables stage.new.undo stage.new.counters }
    ensures gives { Beside (Evaluated draw.entry.now locals.now (view_trees expressions.now) result) (moment (contents_of catalog.now stage.old) context.old meter.old) (moment (contents_of catalog.now stage.new) context.new meter.new) }
    ensures err { OnErr result (LeavesAll (contents_of catalog.now stage.old) (contents_of catalog.now stage.new)) }
    ensures spends { Spends meter.old meter.new }
{
    let uuid = number_of_bytes(&draw.uuid);
    let depth = meter.depth;
    let aside = OpenChanges::set_aside(alloc, stage)?;
    begin(stage, context, meter);
    let result = evaluate_on(
        alloc,
        catalog.objects(),
        stage,
        expressions,
        locals,
        context,
        uuid,
        depth,
    );
    end(stage, meter);
    aside.put_back(stage);
    result
}

/// Runs a change, a SELECT or a DO beside open changes, on the rows that were last committed. No row is copied; rows,
/// changes and catalog stay, whatever it did, and the counters that it moved stay moved.
pub fn run_stmt_beside(
    alloc: Global,
    work: &mut Work,
    statement: &Stmt,
    context: &mut Ctx,
    draw: &Draw,
    meter: &mut Meter,
) -> Result<Outcome, SqlRefusal>
    requires { is_definition (view statement.now) ≡ false }
    ensures runs { Beside (Runs draw.entry.now (view statement.now) result) (moment work.old context.old meter.old) (moment work.new context.new meter.new) }
    ensures err { OnErr result (LeavesAll work.old work.new) }
    ensures spends { Spends meter.old meter.new }
{
    let mut apart = work.take_apart();
    let result = run_aside(
        alloc,
        &apart.catalog,
        &mut apart.stage,
        statement,
        context,
        draw,
        meter,
    );
    work.put_together(apart);
    result
}

/// The values of expressions beside open changes, as the DO over them evaluates them there.
pub fn eval_list_beside(
    alloc: Global,
    work: &mut Work,
    expressions: &List<Expr>,
    locals: &Locals,
    context: &mut Ctx,
    draw: &Draw,
    meter: &mut Meter,
) -> Result<List<Value>, SqlRefusal>
    ensures gives { Beside (Evaluated draw.entry.now locals.now (view_trees expressions.now) result) (moment work.old context.old meter.old) (moment work.new context.new meter.new) }
    ensures err { OnErr result (LeavesAll work.old work.new) }
    ensures spends { Spends meter.old meter.new }
{
    let mut apart = work.take_apart();
    let result = evaluate_aside(
        alloc,
        &apart.catalog,
        &mut apart.stage,
        expressions,
        locals,
        context,
        draw,
        meter,
    );
    work.put_together(apart);
    result
}
