//! A statement run, and expressions evaluated.
ghost use Rattle.std.specs.Prelude.{◌≡◌, [], true, false, OnErr};
ghost use Rattle.sql_tree.specs.View.{view_trees};
ghost use Rattle.sql_tree.specs.StatementView.{view};
ghost use Rattle.statement_names.specs.sql_reach.Reach.{is_definition};
ghost use Rattle.prog_work.specs.Contents.{committed_tables};
ghost use Rattle.prog_work.specs.Defining.{Defines};
ghost use Rattle.prog_work.specs.Outcomes.{Spends};
ghost use Rattle.prog_run.specs.Runs.{Evaluated, LeavesAll, Runs, moment};

use crate::number::number_of_bytes;
use crate::staged::{evaluate_on, run_on};
use exec_state::Stage;
use port_traits::Draw;
use prog_work::{Meter, Outcome, Work, is_definition};
use session_ctx::Ctx;
use sql_locals::Locals;
use sql_tree::{Expr, Stmt};
use std::alloc::Global;
use val_types::{List, SqlRefusal, Value};

/// Takes over what a statement begins with: the seeds of its context, and what is left to its command.
pub(crate) fn begin(stage: &mut Stage, context: &Ctx, meter: &Meter)
    ensures { stage.new ≡ record stage.old { seeds = context.now.seeds; turns = meter.entry.now.turns; uuids = meter.entry.now.uuids } }
{
    stage.seeds = context.seeds();
    stage.turns = meter.turns;
    stage.uuids = meter.uuids;
}

/// What is left to a command behind a statement.
pub(crate) fn end(stage: &Stage, meter: &mut Meter)
    ensures { meter.new ≡ record meter.old { turns = stage.now.turns; uuids = stage.now.uuids } }
{
    meter.turns = stage.turns;
    meter.uuids = stage.uuids;
}

/// Runs a change, a SELECT or a DO.
#[tactic(auto, using(crate::proofs::Moments::together_on, crate::proofs::Moments::leaves_all, crate::proofs::Moments::runs_from, exec_state::proofs::Leading::turns_led))]
fn run_plain(
    alloc: Global,
    work: &mut Work,
    statement: &Stmt,
    context: &mut Ctx,
    draw: &Draw,
    meter: &mut Meter,
) -> Result<Outcome, SqlRefusal>
    ensures runs { Runs draw.entry.now (view statement.now) result (moment work.old context.old meter.old) (moment work.new context.new meter.new) }
    ensures committed { committed_tables work.new ≡ committed_tables work.old }
    ensures err { OnErr result (LeavesAll work.old work.new) }
    ensures spends { Spends meter.old meter.new }
{
    let uuid = number_of_bytes(&draw.uuid);
    let depth = meter.depth;
    let mut apart = work.take_apart();
    begin(&mut apart.stage, context, meter);
    let result = run_on(
        alloc,
        apart.catalog.objects(),
        &mut apart.stage,
        statement,
        context,
        uuid,
        depth,
    );
    end(&apart.stage, meter);
    work.put_together(apart);
    result
}

/// Runs a statement: CREATE, DROP and TRUNCATE, which need that no change is open, or a change, a SELECT or a DO.
/// Other statements do nothing here.
pub fn run_stmt(
    alloc: Global,
    work: &mut Work,
    statement: &Stmt,
    context: &mut Ctx,
    draw: &Draw,
    meter: &mut Meter,
) -> Result<Outcome, SqlRefusal>
    requires { is_definition (view statement.now) ≡ true → work.old.changes ≡ [] }
    ensures runs { is_definition (view statement.now) ≡ false → Runs draw.entry.now (view statement.now) result (moment work.old context.old meter.old) (moment work.new context.new meter.new) }
    ensures defines { is_definition (view statement.now) ≡ true → Defines (view statement.now) result work.old work.new × (context.new ≡ context.old) × (meter.new ≡ meter.old) }
    ensures committed { is_definition (view statement.now) ≡ false → committed_tables work.new ≡ committed_tables work.old }
    ensures err { OnErr result (LeavesAll work.old work.new) }
    ensures spends { Spends meter.old meter.new }
{
    if is_definition(statement) {
        work.define(statement)
    } else {
        run_plain(alloc, work, statement, context, draw, meter)
    }
}

/// The values of expressions, left to right, as the DO over them evaluates them. Changes that functions made stand
/// behind the ones before, and an error takes them back.
#[tactic(auto, using(crate::proofs::Moments::together_on, crate::proofs::Moments::leaves_all, crate::proofs::Moments::evaluated_from, exec_state::proofs::Leading::turns_led))]
pub fn eval_list(
    alloc: Global,
    work: &mut Work,
    expressions: &List<Expr>,
    locals: &Locals,
    context: &mut Ctx,
    draw: &Draw,
    meter: &mut Meter,
) -> Result<List<Value>, SqlRefusal>
    ensures gives { Evaluated draw.entry.now locals.now (view_trees expressions.now) result (moment work.old context.old meter.old) (moment work.new context.new meter.new) }
    ensures committed { committed_tables work.new ≡ committed_tables work.old }
    ensures err { OnErr result (LeavesAll work.old work.new) }
    ensures spends { Spends meter.old meter.new }
{
    let uuid = number_of_bytes(&draw.uuid);
    let depth = meter.depth;
    let mut apart = work.take_apart();
    begin(&mut apart.stage, context, meter);
    let result = evaluate_on(
        alloc,
        apart.catalog.objects(),
        &mut apart.stage,
        expressions,
        locals,
        context,
        uuid,
        depth,
    );
    end(&apart.stage, meter);
    work.put_together(apart);
    result
}
