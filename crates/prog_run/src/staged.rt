//! Statements and expressions on a stage, with their context.
ghost use Rattle.std.specs.Prelude.{[], OnErr};
ghost use Rattle.sql_tree.specs.View.{view_trees};
ghost use Rattle.sql_tree.specs.StatementView.{view};
ghost use Rattle.prog_work.specs.catalog_objects.Keys.{objects_of};
ghost use Rattle.statement_names.specs.sql_meaning.Running.{effect, evaluation};
ghost use Rattle.exec_state.specs.Stage.{EndsAs, EndsAsBy, LeadsOn, scene_of};
ghost use Rattle.stored_programs.specs.sql_statements.Did.{did_of};
ghost use Rattle.stage_undo.specs.Back.{IsBack};
ghost use Rattle.prog_run.specs.Runs.{Comes, Gives};

use crate::context::{around, forced_for, settle};
use crate::under_way::{expressions_alone, nothing, tables_alone};
use crate::undoing::{undo_failed, undo_unknown};
use exec_state::Stage;
use prog_work::Outcome;
use prog_work::catalog_objects::Objects;
use session_ctx::Ctx;
use sql_locals::Locals;
use sql_tree::{Expr, Stmt};
use statement_names::tables_of;
use std::alloc::Global;
use stored_programs::sql_statements::Did;
use val_types::{List, SqlRefusal, Value};

/// What a statement does to a stage.
#[tactic(auto, using(crate::proofs::Effects::effect_ends, crate::proofs::Undone::stays_back, exec_state::proofs::Leading::stage_stays))]
fn effect(
    alloc: Global,
    catalog: &Objects,
    stage: &mut Stage,
    statement: &Stmt,
    context: &Ctx,
    uuid: u128,
    nesting: u8,
) -> Result<Did, SqlRefusal>
    ensures gives { EndsAsBy did_of result (scene_of stage.new) (effect (record { catalog = objects_of catalog.now; context = context.now; uuid = uuid }) nesting [] (view statement.now) (scene_of stage.old)) }
    ensures leads { LeadsOn stage.old stage.new }
    ensures back { OnErr result (IsBack stage.old stage.new) }
{
    let names = tables_of(alloc, statement)?;
    let nothing = nothing();
    let running = tables_alone(&names, &nothing);
    let locals = Locals::new(alloc);
    let around = around(catalog, context, uuid, nesting, &running, &locals);
    undo_failed(
        alloc,
        &around,
        forced_for(context, statement),
        stage,
        statement,
    )
}

/// What expressions give on a stage.
#[tactic(auto, using(crate::proofs::Effects::evaluation_ends))]
fn evaluation(
    alloc: Global,
    catalog: &Objects,
    stage: &mut Stage,
    expressions: &List<Expr>,
    locals: &Locals,
    context: &Ctx,
    uuid: u128,
    nesting: u8,
) -> Result<List<Value>, SqlRefusal>
    ensures gives { EndsAs result (scene_of stage.new) (evaluation (record { catalog = objects_of catalog.now; context = context.now; uuid = uuid }) nesting locals.now (view_trees expressions.now) (scene_of stage.old)) }
    ensures leads { LeadsOn stage.old stage.new }
    ensures back { OnErr result (IsBack stage.old stage.new) }
{
    let nothing = nothing();
    let running = expressions_alone(expressions, &nothing);
    let around = around(catalog, context, uuid, nesting, &running, locals);
    undo_unknown(alloc, &around, stage, expressions)
}

/// A statement run on a stage, with its context.
#[tactic(auto, using(crate::proofs::LastId::last_id_counts, exec_state::proofs::Leading::stage_stays))]
pub(crate) fn run_on(
    alloc: Global,
    catalog: &Objects,
    stage: &mut Stage,
    statement: &Stmt,
    context: &mut Ctx,
    uuid: u128,
    nesting: u8,
) -> Result<Outcome, SqlRefusal>
    ensures comes { Comes (record { catalog = objects_of catalog.now; context = context.old; uuid = uuid }) nesting (view statement.now) result stage.old stage.new context.new }
    ensures leads { LeadsOn stage.old stage.new }
    ensures back { OnErr result (IsBack stage.old stage.new) }
{
    context.bounds();
    match effect(alloc, catalog, stage, statement, context, uuid, nesting) {
        Ok(did) => {
            settle(context, statement, stage.seeds, did.last_id);
            Ok(Outcome {
                affected: did.affected,
                rows: did.shown,
                first: did.first,
            })
        }
        Err(SqlRefusal::Sql(code)) => {
            settle(context, statement, stage.seeds, None);
            Err(SqlRefusal::Sql(code))
        }
        Err(SqlRefusal::NoMemory) => Err(SqlRefusal::NoMemory),
    }
}

/// Expressions evaluated on a stage, with their context.
pub(crate) fn evaluate_on(
    alloc: Global,
    catalog: &Objects,
    stage: &mut Stage,
    expressions: &List<Expr>,
    locals: &Locals,
    context: &mut Ctx,
    uuid: u128,
    nesting: u8,
) -> Result<List<Value>, SqlRefusal>
    ensures gives { Gives (record { catalog = objects_of catalog.now; context = context.old; uuid = uuid }) nesting locals.now (view_trees expressions.now) result stage.old stage.new context.new }
    ensures leads { LeadsOn stage.old stage.new }
    ensures back { OnErr result (IsBack stage.old stage.new) }
{
    match evaluation(
        alloc,
        catalog,
        stage,
        expressions,
        locals,
        context,
        uuid,
        nesting,
    ) {
        Ok(values) => {
            context.set_seeds(stage.seeds.0, stage.seeds.1);
            Ok(values)
        }
        Err(SqlRefusal::Sql(code)) => {
            context.set_seeds(stage.seeds.0, stage.seeds.1);
            Err(SqlRefusal::Sql(code))
        }
        Err(SqlRefusal::NoMemory) => Err(SqlRefusal::NoMemory),
    }
}
