//! A statement done.
ghost use Rattle.std.specs.Prelude.{◌≡◌, []};
ghost use Rattle.sql_tree.specs.StatementView.{view, view_sets};
ghost use Rattle.sql_tree.specs.View.{view_query, view_tree, view_trees};
ghost use Rattle.changed_rows.specs.sql_meaning.Running.{manner_of, perform};
ghost use Rattle.exec_state.specs.Stage.{EndsAs, EndsAsBy, LeadsOn, scene_of};
ghost use Rattle.changed_rows.specs.sql_evaluation.Seen.{Calls, CallsLead, Evaluates, LeadsAlways, frame_of, value_in, world_of};
ghost use Rattle.changed_rows.specs.Changed.{manner_of as way_of};
ghost use Rattle.changed_rows.specs.Firing.{Fires, FiresLead};
ghost use Rattle.sql_statements.specs.Changed.{do_in, select_in};
ghost use Rattle.sql_statements.specs.Did.{did_of};

use crate::deleting::delete;
use crate::did::{Did, affecting, showing};
use crate::evaluating::Evaluator;
use crate::inserting::insert;
use crate::updating::update;
use changed_rows::Manner;
use changed_rows::sql_evaluation::{Around, Views, rows_of_query, value, values};
use exec_state::{Running, Stage};
use sharing::Shared;
use sql_tree::{Cause, ColumnSet, Expr, Select, Stmt, Time};
use std::alloc::Global;
use val_types::{Bytes, List, Row, SqlRefusal, TableDef, Value};

/// What INSERT does with a row whose key is there.
fn manner(ignore: bool, sets: &List<ColumnSet>) -> Manner<'_>
    ensures { way_of result ≡ manner_of ignore (view_sets sets.now) }
{
    if !sets.is_empty() {
        Manner::Updating(sets)
    } else if ignore {
        Manner::Ignoring
    } else {
        Manner::Refusing
    }
}

/// SELECT.
#[tactic(auto, using(exec_state::proofs::Leading::leading, crate::proofs::Shown::selecting))]
fn select<V: Fn(&mut Stage, &Expr, &Views) -> Result<Value, SqlRefusal>>(
    alloc: Global,
    evaluate: &V,
    around: &Around<'_>,
    stage: &mut Stage,
    query: &Select,
    views: &Views,
) -> Result<Did, SqlRefusal>
    requires callable { V.IsAlwaysCallable evaluate.now }
    requires gives { Evaluates (V.post evaluate.now) around.now }
    requires leads { LeadsAlways (V.post evaluate.now) }
    ensures gives { EndsAsBy did_of result (scene_of stage.new) (select_in around.now views.now (view_query query.now) (scene_of stage.old)) }
    ensures leads { LeadsOn stage.old stage.new }
{
    let rows = rows_of_query(alloc, evaluate, around, stage, query, views)?;
    Ok(showing(rows))
}

/// DO: the values are evaluated and dropped.
#[tactic(auto, using(exec_state::proofs::Leading::leading, crate::proofs::Shown::doing))]
fn evaluate_all<V: Fn(&mut Stage, &Expr, &Views) -> Result<Value, SqlRefusal>>(
    alloc: Global,
    evaluate: &V,
    around: &Around<'_>,
    stage: &mut Stage,
    exprs: &List<Expr>,
    views: &Views,
) -> Result<Did, SqlRefusal>
    requires callable { V.IsAlwaysCallable evaluate.now }
    requires gives { Evaluates (V.post evaluate.now) around.now }
    requires leads { LeadsAlways (V.post evaluate.now) }
    ensures gives { EndsAsBy did_of result (scene_of stage.new) (do_in around.now views.now (view_trees exprs.now) (scene_of stage.old)) }
    ensures leads { LeadsOn stage.old stage.new }
{
    values(alloc, evaluate, around, stage, exprs, views)?;
    Ok(affecting(0))
}

/// Does a statement: a change, a SELECT or a DO. Other statements do nothing here.
///
/// `run` calls a stored function, `fire` fires the trigger of an event; `levels` bounds how deep an expression is
/// evaluated, and past them memory is short. `forced` is the value that an INSERT or REPLACE generates first. The checks
/// of names stand before it, and an error's changes are taken back behind it.
#[tactic(auto, using(exec_state::proofs::Leading::leading))]
pub fn perform<
    F: Fn(&mut Stage, &Running<'_>, &Bytes, List<Value>) -> Result<Value, SqlRefusal>,
    T: Fn(
        &mut Stage,
        &Running<'_>,
        Time,
        Cause,
        &Shared<TableDef>,
        Option<&Row>,
        Option<&Shared<Row>>,
    ) -> Result<Option<Row>, SqlRefusal>,
>(
    alloc: Global,
    run: &F,
    fire: &T,
    around: &Around<'_>,
    levels: u16,
    forced: Option<i64>,
    stage: &mut Stage,
    statement: &Stmt,
) -> Result<Did, SqlRefusal>
    requires calls { F.IsAlwaysCallable run.now }
    requires called { Calls (F.post run.now) around.now }
    requires call_leads { CallsLead (F.post run.now) }
    requires fires { T.IsAlwaysCallable fire.now }
    requires fired { Fires (T.post fire.now) around.now }
    requires fire_leads { FiresLead (T.post fire.now) }
    ensures gives { EndsAsBy did_of result (scene_of stage.new) (perform (world_of around.now) (frame_of around.now []) forced (view statement.now) (scene_of stage.old)) }
    ensures leads { LeadsOn stage.old stage.new }
{
    let evaluate = |s: &mut Stage, e: &Expr, vs: &Views| -> Result<Value, SqlRefusal>
        requires calls { F.IsAlwaysCallable run.now }
        requires called { Calls (F.post run.now) around.now }
        requires call_leads { CallsLead (F.post run.now) }
        ensures gives { EndsAs result (scene_of s.new) (value_in around.entry.now vs.now (view_tree e.now) (scene_of s.old)) }
        ensures leads { LeadsOn s.old s.new }
    { value(alloc, run, around, levels, s, e, vs) };
    let executor = Evaluator {
        alloc,
        run,
        fire,
        levels,
    };
    match statement {
        Stmt::Insert(s) => insert(
            alloc,
            &evaluate,
            &executor,
            around,
            forced,
            stage,
            &s.table,
            &s.columns,
            &s.source,
            manner(s.ignore, &s.update),
        ),
        Stmt::Replace(s) => insert(
            alloc,
            &evaluate,
            &executor,
            around,
            forced,
            stage,
            &s.table,
            &s.columns,
            &s.source,
            Manner::Replacing,
        ),
        Stmt::Update(s) => update(alloc, &evaluate, &executor, around, stage, s),
        Stmt::Delete(s) => delete(alloc, &evaluate, &executor, around, stage, s),
        Stmt::Select(query) => {
            let views = Views::new(alloc);
            select(alloc, &evaluate, around, stage, query, &views)
        }
        Stmt::Do(exprs) => {
            let views = Views::new(alloc);
            evaluate_all(alloc, &evaluate, around, stage, exprs, &views)
        }
        Stmt::CreateTable(_) => Ok(affecting(0)),
        Stmt::CreateFunction(_) => Ok(affecting(0)),
        Stmt::CreateProcedure(_) => Ok(affecting(0)),
        Stmt::CreateTrigger(_) => Ok(affecting(0)),
        Stmt::DropTable(_) => Ok(affecting(0)),
        Stmt::DropFunction(_) => Ok(affecting(0)),
        Stmt::DropProcedure(_) => Ok(affecting(0)),
        Stmt::DropTrigger(_) => Ok(affecting(0)),
        Stmt::Truncate(_) => Ok(affecting(0)),
        Stmt::Set(_) => Ok(affecting(0)),
        Stmt::Call { .. } => Ok(affecting(0)),
        Stmt::Begin => Ok(affecting(0)),
        Stmt::Commit => Ok(affecting(0)),
        Stmt::Rollback => Ok(affecting(0)),
        Stmt::Savepoint(_) => Ok(affecting(0)),
        Stmt::RollbackTo(_) => Ok(affecting(0)),
        Stmt::ReleaseSavepoint(_) => Ok(affecting(0)),
        Stmt::Block { .. } => Ok(affecting(0)),
        Stmt::If { .. } => Ok(affecting(0)),
        Stmt::While { .. } => Ok(affecting(0)),
        Stmt::Return(_) => Ok(affecting(0)),
    }
}
