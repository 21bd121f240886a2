//! Calls of stored functions, and FLOOR(RAND() * n).
ghost use Rattle.sql_tree.specs.Tree.{call, floor_rand};
ghost use Rattle.sql_tree.specs.View.{view_tree, view_trees};
ghost use Rattle.exec_state.specs.Stage.{EndsAs, LeadsOn, scene_of};
ghost use Rattle.sql_evaluation.specs.Seen.{Calls, CallsLead, Evaluates, LeadsAlways, value_in};

use crate::value_lists::values;
use crate::views::Views;
use crate::world::Around;
use exec_state::{Running, Stage};
use expr_ops::floor_rand;
use sql_tree::Expr;
use std::alloc::Global;
use val_types::{Bytes, List, SqlRefusal, Value};

/// A call of a stored function.
#[tactic(auto, using(crate::proofs::Steps::steps, crate::proofs::Steps::under_way))]
pub fn call_value<
    F: Fn(&mut Stage, &Running<'_>, &Bytes, List<Value>) -> Result<Value, SqlRefusal>,
    V: Fn(&mut Stage, &Expr, &Views) -> Result<Value, SqlRefusal>,
>(
    alloc: Global,
    run: &F,
    evaluate: &V,
    around: &Around<'_>,
    stage: &mut Stage,
    name: &Bytes,
    arguments: &List<Expr>,
    views: &Views,
) -> Result<Value, SqlRefusal>
    requires calls { F.IsAlwaysCallable run.now }
    requires called { Calls (F.post run.now) around.now }
    requires call_leads { CallsLead (F.post run.now) }
    requires callable { V.IsAlwaysCallable evaluate.now }
    requires gives { Evaluates (V.post evaluate.now) around.now }
    requires leads { LeadsAlways (V.post evaluate.now) }
    ensures gives { EndsAs result (scene_of stage.new) (value_in around.now views.now (call name.now (view_trees arguments.now)) (scene_of stage.old)) }
    ensures leads { LeadsOn stage.old stage.new }
{
    let arguments = values(alloc, evaluate, around, stage, arguments, views)?;
    run(stage, around.running, name, arguments)
}

/// FLOOR(RAND() * n): the seeds are set before n is evaluated.
pub fn floor_rand_value<V: Fn(&mut Stage, &Expr, &Views) -> Result<Value, SqlRefusal>>(
    evaluate: &V,
    around: &Around<'_>,
    stage: &mut Stage,
    a: &Expr,
    views: &Views,
) -> Result<Value, SqlRefusal>
    requires callable { V.IsAlwaysCallable evaluate.now }
    requires gives { Evaluates (V.post evaluate.now) around.now }
    requires leads { LeadsAlways (V.post evaluate.now) }
    ensures gives { EndsAs result (scene_of stage.new) (value_in around.now views.now (floor_rand (view_tree a.now)) (scene_of stage.old)) }
    ensures leads { LeadsOn stage.old stage.new }
{
    let _ = around;
    let drawn = stage.draw();
    Ok(floor_rand(drawn, &evaluate(stage, a, views)?)?)
}
