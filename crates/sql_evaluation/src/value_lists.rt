//! The values of lists of expressions.
ghost use Rattle.sql_tree.specs.View.{view_trees};
ghost use Rattle.exec_state.specs.Stage.{EndsAs, LeadsOn, scene_of};
ghost use Rattle.sql_evaluation.specs.Seen.{Evaluates, LeadsAlways, values_in};

use crate::views::Views;
use crate::world::Around;
use exec_state::Stage;
use sql_tree::Expr;
use std::alloc::Global;
use val_types::{List, SqlRefusal, Value};

/// The values of expressions, left to right.
#[tactic(auto, using(crate::proofs::Steps::steps, crate::proofs::Loops::each_values))]
pub fn values<V: Fn(&mut Stage, &Expr, &Views) -> Result<Value, SqlRefusal>>(
    alloc: Global,
    evaluate: &V,
    around: &Around<'_>,
    stage: &mut Stage,
    exprs: &List<Expr>,
    views: &Views,
) -> Result<List<Value>, SqlRefusal>
    requires callable { V.IsAlwaysCallable evaluate.now }
    requires gives { Evaluates (V.post evaluate.now) around.now }
    requires leads { LeadsAlways (V.post evaluate.now) }
    ensures gives { EndsAs result (scene_of stage.new) (values_in around.now views.now (view_trees exprs.now) (scene_of stage.old)) }
    ensures leads { LeadsOn stage.old stage.new }
{
    let mut out = List::with_capacity(alloc, exprs.len())?;
    for e in exprs.as_slice() {
        out.push(evaluate(stage, e, views)?)?;
    }
    Ok(out)
}
