//! CASE, IF, IFNULL and COALESCE, and conditions.
ghost use Rattle.std.specs.Prelude.{◌≡◌};
ghost use Rattle.val_types.specs.declared.ops.Func2.{Func2};
ghost use Rattle.val_types.specs.declared.ops.Func3.{Func3};
ghost use Rattle.val_types.specs.declared.ops.FuncN.{FuncN};
ghost use Rattle.sql_tree.specs.Tree.{choice};
ghost use Rattle.sql_tree.specs.BuiltIns.{on_many, on_three, on_two};
ghost use Rattle.sql_tree.specs.View.{view_arms, view_part, view_tree, view_trees};
ghost use Rattle.exec_state.specs.Stage.{EndsAs, LeadsOn, scene_of};
ghost use Rattle.sql_evaluation.specs.Seen.{Evaluates, LeadsAlways, holds_in, is_true, part_in, value_in};

use crate::lookup::standing;
use crate::views::Views;
use crate::world::Around;
use exec_state::Stage;
use expr_ops::truth;
use sql_tree::{Arm, Expr};
use val_types::{Boxed, List, SqlError, SqlRefusal, Value};

/// Whether a value is true as a condition; unknown is not.
fn is_true(value: &Value) -> Result<bool, SqlError>
    ensures { result ≡ is_true value.now }
{
    match truth(value)? {
        Some(true) => Ok(true),
        Some(false) | None => Ok(false),
    }
}

/// Whether a condition is true; unknown is not.
#[tactic(auto, using(crate::proofs::Steps::steps, crate::proofs::Branching::conditions))]
pub fn holds<V: Fn(&mut Stage, &Expr, &Views) -> Result<Value, SqlRefusal>>(
    evaluate: &V,
    around: &Around<'_>,
    stage: &mut Stage,
    condition: &Expr,
    views: &Views,
) -> Result<bool, SqlRefusal>
    requires callable { V.IsAlwaysCallable evaluate.now }
    requires gives { Evaluates (V.post evaluate.now) around.now }
    requires leads { LeadsAlways (V.post evaluate.now) }
    ensures gives { EndsAs result (scene_of stage.new) (holds_in around.now views.now (view_tree condition.now) (scene_of stage.old)) }
    ensures leads { LeadsOn stage.old stage.new }
{
    match standing(&*around, &*views, &*condition) {
        Some(x) => Ok(is_true(x)?),
        None => Ok(is_true(&evaluate(stage, condition, views)?)?),
    }
}

/// ELSE, NULL where there is none.
fn otherwise_value<V: Fn(&mut Stage, &Expr, &Views) -> Result<Value, SqlRefusal>>(
    evaluate: &V,
    around: &Around<'_>,
    stage: &mut Stage,
    otherwise: &Option<Boxed<Expr>>,
    views: &Views,
) -> Result<Value, SqlRefusal>
    requires callable { V.IsAlwaysCallable evaluate.now }
    requires gives { Evaluates (V.post evaluate.now) around.now }
    requires leads { LeadsAlways (V.post evaluate.now) }
    ensures gives { EndsAs result (scene_of stage.new) (part_in around.now views.now (view_part otherwise.now) (scene_of stage.old)) }
    ensures leads { LeadsOn stage.old stage.new }
{
    match otherwise {
        Some(e) => evaluate(stage, e.get(), views),
        None => Ok(Value::Null),
    }
}

/// The value of the first WHEN whose condition is true, or that of ELSE.
#[tactic(auto, using(crate::proofs::Steps::steps, crate::proofs::Branching::arms))]
pub fn case_value<V: Fn(&mut Stage, &Expr, &Views) -> Result<Value, SqlRefusal>>(
    evaluate: &V,
    around: &Around<'_>,
    stage: &mut Stage,
    arms: &List<Arm>,
    otherwise: &Option<Boxed<Expr>>,
    views: &Views,
) -> Result<Value, SqlRefusal>
    requires callable { V.IsAlwaysCallable evaluate.now }
    requires gives { Evaluates (V.post evaluate.now) around.now }
    requires leads { LeadsAlways (V.post evaluate.now) }
    ensures gives { EndsAs result (scene_of stage.new) (value_in around.now views.now (choice (view_arms arms.now) (view_part otherwise.now)) (scene_of stage.old)) }
    ensures leads { LeadsOn stage.old stage.new }
{
    for arm in arms.as_slice() {
        if holds(evaluate, around, stage, &arm.condition, views)? {
            return evaluate(stage, &arm.value, views);
        }
    }
    otherwise_value(evaluate, around, stage, otherwise, views)
}

/// IF(c, a, b)
pub fn if_value<V: Fn(&mut Stage, &Expr, &Views) -> Result<Value, SqlRefusal>>(
    evaluate: &V,
    around: &Around<'_>,
    stage: &mut Stage,
    condition: &Expr,
    a: &Expr,
    b: &Expr,
    views: &Views,
) -> Result<Value, SqlRefusal>
    requires callable { V.IsAlwaysCallable evaluate.now }
    requires gives { Evaluates (V.post evaluate.now) around.now }
    requires leads { LeadsAlways (V.post evaluate.now) }
    ensures gives { EndsAs result (scene_of stage.new) (value_in around.now views.now (on_three Func3.If (view_tree condition.now) (view_tree a.now) (view_tree b.now)) (scene_of stage.old)) }
    ensures leads { LeadsOn stage.old stage.new }
{
    if holds(evaluate, around, stage, condition, views)? {
        evaluate(stage, a, views)
    } else {
        evaluate(stage, b, views)
    }
}

/// COALESCE: the first value that is not NULL; those behind it are left out.
#[tactic(auto, using(crate::proofs::Steps::steps, crate::proofs::Branching::known))]
pub fn first_known<V: Fn(&mut Stage, &Expr, &Views) -> Result<Value, SqlRefusal>>(
    evaluate: &V,
    around: &Around<'_>,
    stage: &mut Stage,
    exprs: &List<Expr>,
    views: &Views,
) -> Result<Value, SqlRefusal>
    requires callable { V.IsAlwaysCallable evaluate.now }
    requires gives { Evaluates (V.post evaluate.now) around.now }
    requires leads { LeadsAlways (V.post evaluate.now) }
    ensures gives { EndsAs result (scene_of stage.new) (value_in around.now views.now (on_many FuncN.Coalesce (view_trees exprs.now)) (scene_of stage.old)) }
    ensures leads { LeadsOn stage.old stage.new }
{
    for e in exprs.as_slice() {
        let x = evaluate(stage, e, views)?;
        if !x.is_null() {
            return Ok(x);
        }
    }
    Ok(Value::Null)
}

/// IFNULL(a, b)
#[tactic(auto, using(crate::proofs::Steps::steps, crate::proofs::Branching::two))]
pub fn first_of_two<V: Fn(&mut Stage, &Expr, &Views) -> Result<Value, SqlRefusal>>(
    evaluate: &V,
    around: &Around<'_>,
    stage: &mut Stage,
    a: &Expr,
    b: &Expr,
    views: &Views,
) -> Result<Value, SqlRefusal>
    requires callable { V.IsAlwaysCallable evaluate.now }
    requires gives { Evaluates (V.post evaluate.now) around.now }
    requires leads { LeadsAlways (V.post evaluate.now) }
    ensures gives { EndsAs result (scene_of stage.new) (value_in around.now views.now (on_two Func2.IfNull (view_tree a.now) (view_tree b.now)) (scene_of stage.old)) }
    ensures leads { LeadsOn stage.old stage.new }
{
    let x = evaluate(stage, a, views)?;
    if !x.is_null() {
        return Ok(x);
    }
    let y = evaluate(stage, b, views)?;
    Ok(y)
}
