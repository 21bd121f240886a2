//! Operators, and IN.
ghost use Rattle.std.specs.Prelude.{◌≡◌, Some, false};
ghost use Rattle.sql_tree.specs.View.{view_tree, view_trees};
ghost use Rattle.sql_tree.specs.Tree.{unary, binary, is_in};
ghost use Rattle.key_order.specs.where_candidates.session_ctx.sql_meaning.Values.{membership};
ghost use Rattle.exec_state.specs.Stage.{EndsAs, LeadsOn, scene_of};
ghost use Rattle.sql_evaluation.specs.Seen.{Evaluates, LeadsAlways, behind_left, compared_in, found_in, value_in};

use crate::lookup::standing;
use crate::views::Views;
use crate::world::Around;
use exec_state::Stage;
use expr_ops::{binary, compare, decided, unary, value_of_truth};
use sql_tree::Expr;
use std::cmp::Ordering;
use val_types::{BinOp, List, SqlRefusal, UnOp, Value};

/// An operator on one operand.
pub fn unary_value<V: Fn(&mut Stage, &Expr, &Views) -> Result<Value, SqlRefusal>>(
    evaluate: &V,
    around: &Around<'_>,
    stage: &mut Stage,
    op: UnOp,
    a: &Expr,
    views: &Views,
) -> Result<Value, SqlRefusal>
    requires callable { V.IsAlwaysCallable evaluate.now }
    requires gives { Evaluates (V.post evaluate.now) around.now }
    requires leads { LeadsAlways (V.post evaluate.now) }
    ensures gives { EndsAs result (scene_of stage.new) (value_in around.now views.now (unary op (view_tree a.now)) (scene_of stage.old)) }
    ensures leads { LeadsOn stage.old stage.new }
{
    match standing(&*around, &*views, &*a) {
        Some(x) => Ok(unary(op, x)?),
        None => Ok(unary(op, &evaluate(stage, a, views)?)?),
    }
}

/// An operator between two operands, of which the right one is left out where the left one decides.
pub fn binary_value<V: Fn(&mut Stage, &Expr, &Views) -> Result<Value, SqlRefusal>>(
    evaluate: &V,
    around: &Around<'_>,
    stage: &mut Stage,
    op: BinOp,
    a: &Expr,
    b: &Expr,
    views: &Views,
) -> Result<Value, SqlRefusal>
    requires callable { V.IsAlwaysCallable evaluate.now }
    requires gives { Evaluates (V.post evaluate.now) around.now }
    requires leads { LeadsAlways (V.post evaluate.now) }
    ensures gives { EndsAs result (scene_of stage.new) (value_in around.now views.now (binary op (view_tree a.now) (view_tree b.now)) (scene_of stage.old)) }
    ensures leads { LeadsOn stage.old stage.new }
{
    match standing(&*around, &*views, &*a) {
        Some(x) => behind_left(evaluate, around, stage, op, x, b, views),
        None => {
            let x = evaluate(stage, a, views)?;
            behind_left(evaluate, around, stage, op, &x, b, views)
        }
    }
}

/// The same, where the left operand is known.
fn behind_left<V: Fn(&mut Stage, &Expr, &Views) -> Result<Value, SqlRefusal>>(
    evaluate: &V,
    around: &Around<'_>,
    stage: &mut Stage,
    op: BinOp,
    x: &Value,
    b: &Expr,
    views: &Views,
) -> Result<Value, SqlRefusal>
    requires callable { V.IsAlwaysCallable evaluate.now }
    requires gives { Evaluates (V.post evaluate.now) around.now }
    requires leads { LeadsAlways (V.post evaluate.now) }
    ensures gives { EndsAs result (scene_of stage.new) (behind_left around.now views.now op x.now (view_tree b.now) (scene_of stage.old)) }
    ensures leads { LeadsOn stage.old stage.new }
{
    if let Some(known) = decided(op, x)? {
        return Ok(known);
    }
    match standing(&*around, &*views, &*b) {
        Some(y) => Ok(binary(op, x, y)?),
        None => Ok(binary(op, x, &evaluate(stage, b, views)?)?),
    }
}

/// How a value stands to that of an expression.
fn compared<V: Fn(&mut Stage, &Expr, &Views) -> Result<Value, SqlRefusal>>(
    evaluate: &V,
    around: &Around<'_>,
    stage: &mut Stage,
    x: &Value,
    e: &Expr,
    views: &Views,
) -> Result<Option<Ordering>, SqlRefusal>
    requires callable { V.IsAlwaysCallable evaluate.now }
    requires gives { Evaluates (V.post evaluate.now) around.now }
    requires leads { LeadsAlways (V.post evaluate.now) }
    ensures gives { EndsAs result (scene_of stage.new) (compared_in around.now views.now x.now (view_tree e.now) (scene_of stage.old)) }
    ensures leads { LeadsOn stage.old stage.new }
{
    match standing(&*around, &*views, &*e) {
        Some(y) => Ok(compare(x, y)?),
        None => Ok(compare(x, &evaluate(stage, e, views)?)?),
    }
}

/// Whether a value is among some, up to the first that is equal; None where one was unknown and none is
/// equal.
#[tactic(auto, using(crate::proofs::Steps::steps, crate::proofs::Branching::found))]
fn found_among<V: Fn(&mut Stage, &Expr, &Views) -> Result<Value, SqlRefusal>>(
    evaluate: &V,
    around: &Around<'_>,
    stage: &mut Stage,
    x: &Value,
    items: &List<Expr>,
    views: &Views,
) -> Result<Option<bool>, SqlRefusal>
    requires callable { V.IsAlwaysCallable evaluate.now }
    requires gives { Evaluates (V.post evaluate.now) around.now }
    requires leads { LeadsAlways (V.post evaluate.now) }
    ensures gives { EndsAs result (scene_of stage.new) (found_in around.now views.now x.now (Some false) (view_trees items.now) (scene_of stage.old)) }
    ensures leads { LeadsOn stage.old stage.new }
{
    let mut so_far = Some(false);
    for item in items.as_slice() {
        match compared(evaluate, around, stage, x, item, views)? {
            None => so_far = None,
            Some(order) => {
                if order.is_eq() {
                    return Ok(Some(true));
                }
            }
        }
    }
    Ok(so_far)
}

/// The value of IN, or of NOT IN where negated.
fn membership_value(negated: bool, found: Option<bool>) -> Value
    ensures { result ≡ membership negated found }
{
    value_of_truth(if negated {
        found.map(|is_there| !is_there)
    } else {
        found
    })
}

/// IN and NOT IN.
pub fn membership<V: Fn(&mut Stage, &Expr, &Views) -> Result<Value, SqlRefusal>>(
    evaluate: &V,
    around: &Around<'_>,
    stage: &mut Stage,
    negated: bool,
    left: &Expr,
    items: &List<Expr>,
    views: &Views,
) -> Result<Value, SqlRefusal>
    requires callable { V.IsAlwaysCallable evaluate.now }
    requires gives { Evaluates (V.post evaluate.now) around.now }
    requires leads { LeadsAlways (V.post evaluate.now) }
    ensures gives { EndsAs result (scene_of stage.new) (value_in around.now views.now (is_in negated (view_tree left.now) (view_trees items.now)) (scene_of stage.old)) }
    ensures leads { LeadsOn stage.old stage.new }
{
    let x = evaluate(stage, left, views)?;
    let found = found_among(evaluate, around, stage, &x, items, views)?;
    Ok(membership_value(negated, found))
}
