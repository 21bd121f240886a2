//! Built-in functions, by their number of arguments.
ghost use Rattle.std.specs.Prelude.{◌≡◌};
ghost use Rattle.val_types.specs.declared.ops.Func.{Func};
ghost use Rattle.sql_tree.specs.BuiltIns.{about, all_arguments, on_many, on_one, on_three, on_two};
ghost use Rattle.sql_tree.specs.View.{view_tree, view_trees};
ghost use Rattle.key_order.specs.where_candidates.session_ctx.sql_meaning.Values.{session_value};
ghost use Rattle.exec_state.specs.Stage.{EndsAs, LeadsOn, scene_of};
ghost use Rattle.sql_evaluation.specs.Seen.{Evaluates, LeadsAlways, value_in, world_of};

use crate::choices::{first_known, first_of_two, if_value};
use crate::lookup::standing;
use crate::session_values::{
    connection_id, last_insert_id, now, row_count, sys_date, unix_timestamp, user, uuid,
};
use crate::value_lists::values;
use crate::views::Views;
use crate::world::Around;
use exec_state::Stage;
use expr_ops::{value_of_many, value_of_one, value_of_three};
use sql_tree::Expr;
use std::alloc::Global;
use val_types::{Func0, Func1, Func2, Func3, FuncN, List, SqlRefusal, Value};

/// A built-in function without arguments: what the session gives.
#[tactic(auto, using(crate::proofs::Steps::steps, crate::proofs::Steps::anywhere_here))]
pub fn of_none(
    alloc: Global,
    around: &Around<'_>,
    stage: &mut Stage,
    f: Func0,
) -> Result<Value, SqlRefusal>
    ensures gives { EndsAs result (scene_of stage.new) (session_value (world_of around.now) f (scene_of stage.old)) }
    ensures leads { LeadsOn stage.old stage.new }
{
    match f {
        Func0::Now => now(alloc, around),
        Func0::UnixTimestamp => unix_timestamp(around),
        Func0::SysDate => sys_date(alloc, around),
        Func0::User => user(alloc, around),
        Func0::Uuid => uuid(alloc, around, stage),
        Func0::ConnectionId => connection_id(around),
        Func0::LastInsertId => last_insert_id(around),
        Func0::RowCount => row_count(around),
    }
}

/// A built-in function of one argument.
#[tactic(auto, using(crate::proofs::Steps::steps, crate::proofs::BuiltIns::one))]
pub fn of_one<V: Fn(&mut Stage, &Expr, &Views) -> Result<Value, SqlRefusal>>(
    evaluate: &V,
    around: &Around<'_>,
    stage: &mut Stage,
    f: Func1,
    a: &Expr,
    views: &Views,
) -> Result<Value, SqlRefusal>
    requires callable { V.IsAlwaysCallable evaluate.now }
    requires gives { Evaluates (V.post evaluate.now) around.now }
    requires leads { LeadsAlways (V.post evaluate.now) }
    ensures gives { EndsAs result (scene_of stage.new) (value_in around.now views.now (on_one f (view_tree a.now)) (scene_of stage.old)) }
    ensures leads { LeadsOn stage.old stage.new }
{
    match standing(&*around, &*views, &*a) {
        Some(x) => Ok(value_of_one(f, x)?),
        None => Ok(value_of_one(f, &evaluate(stage, a, views)?)?),
    }
}

/// A built-in function of two arguments.
pub fn of_two<V: Fn(&mut Stage, &Expr, &Views) -> Result<Value, SqlRefusal>>(
    evaluate: &V,
    around: &Around<'_>,
    stage: &mut Stage,
    f: Func2,
    a: &Expr,
    b: &Expr,
    views: &Views,
) -> Result<Value, SqlRefusal>
    requires callable { V.IsAlwaysCallable evaluate.now }
    requires gives { Evaluates (V.post evaluate.now) around.now }
    requires leads { LeadsAlways (V.post evaluate.now) }
    ensures gives { EndsAs result (scene_of stage.new) (value_in around.now views.now (on_two f (view_tree a.now) (view_tree b.now)) (scene_of stage.old)) }
    ensures leads { LeadsOn stage.old stage.new }
{
    match f {
        Func2::IfNull => first_of_two(evaluate, around, stage, a, b, views),
    }
}

/// A built-in function of three arguments.
pub fn of_three<V: Fn(&mut Stage, &Expr, &Views) -> Result<Value, SqlRefusal>>(
    alloc: Global,
    evaluate: &V,
    around: &Around<'_>,
    stage: &mut Stage,
    f: Func3,
    a: &Expr,
    b: &Expr,
    c: &Expr,
    views: &Views,
) -> Result<Value, SqlRefusal>
    requires callable { V.IsAlwaysCallable evaluate.now }
    requires gives { Evaluates (V.post evaluate.now) around.now }
    requires leads { LeadsAlways (V.post evaluate.now) }
    ensures gives { EndsAs result (scene_of stage.new) (value_in around.now views.now (on_three f (view_tree a.now) (view_tree b.now) (view_tree c.now)) (scene_of stage.old)) }
    ensures leads { LeadsOn stage.old stage.new }
{
    match f {
        Func3::If => if_value(evaluate, around, stage, a, b, c, views),
        Func3::Substring => all_three(alloc, evaluate, around, stage, f, a, b, c, views),
    }
}

/// A built-in function of one argument or more.
pub fn of_many<V: Fn(&mut Stage, &Expr, &Views) -> Result<Value, SqlRefusal>>(
    alloc: Global,
    evaluate: &V,
    around: &Around<'_>,
    stage: &mut Stage,
    f: FuncN,
    arguments: &List<Expr>,
    views: &Views,
) -> Result<Value, SqlRefusal>
    requires callable { V.IsAlwaysCallable evaluate.now }
    requires gives { Evaluates (V.post evaluate.now) around.now }
    requires leads { LeadsAlways (V.post evaluate.now) }
    ensures gives { EndsAs result (scene_of stage.new) (value_in around.now views.now (on_many f (view_trees arguments.now)) (scene_of stage.old)) }
    ensures leads { LeadsOn stage.old stage.new }
{
    match f {
        FuncN::Coalesce => first_known(evaluate, around, stage, arguments, views),
        FuncN::Concat => all_many(alloc, evaluate, around, stage, f, arguments, views),
    }
}

/// A function of three arguments that evaluates all of them.
#[tactic(auto, using(crate::proofs::Steps::steps, crate::proofs::Steps::stage_on_twice, crate::proofs::BuiltIns::three))]
fn all_three<V: Fn(&mut Stage, &Expr, &Views) -> Result<Value, SqlRefusal>>(
    alloc: Global,
    evaluate: &V,
    around: &Around<'_>,
    stage: &mut Stage,
    f: Func3,
    a: &Expr,
    b: &Expr,
    c: &Expr,
    views: &Views,
) -> Result<Value, SqlRefusal>
    requires all { (about (Func.Three f)).manner ≡ all_arguments }
    requires callable { V.IsAlwaysCallable evaluate.now }
    requires gives { Evaluates (V.post evaluate.now) around.now }
    requires leads { LeadsAlways (V.post evaluate.now) }
    ensures gives { EndsAs result (scene_of stage.new) (value_in around.now views.now (on_three f (view_tree a.now) (view_tree b.now) (view_tree c.now)) (scene_of stage.old)) }
    ensures leads { LeadsOn stage.old stage.new }
{
    let _ = around;
    let a = evaluate(stage, a, views)?;
    let b = evaluate(stage, b, views)?;
    let c = evaluate(stage, c, views)?;
    value_of_three(alloc, f, &a, &b, &c)
}

/// A function of one argument or more that evaluates all of them.
#[tactic(auto, using(crate::proofs::Steps::steps, crate::proofs::BuiltIns::many))]
fn all_many<V: Fn(&mut Stage, &Expr, &Views) -> Result<Value, SqlRefusal>>(
    alloc: Global,
    evaluate: &V,
    around: &Around<'_>,
    stage: &mut Stage,
    f: FuncN,
    arguments: &List<Expr>,
    views: &Views,
) -> Result<Value, SqlRefusal>
    requires all { (about (Func.Many f)).manner ≡ all_arguments }
    requires callable { V.IsAlwaysCallable evaluate.now }
    requires gives { Evaluates (V.post evaluate.now) around.now }
    requires leads { LeadsAlways (V.post evaluate.now) }
    ensures gives { EndsAs result (scene_of stage.new) (value_in around.now views.now (on_many f (view_trees arguments.now)) (scene_of stage.old)) }
    ensures leads { LeadsOn stage.old stage.new }
{
    let arguments = values(alloc, evaluate, around, stage, arguments, views)?;
    value_of_many(alloc, f, &arguments)
}
