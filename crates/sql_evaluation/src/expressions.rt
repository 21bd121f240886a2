//! The value of an expression.
ghost use Rattle.std.specs.Prelude.{◌<◌};
ghost use Rattle.sql_tree.specs.View.{view_tree};
ghost use Rattle.exec_state.specs.Stage.{EndsAs, LeadsOn, scene_of};
ghost use Rattle.sql_evaluation.specs.Seen.{Calls, CallsLead, value_in};

use crate::built_ins::{of_many, of_none, of_one, of_three, of_two};
use crate::choices::case_value;
use crate::functions::{call_value, floor_rand_value};
use crate::lookup::copied;
use crate::operators::{binary_value, membership, unary_value};
use crate::queries::{exists_value, subquery_value};
use crate::session_values::{capped, system_variable, user_variable};
use crate::views::Views;
use crate::world::Around;
use exec_state::{Running, Stage};
use sql_tree::Expr;
use std::alloc::Global;
use val_types::{Bytes, List, SqlRefusal, Value};

/// The value of an expression. Where it is deeper than the levels that are left, memory is short: each
/// level takes a part of the stack.
#[tactic(auto, using(crate::proofs::Steps::steps, crate::proofs::Steps::anywhere_here))]
pub fn value<F: Fn(&mut Stage, &Running<'_>, &Bytes, List<Value>) -> Result<Value, SqlRefusal>>(
    alloc: Global,
    run: &F,
    around: &Around<'_>,
    levels: u16,
    stage: &mut Stage,
    e: &Expr,
    views: &Views,
) -> Result<Value, SqlRefusal>
    requires calls { F.IsAlwaysCallable run.now }
    requires called { Calls (F.post run.now) around.now }
    requires call_leads { CallsLead (F.post run.now) }
    ensures gives { EndsAs result (scene_of stage.new) (value_in around.now views.now (view_tree e.now) (scene_of stage.old)) }
    ensures leads { LeadsOn stage.old stage.new }
{
    if levels == 0 {
        return Err(SqlRefusal::NoMemory);
    }
    let evaluate = |s: &mut Stage, inner: &Expr, vs: &Views| -> Result<Value, SqlRefusal>
        requires left { 0 < levels }
        requires calls { F.IsAlwaysCallable run.now }
        requires called { Calls (F.post run.now) around.now }
        requires call_leads { CallsLead (F.post run.now) }
        ensures gives { EndsAs result (scene_of s.new) (value_in around.entry.now vs.now (view_tree inner.now) (scene_of s.old)) }
        ensures leads { LeadsOn s.old s.new }
    { value(alloc, run, around, levels - 1, s, inner, vs) };
    match e {
        Expr::Literal(value) => capped(alloc, value),
        Expr::NameConst(_, value) => capped(alloc, value),
        Expr::Name(_) => copied(alloc, around, views, e),
        Expr::Column(_, _) => copied(alloc, around, views, e),
        Expr::NewColumn(_) => copied(alloc, around, views, e),
        Expr::OldColumn(_) => copied(alloc, around, views, e),
        Expr::Values(_) => copied(alloc, around, views, e),
        Expr::UserVariable(name) => user_variable(alloc, around, name),
        Expr::SystemVariable(name) => system_variable(around, name),
        Expr::Unary(op, a) => unary_value(&evaluate, around, stage, *op, a.get(), views),
        Expr::Binary(op, a, b) => {
            binary_value(&evaluate, around, stage, *op, a.get(), b.get(), views)
        }
        Expr::In {
            negated,
            left,
            items,
        } => membership(&evaluate, around, stage, *negated, left.get(), items, views),
        Expr::Case { arms, otherwise } => {
            case_value(&evaluate, around, stage, arms, otherwise, views)
        }
        Expr::Subquery(select) => {
            subquery_value(alloc, &evaluate, around, stage, select.get(), views)
        }
        Expr::Exists(select) => exists_value(alloc, &evaluate, around, stage, select.get(), views),
        Expr::Call { name, arguments } => {
            call_value(alloc, run, &evaluate, around, stage, name, arguments, views)
        }
        Expr::FloorRand(a) => floor_rand_value(&evaluate, around, stage, a.get(), views),
        Expr::Func0(f) => of_none(alloc, around, stage, *f),
        Expr::Func1(f, a) => of_one(&evaluate, around, stage, *f, a.get(), views),
        Expr::Func2(f, a, b) => of_two(&evaluate, around, stage, *f, a.get(), b.get(), views),
        Expr::Func3(f, a, b, c) => {
            of_three(
                alloc,
                &evaluate,
                around,
                stage,
                *f,
                a.get(),
                b.get(),
                c.get(),
                views,
            )
        }
        Expr::FuncN(f, arguments) => {
            of_many(alloc, &evaluate, around, stage, *f, arguments, views)
        }
    }
}
