//! The values of expressions of a procedure.
ghost use Rattle.std.specs.Prelude.{◌≡◌, true};
ghost use Rattle.sql_tree.specs.StatementView.{view};
ghost use Rattle.sql_tree.specs.View.{view_part, view_tree};
ghost use Rattle.name_const.specs.sql_meaning.Within.{do_one};
ghost use Rattle.name_const.specs.proc_model.Procedures.{first_value};
ghost use Rattle.proc_parts.specs.Calls.{EndsBy, Moves, held_of, is_do, plainly};
ghost use Rattle.proc_parts.specs.Parts.{holds_at, preset_at, value_at, values_at};

use crate::asking::evaluate;
use crate::closing::check_closing;
use crate::doing::do_one;
use crate::held::Held;
use crate::runner::{RunRefusal, Runner};
use crate::world::World;
use expr_ops::holds;
use sql_locals::Locals;
use sql_tree::{Expr, Stmt};
use std::alloc::Global;
use val_types::{List, Value};

/// The values of the expressions of a DO, behind what refuses to close it.
#[tactic(auto, using(crate::proofs::Evaluated::evaluating, crate::proofs::Behind::moving))]
pub(crate) fn checked_values<R: Runner>(
    alloc: Global,
    r: &mut R,
    held: &mut Held,
    world: &World<'_>,
    locals: &Locals,
    s: &Stmt,
) -> Result<List<Value>, RunRefusal>
    requires is { is_do (view s.now) ≡ true }
    ensures gives { EndsBy R.rules R.faults plainly result (held_of held.new) r.old (values_at world.now locals.now (view s.now) (held_of held.old)) r.new }
    ensures moves { Moves (R.faults r.old) (R.faults r.new) held.old.turns held.new.turns }
{
    check_closing(alloc, s, locals)?;
    evaluate(r, held, world.nesting, locals, s)
}

/// The first of some values, NULL where there is none.
#[tactic(auto, using(crate::proofs::Evaluated::firsts))]
fn first_of(mut values: List<Value>) -> Value
    ensures { result ≡ first_value values }
{
    if values.is_empty() {
        return Value::Null;
    }
    values.remove(0)
}

/// The value of the expression of a DO.
#[tactic(auto, using(crate::proofs::Evaluated::valuing, crate::proofs::Behind::moving))]
fn value_of<R: Runner>(
    alloc: Global,
    r: &mut R,
    held: &mut Held,
    world: &World<'_>,
    locals: &Locals,
    s: &Stmt,
) -> Result<Value, RunRefusal>
    requires is { is_do (view s.now) ≡ true }
    ensures gives { EndsBy R.rules R.faults plainly result (held_of held.new) r.old (value_at world.now locals.now (view s.now) (held_of held.old)) r.new }
    ensures moves { Moves (R.faults r.old) (R.faults r.new) held.old.turns held.new.turns }
{
    let values = checked_values(alloc, r, held, world, locals, s)?;
    Ok(first_of(values))
}

/// Whether the condition holds over which a DO is; unknown does not.
#[tactic(auto, using(crate::proofs::Behind::moving, crate::proofs::Conditions::holds_untold, crate::proofs::Conditions::holds_told, crate::proofs::Conditions::holds_mixed))]
fn question_holds<R: Runner>(
    alloc: Global,
    r: &mut R,
    held: &mut Held,
    world: &World<'_>,
    locals: &Locals,
    s: &Stmt,
) -> Result<bool, RunRefusal>
    requires is { is_do (view s.now) ≡ true }
    ensures gives { EndsBy R.rules R.faults plainly result (held_of held.new) r.old (holds_at world.now locals.now (view s.now) (held_of held.old)) r.new }
    ensures moves { Moves (R.faults r.old) (R.faults r.new) held.old.turns held.new.turns }
{
    let value = value_of(alloc, r, held, world, locals, s)?;
    match holds(&value) {
        Ok(goes) => Ok(goes),
        Err(code) => Err(RunRefusal::Sql { code, holder: None }),
    }
}

/// Whether a condition holds; unknown does not. The DO over it ends here, so that IF and WHILE, which nest, keep nothing of it
/// on the stack.
///
/// It takes the runner, what the CALL has so far, what is round the statement, and the locals in scope; it gives whether the
/// condition holds, or why the procedure ends here.
#[tactic(auto, using(crate::proofs::Behind::moving, crate::proofs::Conditions::holds_asked, crate::proofs::Asked::doing_one))]
pub fn condition_holds<R: Runner>(
    alloc: Global,
    r: &mut R,
    held: &mut Held,
    world: &World<'_>,
    locals: &Locals,
    condition: &Expr,
) -> Result<bool, RunRefusal>
    ensures gives { EndsBy R.rules R.faults plainly result (held_of held.new) r.old (holds_at world.now locals.now (do_one (view_tree condition.now)) (held_of held.old)) r.new }
    ensures moves { Moves (R.faults r.old) (R.faults r.new) held.old.turns held.new.turns }
{
    let question = do_one(alloc, condition)?;
    question_holds(alloc, r, held, world, locals, question.get())
}

/// The DEFAULT of a DECLARE, NULL where there is none.
#[tactic(auto, using(crate::proofs::Behind::moving, crate::proofs::Conditions::preset_none, crate::proofs::Conditions::preset_some, crate::proofs::Asked::doing_one))]
pub(crate) fn preset_value<R: Runner>(
    alloc: Global,
    r: &mut R,
    held: &mut Held,
    world: &World<'_>,
    locals: &Locals,
    preset: &Option<Expr>,
) -> Result<Value, RunRefusal>
    ensures gives { EndsBy R.rules R.faults plainly result (held_of held.new) r.old (preset_at world.now locals.now (view_part preset.now) (held_of held.old)) r.new }
    ensures moves { Moves (R.faults r.old) (R.faults r.new) held.old.turns held.new.turns }
{
    match preset {
        None => Ok(Value::Null),
        Some(e) => {
            let question = do_one(alloc, e)?;
            value_of(alloc, r, held, world, locals, question.get())
        }
    }
}
