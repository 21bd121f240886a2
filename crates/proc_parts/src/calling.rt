//! CALL in a procedure.
ghost use Rattle.std.specs.Prelude.{◌≡◌, None};
ghost use Rattle.sql_tree.specs.Statement.{call_procedure, evaluate};
ghost use Rattle.sql_tree.specs.StatementView.{view};
ghost use Rattle.sql_tree.specs.View.{view_trees};
ghost use Rattle.name_const.specs.catalog_objects.Keys.{objects_of};
ghost use Rattle.name_const.specs.catalog_rules.Checks.{statement_refusal};
ghost use Rattle.name_const.specs.proc_model.Procedures.{scope_of};
ghost use Rattle.proc_parts.specs.Calls.{Calls, CallsMove, EndsBy, Moves, Passes, always, held_of, plainly, world_of};
ghost use Rattle.proc_parts.specs.Parts.{arguments_at, step_at};

use crate::asking::evaluate;
use crate::closing::check_closing;
use crate::doing::do_all;
use crate::held::Held;
use crate::runner::{RunRefusal, Runner};
use crate::world::World;
use sql_locals::Locals;
use sql_tree::{Expr, Stmt};
use std::alloc::Global;
use val_types::{Bytes, List, SqlRefusal, Value};

/// The catalog's checks of a CALL, where locals are in scope.
#[tactic(auto, using(crate::proofs::Called::checks))]
fn check_call(world: &World<'_>, s: &Stmt, locals: &Locals) -> Result<(), SqlRefusal>
    ensures passes { Passes result (statement_refusal (objects_of world.now.catalog.now) (scope_of locals.now) (view s.now)) }
{
    world.catalog.check(s, locals)
}

/// The values of the arguments of a CALL, over which a DO is. Where there is none, nothing is evaluated.
#[tactic(auto, using(crate::proofs::Called::arguments, crate::proofs::Behind::moving))]
fn argument_values<R: Runner>(
    alloc: Global,
    r: &mut R,
    held: &mut Held,
    world: &World<'_>,
    locals: &Locals,
    arguments: &List<Expr>,
    question: &Stmt,
) -> Result<List<Value>, RunRefusal>
    requires is { view question.now ≡ evaluate (view_trees arguments.now) }
    ensures gives { EndsBy R.rules R.faults plainly result (held_of held.new) r.old (arguments_at world.now locals.now (view_trees arguments.now) (held_of held.old)) r.new }
    ensures moves { Moves (R.faults r.old) (R.faults r.new) held.old.turns held.new.turns }
{
    if arguments.is_empty() {
        return Ok(List::new(alloc));
    }
    evaluate(r, held, world.nesting, locals, question)
}

/// What refuses the DO over its arguments, the checks of the CALL, the arguments, then the procedure.
///
/// It takes what carries out a procedure with the values of its arguments (`call`), the runner, what the CALL round it has so
/// far, what is round the statement `s`, the locals in scope, and the name and the arguments of `s`; it gives nothing, or why
/// the procedure ends here.
#[tactic(auto, using(crate::proofs::Called::calling, crate::proofs::Behind::moving))]
pub fn call_step<
    R: Runner,
    F: Fn(&mut R, &mut Held, &Bytes, List<Value>) -> Result<(), RunRefusal>,
>(
    alloc: Global,
    call: &F,
    world: &World<'_>,
    r: &mut R,
    held: &mut Held,
    locals: &Locals,
    s: &Stmt,
    name: &Bytes,
    arguments: &List<Expr>,
) -> Result<(), RunRefusal>
    requires callable { F.IsAlwaysCallable call.now }
    requires calls { Calls R.rules R.faults (F.post call.now) (world_of world.now) }
    requires moved { CallsMove R.faults (F.post call.now) }
    requires is { view s.now ≡ call_procedure name.now (view_trees arguments.now) }
    ensures gives { EndsBy R.rules R.faults (always locals.now) result (held_of held.new) r.old (step_at world.now locals.now (call_procedure name.now (view_trees arguments.now)) (held_of held.old)) r.new }
    ensures moves { Moves (R.faults r.old) (R.faults r.new) held.old.turns held.new.turns }
{
    let question = do_all(alloc, arguments)?;
    check_closing(alloc, question.get(), locals)?;
    check_call(world, s, locals)?;
    let values = argument_values(alloc, r, held, world, locals, arguments, question.get())?;
    call(r, held, name, values)
}
