//! The statements of a procedure.
ghost use Rattle.std.specs.Prelude.{◌≡◌, true};
ghost use Rattle.sql_tree.specs.Statement.{block, while_steps};
ghost use Rattle.sql_tree.specs.StatementView.{view, view_declarations, view_otherwise, view_statements};
ghost use Rattle.sql_tree.specs.View.{view_tree};
ghost use Rattle.proc_parts.specs.proc_model.Procedures.{is_plain};
ghost use Rattle.proc_parts.specs.Calls.{Calls, CallsMove, EndsBy, Moves, always, held_of, world_of};
ghost use Rattle.proc_parts.specs.Parts.{step_at};
ghost use Rattle.proc_run.specs.Steps.{has_form, is_if, is_leaf, otherwise_at, steps_at};

use proc_parts::{
    Held, RunRefusal, Runner, World, call_step, condition_holds, declare_all, plain_step, set_step,
};
use sql_locals::Locals;
use sql_tree::{Declaration, Expr, Stmt};
use std::alloc::Global;
use val_types::{Bytes, List, SqlError, Value};

/// No turn of WHILE is left.
const TOO_MANY_TURNS: SqlError = 30004;

/// A statement that no procedure may hold.
const NOT_ALLOWED: SqlError = 30005;

/// Whether a statement is a change, a SELECT or a DO.
fn is_plain(s: &Stmt) -> bool
    ensures { result ≡ is_plain (view s.now) }
{
    matches!(
        s,
        Stmt::Insert(_)
            | Stmt::Replace(_)
            | Stmt::Update(_)
            | Stmt::Delete(_)
            | Stmt::Select(_)
            | Stmt::Do(_)
    )
}

/// Whether a procedure may hold a statement.
fn has_form(s: &Stmt) -> bool
    ensures { result ≡ has_form (view s.now) }
{
    matches!(
        s,
        Stmt::Insert(_)
            | Stmt::Replace(_)
            | Stmt::Update(_)
            | Stmt::Delete(_)
            | Stmt::Select(_)
            | Stmt::Do(_)
            | Stmt::Block { .. }
            | Stmt::If { .. }
            | Stmt::While { .. }
            | Stmt::Set(_)
            | Stmt::Call { .. }
    )
}

/// A statement that holds no others; it is given no block, IF or WHILE.
///
/// Statements nest 197 deep in 16 procedures, so what takes much of the stack stands here and not in `step`. That calls it at
/// two places, since Rattle's own compiler puts a function that is called at one place into its caller.
#[tactic(auto, using(proc_parts::proofs::Behind::moving, crate::proofs::Performed::step_plain, crate::proofs::Performed::step_none))]
fn leaf_step<R: Runner, F: Fn(&mut R, &mut Held, &Bytes, List<Value>) -> Result<(), RunRefusal>>(
    alloc: Global,
    call: &F,
    world: &World<'_>,
    r: &mut R,
    held: &mut Held,
    locals: &mut Locals,
    s: &Stmt,
) -> Result<(), RunRefusal>
    requires leaf { is_leaf (view s.now) ≡ true }
    requires callable { F.IsAlwaysCallable call.now }
    requires calls { Calls R.rules R.faults (F.post call.now) (world_of world.now) }
    requires moved { CallsMove R.faults (F.post call.now) }
    ensures gives { EndsBy R.rules R.faults (always locals.new) result (held_of held.new) r.old (step_at world.now locals.old (view s.now) (held_of held.old)) r.new }
    ensures moves { Moves (R.faults r.old) (R.faults r.new) held.old.turns held.new.turns }
{
    if is_plain(s) {
        return plain_step(alloc, r, held, world, locals, s);
    }
    if !has_form(s) {
        return Err(RunRefusal::Sql {
            code: NOT_ALLOWED,
            holder: None,
        });
    }
    match s {
        Stmt::Set(assignments) => set_step(alloc, r, held, world, locals, assignments),
        Stmt::Call { name, arguments } => {
            call_step(alloc, call, world, r, held, locals, s, name, arguments)
        }
        _ => unreachable!(),
    }
}

/// A statement of a procedure. Most are plain, and go first.
#[cycle(step)]
#[tactic(auto, using(proc_parts::proofs::Behind::moving, crate::proofs::Performed::plain_leaf))]
pub(crate) fn step<
    R: Runner,
    F: Fn(&mut R, &mut Held, &Bytes, List<Value>) -> Result<(), RunRefusal>,
>(
    alloc: Global,
    call: &F,
    world: &World<'_>,
    r: &mut R,
    held: &mut Held,
    locals: &mut Locals,
    s: &Stmt,
) -> Result<(), RunRefusal>
    requires callable { F.IsAlwaysCallable call.now }
    requires calls { Calls R.rules R.faults (F.post call.now) (world_of world.now) }
    requires moved { CallsMove R.faults (F.post call.now) }
    ensures gives { EndsBy R.rules R.faults (always locals.new) result (held_of held.new) r.old (step_at world.now locals.old (view s.now) (held_of held.old)) r.new }
    ensures moves { Moves (R.faults r.old) (R.faults r.new) held.old.turns held.new.turns }
{
    if is_plain(s) {
        return leaf_step(alloc, call, world, r, held, locals, s);
    }
    match s {
        Stmt::Block { declarations, body } => block_step(
            alloc,
            call,
            world,
            r,
            held,
            locals,
            declarations,
            body,
        ),
        Stmt::If { .. } => if_step(alloc, call, world, r, held, locals, s),
        Stmt::While { condition, steps } => while_step(
            alloc, call, world, r, held, locals, steps, condition,
        ),
        _ => leaf_step(alloc, call, world, r, held, locals, s),
    }
}

/// Statements, one after the other.
#[cycle(step)]
#[tactic(auto, using(proc_parts::proofs::Behind::moving, crate::proofs::Stepping::steps_start, crate::proofs::Stepping::steps_more, crate::proofs::Stepping::steps_fail, crate::proofs::Stepping::steps_end))]
fn steps<R: Runner, F: Fn(&mut R, &mut Held, &Bytes, List<Value>) -> Result<(), RunRefusal>>(
    alloc: Global,
    call: &F,
    world: &World<'_>,
    r: &mut R,
    held: &mut Held,
    locals: &mut Locals,
    list: &List<Stmt>,
) -> Result<(), RunRefusal>
    requires callable { F.IsAlwaysCallable call.now }
    requires calls { Calls R.rules R.faults (F.post call.now) (world_of world.now) }
    requires moved { CallsMove R.faults (F.post call.now) }
    ensures gives { EndsBy R.rules R.faults (always locals.new) result (held_of held.new) r.old (steps_at world.now locals.old (view_statements list.now) (held_of held.old)) r.new }
    ensures moves { Moves (R.faults r.old) (R.faults r.new) held.old.turns held.new.turns }
{
    for s in list.as_slice() {
        step(alloc, call, world, r, held, locals, s)?;
    }
    Ok(())
}

/// A block: its locals end with it.
#[cycle(step)]
#[tactic(auto, using(proc_parts::proofs::Behind::moving, crate::proofs::Stepping::block_undeclared, crate::proofs::Stepping::block_fails, crate::proofs::Stepping::block_done))]
fn block_step<R: Runner, F: Fn(&mut R, &mut Held, &Bytes, List<Value>) -> Result<(), RunRefusal>>(
    alloc: Global,
    call: &F,
    world: &World<'_>,
    r: &mut R,
    held: &mut Held,
    locals: &mut Locals,
    declarations: &List<Declaration>,
    list: &List<Stmt>,
) -> Result<(), RunRefusal>
    requires callable { F.IsAlwaysCallable call.now }
    requires calls { Calls R.rules R.faults (F.post call.now) (world_of world.now) }
    requires moved { CallsMove R.faults (F.post call.now) }
    ensures gives { EndsBy R.rules R.faults (always locals.new) result (held_of held.new) r.old (step_at world.now locals.old (block (view_declarations declarations.now) (view_statements list.now)) (held_of held.old)) r.new }
    ensures moves { Moves (R.faults r.old) (R.faults r.new) held.old.turns held.new.turns }
{
    let outer = locals.count();
    declare_all(alloc, r, held, world, locals, declarations)?;
    steps(alloc, call, world, r, held, locals, list)?;
    locals.cut(outer);
    Ok(())
}

/// The statements behind ELSE, if there is one.
#[cycle(step)]
#[tactic(auto, using(proc_parts::proofs::Behind::moving, crate::proofs::Stepping::else_absent, crate::proofs::Stepping::else_there))]
fn else_step<R: Runner, F: Fn(&mut R, &mut Held, &Bytes, List<Value>) -> Result<(), RunRefusal>>(
    alloc: Global,
    call: &F,
    world: &World<'_>,
    r: &mut R,
    held: &mut Held,
    locals: &mut Locals,
    otherwise: &Option<List<Stmt>>,
) -> Result<(), RunRefusal>
    requires callable { F.IsAlwaysCallable call.now }
    requires calls { Calls R.rules R.faults (F.post call.now) (world_of world.now) }
    requires moved { CallsMove R.faults (F.post call.now) }
    ensures gives { EndsBy R.rules R.faults (always locals.new) result (held_of held.new) r.old (otherwise_at world.now locals.old (view_otherwise otherwise.now) (held_of held.old)) r.new }
    ensures moves { Moves (R.faults r.old) (R.faults r.new) held.old.turns held.new.turns }
{
    match otherwise {
        None => Ok(()),
        Some(list) => steps(alloc, call, world, r, held, locals, list),
    }
}

/// IF: the statements behind the first condition that holds, or else those behind ELSE. It is given no other statement.
#[cycle(step)]
#[tactic(auto, using(proc_parts::proofs::Behind::moving, crate::proofs::Stepping::if_start, crate::proofs::Stepping::branches_skip, crate::proofs::Stepping::branches_fail, crate::proofs::Stepping::branches_here, crate::proofs::Stepping::branches_end))]
fn if_step<R: Runner, F: Fn(&mut R, &mut Held, &Bytes, List<Value>) -> Result<(), RunRefusal>>(
    alloc: Global,
    call: &F,
    world: &World<'_>,
    r: &mut R,
    held: &mut Held,
    locals: &mut Locals,
    s: &Stmt,
) -> Result<(), RunRefusal>
    requires if_steps { is_if (view s.now) ≡ true }
    requires callable { F.IsAlwaysCallable call.now }
    requires calls { Calls R.rules R.faults (F.post call.now) (world_of world.now) }
    requires moved { CallsMove R.faults (F.post call.now) }
    ensures gives { EndsBy R.rules R.faults (always locals.new) result (held_of held.new) r.old (step_at world.now locals.old (view s.now) (held_of held.old)) r.new }
    ensures moves { Moves (R.faults r.old) (R.faults r.new) held.old.turns held.new.turns }
{
    let Stmt::If { arms, otherwise } = s else {
        unreachable!()
    };
    for arm in arms.as_slice() {
        if condition_holds(alloc, r, held, world, locals, &arm.condition)? {
            return steps(alloc, call, world, r, held, locals, &arm.steps);
        }
    }
    else_step(alloc, call, world, r, held, locals, otherwise)
}

/// WHILE: a turn is spent where the condition holds.
#[cycle(step)]
#[tactic(auto, using(proc_parts::proofs::Behind::moving, crate::proofs::Stepping::turns_start, crate::proofs::Stepping::turns_past, crate::proofs::Stepping::turns_untested, crate::proofs::Stepping::turns_unspent, crate::proofs::Stepping::turns_fail, crate::proofs::Stepping::turns_more))]
fn while_step<R: Runner, F: Fn(&mut R, &mut Held, &Bytes, List<Value>) -> Result<(), RunRefusal>>(
    alloc: Global,
    call: &F,
    world: &World<'_>,
    r: &mut R,
    held: &mut Held,
    locals: &mut Locals,
    list: &List<Stmt>,
    condition: &Expr,
) -> Result<(), RunRefusal>
    requires callable { F.IsAlwaysCallable call.now }
    requires calls { Calls R.rules R.faults (F.post call.now) (world_of world.now) }
    requires moved { CallsMove R.faults (F.post call.now) }
    ensures gives { EndsBy R.rules R.faults (always locals.new) result (held_of held.new) r.old (step_at world.now locals.old (while_steps (view_tree condition.now) (view_statements list.now)) (held_of held.old)) r.new }
    ensures moves { Moves (R.faults r.old) (R.faults r.new) held.old.turns held.new.turns }
{
    while condition_holds(alloc, r, held, world, locals, condition)? {
        if held.turns == 0 {
            return Err(RunRefusal::Sql {
                code: TOO_MANY_TURNS,
                holder: None,
            });
        }
        held.turns -= 1;
        steps(alloc, call, world, r, held, locals, list)?;
    }
    Ok(())
}
