//! Procedures, one inside the other.
ghost use Rattle.std.specs.Prelude.{◌≡◌, ◌<◌, ◌-◌, ◌∷◌, None};
ghost use Rattle.proc_parts.specs.declared.runner.RunRefusal.TheVariants.{Sql};
ghost use Rattle.sql_tree.specs.StatementView.{view_program};
ghost use Rattle.proc_parts.specs.catalog_objects.Keys.{objects_of};
ghost use Rattle.proc_parts.specs.sql_evaluation.Seen.{running_of};
ghost use Rattle.proc_parts.specs.Calls.{EndsBy, Moves, held_of, plainly, world_of};
ghost use Rattle.proc_run.specs.Steps.{body_at};

use crate::steps::step;
use exec_state::Running;
use proc_parts::exec_body_checks::is_called;
use proc_parts::{Held, RunRefusal, Runner, World, parameters};
use sql_locals::Locals;
use sql_tree::Routine;
use std::alloc::Global;
use val_types::{Bytes, List, SqlError, Value};

/// A name that is no procedure's.
const NO_SUCH_PROCEDURE: SqlError = 1305;

/// Another number of arguments than the procedure has parameters.
const OTHER_COUNT: SqlError = 1318;

/// The procedure is running already.
const RUNNING_ALREADY: SqlError = 1456;

/// As many programs are running one inside the other as may be.
const NESTED_TOO_DEEP: SqlError = 30003;

/// An error of the procedure's own.
fn refused(code: SqlError) -> RunRefusal
    ensures { result ≡ Sql code None }
{
    RunRefusal::Sql { code, holder: None }
}

/// A procedure inside those that are running.
#[tactic(auto, using(crate::proofs::Nested::procedure_inside))]
fn inside<'a>(name: &'a Bytes, running: &'a Running<'a>) -> Running<'a>
    ensures { (running_of result).functions ≡ name.now ∷ (running_of running.now).functions }
{
    Running::Function(name, running)
}

/// What is round the statements of a procedure, one level of nesting further down.
fn further_down<'a>(world: &World<'a>, running: &'a Running<'a>) -> World<'a>
    requires { 0 < world.now.nesting }
    ensures catalog { objects_of result.catalog.now ≡ objects_of world.now.catalog.now }
    ensures nesting { result.nesting ≡ world.now.nesting - 1 }
    ensures running { running_of result.running.now ≡ running_of running.now }
{
    World {
        catalog: world.catalog,
        nesting: world.nesting - 1,
        running,
    }
}

/// The body of a procedure, behind its parameters.
#[cycle(nesting)]
#[tactic(auto, using(crate::proofs::Nested::bodies, proc_parts::proofs::Behind::moving))]
fn run_procedure<R: Runner>(
    alloc: Global,
    world: &World<'_>,
    r: &mut R,
    held: &mut Held,
    routine: &Routine,
    values: List<Value>,
) -> Result<(), RunRefusal>
    ensures gives { EndsBy R.rules R.faults plainly result (held_of held.new) r.old (body_at world.now (view_program routine.now) values (held_of held.old)) r.new }
    ensures moves { Moves (R.faults r.old) (R.faults r.new) held.old.turns held.new.turns }
{
    let call = |r: &mut R, held: &mut Held, name: &Bytes, values: List<Value>| -> Result<
        (),
        RunRefusal,
    >
        ensures gives { EndsBy R.rules R.faults plainly result (held_of held.new) r.old ((world_of world.entry.now).call name.now values (held_of held.old)) r.new }
        ensures moves { Moves (R.faults r.old) (R.faults r.new) held.old.turns held.new.turns }
    { call_procedure(alloc, world, r, held, name, values) };
    let mut locals = Locals::new(alloc);
    parameters(alloc, &mut locals, &routine.parameters, values)?;
    step(alloc, &call, world, r, held, &mut locals, &routine.body)
}

/// A CALL with the values of its arguments: 1305 where there is no such procedure, 1318 for another number of arguments,
/// 1456 where it is running already, 30003 where it would be nested too deep.
#[cycle(nesting)]
#[tactic(auto, using(crate::proofs::Nested::nested, proc_parts::proofs::Behind::moving))]
pub(crate) fn call_procedure<R: Runner>(
    alloc: Global,
    world: &World<'_>,
    r: &mut R,
    held: &mut Held,
    name: &Bytes,
    values: List<Value>,
) -> Result<(), RunRefusal>
    ensures gives { EndsBy R.rules R.faults plainly result (held_of held.new) r.old ((world_of world.now).call name.now values (held_of held.old)) r.new }
    ensures moves { Moves (R.faults r.old) (R.faults r.new) held.old.turns held.new.turns }
{
    let Some(routine) = world.catalog.routine(name, false) else {
        return Err(refused(NO_SUCH_PROCEDURE));
    };
    if routine.parameters.len() != values.len() {
        return Err(refused(OTHER_COUNT));
    }
    if is_called(world.running, name) {
        return Err(refused(RUNNING_ALREADY));
    }
    if world.nesting == 0 {
        return Err(refused(NESTED_TOO_DEEP));
    }
    let running = inside(&*name, &*world.running);
    let inner = further_down(&*world, &running);
    run_procedure(alloc, &inner, r, held, routine, values)
}
