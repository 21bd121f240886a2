//! SET of locals and user variables.
ghost use Rattle.std.specs.Prelude.{◌≡◌};
ghost use Rattle.sql_tree.specs.Statement.{set_all};
ghost use Rattle.sql_tree.specs.StatementView.{view_assignments};
ghost use Rattle.name_const.specs.catalog_rules.Names.{first_made};
ghost use Rattle.name_const.specs.proc_model.Procedures.{assignment_refusal, assignments_of, local_refusal};
ghost use Rattle.sql_locals.specs.Locals.{find_local};
ghost use Rattle.proc_parts.specs.Calls.{EndsBy, Moves, always, held_of};
ghost use Rattle.proc_parts.specs.Parts.{Assigns, AssignsAll, step_at};

use crate::declaring::take_first;
use crate::doing::do_assigned;
use crate::evaluating::checked_values;
use crate::held::Held;
use crate::runner::{RunRefusal, Runner};
use crate::world::World;
use sql_locals::Locals;
use sql_tree::{Assignment, Target};
use std::alloc::Global;
use val_types::{Bytes, List, SqlError, Value, type_fits};

/// No local of a name.
const NO_VARIABLE: SqlError = 1193;

/// A procedure writes only locals and user variables.
const NOT_ALLOWED: SqlError = 30005;

/// What refuses a value for a local of a name.
#[tactic(auto, using(crate::proofs::Assigned::locals))]
fn local_refusal(locals: &Locals, name: &Bytes, value: &Value) -> Option<SqlError>
    ensures { result ≡ local_refusal (find_local locals.now name.now) value.now }
{
    match locals.find(name) {
        None => Some(NO_VARIABLE),
        Some(local) => match type_fits(local.kind, value) {
            Ok(()) => None,
            Err(code) => Some(code),
        },
    }
}

/// What refuses an assignment.
fn assignment_refusal(locals: &Locals, target: &Target, value: &Value) -> Option<SqlError>
    ensures { result ≡ assignment_refusal locals.now (target.now, value.now) }
{
    match target {
        Target::Plain(name) => local_refusal(locals, name, value),
        Target::User(_) => None,
        Target::New(_) => Some(NO_VARIABLE),
        Target::System(_) => Some(NOT_ALLOWED),
    }
}

/// What refuses the first assignment that is refused.
#[tactic(auto, using(crate::proofs::Assigned::refusals))]
fn first_refusal(locals: &Locals, assignments: &[Assignment], values: &[Value]) -> Option<SqlError>
    ensures { result ≡ first_made (assignment_refusal locals.now) (assignments_of (view_assignments assignments.now) values.now) }
{
    let mut place = 0;
    for assignment in assignments {
        if place >= values.len() {
            return None;
        }
        let refusal = assignment_refusal(locals, &assignment.target, &values[place]);
        if refusal.is_some() {
            return refusal;
        }
        place += 1;
    }
    None
}

/// An assignment that nothing refuses.
#[tactic(auto, using(crate::proofs::Assigned::one_assigned, crate::proofs::Behind::moving))]
fn assign_one<R: Runner>(
    r: &mut R,
    locals: &mut Locals,
    target: &Target,
    value: Value,
) -> Result<(), RunRefusal>
    ensures gives { Assigns R.rules R.faults locals.old locals.new (target.now, value) result r.old r.new }
    ensures moves { Moves (R.faults r.old) (R.faults r.new) 0 0 }
{
    match target {
        Target::Plain(name) => {
            locals.assign(name, value);
        }
        Target::User(name) => r.assign(name, value)?,
        Target::New(_) => {}
        Target::System(_) => {}
    }
    Ok(())
}

/// Assignments from left to right.
#[tactic(auto, using(crate::proofs::Assigned::all_assigned, crate::proofs::Behind::moving))]
fn assign_all<R: Runner>(
    r: &mut R,
    locals: &mut Locals,
    assignments: &List<Assignment>,
    mut values: List<Value>,
) -> Result<(), RunRefusal>
    ensures gives { AssignsAll R.rules R.faults locals.old locals.new (assignments_of (view_assignments assignments.now) values) result r.old r.new }
    ensures moves { Moves (R.faults r.old) (R.faults r.new) 0 0 }
{
    for assignment in assignments.as_slice() {
        let Some(value) = take_first(&mut values) else {
            return Ok(());
        };
        assign_one(r, locals, &assignment.target, value)?;
    }
    Ok(())
}

/// SET: all values by one evaluation; then the first assignment that is refused, or all of them.
///
/// It takes the runner, what the CALL has so far, what is round the statement, and the locals in scope, which it assigns; it
/// gives nothing, or why the procedure ends here.
#[tactic(auto, using(crate::proofs::Assigned::setting, crate::proofs::Behind::moving, crate::proofs::Asked::doing_all))]
pub fn set_step<R: Runner>(
    alloc: Global,
    r: &mut R,
    held: &mut Held,
    world: &World<'_>,
    locals: &mut Locals,
    assignments: &List<Assignment>,
) -> Result<(), RunRefusal>
    ensures gives { EndsBy R.rules R.faults (always locals.new) result (held_of held.new) r.old (step_at world.now locals.old (set_all (view_assignments assignments.now)) (held_of held.old)) r.new }
    ensures moves { Moves (R.faults r.old) (R.faults r.new) held.old.turns held.new.turns }
{
    let question = do_assigned(alloc, assignments)?;
    let values = checked_values(alloc, r, held, world, locals, question.get())?;
    match first_refusal(locals, assignments.as_slice(), values.as_slice()) {
        Some(code) => Err(RunRefusal::Sql { code, holder: None }),
        None => assign_all(r, locals, assignments, values),
    }
}
