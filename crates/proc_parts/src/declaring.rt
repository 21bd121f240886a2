//! DECLARE, and the parameters of a procedure.
ghost use Rattle.std.specs.Prelude.{◌≡◌, ◌∷◌, [], zip, IfOk, List, Option};
ghost use Rattle.val_types.specs.declared.value.Value.{Value as SqlValue};
ghost use Rattle.sql_tree.specs.StatementView.{view_declaration, view_declarations};
ghost use Rattle.sql_locals.specs.Types.{column_type};
ghost use Rattle.name_const.specs.proc_model.Procedures.{add_local, add_parameter, all_tried};
ghost use Rattle.proc_parts.specs.Calls.{EndsBy, Moves, Tries, always, held_of, plainly};
ghost use Rattle.proc_parts.specs.Parts.{ComesFirst, all_declared_at, declared_at};

use crate::evaluating::preset_value;
use crate::held::Held;
use crate::runner::{RunRefusal, Runner};
use crate::world::World;
use sql_locals::{Local, Locals, column_type};
use sql_tree::{Declaration, Parameter, SqlType};
use std::alloc::{AllocError, Global};
use val_types::{Bytes, ColType, Duplicate, List, NoMemory, SqlRefusal, Value, type_fits};

/// The type that is written so. One past the range of columns, which no program of the catalog has, is want of memory.
fn written_type(kind: SqlType) -> Result<ColType, NoMemory>
    ensures { IfOk result (λ k. k ≡ column_type kind) }
{
    match column_type(kind) {
        Some(kind) => Ok(kind),
        None => Err(AllocError),
    }
}

/// Takes the first of some values out.
pub(crate) fn take_first(values: &mut List<Value>) -> Option<Value>
    ensures { ComesFirst result values.old values.new }
{
    if values.is_empty() {
        return None;
    }
    Some(values.remove(0))
}

/// A local of a name, with a value fitted to its type.
#[tactic(auto, using(crate::proofs::Locals::names))]
fn add_local(
    alloc: Global,
    locals: &mut Locals,
    kind: SqlType,
    value: &Value,
    name: &Bytes,
) -> Result<(), SqlRefusal>
    ensures { Tries (always locals.new) result (add_local kind value.now locals.old name.now) }
{
    let kind = written_type(kind)?;
    type_fits(kind, value)?;
    let name = name.duplicate(alloc)?;
    let value = value.duplicate(alloc)?;
    locals.push(Local { name, kind, value })?;
    Ok(())
}

/// Locals of some names, each with the value.
#[tactic(auto, using(crate::proofs::Locals::all_names))]
fn add_locals(
    alloc: Global,
    locals: &mut Locals,
    kind: SqlType,
    value: &Value,
    names: &List<Bytes>,
) -> Result<(), SqlRefusal>
    ensures { Tries (always locals.new) result (all_tried (add_local kind value.now) locals.old names.now) }
{
    for name in names.as_slice() {
        add_local(alloc, locals, kind, value, name)?;
    }
    Ok(())
}

/// The parameters of a procedure with the values of its arguments.
///
/// It takes the locals, to which it adds one for each parameter that has a value, fitted to its type; it gives nothing, or the
/// error of the first value that does not fit.
#[tactic(auto, using(crate::proofs::Locals::all_parameters))]
pub fn parameters(
    alloc: Global,
    locals: &mut Locals,
    parameters: &List<Parameter>,
    mut values: List<Value>,
) -> Result<(), SqlRefusal>
    ensures { Tries (always locals.new) result (all_tried add_parameter locals.old (zip parameters.now values)) }
{
    for parameter in parameters.as_slice() {
        let Some(value) = take_first(&mut values) else {
            return Ok(());
        };
        add_local(alloc, locals, parameter.kind, &value, &parameter.name)?;
    }
    Ok(())
}

/// One DECLARE: its DEFAULT is evaluated once.
#[tactic(auto, using(crate::proofs::Behind::moving, crate::proofs::Declared::declare_unset, crate::proofs::Declared::declare_done, crate::proofs::Declared::declare_unfit))]
fn declare<R: Runner>(
    alloc: Global,
    r: &mut R,
    held: &mut Held,
    world: &World<'_>,
    locals: &mut Locals,
    declaration: &Declaration,
) -> Result<(), RunRefusal>
    ensures gives { EndsBy R.rules R.faults (always locals.new) result (held_of held.new) r.old (declared_at world.now locals.old (view_declaration declaration.now) (held_of held.old)) r.new }
    ensures moves { Moves (R.faults r.old) (R.faults r.new) held.old.turns held.new.turns }
{
    let value = preset_value(alloc, r, held, world, locals, &declaration.preset)?;
    add_locals(alloc, locals, declaration.kind, &value, &declaration.names)?;
    Ok(())
}

/// The DECLAREs of a block, each behind the one before.
///
/// It takes the runner, what the CALL has so far, what is round the block, and the locals round it, behind which it adds those
/// that are declared; it gives nothing, or why the procedure ends here.
#[tactic(auto, using(crate::proofs::Behind::moving, crate::proofs::Declared::declares_start, crate::proofs::Declared::declares_more, crate::proofs::Declared::declares_fail, crate::proofs::Declared::declares_end))]
pub fn declare_all<R: Runner>(
    alloc: Global,
    r: &mut R,
    held: &mut Held,
    world: &World<'_>,
    locals: &mut Locals,
    declarations: &List<Declaration>,
) -> Result<(), RunRefusal>
    ensures gives { EndsBy R.rules R.faults (always locals.new) result (held_of held.new) r.old (all_declared_at world.now locals.old (view_declarations declarations.now) (held_of held.old)) r.new }
    ensures moves { Moves (R.faults r.old) (R.faults r.new) held.old.turns held.new.turns }
{
    for declaration in declarations.as_slice() {
        declare(alloc, r, held, world, locals, declaration)?;
    }
    Ok(())
}
