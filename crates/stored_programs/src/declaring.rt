//! DECLARE.
ghost use Rattle.std.specs.Prelude.{◌≡◌};
ghost use Rattle.sql_tree.specs.StatementView.{view_declaration, view_declarations};
ghost use Rattle.sql_statements.specs.sql_meaning.Scenes.{carried_on};
ghost use Rattle.sql_statements.specs.sql_meaning.Running.{declare_name};
ghost use Rattle.exec_state.specs.Stage.{EndsAsBy, LeadsOn, scene_of};
ghost use Rattle.sql_evaluation.specs.Seen.{Calls, CallsLead};
ghost use Rattle.stored_programs.specs.Bodies.{AnywhereBy, body_of, body_then};
ghost use Rattle.stored_programs.specs.Steps.{all_declared_in, declared_in};

use crate::body::{Body, written_type};
use crate::evaluating::preset_value;
use exec_state::{Running, Stage};
use sql_evaluation::Around;
use sql_locals::Local;
use sql_tree::{Declaration, SqlType};
use std::alloc::Global;
use val_types::{Bytes, Duplicate, List, SqlRefusal, Value, type_fits};

/// A local of a name, with a value fitted to its type.
#[tactic(auto, using(crate::proofs::Declared::names))]
fn declare_name(
    alloc: Global,
    body: &mut Body,
    kind: SqlType,
    value: &Value,
    name: &Bytes,
) -> Result<(), SqlRefusal>
    ensures { AnywhereBy (body_then body.new) result (declare_name kind value.now (body_of body.old) name.now) }
{
    let kind = written_type(kind)?;
    type_fits(kind, value)?;
    let name = name.duplicate(alloc)?;
    let value = value.duplicate(alloc)?;
    body.locals.push(Local { name, kind, value })?;
    Ok(())
}

/// Locals of some names, each with the value.
#[tactic(auto, using(crate::proofs::Declared::all_names))]
fn declare_names(
    alloc: Global,
    body: &mut Body,
    kind: SqlType,
    value: &Value,
    names: &List<Bytes>,
) -> Result<(), SqlRefusal>
    ensures { AnywhereBy (body_then body.new) result (carried_on (declare_name kind value.now) (body_of body.old) names.now) }
{
    for name in names.as_slice() {
        declare_name(alloc, body, kind, value, name)?;
    }
    Ok(())
}

/// One DECLARE: its DEFAULT is evaluated once.
#[tactic(auto, using(exec_state::proofs::Leading::leading))]
fn declare<F: Fn(&mut Stage, &Running<'_>, &Bytes, List<Value>) -> Result<Value, SqlRefusal>>(
    alloc: Global,
    run: &F,
    around: &Around<'_>,
    stage: &mut Stage,
    body: &mut Body,
    declaration: &Declaration,
) -> Result<(), SqlRefusal>
    requires calls { F.IsAlwaysCallable run.now }
    requires called { Calls (F.post run.now) around.now }
    requires call_leads { CallsLead (F.post run.now) }
    ensures gives { EndsAsBy (body_then body.new) result (scene_of stage.new) (declared_in around.now (body_of body.old) (view_declaration declaration.now) (scene_of stage.old)) }
    ensures leads { LeadsOn stage.old stage.new }
{
    let value = preset_value(alloc, run, around, stage, body, &declaration.preset)?;
    declare_names(alloc, body, declaration.kind, &value, &declaration.names)
}

/// The DECLAREs of a block, each behind the one before.
#[tactic(auto, using(crate::proofs::Declared::all_declared, exec_state::proofs::Leading::leading))]
pub(crate) fn declare_all<
    F: Fn(&mut Stage, &Running<'_>, &Bytes, List<Value>) -> Result<Value, SqlRefusal>,
>(
    alloc: Global,
    run: &F,
    around: &Around<'_>,
    stage: &mut Stage,
    body: &mut Body,
    declarations: &List<Declaration>,
) -> Result<(), SqlRefusal>
    requires calls { F.IsAlwaysCallable run.now }
    requires called { Calls (F.post run.now) around.now }
    requires call_leads { CallsLead (F.post run.now) }
    ensures gives { EndsAsBy (body_then body.new) result (scene_of stage.new) (all_declared_in around.now (body_of body.old) (view_declarations declarations.now) (scene_of stage.old)) }
    ensures leads { LeadsOn stage.old stage.new }
{
    for declaration in declarations.as_slice() {
        declare(alloc, run, around, stage, body, declaration)?;
    }
    Ok(())
}
