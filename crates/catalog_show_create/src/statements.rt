//! The CREATE statements of objects.
ghost use Rattle.std.specs.Prelude.{◌≡◌, slice_get, IfOk};
ghost use Rattle.std.specs.Option.{option_map};
ghost use Rattle.catalog_objects.specs.Keys.{objects_of, seen};
ghost use Rattle.catalog_show_create.specs.Stated.{statement_of};
ghost use Rattle.sql_tree.specs.StatementView.{view};

use crate::tables::written_table;
use catalog_objects::{Object, Objects};
use sql_tree::{Routine, Stmt, TriggerDef};
use std::alloc::Global;
use tree_copies::{copy_routine, copy_trigger};
use val_types::{Boxed, NoMemory};

/// A copy of a function or procedure.
fn routine_copy(alloc: Global, routine: &Boxed<Routine>) -> Result<Boxed<Routine>, NoMemory>
    ensures { IfOk result (λ copy. copy ≡ routine.now) }
{
    let copy = copy_routine(alloc, routine.get())?;
    Boxed::new(alloc, copy)
}

/// A copy of a trigger.
fn trigger_copy(alloc: Global, trigger: &Boxed<TriggerDef>) -> Result<Boxed<TriggerDef>, NoMemory>
    ensures { IfOk result (λ copy. copy ≡ trigger.now) }
{
    let copy = copy_trigger(alloc, trigger.get())?;
    Boxed::new(alloc, copy)
}

/// The CREATE statement of an object.
pub fn object_statement(alloc: Global, object: &Object) -> Result<Stmt, NoMemory>
    ensures { IfOk result (λ s. view s ≡ statement_of (seen object.now)) }
{
    Ok(match object {
        Object::Table(definition) => Stmt::CreateTable(written_table(alloc, definition.get())?),
        Object::Function(routine) => Stmt::CreateFunction(routine_copy(alloc, routine.get())?),
        Object::Procedure(routine) => Stmt::CreateProcedure(routine_copy(alloc, routine.get())?),
        Object::Trigger(trigger) => Stmt::CreateTrigger(trigger_copy(alloc, trigger.get())?),
    })
}

/// The CREATE statement of the object at a place in order of creation, counted from 0; None where there are not so many.
pub fn statement_at(alloc: Global, objects: &Objects, at: u32) -> Result<Option<Stmt>, NoMemory>
    ensures { IfOk result (λ found. option_map view found ≡ option_map statement_of (slice_get (objects_of objects.now) at)) }
{
    match objects.object(at as usize) {
        None => Ok(None),
        Some(object) => Ok(Some(object_statement(alloc, object)?)),
    }
}
