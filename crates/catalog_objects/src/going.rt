//! What goes with a DROP.
ghost use Rattle.std.specs.Prelude.{◌≡◌, filter};
ghost use Rattle.sql_tree.specs.StatementView.{view};
ghost use Rattle.catalog_objects.specs.Keys.{seen};
ghost use Rattle.catalog_objects.specs.Lookups.{goes_with, stays_with, trigger_stays};
ghost use Rattle.catalog_rules.specs.Creating.{goes_with_table, is_function_named, is_procedure_named, is_trigger_named};
ghost use Rattle.catalog_objects.specs.declared.object.Object.TheVariants.{Trigger};

use crate::object::Object;
use sharing::Shared;
use sql_tree::{Stmt, TriggerDef};
use val_types::{Boxed, Bytes};

/// Whether an object is the table of a name, or a trigger of it.
fn goes_with_table(name: &Bytes, object: &Object) -> bool
    ensures { result ≡ goes_with_table name.now (seen object.now) }
{
    match object {
        Object::Table(definition) => *name == definition.get().name,
        Object::Trigger(trigger) => *name == trigger.get().get().table,
        Object::Function(_) | Object::Procedure(_) => false,
    }
}

fn is_function_named(name: &Bytes, object: &Object) -> bool
    ensures { result ≡ is_function_named name.now (seen object.now) }
{
    match object {
        Object::Function(routine) => *name == routine.get().get().name,
        Object::Table(_) | Object::Procedure(_) | Object::Trigger(_) => false,
    }
}

fn is_procedure_named(name: &Bytes, object: &Object) -> bool
    ensures { result ≡ is_procedure_named name.now (seen object.now) }
{
    match object {
        Object::Procedure(routine) => *name == routine.get().get().name,
        Object::Table(_) | Object::Function(_) | Object::Trigger(_) => false,
    }
}

fn is_trigger_named(name: &Bytes, object: &Object) -> bool
    ensures { result ≡ is_trigger_named name.now (seen object.now) }
{
    match object {
        Object::Trigger(trigger) => *name == trigger.get().get().name,
        Object::Table(_) | Object::Function(_) | Object::Procedure(_) => false,
    }
}

/// Whether a DROP takes an object out. No other statement does.
fn goes_with(s: &Stmt, object: &Object) -> bool
    ensures { result ≡ goes_with (view s.now) object.now }
{
    match s {
        Stmt::DropTable(name) => goes_with_table(name, object),
        Stmt::DropFunction(name) => is_function_named(name, object),
        Stmt::DropProcedure(name) => is_procedure_named(name, object),
        Stmt::DropTrigger(name) => is_trigger_named(name, object),
        _ => false,
    }
}

/// Whether a DROP takes a trigger out.
fn trigger_goes(s: &Stmt, trigger: &TriggerDef) -> bool
    ensures { result ≡ goes_with (view s.now) (Trigger trigger.now) }
{
    match s {
        Stmt::DropTable(name) => *name == trigger.table,
        Stmt::DropTrigger(name) => *name == trigger.name,
        _ => false,
    }
}

/// Takes out what goes with a DROP.
pub(crate) fn keep_objects(s: &Stmt, objects: &mut Vec<Object>)
    ensures { objects.new.items ≡ filter (stays_with (view s.now)) objects.old.items }
{
    objects.retain(|object| !goes_with(s, object));
}

/// Takes out the triggers that go with a DROP.
pub(crate) fn keep_triggers(s: &Stmt, triggers: &mut Vec<Shared<Boxed<TriggerDef>>>)
    ensures { triggers.new.items ≡ filter (trigger_stays (view s.now)) triggers.old.items }
{
    triggers.retain(|trigger| !trigger_goes(s, trigger.get().get()));
}
