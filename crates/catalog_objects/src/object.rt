//! Tables, routines and triggers, each held by as many as have it.
ghost use Rattle.std.specs.Prelude.{◌≡◌, IfOk};
ghost use Rattle.std.specs.Option.{option_copied};
ghost use Rattle.catalog_objects.specs.Lookups.{table_if, routine_if, trigger_if_some};
ghost use Rattle.catalog_objects.specs.Keys.{key_of, key_order, event_of, event_order, cause_number, time_number, trigger_if};

use sharing::Shared;
use sql_tree::{Cause, Routine, Time, TriggerDef};
use std::cmp::Ordering;
use val_types::{Boxed, Bytes, NoMemory, TableDef};

/// An object of a catalog. Objects of one kind have different names.
#[derive(Drop)]
pub enum Object {
    Table(Shared<TableDef>),
    Function(Shared<Boxed<Routine>>),
    Procedure(Shared<Boxed<Routine>>),
    Trigger(Shared<Boxed<TriggerDef>>),
}

pub(crate) const TABLE: u8 = 0;

pub(crate) const FUNCTION: u8 = 1;

pub(crate) const PROCEDURE: u8 = 2;

pub(crate) const TRIGGER: u8 = 3;

impl Object {
    /// One more holder of the same object.
    pub(crate) fn share(&self) -> Result<Object, NoMemory>
        ensures { IfOk result (λ o. o ≡ self.now) }
    {
        Ok(match self {
            Object::Table(definition) => Object::Table(definition.share()?),
            Object::Function(routine) => Object::Function(routine.share()?),
            Object::Procedure(routine) => Object::Procedure(routine.share()?),
            Object::Trigger(trigger) => Object::Trigger(trigger.share()?),
        })
    }

    /// One more holder of it, where it is a trigger.
    pub(crate) fn share_trigger(&self) -> Result<Option<Shared<Boxed<TriggerDef>>>, NoMemory>
        ensures { IfOk result (λ t. t ≡ trigger_if self.now) }
    {
        match self {
            Object::Trigger(trigger) => Ok(Some(trigger.share()?)),
            Object::Table(_) | Object::Function(_) | Object::Procedure(_) => Ok(None),
        }
    }

    /// The place of its kind among the kinds.
    pub(crate) fn kind(&self) -> u8
        ensures { result ≡ (key_of self.now).kind }
    {
        match self {
            Object::Table(_) => TABLE,
            Object::Function(_) => FUNCTION,
            Object::Procedure(_) => PROCEDURE,
            Object::Trigger(_) => TRIGGER,
        }
    }

    pub(crate) fn name(&self) -> &Bytes
        ensures { result.now ≡ (key_of self.now).name }
    {
        match self {
            Object::Table(definition) => &definition.get().name,
            Object::Function(routine) | Object::Procedure(routine) => &routine.get().get().name,
            Object::Trigger(trigger) => &trigger.get().get().name,
        }
    }
}

/// How a kind and name stand to those of an object.
pub(crate) fn key_cmp(kind: u8, name: &Bytes, object: &Object) -> Ordering
    ensures { result ≡ key_order (record { kind = kind; name = name.now }) (key_of object.now) }
{
    kind.cmp(&object.kind()).then(name.cmp(object.name()))
}

/// The place of a time among the times.
fn time_number(time: Time) -> u8
    ensures { result ≡ time_number time }
{
    match time {
        Time::Before => 0,
        Time::After => 1,
    }
}

/// The place of an event among the events.
fn cause_number(event: Cause) -> u8
    ensures { result ≡ cause_number event }
{
    match event {
        Cause::Insert => 0,
        Cause::Update => 1,
        Cause::Delete => 2,
    }
}

/// How an event of a table stands to the one that a trigger waits for.
pub(crate) fn event_cmp(table: &Bytes, time: Time, event: Cause, trigger: &TriggerDef) -> Ordering
    ensures { result ≡ event_order (record { table = table.now; time = time_number time; event = cause_number event }) (event_of trigger.now) }
{
    table
        .cmp(&trigger.table)
        .then(time_number(time).cmp(&time_number(trigger.time)))
        .then(cause_number(event).cmp(&cause_number(trigger.event)))
}

/// What was found, where it is a table.
pub(crate) fn table_if(found: Option<&Object>) -> Option<&TableDef>
    ensures { option_copied result ≡ table_if (option_copied found.entry) }
{
    match found {
        Some(Object::Table(definition)) => Some(definition.get()),
        _ => None,
    }
}

/// What was found, where it is a function or a procedure.
pub(crate) fn routine_if(found: Option<&Object>) -> Option<&Routine>
    ensures { option_copied result ≡ routine_if (option_copied found.entry) }
{
    match found {
        Some(Object::Function(routine) | Object::Procedure(routine)) => Some(routine.get().get()),
        _ => None,
    }
}

/// What was found, where it is a trigger.
pub(crate) fn trigger_if(found: Option<&Object>) -> Option<&TriggerDef>
    ensures { option_copied result ≡ trigger_if_some (option_copied found.entry) }
{
    match found {
        Some(Object::Trigger(trigger)) => Some(trigger.get().get()),
        _ => None,
    }
}
