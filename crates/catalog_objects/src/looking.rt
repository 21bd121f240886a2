//! Looking for objects and triggers by halves, in the order of their keys.
ghost use Rattle.std.specs.Prelude.{◌≡◌, ◌++◌, ◌∷◌, [], ◌<◌, ◌≤◌, IfOk, insert, vec_len, vec_capacity};
ghost use Rattle.std.specs.Option.{option_copied};
ghost use Rattle.catalog_objects.specs.Keys.{key_of, key_order, event_of, event_order, cause_number, time_number};
ghost use Rattle.catalog_objects.specs.Rising.{is_before, is_not_before, place, put, Rises};
ghost use Rattle.catalog_objects.specs.Lookups.{object_of, waiting_for, waiting_with};

use crate::object::{Object, event_cmp, key_cmp};
use sharing::Shared;
use sql_tree::{Cause, Time, TriggerDef};
use std::alloc::Global;
use val_types::{Boxed, Bytes, NoMemory};

/// Whether an object stands before a kind and name.
fn stands_before(kind: u8, name: &Bytes, object: &Object) -> bool
    ensures { result ≡ is_before key_order key_of (record { kind = kind; name = name.now }) object.now }
{
    key_cmp(kind, name, object).is_gt()
}

/// How many objects stand before a kind and name.
pub(crate) fn place_of(named: &[Object], kind: u8, name: &Bytes) -> usize
    requires { Rises key_order key_of named.now }
    ensures { result ≡ place (is_not_before key_order key_of (record { kind = kind; name = name.now })) named.now }
{
    named.partition_point(|object| stands_before(kind, name, object))
}

/// The object of a kind and name.
pub(crate) fn object_of<'a>(named: &'a [Object], kind: u8, name: &Bytes) -> Option<&'a Object>
    requires { Rises key_order key_of named.now }
    ensures { option_copied result ≡ object_of named.now kind name.now }
{
    let at = place_of(named, kind, name);
    if at < named.len() {
        let object = &named[at];
        if key_cmp(kind, name, object).is_eq() {
            return Some(object);
        }
    }
    None
}

/// Whether a trigger stands before an event.
fn waits_before(table: &Bytes, time: Time, event: Cause, trigger: &TriggerDef) -> bool
    ensures { result ≡ is_before event_order event_of (record { table = table.now; time = time_number time; event = cause_number event }) trigger.now }
{
    event_cmp(table, time, event, trigger).is_gt()
}

/// How many triggers stand before an event.
pub(crate) fn place_waiting(
    waiting: &[Shared<Boxed<TriggerDef>>],
    table: &Bytes,
    time: Time,
    event: Cause,
) -> usize
    requires { Rises event_order event_of waiting.now }
    ensures { result ≡ place (is_not_before event_order event_of (record { table = table.now; time = time_number time; event = cause_number event })) waiting.now }
{
    waiting.partition_point(|trigger| waits_before(table, time, event, trigger.get().get()))
}

/// The trigger for an event.
pub(crate) fn trigger_for<'a>(
    waiting: &'a [Shared<Boxed<TriggerDef>>],
    table: &Bytes,
    time: Time,
    event: Cause,
) -> Option<&'a TriggerDef>
    requires { Rises event_order event_of waiting.now }
    ensures { option_copied result ≡ waiting_for waiting.now table.now time event }
{
    let at = place_waiting(waiting, table, time, event);
    if at < waiting.len() {
        let trigger = waiting[at].get().get();
        if event_cmp(table, time, event, trigger).is_eq() {
            return Some(trigger);
        }
    }
    None
}

/// Puts an item at a place, where there is room for it.
pub(crate) fn put_in<T: Drop>(items: &mut Vec<T>, at: usize, item: T)
    requires within { at ≤ vec_len items.old }
    requires room { vec_len items.old < vec_capacity items.old }
    ensures { items.new.items ≡ insert items.old.items at item }
{
    if let Err(full) = items.insert(at, item) {
        drop(full);
    }
}

/// Puts an item behind the others, where there is room for it.
pub(crate) fn put_last<T: Drop>(items: &mut Vec<T>, item: T)
    requires { vec_len items.old < vec_capacity items.old }
    ensures { items.new.items ≡ items.old.items ++ item ∷ [] }
{
    if let Err(full) = items.push(item) {
        drop(full);
    }
}

/// Puts an object in by its kind and name, where there is room for it.
pub(crate) fn put_named(named: &mut Vec<Object>, object: Object)
    requires rising { Rises key_order key_of named.old.items }
    requires room { vec_len named.old < vec_capacity named.old }
    ensures { named.new.items ≡ put key_order key_of object named.old.items }
{
    let at = place_of(named, object.kind(), object.name());
    put_in(named, at, object);
}

/// Puts a trigger, where there is one, in by what it waits for.
pub(crate) fn put_waiting(
    waiting: &mut Vec<Shared<Boxed<TriggerDef>>>,
    trigger: Option<Shared<Boxed<TriggerDef>>>,
)
    requires rising { Rises event_order event_of waiting.old.items }
    requires room { vec_len waiting.old < vec_capacity waiting.old }
    ensures { waiting.new.items ≡ waiting_with trigger waiting.old.items }
{
    if let Some(trigger) = trigger {
        let inside = trigger.get().get();
        let at = place_waiting(waiting, &inside.table, inside.time, inside.event);
        put_in(waiting, at, trigger);
    }
}

/// The same objects, none of them copied.
pub(crate) fn all_shared(alloc: Global, objects: &[Object]) -> Result<Vec<Object>, NoMemory>
    ensures { IfOk result (λ all. all.items ≡ objects.now) }
{
    let mut all = Vec::with_capacity(alloc, objects.len())?;
    for object in objects {
        all.push(object.share()?)?;
    }
    Ok(all)
}

/// The same triggers, none of them copied.
pub(crate) fn all_waiting(
    alloc: Global,
    triggers: &[Shared<Boxed<TriggerDef>>],
) -> Result<Vec<Shared<Boxed<TriggerDef>>>, NoMemory>
    ensures { IfOk result (λ all. all.items ≡ triggers.now) }
{
    let mut all = Vec::with_capacity(alloc, triggers.len())?;
    for trigger in triggers {
        all.push(trigger.share()?)?;
    }
    Ok(all)
}
