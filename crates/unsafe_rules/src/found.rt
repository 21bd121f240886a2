//! Programs that were found to be reached, and what is asked of them.
ghost use Rattle.std.specs.Prelude.{◌≡◌, [], ◌∷◌, slice_get};
ghost use Rattle.node_walk.specs.catalog_objects.Keys.{objects_of, seen};
ghost use Rattle.session_ctx.specs.catalog_rules.Nodes.{nodes_of};
ghost use Rattle.sql_tree.specs.StatementView.{view, view_program, view_trigger};
ghost use Rattle.session_ctx.specs.catalog_rules.Objects.{function, name_of, reaction};
ghost use Rattle.unsafe_rules.specs.Places.{places_of};
ghost use Rattle.unsafe_rules.specs.Reaching.{in_body, in_found, in_place, in_programs, is_at, is_reached};

use node_walk::catalog_objects::Object;
use node_walk::{Ask, in_statement};
use sql_tree::{Routine, Stmt, TriggerDef};
use val_types::Bytes;

/// The places of programs that were found to be reached, kept on the stack: the last one first.
#[derive(Clone, Copy)]
pub(crate) enum Found<'a> {
    Nothing,
    More(usize, &'a Found<'a>),
}

/// Nothing found yet.
pub(crate) fn nothing<'a>() -> Found<'a>
    ensures { places_of result ≡ [] }
{
    Found::Nothing
}

/// One more place before those that were found.
pub(crate) fn more<'a>(at: usize, before: &'a Found<'a>) -> Found<'a>
    ensures { places_of result ≡ at ∷ places_of before.now }
{
    Found::More(at, before)
}

/// The name of a function.
fn name_of(routine: &Routine) -> &Bytes
    ensures { result.now ≡ name_of (view_program routine.now) }
{
    &routine.name
}

/// Whether a place is among those that were found.
pub(crate) fn is_found(at: usize, found: &Found<'_>) -> bool
    ensures { result ≡ is_at at (places_of found.now) }
{
    match found {
        Found::Nothing => false,
        Found::More(place, before) => at == *place || is_found(at, before),
    }
}

/// Whether what is asked holds of a node of the body of an object.
fn in_body(ask: &Ask<'_>, object: &Object) -> bool
    ensures { result ≡ in_body ask.now (seen object.now) }
{
    match object {
        Object::Table(_) => false,
        Object::Function(routine) | Object::Procedure(routine) => {
            in_statement(ask, &routine.get().get().body)
        }
        Object::Trigger(trigger) => in_statement(ask, &trigger.get().get().body),
    }
}

/// The same of the object at a place.
fn in_place(ask: &Ask<'_>, at: usize, objects: &[Object]) -> bool
    ensures { result ≡ in_place ask.now (slice_get (objects_of objects.now) at) }
{
    match objects.get(at) {
        None => false,
        Some(object) => in_body(ask, object),
    }
}

/// Whether it holds of a node of the bodies of what was found.
pub(crate) fn in_programs(ask: &Ask<'_>, objects: &[Object], found: &Found<'_>) -> bool
    ensures { result ≡ in_programs ask.now (objects_of objects.now) (places_of found.now) }
{
    match found {
        Found::Nothing => false,
        Found::More(at, before) => {
            in_place(ask, *at, objects) || in_programs(ask, objects, before)
        }
    }
}

/// Whether it holds of a node of a statement or of the bodies of what was found.
fn in_found(ask: &Ask<'_>, s: &Stmt, objects: &[Object], found: &Found<'_>) -> bool
    ensures { result ≡ in_found ask.now (objects_of objects.now) (nodes_of (view s.now)) (places_of found.now) }
{
    match found {
        Found::Nothing => in_statement(ask, s),
        Found::More(at, before) => {
            in_place(ask, *at, objects) || in_found(ask, s, objects, before)
        }
    }
}

/// Whether a function is reached from a statement or from the bodies of what was found.
#[tactic(auto, using(crate::proofs::Asked::function_found))]
fn function_reached(routine: &Routine, s: &Stmt, objects: &[Object], found: &Found<'_>) -> bool
    ensures { result ≡ is_reached (objects_of objects.now) (nodes_of (view s.now)) (places_of found.now) (function (view_program routine.now)) }
{
    in_found(&Ask::Function(name_of(routine)), s, objects, found)
}

/// The same of a trigger.
#[tactic(auto, using(crate::proofs::Asked::trigger_found))]
fn trigger_reached(trigger: &TriggerDef, s: &Stmt, objects: &[Object], found: &Found<'_>) -> bool
    ensures { result ≡ is_reached (objects_of objects.now) (nodes_of (view s.now)) (places_of found.now) (reaction (view_trigger trigger.now)) }
{
    in_found(&Ask::Trigger(trigger), s, objects, found)
}

/// Whether an object is.
#[tactic(auto, using(crate::proofs::Asked::table_not_found, crate::proofs::Asked::procedure_not_found))]
pub(crate) fn is_reached(object: &Object, s: &Stmt, objects: &[Object], found: &Found<'_>) -> bool
    ensures { result ≡ is_reached (objects_of objects.now) (nodes_of (view s.now)) (places_of found.now) (seen object.now) }
{
    match object {
        Object::Table(_) => false,
        Object::Procedure(_) => false,
        Object::Function(routine) => function_reached(routine.get().get(), s, objects, found),
        Object::Trigger(trigger) => trigger_reached(trigger.get().get(), s, objects, found),
    }
}
