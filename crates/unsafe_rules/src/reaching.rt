//! Whether a statement reaches a function that changes rows.
ghost use Rattle.std.specs.Prelude.{◌≡◌, slice_get};
ghost use Rattle.std.specs.Option.{option_copied};
ghost use Rattle.std.specs.List.{list_any};
ghost use Rattle.node_walk.specs.catalog_objects.Keys.{objects_of, seen};
ghost use Rattle.session_ctx.specs.catalog_rules.Nodes.{nodes_of};
ghost use Rattle.sql_reach.specs.Reach.{is_writing_function, reached_programs};
ghost use Rattle.sql_tree.specs.StatementView.{view, view_program};
ghost use Rattle.session_ctx.specs.catalog_rules.Objects.{body_of, function};
ghost use Rattle.unsafe_rules.specs.Places.{places_of};
ghost use Rattle.unsafe_rules.specs.Reaching.{IsFound, IsNext};

use crate::found::{Found, is_found, is_reached, more, nothing};
use node_walk::catalog_objects::Object;
use node_walk::{Ask, in_statement};
use sql_tree::{Routine, Stmt};

/// What a function does.
fn body_of(routine: &Routine) -> &Stmt
    ensures { view result.now ≡ body_of (view_program routine.now) }
{
    &routine.body
}

/// Whether there is a change in a function.
fn has_change(routine: &Routine) -> bool
    ensures { result ≡ is_writing_function (function (view_program routine.now)) }
{
    in_statement(&Ask::Change, body_of(routine))
}

/// Whether an object is a function with a change in it.
fn is_writing_function(object: &Object) -> bool
    ensures { result ≡ is_writing_function (seen object.now) }
{
    match object {
        Object::Function(routine) => has_change(routine.get().get()),
        Object::Table(_) | Object::Procedure(_) | Object::Trigger(_) => false,
    }
}

/// The object at a place.
fn object_at(objects: &[Object], at: usize) -> Option<&Object>
    ensures { option_copied result ≡ slice_get objects.now at }
{
    objects.get(at)
}

/// The place of an object that is reached and was not found, None where there is none.
pub(crate) fn next_reached(s: &Stmt, objects: &[Object], found: &Found<'_>) -> Option<usize>
    ensures { IsNext (objects_of objects.now) (nodes_of (view s.now)) (places_of found.now) result }
{
    for (at, object) in objects.iter().enumerate() {
        if !is_found(at, found) && is_reached(object, s, objects, found) {
            return Some(at);
        }
    }
    None
}

/// Whether a function with a change in it is reached, where none is among what was found.
fn finds_writing(s: &Stmt, objects: &[Object], found: &Found<'_>) -> bool
    requires { IsFound (objects_of objects.now) (nodes_of (view s.now)) is_writing_function (places_of found.now) }
    ensures { result ≡ list_any is_writing_function (reached_programs (objects_of objects.now) (nodes_of (view s.now))) }
{
    match next_reached(s, objects, found) {
        None => false,
        Some(at) => match object_at(objects, at) {
            None => false,
            Some(object) => {
                is_writing_function(object) || finds_writing(s, objects, &more(at, &*found))
            }
        },
    }
}

/// Whether a statement reaches a function with a change in it. Where it has neither a call of a function nor a change, one
/// walk over it is all.
pub(crate) fn reaches_writing(s: &Stmt, objects: &[Object]) -> bool
    ensures { result ≡ list_any is_writing_function (reached_programs (objects_of objects.now) (nodes_of (view s.now))) }
{
    if !in_statement(&Ask::Cause, s) {
        return false;
    }
    finds_writing(s, objects, &nothing())
}
