//! What an item carries of the context in which its statement runs.
ghost use Rattle.std.specs.Prelude.{◌≡◌, flat_map, map, IfOk, OnOk};
ghost use Rattle.std.specs.List.{list_any};
ghost use Rattle.node_walk.specs.catalog_objects.Keys.{objects_of, seen};
ghost use Rattle.session_ctx.specs.catalog_rules.Nodes.{nodes_of};
ghost use Rattle.session_ctx.specs.log_entries.Variables.{variable_value};
ghost use Rattle.sql_reach.specs.Carrying.{asks_last_id, carried, draws, if_asked, variables_reached};
ghost use Rattle.sql_reach.specs.Reach.{body_nodes, reached_nodes};
ghost use Rattle.sql_tree.specs.StatementView.{view};
ghost use Rattle.unsafe_rules.specs.Places.{places_of};
ghost use Rattle.unsafe_rules.specs.Reaching.{IsAll, IsFound, at_places, nothing_wanted};
ghost use Rattle.statement_names.specs.Naming.{nodes_put};

use crate::found::{Found, is_found, more, nothing};
use crate::reach::{next_of, reaches};
use node_walk::catalog_objects::{Object, Objects};
use node_walk::{Ask, in_statement};
use session_ctx::Ctx;
use session_ctx::log_entries::{Carried, Vars};
use sql_tree::Stmt;
use statement_names::{Names, names_are_in_byte_order, put_variables};
use std::alloc::Global;
use val_types::{Bytes, Duplicate, NoMemory, Value};

/// Puts the user variables of the body of an object among other names.
fn put_body(names: &mut Names, object: &Object) -> Result<(), NoMemory>
    ensures { OnOk result (names.new ≡ nodes_put (body_nodes (seen object.now)) names.old) }
{
    match object {
        Object::Table(_) => Ok(()),
        Object::Function(routine) | Object::Procedure(routine) => {
            put_variables(names, &routine.get().get().body)
        }
        Object::Trigger(trigger) => put_variables(names, &trigger.get().get().body),
    }
}

/// The same of what was found, in the order of the catalog.
fn put_programs(names: &mut Names, objects: &[Object], found: &Found<'_>) -> Result<(), NoMemory>
    ensures { OnOk result (names.new ≡ nodes_put (flat_map body_nodes (at_places (places_of found.now) 0 (objects_of objects.now))) names.old) }
{
    for (at, object) in objects.iter().enumerate() {
        if is_found(at, found) {
            put_body(names, object)?;
        }
    }
    Ok(())
}

/// A copy of the value of a user variable, NULL where it was never set.
fn value_of(alloc: Global, x: &Ctx, name: &Bytes) -> Result<Value, NoMemory>
    ensures { IfOk result (λ value. value ≡ variable_value x.now.variables name.now) }
{
    match x.user_variable(name) {
        None => Ok(Value::Null),
        Some(value) => value.duplicate(alloc),
    }
}

/// User variables with their values.
fn with_values(alloc: Global, names: &Names, x: &Ctx) -> Result<Vars, NoMemory>
    ensures { IfOk result (λ vars. vars ≡ map (λ name. (name, variable_value x.now.variables name)) names.now) }
{
    let mut vars = Vars::new(alloc);
    for name in names.all() {
        vars.set(name, value_of(alloc, x, name)?)?;
    }
    Ok(vars)
}

/// The user variables that are reached, where all programs that are reached were found.
fn variables_reached(
    alloc: Global,
    s: &Stmt,
    objects: &Objects,
    found: &Found<'_>,
    x: &Ctx,
) -> Result<Vars, NoMemory>
    requires { IsAll (objects_of objects.now) (nodes_of (view s.now)) (places_of found.now) }
    ensures { IfOk result (λ vars. vars ≡ variables_reached x.now.variables (reached_nodes (objects_of objects.now) (nodes_of (view s.now)))) }
{
    let mut names = Names::new(alloc);
    put_variables(&mut names, s)?;
    put_programs(&mut names, objects.all(), found)?;
    names_are_in_byte_order();
    with_values(alloc, &names, x)
}

/// LAST_INSERT_ID(), where it is reached.
#[tactic(auto, using(crate::proofs::Reasoned::last_ids_asked))]
fn last_id_reached(s: &Stmt, objects: &Objects, found: &Found<'_>, x: &Ctx) -> Option<i64>
    requires { IsAll (objects_of objects.now) (nodes_of (view s.now)) (places_of found.now) }
    ensures { result ≡ if_asked (list_any asks_last_id (reached_nodes (objects_of objects.now) (nodes_of (view s.now)))) x.now.last_id }
{
    if reaches(&Ask::LastInsertId, s, objects, found) {
        Some(x.last_id())
    } else {
        None
    }
}

/// The seeds of RAND(), where it is reached.
#[tactic(auto, using(crate::proofs::Reasoned::draws_asked))]
fn seeds_reached(s: &Stmt, objects: &Objects, found: &Found<'_>, x: &Ctx) -> Option<(u64, u64)>
    requires { IsAll (objects_of objects.now) (nodes_of (view s.now)) (places_of found.now) }
    ensures { result ≡ if_asked (list_any draws (reached_nodes (objects_of objects.now) (nodes_of (view s.now)))) x.now.seeds }
{
    if reaches(&Ask::RandomNumber, s, objects, found) {
        Some(x.seeds())
    } else {
        None
    }
}

/// What is carried, where all programs that are reached were found.
#[tactic(auto, unfolding(sql_reach::specs::Carrying::carried))]
fn carried_of_all(
    alloc: Global,
    s: &Stmt,
    objects: &Objects,
    found: &Found<'_>,
    x: &Ctx,
    first: Option<i64>,
) -> Result<Carried, NoMemory>
    requires { IsAll (objects_of objects.now) (nodes_of (view s.now)) (places_of found.now) }
    ensures { IfOk result (λ parts. parts ≡ carried (objects_of objects.now) (view s.now) x.now first) }
{
    let last_id = last_id_reached(s, objects, found, x);
    let seeds = seeds_reached(s, objects, found, x);
    let vars = variables_reached(alloc, s, objects, found, x)?;
    Ok(Carried {
        stamp: x.stamp(),
        connection: x.connection(),
        inc: x.increment(),
        off: x.offset(),
        last_id,
        first,
        seeds,
        vars,
    })
}

/// What is carried, where some programs that are reached were found.
fn find_carried(
    alloc: Global,
    s: &Stmt,
    objects: &Objects,
    found: &Found<'_>,
    x: &Ctx,
    first: Option<i64>,
) -> Result<Carried, NoMemory>
    requires { IsFound (objects_of objects.now) (nodes_of (view s.now)) nothing_wanted (places_of found.now) }
    ensures { IfOk result (λ parts. parts ≡ carried (objects_of objects.now) (view s.now) x.now first) }
{
    match next_of(s, objects, found) {
        None => carried_of_all(alloc, s, objects, found, x, first),
        Some(at) => find_carried(alloc, s, objects, &more(at, &*found), x, first),
    }
}

/// What an item of a statement carries of the context before it, with the first value that the statement itself generated;
/// exactly what the definition says, or want of memory.
pub fn carried(
    alloc: Global,
    s: &Stmt,
    objects: &Objects,
    x: &Ctx,
    first: Option<i64>,
) -> Result<Carried, NoMemory>
    ensures { IfOk result (λ parts. parts ≡ carried (objects_of objects.now) (view s.now) x.now first) }
{
    let found = nothing();
    if !in_statement(&Ask::Cause, s) {
        return carried_of_all(alloc, s, objects, &found, x, first);
    }
    find_carried(alloc, s, objects, &found, x, first)
}
