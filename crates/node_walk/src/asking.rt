//! What a walk over a statement asks of each node.
ghost use Rattle.std.specs.Prelude.{◌≡◌, false, is_some, not};
ghost use Rattle.std.specs.Option.{option_map_or};
ghost use Rattle.catalog_objects.specs.Keys.{objects_of};
ghost use Rattle.catalog_objects.specs.catalog_rules.Names.{same_name};
ghost use Rattle.catalog_objects.specs.catalog_rules.Nodes.{a_statement, table_changed};
ghost use Rattle.sql_reach.specs.sql_meaning.Frames.{number_or_none};
ghost use Rattle.sql_reach.specs.sql_meaning.Running.{is_ill_count};
ghost use Rattle.sql_tree.specs.StatementView.{view, view_supply, view_trigger};
ghost use Rattle.sql_reach.specs.Reach.{causes_event, is_change};
ghost use Rattle.sql_reach.specs.Reasons.{comes_from_select, has_unique, ignores_select, inserts_counted, is_counted, replaces_select, selects_counted, updates_by_two_keys, updates_select};
ghost use Rattle.node_walk.specs.Asking.{asks_built_in, asks_call, asks_limit, asks_random_number, asks_statement, asks_system_variable, asks_table};

use catalog_objects::Objects;
use sql_locals::Locals;
use sql_tree::{Cause, Count, Source, Stmt, TriggerDef, is_unsafe, reads_last_id};
use val_types::{Bytes, Func, Value};

/// What is asked of each node.
#[derive(Clone, Copy)]
pub enum Ask<'a> {
    /// Whether it calls the function of this name.
    Function(&'a Bytes),
    /// Whether it is a statement that causes what this trigger waits for.
    Trigger(&'a TriggerDef),
    /// Whether it is a statement that changes rows.
    Change,
    /// Whether it reaches anything, where that is there: a call of any function, or a statement that changes rows.
    Cause,
    /// Whether it is a built-in whose value may differ on a replica, or RAND().
    UnsafeFunction,
    /// Whether it is @@server_id.
    ServerId,
    /// Whether it is a LIMIT.
    Limit,
    /// Whether it puts the rows of a SELECT into a table with AUTO_INCREMENT.
    SelectsCounted(&'a Objects),
    /// Whether it inserts into a table with AUTO_INCREMENT.
    InsertsCounted(&'a Objects),
    /// Whether it has ON DUPLICATE KEY UPDATE on a table with a unique key beside the primary one.
    TwoKeys(&'a Objects),
    /// Whether it is INSERT IGNORE .. SELECT.
    IgnoresSelect,
    /// Whether it is REPLACE .. SELECT.
    ReplacesSelect,
    /// Whether it is INSERT .. SELECT .. ON DUPLICATE KEY UPDATE.
    UpdatesSelect,
    /// Whether it is LAST_INSERT_ID() or @@last_insert_id.
    LastInsertId,
    /// Whether it is RAND().
    RandomNumber,
    /// Whether it reads or changes the table of this name.
    Table(&'a Bytes),
    /// Whether it is a LIMIT by one of these locals that is no number from 0.
    IllLimit(&'a Locals),
}

/// Whether a call of a function of a name is asked for.
pub(crate) fn asks_call(ask: &Ask<'_>, called: &Bytes) -> bool
    ensures { result ≡ asks_call ask.now called.now }
{
    match ask {
        Ask::Function(name) => **name == *called,
        Ask::Cause => true,
        _ => false,
    }
}

/// Whether a built-in function is asked for.
pub(crate) fn asks_built_in(ask: &Ask<'_>, f: Func) -> bool
    ensures { result ≡ asks_built_in ask.now f }
{
    match ask {
        Ask::UnsafeFunction => is_unsafe(f),
        Ask::LastInsertId => reads_last_id(f),
        _ => false,
    }
}

/// Whether RAND() is asked for.
pub(crate) fn asks_random_number(ask: &Ask<'_>) -> bool
    ensures { result ≡ asks_random_number ask.now }
{
    matches!(ask, Ask::UnsafeFunction | Ask::RandomNumber)
}

/// Whether a system variable is asked for.
pub(crate) fn asks_system_variable(ask: &Ask<'_>, name: &Bytes) -> bool
    ensures { result ≡ asks_system_variable ask.now name.now }
{
    match ask {
        Ask::ServerId => name.as_slice() == b"server_id".as_slice(),
        Ask::LastInsertId => name.as_slice() == b"last_insert_id".as_slice(),
        _ => false,
    }
}

/// Whether a table that is read or changed is asked for.
pub(crate) fn asks_table(ask: &Ask<'_>, table: &Bytes) -> bool
    ensures { result ≡ asks_table ask.now table.now }
{
    match ask {
        Ask::Table(name) => **name == *table,
        _ => false,
    }
}

/// Whether a value is no number from 0.
fn is_no_count(value: &Value) -> bool
    ensures { result ≡ not (is_some (number_or_none value.now)) }
{
    match value {
        Value::Int(number) => *number < 0,
        Value::Null => true,
        Value::Text(_) => true,
    }
}

/// Whether a LIMIT is a local that is no number from 0.
fn is_ill_count(locals: &Locals, count: &Count) -> bool
    ensures { result ≡ is_ill_count locals.now count.now }
{
    match count {
        Count::Number(_) => false,
        Count::Name(name) => match locals.find(name) {
            Some(local) => is_no_count(&local.value),
            None => true,
        },
    }
}

/// Whether a LIMIT is asked for.
pub(crate) fn asks_limit(ask: &Ask<'_>, count: &Count) -> bool
    ensures { result ≡ asks_limit ask.now count.now }
{
    match ask {
        Ask::Limit => true,
        Ask::IllLimit(locals) => is_ill_count(locals, count),
        _ => false,
    }
}

/// Whether a statement changes a table.
fn changes_table(name: &Bytes, s: &Stmt) -> bool
    ensures { result ≡ option_map_or (same_name name.now) (table_changed (view s.now)) false }
{
    match s {
        Stmt::Insert(i) => *name == i.table,
        Stmt::Replace(r) => *name == r.table,
        Stmt::Update(u) => *name == u.table,
        Stmt::Delete(d) => *name == d.table,
        _ => false,
    }
}

/// Whether a statement changes rows.
pub fn is_change(s: &Stmt) -> bool
    ensures { result ≡ is_change (view s.now) }
{
    matches!(
        s,
        Stmt::Insert(_) | Stmt::Replace(_) | Stmt::Update(_) | Stmt::Delete(_)
    )
}

/// Whether a statement causes an event of a table.
fn causes_event(table: &Bytes, event: Cause, s: &Stmt) -> bool
    ensures { result ≡ causes_event table.now event (view s.now) }
{
    match s {
        Stmt::Insert(i) => {
            *table == i.table
                && match i.update.as_slice() {
                    [] => matches!(event, Cause::Insert),
                    [_, ..] => matches!(event, Cause::Insert | Cause::Update),
                }
        }
        Stmt::Replace(r) => *table == r.table && matches!(event, Cause::Insert | Cause::Delete),
        Stmt::Update(u) => *table == u.table && matches!(event, Cause::Update),
        Stmt::Delete(d) => *table == d.table && matches!(event, Cause::Delete),
        _ => false,
    }
}

/// Whether a table has an AUTO_INCREMENT column.
fn is_counted(objects: &Objects, table: &Bytes) -> bool
    ensures { result ≡ is_counted (objects_of objects.now) table.now }
{
    match objects.table(table) {
        None => false,
        Some(definition) => definition.auto.is_some(),
    }
}

/// Whether a table has a unique key beside the primary one.
fn has_unique(objects: &Objects, table: &Bytes) -> bool
    ensures { result ≡ has_unique (objects_of objects.now) table.now }
{
    match objects.table(table) {
        None => false,
        Some(definition) => match definition.uniques.as_slice() {
            [] => false,
            [_, ..] => true,
        },
    }
}

/// Whether rows come from a SELECT.
fn comes_from_select(source: &Source) -> bool
    ensures { result ≡ comes_from_select (view_supply source.now) }
{
    match source {
        Source::Rows(_) => false,
        Source::Select(_) => true,
    }
}

/// Whether a statement inserts into a table with AUTO_INCREMENT.
fn inserts_counted(objects: &Objects, s: &Stmt) -> bool
    ensures { result ≡ inserts_counted (objects_of objects.now) (a_statement (view s.now)) }
{
    match s {
        Stmt::Insert(i) => is_counted(objects, &i.table),
        Stmt::Replace(r) => is_counted(objects, &r.table),
        _ => false,
    }
}

/// Whether it puts the rows of a SELECT into one.
fn selects_counted(objects: &Objects, s: &Stmt) -> bool
    ensures { result ≡ selects_counted (objects_of objects.now) (a_statement (view s.now)) }
{
    match s {
        Stmt::Insert(i) => comes_from_select(&i.source) && is_counted(objects, &i.table),
        Stmt::Replace(r) => comes_from_select(&r.source) && is_counted(objects, &r.table),
        _ => false,
    }
}

/// Whether it may update a row that it finds by one of two keys.
fn updates_by_two_keys(objects: &Objects, s: &Stmt) -> bool
    ensures { result ≡ updates_by_two_keys (objects_of objects.now) (a_statement (view s.now)) }
{
    match s {
        Stmt::Insert(i) => match i.update.as_slice() {
            [] => false,
            [_, ..] => has_unique(objects, &i.table),
        },
        _ => false,
    }
}

/// Whether it is INSERT IGNORE .. SELECT.
fn ignores_select(s: &Stmt) -> bool
    ensures { result ≡ ignores_select (a_statement (view s.now)) }
{
    match s {
        Stmt::Insert(i) => i.ignore && comes_from_select(&i.source),
        _ => false,
    }
}

/// Whether it is REPLACE .. SELECT.
fn replaces_select(s: &Stmt) -> bool
    ensures { result ≡ replaces_select (a_statement (view s.now)) }
{
    match s {
        Stmt::Replace(r) => comes_from_select(&r.source),
        _ => false,
    }
}

/// Whether it is INSERT .. SELECT .. ON DUPLICATE KEY UPDATE.
fn updates_select(s: &Stmt) -> bool
    ensures { result ≡ updates_select (a_statement (view s.now)) }
{
    match s {
        Stmt::Insert(i) => match i.update.as_slice() {
            [] => false,
            [_, ..] => comes_from_select(&i.source),
        },
        _ => false,
    }
}

/// Whether a statement is asked for.
pub(crate) fn asks_statement(ask: &Ask<'_>, s: &Stmt) -> bool
    ensures { result ≡ asks_statement ask.now (view s.now) }
{
    match ask {
        Ask::Trigger(trigger) => causes_event(&trigger.table, trigger.event, s),
        Ask::Table(name) => changes_table(name, s),
        Ask::Change | Ask::Cause => is_change(s),
        Ask::SelectsCounted(objects) => selects_counted(objects, s),
        Ask::InsertsCounted(objects) => inserts_counted(objects, s),
        Ask::TwoKeys(objects) => updates_by_two_keys(objects, s),
        Ask::IgnoresSelect => ignores_select(s),
        Ask::ReplacesSelect => replaces_select(s),
        Ask::UpdatesSelect => updates_select(s),
        Ask::Function(_) | Ask::UnsafeFunction | Ask::ServerId => false,
        Ask::Limit | Ask::IllLimit(_) | Ask::LastInsertId | Ask::RandomNumber => false,
    }
}
