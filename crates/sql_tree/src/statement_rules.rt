//! Statements that the grammar can give.
ghost use Rattle.std.specs.Prelude.{◌≡◌, ◌↔◌, IsTrue};
ghost use Rattle.std.specs.List.{list_all};
ghost use Rattle.sql_tree.specs.Well.{has_item, is_well_row, is_well_supply, is_well_set, is_target, is_well_assignment, is_well_declaration, is_in_key, is_column, is_unique, has_table_part, is_table, is_parameter, is_well_part, has_statement, has_branch, is_well_step, are_well_steps, are_well_branches, is_well_otherwise, is_well_program, is_well_trigger, is_begin, stands_alone, is_whole, IsWell};
ghost use Rattle.sql_tree.specs.View.{view_part};
ghost use Rattle.sql_tree.specs.StatementView.{view, view_rows, view_supply, view_sets, view_assignments, view_declarations, view_insert, view_replace, view_update, view_delete, view_statements, view_branches, view_otherwise, view_program, view_trigger};

use crate::expression_rules::{has_expr, well_expr, well_exprs, well_order, well_select};
use crate::expressions::Expr;
use crate::names::{
    are_names, are_names_if, is_count_if, is_literal_if, is_name, is_type, is_type_if,
};
use crate::statement_depth::depth;
use crate::statements::{
    Assignment, Branch, Column, ColumnSet, CreateTable, Declaration, DeleteStmt, InsertStmt,
    Parameter, ReplaceStmt, Routine, Source, Stmt, Target, TriggerDef, UniqueKey, UpdateStmt,
};
use val_types::{Bytes, List};

fn well_option(expr: &Option<Expr>) -> bool
    ensures { result ≡ is_well_part (view_part expr.now) }
{
    match expr {
        None => true,
        Some(expr) => well_expr(expr),
    }
}

fn has_row(rows: &List<List<Expr>>) -> bool
    ensures { result ≡ has_item (view_rows rows.now) }
{
    !rows.is_empty()
}

fn well_rows(rows: &List<List<Expr>>) -> bool
    ensures { result ≡ list_all is_well_row (view_rows rows.now) }
{
    for row in rows.as_slice() {
        if !has_expr(row) || !well_exprs(row) {
            return false;
        }
    }
    true
}

fn well_source(source: &Source) -> bool
    ensures { result ≡ is_well_supply (view_supply source.now) }
{
    match source {
        Source::Rows(rows) => has_row(rows) && well_rows(rows),
        Source::Select(select) => well_select(select),
    }
}

fn has_set(sets: &List<ColumnSet>) -> bool
    ensures { result ≡ has_item (view_sets sets.now) }
{
    !sets.is_empty()
}

fn well_sets(sets: &List<ColumnSet>) -> bool
    ensures { result ≡ list_all is_well_set (view_sets sets.now) }
{
    for set in sets.as_slice() {
        if !is_name(&set.column) || !well_expr(&set.value) {
            return false;
        }
    }
    true
}

fn is_target(target: &Target) -> bool
    ensures { result ≡ is_target target.now }
{
    match target {
        Target::User(name) | Target::Plain(name) => is_name(name),
        Target::System(name) | Target::New(name) => is_name(name),
    }
}

fn has_assignment(assignments: &List<Assignment>) -> bool
    ensures { result ≡ has_item (view_assignments assignments.now) }
{
    !assignments.is_empty()
}

fn well_assignments(assignments: &List<Assignment>) -> bool
    ensures { result ≡ list_all is_well_assignment (view_assignments assignments.now) }
{
    for assignment in assignments.as_slice() {
        if !is_target(&assignment.target) || !well_expr(&assignment.value) {
            return false;
        }
    }
    true
}

fn well_declarations(declarations: &List<Declaration>) -> bool
    ensures { result ≡ list_all is_well_declaration (view_declarations declarations.now) }
{
    for declaration in declarations.as_slice() {
        if !are_names(&declaration.names)
            || !is_type(&declaration.kind)
            || !well_option(&declaration.preset)
        {
            return false;
        }
    }
    true
}

fn well_insert(insert: &InsertStmt) -> bool
    ensures { result ≡ is_well_step (view_insert insert.now) }
{
    is_name(&insert.table)
        && are_names_if(&insert.columns)
        && well_source(&insert.source)
        && well_sets(&insert.update)
}

fn well_replace(replace: &ReplaceStmt) -> bool
    ensures { result ≡ is_well_step (view_replace replace.now) }
{
    is_name(&replace.table) && are_names_if(&replace.columns) && well_source(&replace.source)
}

fn well_update(update: &UpdateStmt) -> bool
    ensures { result ≡ is_well_step (view_update update.now) }
{
    is_name(&update.table)
        && has_set(&update.sets)
        && well_sets(&update.sets)
        && well_option(&update.filter)
        && well_order(&update.order)
        && is_count_if(&update.limit)
}

fn well_delete(delete: &DeleteStmt) -> bool
    ensures { result ≡ is_well_step (view_delete delete.now) }
{
    is_name(&delete.table)
        && well_option(&delete.filter)
        && well_order(&delete.order)
        && is_count_if(&delete.limit)
}

fn is_in_key(key: &Option<List<Bytes>>, name: &Bytes) -> bool
    ensures { result ≡ is_in_key key.now name.now }
{
    match key {
        None => false,
        Some(names) => names.as_slice().contains(name),
    }
}

fn is_column(key: &Option<List<Bytes>>, column: &Column) -> bool
    ensures { result ≡ is_column key.now column.now }
{
    is_name(&column.name)
        && is_type(&column.kind)
        && is_literal_if(&column.preset)
        && !(column.nullable && is_in_key(key, &column.name))
}

fn are_columns(key: &Option<List<Bytes>>, columns: &[Column]) -> bool
    ensures { result ≡ list_all (is_column key.now) columns.now }
{
    columns.iter().all(|column| is_column(key, column))
}

fn is_unique(key: &UniqueKey) -> bool
    ensures { result ≡ is_unique key.now }
{
    is_name(&key.name) && are_names(&key.columns)
}

fn are_uniques(keys: &[UniqueKey]) -> bool
    ensures { result ≡ list_all is_unique keys.now }
{
    keys.iter().all(is_unique)
}

fn has_table_part(table: &CreateTable) -> bool
    ensures { result ≡ has_table_part table.now }
{
    table.columns.len() >= 1 || table.primary.is_some() || table.uniques.len() >= 1
}

/// Whether the grammar can give a CREATE TABLE.
pub fn is_table(table: &CreateTable) -> bool
    ensures { result ≡ is_table table.now }
{
    is_name(&table.name)
        && has_table_part(table)
        && are_columns(&table.primary, table.columns.as_slice())
        && are_names_if(&table.primary)
        && are_uniques(table.uniques.as_slice())
}

fn is_parameter(parameter: &Parameter) -> bool
    ensures { result ≡ is_parameter parameter.now }
{
    is_name(&parameter.name) && is_type(&parameter.kind)
}

fn are_parameters(parameters: &[Parameter]) -> bool
    ensures { result ≡ list_all is_parameter parameters.now }
{
    parameters.iter().all(is_parameter)
}

fn has_step(steps: &List<Stmt>) -> bool
    ensures { result ≡ has_statement (view_statements steps.now) }
{
    !steps.is_empty()
}

fn has_branch(branches: &List<Branch>) -> bool
    ensures { result ≡ has_branch (view_branches branches.now) }
{
    !branches.is_empty()
}

/// Whether the grammar can give a statement inside a stored program, however deep it is.
#[cycle(rules)]
pub fn well_step(s: &Stmt) -> bool
    ensures { result ≡ is_well_step (view s.now) }
{
    match s {
        Stmt::CreateTable(table) => is_table(table),
        Stmt::CreateFunction(routine) => {
            routine.get().returns.is_some() && well_routine(routine.get())
        }
        Stmt::CreateProcedure(routine) => {
            !routine.get().returns.is_some() && well_routine(routine.get())
        }
        Stmt::CreateTrigger(trigger) => well_trigger(trigger.get()),
        Stmt::DropTable(name) | Stmt::DropFunction(name) => is_name(name),
        Stmt::DropProcedure(name) | Stmt::DropTrigger(name) => is_name(name),
        Stmt::Truncate(name) | Stmt::Savepoint(name) => is_name(name),
        Stmt::RollbackTo(name) | Stmt::ReleaseSavepoint(name) => is_name(name),
        Stmt::Insert(insert) => well_insert(insert),
        Stmt::Replace(replace) => well_replace(replace),
        Stmt::Update(update) => well_update(update),
        Stmt::Delete(delete) => well_delete(delete),
        Stmt::Select(select) => well_select(select),
        Stmt::Do(exprs) => has_expr(exprs) && well_exprs(exprs),
        Stmt::Set(assignments) => has_assignment(assignments) && well_assignments(assignments),
        Stmt::Call { name, arguments } => is_name(name) && well_exprs(arguments),
        Stmt::Begin => false,
        Stmt::Commit | Stmt::Rollback => true,
        Stmt::Block { declarations, body } => well_declarations(declarations) && well_steps(body),
        Stmt::If { arms, otherwise } => {
            has_branch(arms) && well_branches(arms) && well_otherwise(otherwise)
        }
        Stmt::While { condition, steps } => {
            well_expr(condition) && has_step(steps) && well_steps(steps)
        }
        Stmt::Return(expr) => well_expr(expr),
    }
}

#[cycle(rules)]
fn well_steps(steps: &List<Stmt>) -> bool
    ensures { result ≡ are_well_steps (view_statements steps.now) }
{
    for step in steps.as_slice() {
        if !well_step(step) {
            return false;
        }
    }
    true
}

#[cycle(rules)]
fn well_branches(branches: &List<Branch>) -> bool
    ensures { result ≡ are_well_branches (view_branches branches.now) }
{
    for branch in branches.as_slice() {
        if !well_expr(&branch.condition) || !has_step(&branch.steps) || !well_steps(&branch.steps) {
            return false;
        }
    }
    true
}

/// Whether ELSE has a step where it stands, and the grammar can give each.
#[cycle(rules)]
fn well_otherwise(otherwise: &Option<List<Stmt>>) -> bool
    ensures { result ≡ is_well_otherwise (view_otherwise otherwise.now) }
{
    match otherwise {
        None => true,
        Some(steps) => has_step(steps) && well_steps(steps),
    }
}

#[cycle(rules)]
fn well_routine(routine: &Routine) -> bool
    ensures { result ≡ is_well_program (view_program routine.now) }
{
    is_name(&routine.name)
        && are_parameters(routine.parameters.as_slice())
        && is_type_if(&routine.returns)
        && well_step(&routine.body)
}

#[cycle(rules)]
fn well_trigger(trigger: &TriggerDef) -> bool
    ensures { result ≡ is_well_trigger (view_trigger trigger.now) }
{
    is_name(&trigger.name) && is_name(&trigger.table) && well_step(&trigger.body)
}

fn is_begin(s: &Stmt) -> bool
    ensures { result ≡ is_begin (view s.now) }
{
    matches!(s, Stmt::Begin)
}

fn stands_alone(s: &Stmt) -> bool
    ensures { result ≡ stands_alone (view s.now) }
{
    !matches!(
        s,
        Stmt::Block { .. } | Stmt::If { .. } | Stmt::While { .. } | Stmt::Return(_)
    )
}

/// Whether the grammar can give a statement for a whole text, however deep it is.
fn is_whole(s: &Stmt) -> bool
    ensures { result ≡ is_whole (view s.now) }
{
    is_begin(s) || stands_alone(s) && well_step(s)
}

/// How deep a statement may be.
const DEEPEST: u32 = 200;

/// Whether the parser can give a statement.
pub fn well(s: &Stmt) -> bool
    ensures { IsTrue result ↔ IsWell (view s.now) }
{
    is_whole(s) && depth(s) <= DEEPEST
}
