//! Whether what is asked holds of a node of a statement.
ghost use Rattle.std.specs.Prelude.{◌≡◌};
ghost use Rattle.std.specs.List.{list_any};
ghost use Rattle.catalog_objects.specs.catalog_rules.Nodes.{nodes_of};
ghost use Rattle.node_walk.specs.Asking.{asks_node};
ghost use Rattle.sql_tree.specs.View.{view_part};
ghost use Rattle.sql_tree.specs.StatementView.{view, view_assignments, view_branches, view_declarations, view_delete, view_insert, view_otherwise, view_replace, view_rows, view_sets, view_statements, view_supply, view_update};
ghost use Rattle.node_walk.specs.Walking.{in_assignments, in_branches, in_declared, in_otherwise, in_part, in_parts, in_rows, in_sets, in_statement, in_steps, in_supply};

use crate::asking::{Ask, asks_statement};
use crate::expressions::{in_count, in_expr, in_exprs, in_order, in_select};
use sql_tree::{
    Assignment, Branch, ColumnSet, Declaration, DeleteStmt, Expr, InsertStmt, ReplaceStmt, Source,
    Stmt, UpdateStmt,
};
use val_types::List;

fn in_option(ask: &Ask<'_>, e: &Option<Expr>) -> bool
    ensures { result ≡ in_part ask.now (view_part e.now) }
{
    match e {
        None => false,
        Some(e) => in_expr(ask, e),
    }
}

fn in_rows(ask: &Ask<'_>, rows: &List<List<Expr>>) -> bool
    ensures { result ≡ in_rows ask.now (view_rows rows.now) }
{
    for row in rows.as_slice() {
        if in_exprs(ask, row) {
            return true;
        }
    }
    false
}

fn in_source(ask: &Ask<'_>, source: &Source) -> bool
    ensures { result ≡ in_supply ask.now (view_supply source.now) }
{
    match source {
        Source::Rows(rows) => in_rows(ask, rows),
        Source::Select(query) => in_select(ask, query),
    }
}

fn in_sets(ask: &Ask<'_>, list: &List<ColumnSet>) -> bool
    ensures { result ≡ in_sets ask.now (view_sets list.now) }
{
    for set in list.as_slice() {
        if in_expr(ask, &set.value) {
            return true;
        }
    }
    false
}

fn in_assignments(ask: &Ask<'_>, list: &List<Assignment>) -> bool
    ensures { result ≡ in_assignments ask.now (view_assignments list.now) }
{
    for assignment in list.as_slice() {
        if in_expr(ask, &assignment.value) {
            return true;
        }
    }
    false
}

fn in_declared(ask: &Ask<'_>, list: &List<Declaration>) -> bool
    ensures { result ≡ in_declared ask.now (view_declarations list.now) }
{
    for declaration in list.as_slice() {
        if in_option(ask, &declaration.preset) {
            return true;
        }
    }
    false
}

fn in_insert(ask: &Ask<'_>, i: &InsertStmt) -> bool
    ensures { result ≡ in_parts ask.now (view_insert i.now) }
{
    in_source(ask, &i.source) || in_sets(ask, &i.update)
}

fn in_replace(ask: &Ask<'_>, r: &ReplaceStmt) -> bool
    ensures { result ≡ in_parts ask.now (view_replace r.now) }
{
    in_source(ask, &r.source)
}

fn in_update(ask: &Ask<'_>, u: &UpdateStmt) -> bool
    ensures { result ≡ in_parts ask.now (view_update u.now) }
{
    in_sets(ask, &u.sets)
        || in_option(ask, &u.filter)
        || in_order(ask, &u.order)
        || in_count(ask, &u.limit)
}

fn in_delete(ask: &Ask<'_>, d: &DeleteStmt) -> bool
    ensures { result ≡ in_parts ask.now (view_delete d.now) }
{
    in_option(ask, &d.filter) || in_order(ask, &d.order) || in_count(ask, &d.limit)
}

/// Whether it holds of a node within a statement.
#[cycle(walk)]
fn in_parts(ask: &Ask<'_>, s: &Stmt) -> bool
    ensures { result ≡ in_parts ask.now (view s.now) }
{
    match s {
        Stmt::CreateTable(_) | Stmt::CreateFunction(_) | Stmt::CreateProcedure(_) => false,
        Stmt::CreateTrigger(_) | Stmt::DropTable(_) | Stmt::DropFunction(_) => false,
        Stmt::DropProcedure(_) | Stmt::DropTrigger(_) | Stmt::Truncate(_) => false,
        Stmt::Begin | Stmt::Commit | Stmt::Rollback => false,
        Stmt::Savepoint(_) | Stmt::RollbackTo(_) | Stmt::ReleaseSavepoint(_) => false,
        Stmt::Insert(i) => in_insert(ask, i),
        Stmt::Replace(r) => in_replace(ask, r),
        Stmt::Update(u) => in_update(ask, u),
        Stmt::Delete(d) => in_delete(ask, d),
        Stmt::Select(query) => in_select(ask, query),
        Stmt::Do(list) => in_exprs(ask, list),
        Stmt::Set(list) => in_assignments(ask, list),
        Stmt::Call { arguments, .. } => in_exprs(ask, arguments),
        Stmt::Block { declarations, body } => {
            in_declared(ask, declarations) || in_steps(ask, body)
        }
        Stmt::If { arms, otherwise } => in_branches(ask, arms) || in_otherwise(ask, otherwise),
        Stmt::While { condition, steps } => in_expr(ask, condition) || in_steps(ask, steps),
        Stmt::Return(e) => in_expr(ask, e),
    }
}

/// Whether it holds of a statement or of a node within it.
#[cycle(walk)]
fn in_whole(ask: &Ask<'_>, s: &Stmt) -> bool
    ensures { result ≡ in_statement ask.now (view s.now) }
{
    asks_statement(ask, s) || in_parts(ask, s)
}

#[cycle(walk)]
fn in_steps(ask: &Ask<'_>, list: &List<Stmt>) -> bool
    ensures { result ≡ in_steps ask.now (view_statements list.now) }
{
    for step in list.as_slice() {
        if in_whole(ask, step) {
            return true;
        }
    }
    false
}

#[cycle(walk)]
fn in_branches(ask: &Ask<'_>, list: &List<Branch>) -> bool
    ensures { result ≡ in_branches ask.now (view_branches list.now) }
{
    for branch in list.as_slice() {
        if in_expr(ask, &branch.condition) || in_steps(ask, &branch.steps) {
            return true;
        }
    }
    false
}

#[cycle(walk)]
fn in_otherwise(ask: &Ask<'_>, otherwise: &Option<List<Stmt>>) -> bool
    ensures { result ≡ in_otherwise ask.now (view_otherwise otherwise.now) }
{
    match otherwise {
        None => false,
        Some(list) => in_steps(ask, list),
    }
}

/// Whether what is asked holds of a node of a statement, itself among them; of what a CREATE makes nothing is asked.
#[tactic(auto, using(crate::proofs::Walked::statement_walked))]
pub fn in_statement(ask: &Ask<'_>, s: &Stmt) -> bool
    ensures { result ≡ list_any (asks_node ask.now) (nodes_of (view s.now)) }
{
    in_whole(ask, s)
}
