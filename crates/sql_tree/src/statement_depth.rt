//! How deep statements are.
ghost use Rattle.std.specs.Prelude.{◌≡◌, ◌-◌, ◌^◌, min};
ghost use Rattle.sql_tree.specs.Depth.{depth_of, depth_of_part, depth_of_rows, depth_of_supply, depth_of_sets, depth_of_assignments, depth_of_declarations, depth_of_statements, depth_of_branches, depth_of_otherwise};
ghost use Rattle.sql_tree.specs.View.{view_part};
ghost use Rattle.sql_tree.specs.StatementView.{view, view_rows, view_supply, view_sets, view_assignments, view_declarations, view_insert, view_replace, view_update, view_delete, view_statements, view_branches, view_otherwise};

use crate::expression_depth::{expr_depth, list_depth, order_depth, select_depth};
use crate::expressions::Expr;
use crate::statements::{
    Assignment, Branch, ColumnSet, Declaration, DeleteStmt, InsertStmt, ReplaceStmt, Source, Stmt,
    UpdateStmt,
};
use val_types::List;

/// The depth of an expression that may be left out, 0 where it is.
fn option_depth(expr: &Option<Expr>) -> u32
    ensures { result ≡ min (depth_of_part (view_part expr.now)) (2 ^ 32 - 1) }
{
    match expr {
        None => 0,
        Some(expr) => expr_depth(expr),
    }
}

fn rows_depth(rows: &List<List<Expr>>) -> u32
    ensures { result ≡ min (depth_of_rows (view_rows rows.now)) (2 ^ 32 - 1) }
{
    let mut most = 0;
    for row in rows.as_slice() {
        most = list_depth(row).max(most);
    }
    most
}

fn source_depth(source: &Source) -> u32
    ensures { result ≡ min (depth_of_supply (view_supply source.now)) (2 ^ 32 - 1) }
{
    match source {
        Source::Rows(rows) => rows_depth(rows),
        Source::Select(select) => select_depth(select),
    }
}

fn sets_depth(sets: &List<ColumnSet>) -> u32
    ensures { result ≡ min (depth_of_sets (view_sets sets.now)) (2 ^ 32 - 1) }
{
    let mut most = 0;
    for set in sets.as_slice() {
        most = expr_depth(&set.value).max(most);
    }
    most
}

fn assignments_depth(assignments: &List<Assignment>) -> u32
    ensures { result ≡ min (depth_of_assignments (view_assignments assignments.now)) (2 ^ 32 - 1) }
{
    let mut most = 0;
    for assignment in assignments.as_slice() {
        most = expr_depth(&assignment.value).max(most);
    }
    most
}

fn declarations_depth(declarations: &List<Declaration>) -> u32
    ensures { result ≡ min (depth_of_declarations (view_declarations declarations.now)) (2 ^ 32 - 1) }
{
    let mut most = 0;
    for declaration in declarations.as_slice() {
        most = option_depth(&declaration.preset).max(most);
    }
    most
}

fn insert_depth(insert: &InsertStmt) -> u32
    ensures { result ≡ min (depth_of (view_insert insert.now)) (2 ^ 32 - 1) }
{
    let source = source_depth(&insert.source);
    source.max(sets_depth(&insert.update)).saturating_add(1)
}

fn replace_depth(replace: &ReplaceStmt) -> u32
    ensures { result ≡ min (depth_of (view_replace replace.now)) (2 ^ 32 - 1) }
{
    source_depth(&replace.source).saturating_add(1)
}

fn update_depth(update: &UpdateStmt) -> u32
    ensures { result ≡ min (depth_of (view_update update.now)) (2 ^ 32 - 1) }
{
    let filter = option_depth(&update.filter);
    sets_depth(&update.sets)
        .max(filter.max(order_depth(&update.order)))
        .saturating_add(1)
}

fn delete_depth(delete: &DeleteStmt) -> u32
    ensures { result ≡ min (depth_of (view_delete delete.now)) (2 ^ 32 - 1) }
{
    let filter = option_depth(&delete.filter);
    filter.max(order_depth(&delete.order)).saturating_add(1)
}

/// How deep a statement is, 4294967295 where it is that or more. A literal, a name and NAME_CONST
/// have the depth 1, every other node one more than its deepest part; parentheses are no nodes.
#[cycle(depth)]
pub fn depth(s: &Stmt) -> u32
    ensures { result ≡ min (depth_of (view s.now)) (2 ^ 32 - 1) }
{
    match s {
        Stmt::CreateTable(_) | Stmt::Truncate(_) => 1,
        Stmt::DropTable(_) | Stmt::DropFunction(_) => 1,
        Stmt::DropProcedure(_) | Stmt::DropTrigger(_) => 1,
        Stmt::Begin | Stmt::Commit | Stmt::Rollback => 1,
        Stmt::Savepoint(_) | Stmt::RollbackTo(_) | Stmt::ReleaseSavepoint(_) => 1,
        Stmt::CreateFunction(routine) | Stmt::CreateProcedure(routine) => {
            depth(&routine.get().body).saturating_add(1)
        }
        Stmt::CreateTrigger(trigger) => depth(&trigger.get().body).saturating_add(1),
        Stmt::Insert(insert) => insert_depth(insert),
        Stmt::Replace(replace) => replace_depth(replace),
        Stmt::Update(update) => update_depth(update),
        Stmt::Delete(delete) => delete_depth(delete),
        Stmt::Select(select) => select_depth(select),
        Stmt::Do(exprs) => list_depth(exprs).saturating_add(1),
        Stmt::Set(assignments) => assignments_depth(assignments).saturating_add(1),
        Stmt::Call { arguments, .. } => list_depth(arguments).saturating_add(1),
        Stmt::Block { declarations, body } => {
            declarations_depth(declarations)
                .max(steps_depth(body))
                .saturating_add(1)
        }
        Stmt::If { arms, otherwise } => {
            branches_depth(arms)
                .max(otherwise_depth(otherwise))
                .saturating_add(1)
        }
        Stmt::While { condition, steps } => {
            expr_depth(condition)
                .max(steps_depth(steps))
                .saturating_add(1)
        }
        Stmt::Return(expr) => expr_depth(expr).saturating_add(1),
    }
}

#[cycle(depth)]
fn steps_depth(steps: &List<Stmt>) -> u32
    ensures { result ≡ min (depth_of_statements (view_statements steps.now)) (2 ^ 32 - 1) }
{
    let mut most = 0;
    for step in steps.as_slice() {
        most = depth(step).max(most);
    }
    most
}

#[cycle(depth)]
fn branches_depth(branches: &List<Branch>) -> u32
    ensures { result ≡ min (depth_of_branches (view_branches branches.now)) (2 ^ 32 - 1) }
{
    let mut most = 0;
    for branch in branches.as_slice() {
        most = expr_depth(&branch.condition)
            .max(steps_depth(&branch.steps))
            .max(most);
    }
    most
}

/// The depth of the deepest step behind ELSE, 0 where it is left out.
#[cycle(depth)]
fn otherwise_depth(otherwise: &Option<List<Stmt>>) -> u32
    ensures { result ≡ min (depth_of_otherwise (view_otherwise otherwise.now)) (2 ^ 32 - 1) }
{
    match otherwise {
        None => 0,
        Some(steps) => steps_depth(steps),
    }
}
