//! The names in statements.
ghost use Rattle.std.specs.Prelude.{◌≡◌, OnOk};
ghost use Rattle.sql_tree.specs.View.{view_part};
ghost use Rattle.sql_tree.specs.StatementView.{view, view_assignments, view_branches, view_declarations, view_delete, view_insert, view_otherwise, view_replace, view_rows, view_sets, view_statements, view_supply, view_update};
ghost use Rattle.statement_names.specs.Walking.{of_assignments, of_branches, of_declared, of_otherwise, of_part, of_rows, of_sets, of_statement, of_steps, of_supply};

use crate::expressions::{visit_expr, visit_exprs, visit_order, visit_select};
use crate::visitor::NameVisitor;
use sql_tree::{
    Assignment, Branch, ColumnSet, Declaration, DeleteStmt, Expr, InsertStmt, ReplaceStmt, Source,
    Stmt, UpdateStmt,
};
use val_types::{List, NoMemory};

fn visit_option<V: NameVisitor>(visitor: &mut V, e: &Option<Expr>) -> Result<(), NoMemory>
    ensures { OnOk result (visitor.new ≡ of_part V.visits (view_part e.now) visitor.old) }
{
    match e {
        None => Ok(()),
        Some(e) => visit_expr(visitor, e),
    }
}

fn visit_rows<V: NameVisitor>(visitor: &mut V, rows: &List<List<Expr>>) -> Result<(), NoMemory>
    ensures { OnOk result (visitor.new ≡ of_rows V.visits (view_rows rows.now) visitor.old) }
{
    for row in rows.as_slice() {
        visit_exprs(visitor, row)?;
    }
    Ok(())
}

fn visit_source<V: NameVisitor>(visitor: &mut V, source: &Source) -> Result<(), NoMemory>
    ensures { OnOk result (visitor.new ≡ of_supply V.visits (view_supply source.now) visitor.old) }
{
    match source {
        Source::Rows(rows) => visit_rows(visitor, rows),
        Source::Select(query) => visit_select(visitor, query),
    }
}

fn visit_sets<V: NameVisitor>(visitor: &mut V, list: &List<ColumnSet>) -> Result<(), NoMemory>
    ensures { OnOk result (visitor.new ≡ of_sets V.visits (view_sets list.now) visitor.old) }
{
    for set in list.as_slice() {
        visit_expr(visitor, &set.value)?;
    }
    Ok(())
}

fn visit_assignments<V: NameVisitor>(
    visitor: &mut V,
    list: &List<Assignment>,
) -> Result<(), NoMemory>
    ensures { OnOk result (visitor.new ≡ of_assignments V.visits (view_assignments list.now) visitor.old) }
{
    for assignment in list.as_slice() {
        visit_expr(visitor, &assignment.value)?;
    }
    Ok(())
}

fn visit_declared<V: NameVisitor>(visitor: &mut V, list: &List<Declaration>) -> Result<(), NoMemory>
    ensures { OnOk result (visitor.new ≡ of_declared V.visits (view_declarations list.now) visitor.old) }
{
    for declaration in list.as_slice() {
        visit_option(visitor, &declaration.preset)?;
    }
    Ok(())
}

fn visit_insert<V: NameVisitor>(visitor: &mut V, i: &InsertStmt) -> Result<(), NoMemory>
    ensures { OnOk result (visitor.new ≡ of_statement V.visits (view_insert i.now) visitor.old) }
{
    visitor.visit_table(&i.table)?;
    visit_source(visitor, &i.source)?;
    visit_sets(visitor, &i.update)
}

fn visit_replace<V: NameVisitor>(visitor: &mut V, r: &ReplaceStmt) -> Result<(), NoMemory>
    ensures { OnOk result (visitor.new ≡ of_statement V.visits (view_replace r.now) visitor.old) }
{
    visitor.visit_table(&r.table)?;
    visit_source(visitor, &r.source)
}

fn visit_update<V: NameVisitor>(visitor: &mut V, u: &UpdateStmt) -> Result<(), NoMemory>
    ensures { OnOk result (visitor.new ≡ of_statement V.visits (view_update u.now) visitor.old) }
{
    visitor.visit_table(&u.table)?;
    visit_sets(visitor, &u.sets)?;
    visit_option(visitor, &u.filter)?;
    visit_order(visitor, &u.order)
}

fn visit_delete<V: NameVisitor>(visitor: &mut V, d: &DeleteStmt) -> Result<(), NoMemory>
    ensures { OnOk result (visitor.new ≡ of_statement V.visits (view_delete d.now) visitor.old) }
{
    visitor.visit_table(&d.table)?;
    visit_option(visitor, &d.filter)?;
    visit_order(visitor, &d.order)
}

/// Visits the names in a statement, in the order in which they stand in it.
#[cycle(walk)]
pub(crate) fn visit_statement<V: NameVisitor>(visitor: &mut V, s: &Stmt) -> Result<(), NoMemory>
    ensures { OnOk result (visitor.new ≡ of_statement V.visits (view s.now) visitor.old) }
{
    match s {
        Stmt::CreateTable(_) | Stmt::CreateFunction(_) | Stmt::CreateProcedure(_) => Ok(()),
        Stmt::CreateTrigger(_) | Stmt::DropTable(_) | Stmt::DropFunction(_) => Ok(()),
        Stmt::DropProcedure(_) | Stmt::DropTrigger(_) | Stmt::Truncate(_) => Ok(()),
        Stmt::Begin | Stmt::Commit | Stmt::Rollback => Ok(()),
        Stmt::Savepoint(_) | Stmt::RollbackTo(_) | Stmt::ReleaseSavepoint(_) => Ok(()),
        Stmt::Insert(i) => visit_insert(visitor, i),
        Stmt::Replace(r) => visit_replace(visitor, r),
        Stmt::Update(u) => visit_update(visitor, u),
        Stmt::Delete(d) => visit_delete(visitor, d),
        Stmt::Select(query) => visit_select(visitor, query),
        Stmt::Do(list) => visit_exprs(visitor, list),
        Stmt::Set(list) => visit_assignments(visitor, list),
        Stmt::Call { arguments, .. } => visit_exprs(visitor, arguments),
        Stmt::Block { declarations, body } => {
            visit_declared(visitor, declarations)?;
            visit_steps(visitor, body)
        }
        Stmt::If { arms, otherwise } => {
            visit_branches(visitor, arms)?;
            visit_otherwise(visitor, otherwise)
        }
        Stmt::While { condition, steps } => {
            visit_expr(visitor, condition)?;
            visit_steps(visitor, steps)
        }
        Stmt::Return(e) => visit_expr(visitor, e),
    }
}

#[cycle(walk)]
fn visit_steps<V: NameVisitor>(visitor: &mut V, list: &List<Stmt>) -> Result<(), NoMemory>
    ensures { OnOk result (visitor.new ≡ of_steps V.visits (view_statements list.now) visitor.old) }
{
    for step in list.as_slice() {
        visit_statement(visitor, step)?;
    }
    Ok(())
}

#[cycle(walk)]
fn visit_branches<V: NameVisitor>(visitor: &mut V, list: &List<Branch>) -> Result<(), NoMemory>
    ensures { OnOk result (visitor.new ≡ of_branches V.visits (view_branches list.now) visitor.old) }
{
    for branch in list.as_slice() {
        visit_expr(visitor, &branch.condition)?;
        visit_steps(visitor, &branch.steps)?;
    }
    Ok(())
}

#[cycle(walk)]
fn visit_otherwise<V: NameVisitor>(
    visitor: &mut V,
    otherwise: &Option<List<Stmt>>,
) -> Result<(), NoMemory>
    ensures { OnOk result (visitor.new ≡ of_otherwise V.visits (view_otherwise otherwise.now) visitor.old) }
{
    match otherwise {
        None => Ok(()),
        Some(list) => visit_steps(visitor, list),
    }
}
