//! Copies of statements and of the stored programs in them.
ghost use Rattle.std.specs.Prelude.{◌≡◌, IfOk};

use crate::expressions::{copy_expr, copy_exprs, copy_order, copy_select};
use sql_tree::{
    Assignment, Branch, ColumnSet, Declaration, DeleteStmt, Expr, InsertStmt, ReplaceStmt, Routine,
    Source, Stmt, TriggerDef, UpdateStmt,
};
use std::alloc::Global;
use val_types::{Boxed, Duplicate, List, NoMemory};

fn copy_option(alloc: Global, expr: &Option<Expr>) -> Result<Option<Expr>, NoMemory>
    ensures { IfOk result (λ copy. copy ≡ expr.now) }
{
    match expr {
        None => Ok(None),
        Some(expr) => Ok(Some(copy_expr(alloc, expr)?)),
    }
}

fn copy_rows(alloc: Global, rows: &List<List<Expr>>) -> Result<List<List<Expr>>, NoMemory>
    ensures { IfOk result (λ copy. copy ≡ rows.now) }
{
    let mut copy = List::new(alloc);
    for row in rows.as_slice() {
        copy.push(copy_exprs(alloc, row)?)?;
    }
    Ok(copy)
}

fn copy_source(alloc: Global, source: &Source) -> Result<Source, NoMemory>
    ensures { IfOk result (λ copy. copy ≡ source.now) }
{
    Ok(match source {
        Source::Rows(rows) => Source::Rows(copy_rows(alloc, rows)?),
        Source::Select(select) => Source::Select(copy_select(alloc, select)?),
    })
}

fn copy_sets(alloc: Global, sets: &List<ColumnSet>) -> Result<List<ColumnSet>, NoMemory>
    ensures { IfOk result (λ copy. copy ≡ sets.now) }
{
    let mut copy = List::new(alloc);
    for set in sets.as_slice() {
        let column = set.column.duplicate(alloc)?;
        let value = copy_expr(alloc, &set.value)?;
        copy.push(ColumnSet { column, value })?;
    }
    Ok(copy)
}

fn copy_assignments(
    alloc: Global,
    assignments: &List<Assignment>,
) -> Result<List<Assignment>, NoMemory>
    ensures { IfOk result (λ copy. copy ≡ assignments.now) }
{
    let mut copy = List::new(alloc);
    for assignment in assignments.as_slice() {
        let target = assignment.target.duplicate(alloc)?;
        let value = copy_expr(alloc, &assignment.value)?;
        copy.push(Assignment { target, value })?;
    }
    Ok(copy)
}

fn copy_declarations(
    alloc: Global,
    declarations: &List<Declaration>,
) -> Result<List<Declaration>, NoMemory>
    ensures { IfOk result (λ copy. copy ≡ declarations.now) }
{
    let mut copy = List::new(alloc);
    for declaration in declarations.as_slice() {
        let names = declaration.names.duplicate(alloc)?;
        let kind = declaration.kind;
        let preset = copy_option(alloc, &declaration.preset)?;
        copy.push(Declaration {
            names,
            kind,
            preset,
        })?;
    }
    Ok(copy)
}

fn copy_insert(alloc: Global, insert: &InsertStmt) -> Result<InsertStmt, NoMemory>
    ensures { IfOk result (λ copy. copy ≡ insert.now) }
{
    Ok(InsertStmt {
        ignore: insert.ignore,
        table: insert.table.duplicate(alloc)?,
        columns: insert.columns.duplicate(alloc)?,
        update: copy_sets(alloc, &insert.update)?,
        source: copy_source(alloc, &insert.source)?,
    })
}

fn copy_replace(alloc: Global, replace: &ReplaceStmt) -> Result<ReplaceStmt, NoMemory>
    ensures { IfOk result (λ copy. copy ≡ replace.now) }
{
    Ok(ReplaceStmt {
        table: replace.table.duplicate(alloc)?,
        columns: replace.columns.duplicate(alloc)?,
        source: copy_source(alloc, &replace.source)?,
    })
}

fn copy_update(alloc: Global, update: &UpdateStmt) -> Result<UpdateStmt, NoMemory>
    ensures { IfOk result (λ copy. copy ≡ update.now) }
{
    Ok(UpdateStmt {
        table: update.table.duplicate(alloc)?,
        sets: copy_sets(alloc, &update.sets)?,
        order: copy_order(alloc, &update.order)?,
        limit: update.limit.duplicate(alloc)?,
        filter: copy_option(alloc, &update.filter)?,
    })
}

fn copy_delete(alloc: Global, delete: &DeleteStmt) -> Result<DeleteStmt, NoMemory>
    ensures { IfOk result (λ copy. copy ≡ delete.now) }
{
    Ok(DeleteStmt {
        table: delete.table.duplicate(alloc)?,
        order: copy_order(alloc, &delete.order)?,
        limit: delete.limit.duplicate(alloc)?,
        filter: copy_option(alloc, &delete.filter)?,
    })
}

/// An equal statement.
#[cycle(copies)]
pub fn copy_stmt(alloc: Global, s: &Stmt) -> Result<Stmt, NoMemory>
    ensures { IfOk result (λ copy. copy ≡ s.now) }
{
    Ok(match s {
        Stmt::CreateTable(table) => Stmt::CreateTable(table.duplicate(alloc)?),
        Stmt::CreateFunction(routine) => Stmt::CreateFunction(copy_boxed(alloc, routine)?),
        Stmt::CreateProcedure(routine) => Stmt::CreateProcedure(copy_boxed(alloc, routine)?),
        Stmt::CreateTrigger(trigger) => {
            Stmt::CreateTrigger(Boxed::new(alloc, copy_trigger(alloc, trigger.get())?)?)
        }
        Stmt::DropTable(name) => Stmt::DropTable(name.duplicate(alloc)?),
        Stmt::DropFunction(name) => Stmt::DropFunction(name.duplicate(alloc)?),
        Stmt::DropProcedure(name) => Stmt::DropProcedure(name.duplicate(alloc)?),
        Stmt::DropTrigger(name) => Stmt::DropTrigger(name.duplicate(alloc)?),
        Stmt::Truncate(name) => Stmt::Truncate(name.duplicate(alloc)?),
        Stmt::Insert(insert) => Stmt::Insert(copy_insert(alloc, insert)?),
        Stmt::Replace(replace) => Stmt::Replace(copy_replace(alloc, replace)?),
        Stmt::Update(update) => Stmt::Update(copy_update(alloc, update)?),
        Stmt::Delete(delete) => Stmt::Delete(copy_delete(alloc, delete)?),
        Stmt::Select(select) => Stmt::Select(copy_select(alloc, select)?),
        Stmt::Do(exprs) => Stmt::Do(copy_exprs(alloc, exprs)?),
        Stmt::Set(assignments) => Stmt::Set(copy_assignments(alloc, assignments)?),
        Stmt::Call { name, arguments } => Stmt::Call {
            name: name.duplicate(alloc)?,
            arguments: copy_exprs(alloc, arguments)?,
        },
        Stmt::Begin => Stmt::Begin,
        Stmt::Commit => Stmt::Commit,
        Stmt::Rollback => Stmt::Rollback,
        Stmt::Savepoint(name) => Stmt::Savepoint(name.duplicate(alloc)?),
        Stmt::RollbackTo(name) => Stmt::RollbackTo(name.duplicate(alloc)?),
        Stmt::ReleaseSavepoint(name) => Stmt::ReleaseSavepoint(name.duplicate(alloc)?),
        Stmt::Block { declarations, body } => Stmt::Block {
            declarations: copy_declarations(alloc, declarations)?,
            body: copy_steps(alloc, body)?,
        },
        Stmt::If { arms, otherwise } => Stmt::If {
            arms: copy_branches(alloc, arms)?,
            otherwise: copy_otherwise(alloc, otherwise)?,
        },
        Stmt::While { condition, steps } => Stmt::While {
            steps: copy_steps(alloc, steps)?,
            condition: copy_expr(alloc, condition)?,
        },
        Stmt::Return(expr) => Stmt::Return(copy_expr(alloc, expr)?),
    })
}

#[cycle(copies)]
fn copy_steps(alloc: Global, steps: &List<Stmt>) -> Result<List<Stmt>, NoMemory>
    ensures { IfOk result (λ copy. copy ≡ steps.now) }
{
    let mut copy = List::new(alloc);
    for step in steps.as_slice() {
        copy.push(copy_stmt(alloc, step)?)?;
    }
    Ok(copy)
}

#[cycle(copies)]
fn copy_branches(alloc: Global, branches: &List<Branch>) -> Result<List<Branch>, NoMemory>
    ensures { IfOk result (λ copy. copy ≡ branches.now) }
{
    let mut copy = List::new(alloc);
    for branch in branches.as_slice() {
        let steps = copy_steps(alloc, &branch.steps)?;
        let condition = copy_expr(alloc, &branch.condition)?;
        copy.push(Branch { condition, steps })?;
    }
    Ok(copy)
}

#[cycle(copies)]
fn copy_otherwise(
    alloc: Global,
    otherwise: &Option<List<Stmt>>,
) -> Result<Option<List<Stmt>>, NoMemory>
    ensures { IfOk result (λ copy. copy ≡ otherwise.now) }
{
    match otherwise {
        None => Ok(None),
        Some(steps) => Ok(Some(copy_steps(alloc, steps)?)),
    }
}

#[cycle(copies)]
fn copy_boxed(alloc: Global, routine: &Boxed<Routine>) -> Result<Boxed<Routine>, NoMemory>
    ensures { IfOk result (λ copy. copy ≡ routine.now) }
{
    Boxed::new(alloc, copy_routine(alloc, routine.get())?)
}

/// An equal stored function or procedure.
#[cycle(copies)]
pub fn copy_routine(alloc: Global, routine: &Routine) -> Result<Routine, NoMemory>
    ensures { IfOk result (λ copy. copy ≡ routine.now) }
{
    let name = routine.name.duplicate(alloc)?;
    let parameters = routine.parameters.duplicate(alloc)?;
    let body = copy_stmt(alloc, &routine.body)?;
    Ok(Routine {
        name,
        parameters,
        returns: routine.returns,
        body,
    })
}

/// An equal trigger.
#[cycle(copies)]
pub fn copy_trigger(alloc: Global, trigger: &TriggerDef) -> Result<TriggerDef, NoMemory>
    ensures { IfOk result (λ copy. copy ≡ trigger.now) }
{
    let name = trigger.name.duplicate(alloc)?;
    let table = trigger.table.duplicate(alloc)?;
    let body = copy_stmt(alloc, &trigger.body)?;
    Ok(TriggerDef {
        name,
        time: trigger.time,
        event: trigger.event,
        table,
        body,
    })
}
