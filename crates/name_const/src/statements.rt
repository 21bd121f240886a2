//! Changes and whole statements with locals closed in.
ghost use Rattle.std.specs.Prelude.{◌≡◌, IfOk};
ghost use Rattle.sql_tree.specs.StatementView.{view, view_delete, view_insert, view_replace, view_rows, view_sets, view_supply, view_update};
ghost use Rattle.sql_tree.specs.View.{view_part};
ghost use Rattle.sql_reach.specs.Closing.{closed};
ghost use Rattle.name_const_names.specs.name_const_length.Closed.{closed_part, closed_rows, closed_sets, closed_supply};

use crate::expressions::{close_expr, close_exprs, close_order, close_select};
use name_const_names::close_count_if;
use sql_locals::Locals;
use sql_tree::{ColumnSet, DeleteStmt, Expr, InsertStmt, ReplaceStmt, Source, Stmt, UpdateStmt};
use std::alloc::Global;
use tree_copies::copy_stmt;
use val_types::{Duplicate, List, NoMemory};

fn close_option(
    alloc: Global,
    locals: &Locals,
    expr: &Option<Expr>,
) -> Result<Option<Expr>, NoMemory>
    ensures { IfOk result (λ copy. view_part copy ≡ closed_part locals.now (view_part expr.now)) }
{
    match expr {
        None => Ok(None),
        Some(expr) => Ok(Some(close_expr(alloc, locals, expr)?)),
    }
}

fn close_rows(
    alloc: Global,
    locals: &Locals,
    rows: &List<List<Expr>>,
) -> Result<List<List<Expr>>, NoMemory>
    ensures { IfOk result (λ copy. view_rows copy ≡ closed_rows locals.now (view_rows rows.now)) }
{
    let mut copy = List::new(alloc);
    for row in rows.as_slice() {
        copy.push(close_exprs(alloc, locals, row)?)?;
    }
    Ok(copy)
}

fn close_source(alloc: Global, locals: &Locals, source: &Source) -> Result<Source, NoMemory>
    ensures { IfOk result (λ copy. view_supply copy ≡ closed_supply locals.now (view_supply source.now)) }
{
    Ok(match source {
        Source::Rows(rows) => Source::Rows(close_rows(alloc, locals, rows)?),
        Source::Select(select) => Source::Select(close_select(alloc, locals, select)?),
    })
}

fn close_sets(
    alloc: Global,
    locals: &Locals,
    sets: &List<ColumnSet>,
) -> Result<List<ColumnSet>, NoMemory>
    ensures { IfOk result (λ copy. view_sets copy ≡ closed_sets locals.now (view_sets sets.now)) }
{
    let mut copy = List::new(alloc);
    for set in sets.as_slice() {
        let column = set.column.duplicate(alloc)?;
        let value = close_expr(alloc, locals, &set.value)?;
        copy.push(ColumnSet { column, value })?;
    }
    Ok(copy)
}

fn close_insert(alloc: Global, locals: &Locals, insert: &InsertStmt) -> Result<InsertStmt, NoMemory>
    ensures { IfOk result (λ copy. view_insert copy ≡ closed (view_insert insert.now) locals.now) }
{
    Ok(InsertStmt {
        ignore: insert.ignore,
        table: insert.table.duplicate(alloc)?,
        columns: insert.columns.duplicate(alloc)?,
        update: close_sets(alloc, locals, &insert.update)?,
        source: close_source(alloc, locals, &insert.source)?,
    })
}

fn close_replace(
    alloc: Global,
    locals: &Locals,
    replace: &ReplaceStmt,
) -> Result<ReplaceStmt, NoMemory>
    ensures { IfOk result (λ copy. view_replace copy ≡ closed (view_replace replace.now) locals.now) }
{
    Ok(ReplaceStmt {
        table: replace.table.duplicate(alloc)?,
        columns: replace.columns.duplicate(alloc)?,
        source: close_source(alloc, locals, &replace.source)?,
    })
}

fn close_update(alloc: Global, locals: &Locals, update: &UpdateStmt) -> Result<UpdateStmt, NoMemory>
    ensures { IfOk result (λ copy. view_update copy ≡ closed (view_update update.now) locals.now) }
{
    Ok(UpdateStmt {
        table: update.table.duplicate(alloc)?,
        sets: close_sets(alloc, locals, &update.sets)?,
        order: close_order(alloc, locals, &update.order)?,
        limit: close_count_if(alloc, locals, &update.limit)?,
        filter: close_option(alloc, locals, &update.filter)?,
    })
}

fn close_delete(alloc: Global, locals: &Locals, delete: &DeleteStmt) -> Result<DeleteStmt, NoMemory>
    ensures { IfOk result (λ copy. view_delete copy ≡ closed (view_delete delete.now) locals.now) }
{
    Ok(DeleteStmt {
        table: delete.table.duplicate(alloc)?,
        order: close_order(alloc, locals, &delete.order)?,
        limit: close_count_if(alloc, locals, &delete.limit)?,
        filter: close_option(alloc, locals, &delete.filter)?,
    })
}

/// A statement with locals closed in; one that is no change, SELECT or DO is left as it is.
#[tactic(auto, unfolding(sql_reach::specs::Closing::closed))]
pub fn close_stmt(alloc: Global, locals: &Locals, s: &Stmt) -> Result<Stmt, NoMemory>
    ensures { IfOk result (λ copy. view copy ≡ closed (view s.now) locals.now) }
{
    match s {
        Stmt::Insert(insert) => Ok(Stmt::Insert(close_insert(alloc, locals, insert)?)),
        Stmt::Replace(replace) => Ok(Stmt::Replace(close_replace(alloc, locals, replace)?)),
        Stmt::Update(update) => Ok(Stmt::Update(close_update(alloc, locals, update)?)),
        Stmt::Delete(delete) => Ok(Stmt::Delete(close_delete(alloc, locals, delete)?)),
        Stmt::Select(select) => Ok(Stmt::Select(close_select(alloc, locals, select)?)),
        Stmt::Do(exprs) => Ok(Stmt::Do(close_exprs(alloc, locals, exprs)?)),
        _ => copy_stmt(alloc, s),
    }
}
