//! Changes with locals closed in, at the end of a length; and whole statements.
ghost use Rattle.std.specs.Prelude.{◌≡◌, ◌++◌, IfOk, OnOk, codes, length, map, min};
ghost use Rattle.sql_tree.specs.StatementView.{view, view_delete, view_insert, view_replace, view_rows, view_set, view_sets, view_supply, view_update};
ghost use Rattle.sql_tree.specs.View.{view_part, view_trees};
ghost use Rattle.sql_print.specs.Names.{commas};
ghost use Rattle.sql_print.specs.Spelling.{trees_text, where_text};
ghost use Rattle.sql_print.specs.StatementSpelling.{columns_text, ignore_text, row_text, set_text, sets_text, spelling, supply_text, update_text};
ghost use Rattle.sql_reach.specs.Closing.{closed};
ghost use Rattle.name_const_length.specs.Closed.{closed_part, closed_rows, closed_set, closed_sets, closed_supply, closed_trees};
ghost use Rattle.name_const_length.specs.Growing.{greatest, grown};

use crate::expressions::{add_expr, add_exprs, add_order, add_select};
use crate::lengths::{add, add_comma, add_count_if, add_name, add_names, add_prefixed};
use sql_locals::Locals;
use sql_print::print;
use sql_tree::{ColumnSet, DeleteStmt, Expr, InsertStmt, ReplaceStmt, Source, Stmt, UpdateStmt};
use std::alloc::Global;
use val_types::{Bytes, List, NoMemory};

fn add_filter(total: &mut u64, locals: &Locals, filter: &Option<Expr>)
    ensures { total.new ≡ grown total.old (where_text (closed_part locals.now (view_part filter.now))) }
{
    match filter {
        None => {}
        Some(expr) => {
            add(total, b" WHERE ");
            add_expr(total, locals, expr);
        }
    }
}

fn add_columns(total: &mut u64, columns: &Option<List<Bytes>>)
    ensures { total.new ≡ grown total.old (columns_text columns.now) }
{
    match columns {
        None => {}
        Some(names) => {
            add(total, b" (");
            add_names(total, names);
            add(total, b")");
        }
    }
}

/// A row of VALUES in parentheses.
fn add_row(total: &mut u64, locals: &Locals, row: &List<Expr>)
    ensures { total.new ≡ grown total.old (row_text (closed_trees locals.now (view_trees row.now))) }
{
    add(total, b"(");
    add_exprs(total, locals, row);
    add(total, b")");
}

fn add_rows(total: &mut u64, locals: &Locals, rows: &List<List<Expr>>)
    ensures { total.new ≡ grown total.old (commas (map row_text (closed_rows locals.now (view_rows rows.now)))) }
{
    let mut first = true;
    for row in rows.as_slice() {
        add_comma(total, first);
        add_row(total, locals, row);
        first = false;
    }
}

fn add_source(total: &mut u64, locals: &Locals, source: &Source)
    ensures { total.new ≡ grown total.old (supply_text (closed_supply locals.now (view_supply source.now))) }
{
    match source {
        Source::Rows(rows) => {
            add(total, b" VALUES ");
            add_rows(total, locals, rows);
        }
        Source::Select(select) => {
            add(total, b" ");
            add_select(total, locals, select);
        }
    }
}

/// `column = value`
fn add_set(total: &mut u64, locals: &Locals, set: &ColumnSet)
    ensures { total.new ≡ grown total.old (set_text (closed_set locals.now (view_set set.now))) }
{
    add_name(total, &set.column);
    add(total, b" = ");
    add_expr(total, locals, &set.value);
}

fn add_sets(total: &mut u64, locals: &Locals, sets: &List<ColumnSet>)
    ensures { total.new ≡ grown total.old (sets_text (closed_sets locals.now (view_sets sets.now))) }
{
    let mut first = true;
    for set in sets.as_slice() {
        add_comma(total, first);
        add_set(total, locals, set);
        first = false;
    }
}

/// ON DUPLICATE KEY UPDATE, nothing where there is no item.
fn add_update(total: &mut u64, locals: &Locals, sets: &List<ColumnSet>)
    ensures { total.new ≡ grown total.old (update_text (closed_sets locals.now (view_sets sets.now))) }
{
    if !sets.is_empty() {
        add(total, b" ON DUPLICATE KEY UPDATE ");
        add_sets(total, locals, sets);
    }
}

fn add_insert_into(total: &mut u64, ignore: bool)
    ensures { total.new ≡ grown total.old (ignore_text ignore) }
{
    if ignore {
        add(total, b"INSERT IGNORE INTO ");
    } else {
        add(total, b"INSERT INTO ");
    }
}

/// INSERT
pub fn add_insert(total: &mut u64, locals: &Locals, insert: &InsertStmt)
    ensures { total.new ≡ grown total.old (spelling (closed (view_insert insert.now) locals.now)) }
{
    add_insert_into(total, insert.ignore);
    add_name(total, &insert.table);
    add_columns(total, &insert.columns);
    add_source(total, locals, &insert.source);
    add_update(total, locals, &insert.update);
}

/// REPLACE
pub fn add_replace(total: &mut u64, locals: &Locals, replace: &ReplaceStmt)
    ensures { total.new ≡ grown total.old (spelling (closed (view_replace replace.now) locals.now)) }
{
    add_prefixed(total, b"REPLACE INTO ", &replace.table);
    add_columns(total, &replace.columns);
    add_source(total, locals, &replace.source);
}

/// UPDATE
pub fn add_update_rows(total: &mut u64, locals: &Locals, update: &UpdateStmt)
    ensures { total.new ≡ grown total.old (spelling (closed (view_update update.now) locals.now)) }
{
    add_prefixed(total, b"UPDATE ", &update.table);
    add(total, b" SET ");
    add_sets(total, locals, &update.sets);
    add_filter(total, locals, &update.filter);
    add_order(total, locals, &update.order);
    add_count_if(total, locals, &update.limit);
}

/// DELETE
pub fn add_delete(total: &mut u64, locals: &Locals, delete: &DeleteStmt)
    ensures { total.new ≡ grown total.old (spelling (closed (view_delete delete.now) locals.now)) }
{
    add_prefixed(total, b"DELETE FROM ", &delete.table);
    add_filter(total, locals, &delete.filter);
    add_order(total, locals, &delete.order);
    add_count_if(total, locals, &delete.limit);
}

/// DO
fn add_do(total: &mut u64, locals: &Locals, exprs: &List<Expr>)
    ensures { total.new ≡ grown total.old (codes "DO " ++ trees_text (closed_trees locals.now (view_trees exprs.now))) }
{
    add(total, b"DO ");
    add_exprs(total, locals, exprs);
}

/// A statement with locals closed in.
#[tactic(auto, using(crate::proofs::Growing::growing), unfolding(sql_reach::specs::Closing::closed))]
fn add_stmt(alloc: Global, total: &mut u64, locals: &Locals, s: &Stmt) -> Result<(), NoMemory>
    ensures { OnOk result (total.new ≡ grown total.old (spelling (closed (view s.now) locals.now))) }
{
    match s {
        Stmt::Insert(insert) => add_insert(total, locals, insert),
        Stmt::Replace(replace) => add_replace(total, locals, replace),
        Stmt::Update(update) => add_update_rows(total, locals, update),
        Stmt::Delete(delete) => add_delete(total, locals, delete),
        Stmt::Select(select) => add_select(total, locals, select),
        Stmt::Do(exprs) => add_do(total, locals, exprs),
        _ => add(total, print(alloc, s)?.as_slice()),
    }
    Ok(())
}

/// How many bytes the canonical text of a statement with locals closed in has, at most the greatest number
/// of 64 bits. It takes memory only for statements that closing leaves as they are.
#[tactic(auto, using(crate::proofs::Growing::from_start))]
pub fn closed_length(alloc: Global, s: &Stmt, locals: &Locals) -> Result<u64, NoMemory>
    ensures { IfOk result (λ total. total ≡ min (length (spelling (closed (view s.now) locals.now))) greatest) }
{
    let mut total = 0;
    add_stmt(alloc, &mut total, locals, s)?;
    Ok(total)
}
