//! The parts of statements that hold no statement, at the end of a text.
ghost use Rattle.std.specs.Prelude.{◌≡◌, ◌++◌, map, codes, OnOk};
ghost use Rattle.sql_tree.specs.View.{view_part, view_trees};
ghost use Rattle.sql_tree.specs.StatementView.{view_rows, view_supply, view_set, view_sets, view_assignment, view_assignments, view_declaration, view_declarations, view_insert, view_replace, view_update, view_delete};
ghost use Rattle.sql_print.specs.Names.{commas};
ghost use Rattle.sql_print.specs.Spelling.{where_text};
ghost use Rattle.sql_print.specs.StatementSpelling.{columns_text, row_text, supply_text, set_text, sets_text, update_text, ignore_text, target_text, assignment_text, assignments_text, parameter_text, returns_text, time_text, cause_text, default_text, declaration_text, declarations_text, spelling};

use crate::expressions::{write_expr, write_exprs, write_order, write_select};
use crate::names::{
    write_count_if, write_name, write_names, write_prefixed, write_system_name, write_type,
};
use sql_tree::{
    Assignment, Cause, ColumnSet, Declaration, DeleteStmt, Expr, InsertStmt, Parameter,
    ReplaceStmt, Source, SqlType, Target, Time, UpdateStmt,
};
use std::alloc::Global;
use val_types::{Bytes, List, NoMemory};

fn write_filter(alloc: Global, out: &mut Bytes, filter: &Option<Expr>) -> Result<(), NoMemory>
    ensures { OnOk result (out.new ≡ out.old ++ where_text (view_part filter.now)) }
{
    match filter {
        None => Ok(()),
        Some(expr) => {
            out.extend_from_slice(b" WHERE ")?;
            write_expr(alloc, out, expr)
        }
    }
}

fn write_columns(out: &mut Bytes, columns: &Option<List<Bytes>>) -> Result<(), NoMemory>
    ensures { OnOk result (out.new ≡ out.old ++ columns_text columns.now) }
{
    match columns {
        None => Ok(()),
        Some(names) => {
            out.extend_from_slice(b" (")?;
            write_names(out, names)?;
            out.extend_from_slice(b")")
        }
    }
}

/// A row of VALUES in parentheses.
fn write_row(alloc: Global, out: &mut Bytes, row: &List<Expr>) -> Result<(), NoMemory>
    ensures { OnOk result (out.new ≡ out.old ++ row_text (view_trees row.now)) }
{
    out.extend_from_slice(b"(")?;
    write_exprs(alloc, out, row)?;
    out.extend_from_slice(b")")
}

fn write_rows(alloc: Global, out: &mut Bytes, rows: &List<List<Expr>>) -> Result<(), NoMemory>
    ensures { OnOk result (out.new ≡ out.old ++ commas (map row_text (view_rows rows.now))) }
{
    let mut first = true;
    for row in rows.as_slice() {
        if !first {
            out.extend_from_slice(b", ")?;
        }
        write_row(alloc, out, row)?;
        first = false;
    }
    Ok(())
}

fn write_source(alloc: Global, out: &mut Bytes, source: &Source) -> Result<(), NoMemory>
    ensures { OnOk result (out.new ≡ out.old ++ supply_text (view_supply source.now)) }
{
    match source {
        Source::Rows(rows) => {
            out.extend_from_slice(b" VALUES ")?;
            write_rows(alloc, out, rows)
        }
        Source::Select(select) => {
            out.extend_from_slice(b" ")?;
            write_select(alloc, out, select)
        }
    }
}

/// `column = value`
fn write_set(alloc: Global, out: &mut Bytes, set: &ColumnSet) -> Result<(), NoMemory>
    ensures { OnOk result (out.new ≡ out.old ++ set_text (view_set set.now)) }
{
    write_name(out, &set.column)?;
    out.extend_from_slice(b" = ")?;
    write_expr(alloc, out, &set.value)
}

fn write_sets(alloc: Global, out: &mut Bytes, sets: &List<ColumnSet>) -> Result<(), NoMemory>
    ensures { OnOk result (out.new ≡ out.old ++ sets_text (view_sets sets.now)) }
{
    let mut first = true;
    for set in sets.as_slice() {
        if !first {
            out.extend_from_slice(b", ")?;
        }
        write_set(alloc, out, set)?;
        first = false;
    }
    Ok(())
}

/// ON DUPLICATE KEY UPDATE, nothing where there is no item.
fn write_update(alloc: Global, out: &mut Bytes, sets: &List<ColumnSet>) -> Result<(), NoMemory>
    ensures { OnOk result (out.new ≡ out.old ++ update_text (view_sets sets.now)) }
{
    if sets.is_empty() {
        Ok(())
    } else {
        out.extend_from_slice(b" ON DUPLICATE KEY UPDATE ")?;
        write_sets(alloc, out, sets)
    }
}

fn write_target(out: &mut Bytes, target: &Target) -> Result<(), NoMemory>
    ensures { OnOk result (out.new ≡ out.old ++ target_text target.now) }
{
    match target {
        Target::User(name) => write_prefixed(out, b"@", name),
        Target::Plain(name) => write_name(out, name),
        Target::System(name) => write_system_name(out, name),
        Target::New(name) => write_prefixed(out, b"NEW.", name),
    }
}

fn write_assignment(alloc: Global, out: &mut Bytes, assignment: &Assignment) -> Result<(), NoMemory>
    ensures { OnOk result (out.new ≡ out.old ++ assignment_text (view_assignment assignment.now)) }
{
    write_target(out, &assignment.target)?;
    out.extend_from_slice(b" = ")?;
    write_expr(alloc, out, &assignment.value)
}

/// The assignments of SET.
pub fn write_assignments(
    alloc: Global,
    out: &mut Bytes,
    assignments: &List<Assignment>,
) -> Result<(), NoMemory>
    ensures { OnOk result (out.new ≡ out.old ++ assignments_text (view_assignments assignments.now)) }
{
    let mut first = true;
    for assignment in assignments.as_slice() {
        if !first {
            out.extend_from_slice(b", ")?;
        }
        write_assignment(alloc, out, assignment)?;
        first = false;
    }
    Ok(())
}

fn write_parameter(alloc: Global, out: &mut Bytes, parameter: &Parameter) -> Result<(), NoMemory>
    ensures { OnOk result (out.new ≡ out.old ++ parameter_text parameter.now) }
{
    write_name(out, &parameter.name)?;
    out.extend_from_slice(b" ")?;
    write_type(alloc, out, parameter.kind)
}

/// Parameters with a comma and a space between two.
pub fn write_parameters(
    alloc: Global,
    out: &mut Bytes,
    parameters: &List<Parameter>,
) -> Result<(), NoMemory>
    ensures { OnOk result (out.new ≡ out.old ++ commas (map parameter_text parameters.now)) }
{
    let mut first = true;
    for parameter in parameters.as_slice() {
        if !first {
            out.extend_from_slice(b", ")?;
        }
        write_parameter(alloc, out, parameter)?;
        first = false;
    }
    Ok(())
}

/// RETURNS, nothing for a procedure.
pub fn write_returns(
    alloc: Global,
    out: &mut Bytes,
    returns: &Option<SqlType>,
) -> Result<(), NoMemory>
    ensures { OnOk result (out.new ≡ out.old ++ returns_text returns.now) }
{
    match returns {
        None => Ok(()),
        Some(kind) => {
            out.extend_from_slice(b" RETURNS ")?;
            write_type(alloc, out, *kind)
        }
    }
}

/// BEFORE or AFTER.
pub fn write_time(out: &mut Bytes, time: Time) -> Result<(), NoMemory>
    ensures { OnOk result (out.new ≡ out.old ++ time_text time) }
{
    match time {
        Time::Before => out.extend_from_slice(b" BEFORE "),
        Time::After => out.extend_from_slice(b" AFTER "),
    }
}

/// The event of a trigger, up to its table.
pub fn write_cause(out: &mut Bytes, cause: Cause) -> Result<(), NoMemory>
    ensures { OnOk result (out.new ≡ out.old ++ cause_text cause) }
{
    match cause {
        Cause::Insert => out.extend_from_slice(b"INSERT ON "),
        Cause::Update => out.extend_from_slice(b"UPDATE ON "),
        Cause::Delete => out.extend_from_slice(b"DELETE ON "),
    }
}

fn write_default(alloc: Global, out: &mut Bytes, preset: &Option<Expr>) -> Result<(), NoMemory>
    ensures { OnOk result (out.new ≡ out.old ++ default_text (view_part preset.now)) }
{
    match preset {
        None => Ok(()),
        Some(expr) => {
            out.extend_from_slice(b" DEFAULT ")?;
            write_expr(alloc, out, expr)
        }
    }
}

/// A DECLARE, closed by a semicolon and a space.
fn write_declaration(
    alloc: Global,
    out: &mut Bytes,
    declaration: &Declaration,
) -> Result<(), NoMemory>
    ensures { OnOk result (out.new ≡ out.old ++ declaration_text (view_declaration declaration.now)) }
{
    out.extend_from_slice(b"DECLARE ")?;
    write_names(out, &declaration.names)?;
    out.extend_from_slice(b" ")?;
    write_type(alloc, out, declaration.kind)?;
    write_default(alloc, out, &declaration.preset)?;
    out.extend_from_slice(b"; ")
}

/// The DECLAREs of a block.
pub fn write_declarations(
    alloc: Global,
    out: &mut Bytes,
    declarations: &List<Declaration>,
) -> Result<(), NoMemory>
    ensures { OnOk result (out.new ≡ out.old ++ declarations_text (view_declarations declarations.now)) }
{
    for declaration in declarations.as_slice() {
        write_declaration(alloc, out, declaration)?;
    }
    Ok(())
}

fn write_insert_into(out: &mut Bytes, ignore: bool) -> Result<(), NoMemory>
    ensures { OnOk result (out.new ≡ out.old ++ ignore_text ignore) }
{
    if ignore {
        out.extend_from_slice(b"INSERT IGNORE INTO ")
    } else {
        out.extend_from_slice(b"INSERT INTO ")
    }
}

/// INSERT
pub fn write_insert(alloc: Global, out: &mut Bytes, insert: &InsertStmt) -> Result<(), NoMemory>
    ensures { OnOk result (out.new ≡ out.old ++ spelling (view_insert insert.now)) }
{
    write_insert_into(out, insert.ignore)?;
    write_name(out, &insert.table)?;
    write_columns(out, &insert.columns)?;
    write_source(alloc, out, &insert.source)?;
    write_update(alloc, out, &insert.update)
}

/// REPLACE
pub fn write_replace(alloc: Global, out: &mut Bytes, replace: &ReplaceStmt) -> Result<(), NoMemory>
    ensures { OnOk result (out.new ≡ out.old ++ spelling (view_replace replace.now)) }
{
    write_prefixed(out, b"REPLACE INTO ", &replace.table)?;
    write_columns(out, &replace.columns)?;
    write_source(alloc, out, &replace.source)
}

/// UPDATE
pub fn write_update_rows(
    alloc: Global,
    out: &mut Bytes,
    update: &UpdateStmt,
) -> Result<(), NoMemory>
    ensures { OnOk result (out.new ≡ out.old ++ spelling (view_update update.now)) }
{
    write_prefixed(out, b"UPDATE ", &update.table)?;
    out.extend_from_slice(b" SET ")?;
    write_sets(alloc, out, &update.sets)?;
    write_filter(alloc, out, &update.filter)?;
    write_order(alloc, out, &update.order)?;
    write_count_if(alloc, out, &update.limit)
}

/// DELETE
pub fn write_delete(alloc: Global, out: &mut Bytes, delete: &DeleteStmt) -> Result<(), NoMemory>
    ensures { OnOk result (out.new ≡ out.old ++ spelling (view_delete delete.now)) }
{
    write_prefixed(out, b"DELETE FROM ", &delete.table)?;
    write_filter(alloc, out, &delete.filter)?;
    write_order(alloc, out, &delete.order)?;
    write_count_if(alloc, out, &delete.limit)
}
