//! Statements as texts.
ghost use Rattle.std.specs.Prelude.{◌≡◌, ◌++◌, codes, IfOk, OnOk};
ghost use Rattle.sql_tree.specs.View.{view_tree, view_trees};
ghost use Rattle.sql_tree.specs.StatementView.{view, view_assignments, view_declarations, view_statements, view_branches, view_otherwise, view_program, view_trigger};
ghost use Rattle.sql_print.specs.Names.{quoted_name};
ghost use Rattle.sql_print.specs.Spelling.{tree_text, trees_text};
ghost use Rattle.sql_print.specs.StatementSpelling.{spelling, assignments_text, declarations_text, steps_text, branches_text, otherwise_text, program_text, trigger_text};

use crate::expressions::{write_expr, write_exprs, write_select};
use crate::names::{write_name, write_prefixed};
use crate::statements::{
    write_assignments, write_cause, write_declarations, write_delete, write_insert,
    write_parameters, write_replace, write_returns, write_time, write_update_rows,
};
use crate::tables::write_table;
use sql_tree::{Assignment, Branch, Declaration, Expr, Routine, Stmt, TriggerDef};
use std::alloc::Global;
use val_types::{Bytes, List, NoMemory};

/// The canonical text of a statement.
pub fn print(alloc: Global, s: &Stmt) -> Result<Bytes, NoMemory>
    ensures { IfOk result (λ text. text ≡ spelling (view s.now)) }
{
    let mut out = List::new(alloc);
    write_statement(alloc, &mut out, s)?;
    Ok(out)
}

/// DO
fn write_do(alloc: Global, out: &mut Bytes, exprs: &List<Expr>) -> Result<(), NoMemory>
    ensures { OnOk result (out.new ≡ out.old ++ (codes "DO " ++ trees_text (view_trees exprs.now))) }
{
    out.extend_from_slice(b"DO ")?;
    write_exprs(alloc, out, exprs)
}

/// SET
fn write_set_of(
    alloc: Global,
    out: &mut Bytes,
    assignments: &List<Assignment>,
) -> Result<(), NoMemory>
    ensures { OnOk result (out.new ≡ out.old ++ (codes "SET " ++ assignments_text (view_assignments assignments.now))) }
{
    out.extend_from_slice(b"SET ")?;
    write_assignments(alloc, out, assignments)
}

/// CALL
fn write_call_of(
    alloc: Global,
    out: &mut Bytes,
    name: &Bytes,
    arguments: &List<Expr>,
) -> Result<(), NoMemory>
    ensures { OnOk result (out.new ≡ out.old ++ (codes "CALL " ++ quoted_name name.now ++ codes "(" ++ trees_text (view_trees arguments.now) ++ codes ")")) }
{
    write_prefixed(out, b"CALL ", name)?;
    out.extend_from_slice(b"(")?;
    write_exprs(alloc, out, arguments)?;
    out.extend_from_slice(b")")
}

/// RETURN
fn write_return(alloc: Global, out: &mut Bytes, expr: &Expr) -> Result<(), NoMemory>
    ensures { OnOk result (out.new ≡ out.old ++ (codes "RETURN " ++ tree_text (view_tree expr.now))) }
{
    out.extend_from_slice(b"RETURN ")?;
    write_expr(alloc, out, expr)
}

/// A statement.
#[cycle(write)]
fn write_statement(alloc: Global, out: &mut Bytes, s: &Stmt) -> Result<(), NoMemory>
    ensures { OnOk result (out.new ≡ out.old ++ spelling (view s.now)) }
{
    match s {
        Stmt::CreateTable(table) => write_table(alloc, out, table),
        Stmt::CreateFunction(routine) => {
            out.extend_from_slice(b"CREATE FUNCTION ")?;
            write_routine(alloc, out, routine.get())
        }
        Stmt::CreateProcedure(routine) => {
            out.extend_from_slice(b"CREATE PROCEDURE ")?;
            write_routine(alloc, out, routine.get())
        }
        Stmt::CreateTrigger(trigger) => {
            out.extend_from_slice(b"CREATE TRIGGER ")?;
            write_trigger(alloc, out, trigger.get())
        }
        Stmt::DropTable(name) => write_prefixed(out, b"DROP TABLE ", name),
        Stmt::DropFunction(name) => write_prefixed(out, b"DROP FUNCTION ", name),
        Stmt::DropProcedure(name) => write_prefixed(out, b"DROP PROCEDURE ", name),
        Stmt::DropTrigger(name) => write_prefixed(out, b"DROP TRIGGER ", name),
        Stmt::Truncate(name) => write_prefixed(out, b"TRUNCATE ", name),
        Stmt::Insert(insert) => write_insert(alloc, out, insert),
        Stmt::Replace(replace) => write_replace(alloc, out, replace),
        Stmt::Update(update) => write_update_rows(alloc, out, update),
        Stmt::Delete(delete) => write_delete(alloc, out, delete),
        Stmt::Select(select) => write_select(alloc, out, select),
        Stmt::Do(exprs) => write_do(alloc, out, exprs),
        Stmt::Set(assignments) => write_set_of(alloc, out, assignments),
        Stmt::Call { name, arguments } => write_call_of(alloc, out, name, arguments),
        Stmt::Begin => out.extend_from_slice(b"BEGIN"),
        Stmt::Commit => out.extend_from_slice(b"COMMIT"),
        Stmt::Rollback => out.extend_from_slice(b"ROLLBACK"),
        Stmt::Savepoint(name) => write_prefixed(out, b"SAVEPOINT ", name),
        Stmt::RollbackTo(name) => write_prefixed(out, b"ROLLBACK TO ", name),
        Stmt::ReleaseSavepoint(name) => write_prefixed(out, b"RELEASE SAVEPOINT ", name),
        Stmt::Block { declarations, body } => write_block(alloc, out, declarations, body),
        Stmt::If { arms, otherwise } => {
            write_branches(alloc, out, arms)?;
            write_otherwise(alloc, out, otherwise)?;
            out.extend_from_slice(b"END IF")
        }
        Stmt::While { condition, steps } => write_while(alloc, out, condition, steps),
        Stmt::Return(expr) => write_return(alloc, out, expr),
    }
}

#[cycle(write)]
fn write_block(
    alloc: Global,
    out: &mut Bytes,
    declarations: &List<Declaration>,
    body: &List<Stmt>,
) -> Result<(), NoMemory>
    ensures { OnOk result (out.new ≡ out.old ++ (codes "BEGIN " ++ declarations_text (view_declarations declarations.now) ++ steps_text (view_statements body.now) ++ codes "END")) }
{
    out.extend_from_slice(b"BEGIN ")?;
    write_declarations(alloc, out, declarations)?;
    write_steps(alloc, out, body)?;
    out.extend_from_slice(b"END")
}

#[cycle(write)]
fn write_while(
    alloc: Global,
    out: &mut Bytes,
    condition: &Expr,
    steps: &List<Stmt>,
) -> Result<(), NoMemory>
    ensures { OnOk result (out.new ≡ out.old ++ (codes "WHILE " ++ tree_text (view_tree condition.now) ++ codes " DO " ++ steps_text (view_statements steps.now) ++ codes "END WHILE")) }
{
    out.extend_from_slice(b"WHILE ")?;
    write_expr(alloc, out, condition)?;
    out.extend_from_slice(b" DO ")?;
    write_steps(alloc, out, steps)?;
    out.extend_from_slice(b"END WHILE")
}

/// Statements in a body, each closed by a semicolon and a space.
#[cycle(write)]
fn write_steps(alloc: Global, out: &mut Bytes, steps: &List<Stmt>) -> Result<(), NoMemory>
    ensures { OnOk result (out.new ≡ out.old ++ steps_text (view_statements steps.now)) }
{
    for step in steps.as_slice() {
        write_statement(alloc, out, step)?;
        out.extend_from_slice(b"; ")?;
    }
    Ok(())
}

#[cycle(write)]
fn write_branches(alloc: Global, out: &mut Bytes, branches: &List<Branch>) -> Result<(), NoMemory>
    ensures { OnOk result (out.new ≡ out.old ++ branches_text (view_branches branches.now)) }
{
    let mut first = true;
    for branch in branches.as_slice() {
        if first {
            out.extend_from_slice(b"IF ")?;
        } else {
            out.extend_from_slice(b"ELSEIF ")?;
        }
        write_expr(alloc, out, &branch.condition)?;
        out.extend_from_slice(b" THEN ")?;
        write_steps(alloc, out, &branch.steps)?;
        first = false;
    }
    Ok(())
}

/// ELSE with its steps, nothing where it is left out.
#[cycle(write)]
fn write_otherwise(
    alloc: Global,
    out: &mut Bytes,
    otherwise: &Option<List<Stmt>>,
) -> Result<(), NoMemory>
    ensures { OnOk result (out.new ≡ out.old ++ otherwise_text (view_otherwise otherwise.now)) }
{
    match otherwise {
        None => Ok(()),
        Some(steps) => {
            out.extend_from_slice(b"ELSE ")?;
            write_steps(alloc, out, steps)
        }
    }
}

/// A stored function or procedure from its name on.
#[cycle(write)]
fn write_routine(alloc: Global, out: &mut Bytes, routine: &Routine) -> Result<(), NoMemory>
    ensures { OnOk result (out.new ≡ out.old ++ program_text (view_program routine.now)) }
{
    write_name(out, &routine.name)?;
    out.extend_from_slice(b"(")?;
    write_parameters(alloc, out, &routine.parameters)?;
    out.extend_from_slice(b")")?;
    write_returns(alloc, out, &routine.returns)?;
    out.extend_from_slice(b" ")?;
    write_statement(alloc, out, &routine.body)
}

/// A trigger from its name on.
#[cycle(write)]
fn write_trigger(alloc: Global, out: &mut Bytes, trigger: &TriggerDef) -> Result<(), NoMemory>
    ensures { OnOk result (out.new ≡ out.old ++ trigger_text (view_trigger trigger.now)) }
{
    write_name(out, &trigger.name)?;
    write_time(out, trigger.time)?;
    write_cause(out, trigger.event)?;
    write_name(out, &trigger.table)?;
    out.extend_from_slice(b" FOR EACH ROW ")?;
    write_statement(alloc, out, &trigger.body)
}
