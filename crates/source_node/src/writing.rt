//! What refuses statements before they run.
ghost use Rattle.std.specs.Prelude.{◌≡◌};
ghost use Rattle.sql_tree.specs.Statement.{create_function, create_procedure, create_table, create_trigger};
ghost use Rattle.sql_tree.specs.StatementView.{view, view_program, view_trigger};
ghost use Rattle.session_transaction.specs.catalog_objects.Keys.{objects_of};
ghost use Rattle.session_transaction.specs.catalog_rules.Checks.{session_scope, statement_refusal};
ghost use Rattle.session_transaction.specs.catalog_rules.Creating.{ddl_refusal};
ghost use Rattle.session_model.specs.Running.{writing_refusal};
ghost use Rattle.session_transaction.specs.session_shared.Desk.{shared_of};

use answer_text::Answer;
use catalog::Catalog;
use session_transaction::catalog_create_program::{
    function_refusal, procedure_refusal, trigger_refusal,
};
use session_transaction::catalog_create_table::table_refusal;
use session_transaction::session_shared::{Desk, checked, refused_as};
use sql_locals::Locals;
use sql_tree::{CreateTable, Routine, Stmt, TriggerDef};
use std::alloc::Global;
use val_types::{SqlError, SqlRefusal};

/// What refuses a statement that writes.
pub(crate) fn writing_refusal(alloc: Global, desk: &Desk, number: u8) -> Option<Answer>
    ensures { result ≡ writing_refusal number (shared_of desk.now) }
{
    match desk.writing_check(number) {
        None => None,
        Some(refusal) => Some(refused_as(alloc, refusal)),
    }
}

/// The catalog's checks of a statement of a session.
pub(crate) fn refused_here(alloc: Global, desk: &Desk, statement: &Stmt) -> Option<SqlError>
    ensures { result ≡ statement_refusal ((shared_of desk.now).base.catalog) session_scope (view statement.now) }
{
    checked(desk, statement, &Locals::new(alloc))
}

/// The checks of a CREATE TABLE.
fn creation_refusal(catalog: &Catalog, table: &CreateTable) -> Option<SqlError>
    ensures { result ≡ ddl_refusal (objects_of catalog.now) (create_table table.now) }
{
    table_refusal(catalog.objects(), table)
}

/// The checks of a CREATE FUNCTION.
fn function_refused(catalog: &Catalog, routine: &Routine) -> Option<SqlError>
    ensures { result ≡ ddl_refusal (objects_of catalog.now) (create_function (view_program routine.now)) }
{
    function_refusal(catalog.objects(), routine)
}

/// The checks of a CREATE PROCEDURE.
fn procedure_refused(catalog: &Catalog, routine: &Routine) -> Option<SqlError>
    ensures { result ≡ ddl_refusal (objects_of catalog.now) (create_procedure (view_program routine.now)) }
{
    procedure_refusal(catalog.objects(), routine)
}

/// The checks of a CREATE TRIGGER.
fn trigger_refused(catalog: &Catalog, trigger: &TriggerDef) -> Option<SqlError>
    ensures { result ≡ ddl_refusal (objects_of catalog.now) (create_trigger (view_trigger trigger.now)) }
{
    trigger_refusal(catalog.objects(), trigger)
}

/// The catalog's checks of a definition.
pub(crate) fn definition_refusal(desk: &Desk, statement: &Stmt) -> Option<SqlError>
    ensures { result ≡ ddl_refusal ((shared_of desk.now).base.catalog) (view statement.now) }
{
    let catalog = desk.work.catalog();
    if let Stmt::CreateTable(table) = statement {
        return creation_refusal(catalog, table);
    }
    if let Stmt::CreateFunction(routine) = statement {
        return function_refused(catalog, routine.get());
    }
    if let Stmt::CreateProcedure(routine) = statement {
        return procedure_refused(catalog, routine.get());
    }
    if let Stmt::CreateTrigger(trigger) = statement {
        return trigger_refused(catalog, trigger.get());
    }
    match catalog.check_removal(statement) {
        Err(SqlRefusal::Sql(code)) => Some(code),
        _ => None,
    }
}
