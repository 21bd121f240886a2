//! What refuses CREATE TABLE, DROP and TRUNCATE.
ghost use Rattle.std.specs.Prelude.{◌≡◌, false, if◌then◌else◌, Some, None};
ghost use Rattle.sql_tree.specs.Statement.{create_table};
ghost use Rattle.sql_tree.specs.StatementView.{view};
ghost use Rattle.catalog_show_create.specs.catalog_objects.Keys.{objects_of};
ghost use Rattle.catalog_show_create.specs.catalog_rules.Creating.{ddl_checks, ddl_refusal, first_refusal};
ghost use Rattle.catalog.specs.Answers.{is_create};

use catalog_create_program::catalog_create_table::table_refusal;
use catalog_show_create::catalog_objects::Objects;
use sql_tree::{CreateTable, Stmt};
use val_types::SqlError;

/// What refuses a CREATE TABLE.
pub(crate) fn creation_refusal(objects: &Objects, t: &CreateTable) -> Option<SqlError>
    ensures { result ≡ ddl_refusal (objects_of objects.now) (create_table t.now) }
{
    table_refusal(objects, t)
}

/// An error where something is missing.
fn missing(is_missing: bool, code: SqlError) -> Option<SqlError>
    ensures { result ≡ (if is_missing then Some code else None) }
{
    if is_missing { Some(code) } else { None }
}

/// The one check of DROP and TRUNCATE; other statements have none.
fn removal_check(objects: &Objects, s: &Stmt) -> Option<SqlError>
    requires { is_create (view s.now) ≡ false }
    ensures { result ≡ first_refusal (ddl_checks (objects_of objects.now) (view s.now)) }
{
    match s {
        Stmt::DropTable(name) => missing(objects.table(name).is_none(), 1051),
        Stmt::DropFunction(name) => missing(objects.function(name).is_none(), 1305),
        Stmt::DropProcedure(name) => missing(objects.procedure(name).is_none(), 1305),
        Stmt::DropTrigger(name) => missing(objects.trigger_named(name).is_none(), 1360),
        Stmt::Truncate(name) => missing(objects.table(name).is_none(), 1146),
        _ => None,
    }
}

/// What refuses a DROP or TRUNCATE.
pub(crate) fn removal_refusal(objects: &Objects, s: &Stmt) -> Option<SqlError>
    requires { is_create (view s.now) ≡ false }
    ensures { result ≡ ddl_refusal (objects_of objects.now) (view s.now) }
{
    removal_check(objects, s)
}
