//! The error that refuses a statement or an expression.
ghost use Rattle.std.specs.Prelude.{◌≡◌};
ghost use Rattle.std.specs.Option.{option_copied};
ghost use Rattle.sql_tree.specs.View.{view_tree};
ghost use Rattle.sql_tree.specs.StatementView.{view};
ghost use Rattle.catalog_objects.specs.Keys.{objects_of};
ghost use Rattle.catalog_objects.specs.catalog_rules.Checks.{expression_refusal, statement_refusal};
ghost use Rattle.catalog_checks.specs.Asking.{scope_with};

use crate::checks::Checks;
use crate::expressions::expr;
use crate::ranks::code_of;
use crate::sight::Sight;
use crate::statements::statement;
use catalog_objects::Objects;
use sql_locals::Locals;
use sql_tree::{Expr, Stmt};
use val_types::{SqlError, TableDef};

/// The error that comes first of those that refuse a statement where some locals are in scope, in a trigger also a row of a
/// table as NEW or OLD. None where nothing refuses it.
pub fn statement_refusal<'a>(
    objects: &'a Objects,
    locals: &'a Locals,
    new_row: Option<&'a TableDef>,
    old_row: Option<&'a TableDef>,
    s: &Stmt,
) -> Option<SqlError>
    ensures { result ≡ statement_refusal (objects_of objects.now) (scope_with locals.now (option_copied new_row.entry) (option_copied old_row.entry)) (view s.now) }
{
    let checks = Checks {
        objects,
        locals,
        new_row,
        old_row,
        target: None,
    };
    code_of(statement(&checks, s))
}

/// The same of an expression in a body: a condition, a DEFAULT or what is returned.
pub fn expression_refusal<'a>(
    objects: &'a Objects,
    locals: &'a Locals,
    new_row: Option<&'a TableDef>,
    old_row: Option<&'a TableDef>,
    e: &Expr,
) -> Option<SqlError>
    ensures { result ≡ expression_refusal (objects_of objects.now) (scope_with locals.now (option_copied new_row.entry) (option_copied old_row.entry)) (view_tree e.now) }
{
    let checks = Checks {
        objects,
        locals,
        new_row,
        old_row,
        target: None,
    };
    code_of(expr(&checks, e, &Sight::Nothing))
}
