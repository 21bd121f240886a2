//! What refuses a step of a body before it runs.
ghost use Rattle.std.specs.Prelude.{◌≡◌, false};
ghost use Rattle.std.specs.List.{list_any};
ghost use Rattle.std.specs.Option.{option_copied, option_map_or};
ghost use Rattle.sql_tree.specs.View.{view_tree};
ghost use Rattle.sql_tree.specs.StatementView.{view};
ghost use Rattle.catalog_checks.specs.catalog_rules.Checks.{expression_refusal, statement_refusal};
ghost use Rattle.catalog_checks.specs.catalog_rules.Names.{is_among};
ghost use Rattle.catalog_checks.specs.catalog_rules.Nodes.{nodes_of, nodes_of_tree, no_sight, table_changed};
ghost use Rattle.sql_evaluation.specs.sql_meaning.Running.{body_checked, changes_running, checked, definition_in, is_ill_limit, scope_of};
ghost use Rattle.sql_evaluation.specs.Seen.{Anywhere, running_of, setting_of, view_if, world_of};
ghost use Rattle.exec_body_checks.specs.Checked.{body_in};

use crate::under_way::is_named;
use catalog_checks::{expression_refusal, statement_refusal};
use exec_state::Running;
use node_walk::{Ask, in_expression, in_statement};
use sql_evaluation::{Around, View};
use sql_locals::Locals;
use sql_tree::{Expr, Stmt};
use val_types::{SqlError, SqlRefusal, TableDef};

/// A LIMIT by a local that is no number from 0.
const ILL_LIMIT: SqlError = 30002;

/// A statement of a function or trigger changes a table that something under way names.
const TABLE_IN_USE: SqlError = 1442;

/// The definition of the table of a row.
fn definition_in<'a>(row: Option<&'a View>) -> Option<&'a TableDef>
    ensures { option_copied result ≡ definition_in (view_if row.entry) }
{
    match row {
        Some(view) => Some(view.definition.get()),
        None => None,
    }
}

/// Whether a LIMIT in an expression is a local that is no number from 0.
#[tactic(auto, using(crate::proofs::Named::limited_there))]
fn expression_has_ill_limit(locals: &Locals, e: &Expr) -> bool
    ensures { result ≡ list_any (is_ill_limit locals.now) (nodes_of_tree (view_tree e.now) no_sight) }
{
    in_expression(&Ask::IllLimit(locals), e)
}

/// The same in a statement.
#[tactic(auto, using(crate::proofs::Named::limited_there))]
fn statement_has_ill_limit(locals: &Locals, s: &Stmt) -> bool
    ensures { result ≡ list_any (is_ill_limit locals.now) (nodes_of (view s.now)) }
{
    in_statement(&Ask::IllLimit(locals), s)
}

/// Whether a statement changes a table that something under way names.
fn changes_running(running: &Running<'_>, s: &Stmt) -> bool
    ensures { result ≡ option_map_or (is_among (running_of running.now).tables) (table_changed (view s.now)) false }
{
    match s {
        Stmt::Insert(i) => is_named(running, &i.table),
        Stmt::Replace(r) => is_named(running, &r.table),
        Stmt::Update(u) => is_named(running, &u.table),
        Stmt::Delete(d) => is_named(running, &d.table),
        _ => false,
    }
}

/// The checks of a condition, a DEFAULT or what is returned: those of the catalog, then 30002 for a LIMIT.
#[tactic(auto, using(crate::proofs::Named::checks))]
pub fn check_expression(around: &Around<'_>, e: &Expr) -> Result<(), SqlRefusal>
    ensures { Anywhere result (checked (expression_refusal (setting_of around.now).catalog (scope_of (body_in around.now)) (view_tree e.now)) around.now.locals.now (nodes_of_tree (view_tree e.now) no_sight)) }
{
    if let Some(code) = expression_refusal(
        around.catalog,
        around.locals,
        definition_in(around.new_row),
        definition_in(around.old_row),
        e,
    ) {
        return Err(SqlRefusal::Sql(code));
    }
    if expression_has_ill_limit(around.locals, e) {
        return Err(SqlRefusal::Sql(ILL_LIMIT));
    }
    Ok(())
}

/// The checks of a statement: those of the catalog, 30002 for a LIMIT, then 1442 where it changes a table that
/// something under way names.
#[tactic(auto, using(crate::proofs::Named::checks), unfolding(sql_evaluation::specs::Seen::world_of))]
pub fn check_statement(around: &Around<'_>, s: &Stmt) -> Result<(), SqlRefusal>
    ensures { Anywhere result (body_checked (world_of around.now) (body_in around.now) (view s.now)) }
{
    if let Some(code) = statement_refusal(
        around.catalog,
        around.locals,
        definition_in(around.new_row),
        definition_in(around.old_row),
        s,
    ) {
        return Err(SqlRefusal::Sql(code));
    }
    if statement_has_ill_limit(around.locals, s) {
        return Err(SqlRefusal::Sql(ILL_LIMIT));
    }
    if changes_running(around.running, s) {
        return Err(SqlRefusal::Sql(TABLE_IN_USE));
    }
    Ok(())
}
