//! What is under way round a step: tables that may not be changed, and functions that may not be called.
ghost use Rattle.std.specs.Prelude.{◌≡◌};
ghost use Rattle.sql_tree.specs.View.{view_tree, view_trees};
ghost use Rattle.sql_tree.specs.StatementView.{view};
ghost use Rattle.catalog_checks.specs.catalog_rules.Names.{is_among};
ghost use Rattle.catalog_checks.specs.catalog_rules.Nodes.{nodes_of, nodes_of_tree, nodes_of_trees, no_sight};
ghost use Rattle.sql_evaluation.specs.sql_meaning.Running.{tables_named};
ghost use Rattle.sql_evaluation.specs.Seen.{running_of};

use catalog_checks::is_among;
use exec_state::Running;
use node_walk::{Ask, in_expression, in_expressions, in_statement};
use sql_tree::{Expr, Stmt};
use val_types::{Bytes, List};

/// Whether a statement names a table.
#[tactic(auto, using(crate::proofs::Named::named_there))]
fn statement_names(table: &Bytes, s: &Stmt) -> bool
    ensures { result ≡ is_among (tables_named (nodes_of (view s.now))) table.now }
{
    in_statement(&Ask::Table(table), s)
}

/// Whether an expression does.
#[tactic(auto, using(crate::proofs::Named::named_there))]
fn expression_names(table: &Bytes, e: &Expr) -> bool
    ensures { result ≡ is_among (tables_named (nodes_of_tree (view_tree e.now) no_sight)) table.now }
{
    in_expression(&Ask::Table(table), e)
}

/// Whether some expressions do.
#[tactic(auto, using(crate::proofs::Named::named_there))]
fn expressions_name(table: &Bytes, list: &List<Expr>) -> bool
    ensures { result ≡ is_among (tables_named (nodes_of_trees (view_trees list.now) no_sight)) table.now }
{
    in_expressions(&Ask::Table(table), list)
}

/// Whether anything under way names a table.
#[tactic(auto, using(crate::proofs::Named::joined_names))]
pub fn is_named(running: &Running<'_>, table: &Bytes) -> bool
    ensures { result ≡ is_among (running_of running.now).tables table.now }
{
    match running {
        Running::Nothing => false,
        Running::Statement(s, outer) => statement_names(table, s) || is_named(outer, table),
        Running::Tables(names, outer) => is_among(names.as_slice(), table)
            || is_named(outer, table),
        Running::Expressions(list, outer) => {
            expressions_name(table, list) || is_named(outer, table)
        }
        Running::Expression(e, outer) => expression_names(table, e) || is_named(outer, table),
        Running::Function(_, outer) => is_named(outer, table),
    }
}

/// Whether the function of a name is under way.
pub fn is_called(running: &Running<'_>, name: &Bytes) -> bool
    ensures { result ≡ is_among (running_of running.now).functions name.now }
{
    match running {
        Running::Nothing => false,
        Running::Statement(_, outer) => is_called(outer, name),
        Running::Tables(_, outer) => is_called(outer, name),
        Running::Expressions(_, outer) => is_called(outer, name),
        Running::Expression(_, outer) => is_called(outer, name),
        Running::Function(called, outer) => *name == **called || is_called(outer, name),
    }
}
