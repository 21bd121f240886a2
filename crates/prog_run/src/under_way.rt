//! What is under way where a session runs a statement.
ghost use Rattle.std.specs.Prelude.{◌≡◌, []};
ghost use Rattle.sql_tree.specs.View.{view_trees};
ghost use Rattle.statement_names.specs.catalog_rules.Nodes.{no_sight, nodes_of_trees};
ghost use Rattle.statement_names.specs.sql_meaning.Running.{tables_named};
ghost use Rattle.stored_programs.specs.sql_evaluation.Seen.{running_of};

use exec_state::Running;
use sql_tree::Expr;
use val_types::{Bytes, List};

/// Nothing.
pub(crate) fn nothing<'a>() -> Running<'a>
    ensures { running_of result ≡ record { tables = []; functions = [] } }
{
    Running::Nothing
}

/// A statement by itself, by the names of the tables in it.
#[tactic(auto, using(crate::proofs::UnderWay::tables_alone))]
pub(crate) fn tables_alone<'a>(names: &'a List<Bytes>, nothing: &'a Running<'a>) -> Running<'a>
    requires { running_of nothing.now ≡ record { tables = []; functions = [] } }
    ensures { running_of result ≡ record { tables = names.now; functions = [] } }
{
    Running::Tables(names, nothing)
}

/// Expressions by themselves.
#[tactic(auto, using(crate::proofs::UnderWay::expressions_alone))]
pub(crate) fn expressions_alone<'a>(
    expressions: &'a List<Expr>,
    nothing: &'a Running<'a>,
) -> Running<'a>
    requires { running_of nothing.now ≡ record { tables = []; functions = [] } }
    ensures { running_of result ≡ record { tables = tables_named (nodes_of_trees (view_trees expressions.now) no_sight); functions = [] } }
{
    Running::Expressions(expressions, nothing)
}
