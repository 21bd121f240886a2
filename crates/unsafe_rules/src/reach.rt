//! What holds of all that is reached, once all programs that are reached were found.
ghost use Rattle.std.specs.Prelude.{◌≡◌, flat_map};
ghost use Rattle.std.specs.List.{list_any};
ghost use Rattle.node_walk.specs.catalog_objects.Keys.{objects_of};
ghost use Rattle.session_ctx.specs.catalog_rules.Nodes.{nodes_of};
ghost use Rattle.node_walk.specs.Asking.{asks_node};
ghost use Rattle.sql_reach.specs.Reach.{body_nodes, reached_nodes, reached_programs};
ghost use Rattle.sql_tree.specs.StatementView.{view};
ghost use Rattle.unsafe_rules.specs.Places.{places_of};
ghost use Rattle.unsafe_rules.specs.Reaching.{IsAll, IsNext, in_programs};

use crate::found::{Found, in_programs};
use crate::reaching::next_reached;
use node_walk::catalog_objects::Objects;
use node_walk::{Ask, in_statement};
use sql_tree::Stmt;

/// The place of an object that is reached and was not found, None where there is none.
pub(crate) fn next_of(s: &Stmt, objects: &Objects, found: &Found<'_>) -> Option<usize>
    ensures { IsNext (objects_of objects.now) (nodes_of (view s.now)) (places_of found.now) result }
{
    next_reached(s, objects.all(), found)
}

/// Whether what is asked holds of a node of the bodies of what was found.
fn holds_in_programs(ask: &Ask<'_>, objects: &Objects, found: &Found<'_>) -> bool
    ensures { result ≡ in_programs ask.now (objects_of objects.now) (places_of found.now) }
{
    in_programs(ask, objects.all(), found)
}

/// Whether what is asked holds of a node of the programs that are reached.
#[tactic(auto, using(crate::proofs::All::programs_asked))]
pub(crate) fn programs_reach(ask: &Ask<'_>, s: &Stmt, objects: &Objects, found: &Found<'_>) -> bool
    requires { IsAll (objects_of objects.now) (nodes_of (view s.now)) (places_of found.now) }
    ensures { result ≡ list_any (asks_node ask.now) (flat_map body_nodes (reached_programs (objects_of objects.now) (nodes_of (view s.now)))) }
{
    holds_in_programs(ask, objects, found)
}

/// Whether what is asked holds of a node that is reached, the statement's own among them.
#[tactic(auto, using(crate::proofs::All::all_asked))]
pub(crate) fn reaches(ask: &Ask<'_>, s: &Stmt, objects: &Objects, found: &Found<'_>) -> bool
    requires { IsAll (objects_of objects.now) (nodes_of (view s.now)) (places_of found.now) }
    ensures { result ≡ list_any (asks_node ask.now) (reached_nodes (objects_of objects.now) (nodes_of (view s.now))) }
{
    in_statement(ask, s) || holds_in_programs(ask, objects, found)
}
