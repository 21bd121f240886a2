//! Why a statement may do something else when a replica runs its text.
ghost use Rattle.std.specs.Prelude.{◌≡◌};
ghost use Rattle.node_walk.specs.catalog_objects.Keys.{objects_of};
ghost use Rattle.session_ctx.specs.catalog_rules.Nodes.{nodes_of};
ghost use Rattle.sql_reach.specs.Reasons.{reasons};
ghost use Rattle.sql_tree.specs.StatementView.{view};
ghost use Rattle.unsafe_rules.specs.Places.{places_of};
ghost use Rattle.unsafe_rules.specs.Reaching.{IsAll, IsFound, nothing_wanted};
ghost use Rattle.unsafe_rules.specs.Unsafe.{reasons_in};

use crate::found::{Found, more, nothing};
use crate::reach::{next_of, programs_reach, reaches};
use crate::unsafety::Reasons;
use node_walk::catalog_objects::Objects;
use node_walk::{Ask, in_statement};
use sql_tree::Stmt;

/// The reasons, where all programs that are reached were found.
fn reasons_of_all(s: &Stmt, objects: &Objects, found: &Found<'_>) -> Reasons
    requires { IsAll (objects_of objects.now) (nodes_of (view s.now)) (places_of found.now) }
    ensures { reasons_in result ≡ reasons (objects_of objects.now) (view s.now) }
{
    Reasons {
        function: reaches(&Ask::UnsafeFunction, s, objects, found),
        variable: reaches(&Ask::ServerId, s, objects, found),
        limit: reaches(&Ask::Limit, s, objects, found),
        counted_select: reaches(&Ask::SelectsCounted(objects), s, objects, found),
        counted_program: programs_reach(&Ask::InsertsCounted(objects), s, objects, found),
        two_keys: reaches(&Ask::TwoKeys(objects), s, objects, found),
        ignored_select: reaches(&Ask::IgnoresSelect, s, objects, found),
        replaced_select: reaches(&Ask::ReplacesSelect, s, objects, found),
        updated_select: reaches(&Ask::UpdatesSelect, s, objects, found),
    }
}

/// The reasons, where some programs that are reached were found.
fn find_reasons(s: &Stmt, objects: &Objects, found: &Found<'_>) -> Reasons
    requires { IsFound (objects_of objects.now) (nodes_of (view s.now)) nothing_wanted (places_of found.now) }
    ensures { reasons_in result ≡ reasons (objects_of objects.now) (view s.now) }
{
    match next_of(s, objects, found) {
        None => reasons_of_all(s, objects, found),
        Some(at) => find_reasons(s, objects, &more(at, &*found)),
    }
}

/// The reasons for which a statement is unsafe to log by its text, exactly those of the definition. Takes no memory; what was
/// found is kept on the stack. Where the statement has neither a call of a function nor a change, nothing is looked for.
pub fn reasons(s: &Stmt, objects: &Objects) -> Reasons
    ensures { reasons_in result ≡ reasons (objects_of objects.now) (view s.now) }
{
    let found = nothing();
    if !in_statement(&Ask::Cause, s) {
        return reasons_of_all(s, objects, &found);
    }
    find_reasons(s, objects, &found)
}
