//! Which statements need the writer's lock.
ghost use Rattle.std.specs.Prelude.{◌≡◌};
ghost use Rattle.node_walk.specs.catalog_objects.Keys.{objects_of};
ghost use Rattle.sql_reach.specs.Reach.{is_definition, writes};
ghost use Rattle.sql_tree.specs.StatementView.{view};

use crate::reaching::reaches_writing;
use node_walk::catalog_objects::Objects;
use node_walk::is_change;
use sql_tree::Stmt;

/// Whether a statement defines or takes away an object, or takes all rows away.
fn is_definition(s: &Stmt) -> bool
    ensures { result ≡ is_definition (view s.now) }
{
    matches!(
        s,
        Stmt::CreateTable(_)
            | Stmt::CreateFunction(_)
            | Stmt::CreateProcedure(_)
            | Stmt::CreateTrigger(_)
            | Stmt::DropTable(_)
            | Stmt::DropFunction(_)
            | Stmt::DropProcedure(_)
            | Stmt::DropTrigger(_)
            | Stmt::Truncate(_)
    )
}

/// Whether a statement needs the writer's lock: a change of rows, a definition, or one that reaches a function with a change
/// in it. Takes no memory; what was found is kept on the stack.
#[tactic(auto, unfolding(sql_reach::specs::Reach::writes))]
pub fn writes(s: &Stmt, objects: &Objects) -> bool
    ensures { result ≡ writes (objects_of objects.now) (view s.now) }
{
    is_change(s) || is_definition(s) || reaches_writing(s, objects.all())
}
