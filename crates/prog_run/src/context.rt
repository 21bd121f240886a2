//! What a statement sees of the context, and what it leaves there.
ghost use Rattle.std.specs.Prelude.{◌≡◌, None, IfSome};
ghost use Rattle.sql_tree.specs.StatementView.{view};
ghost use Rattle.prog_work.specs.catalog_objects.Keys.{objects_of};
ghost use Rattle.statement_names.specs.sql_meaning.Running.{context_after, forced_for, uses_forced};
ghost use Rattle.stored_programs.specs.sql_evaluation.Seen.{setting_of};
ghost use Rattle.prog_run.specs.Runs.{Counts};

use exec_state::Running;
use prog_work::catalog_objects::Objects;
use session_ctx::Ctx;
use sql_locals::Locals;
use sql_tree::Stmt;
use stored_programs::sql_evaluation::Around;

/// Whether a statement uses a forced INSERT_ID.
fn uses_forced(statement: &Stmt) -> bool
    ensures { result ≡ uses_forced (view statement.now) }
{
    match statement {
        Stmt::Insert(_) => true,
        Stmt::Replace(_) => true,
        _ => false,
    }
}

/// The forced INSERT_ID that a statement uses.
pub(crate) fn forced_for(context: &Ctx, statement: &Stmt) -> Option<i64>
    ensures { result ≡ forced_for context.now (view statement.now) }
{
    if uses_forced(statement) {
        context.forced()
    } else {
        None
    }
}

/// What a whole statement has round it.
pub(crate) fn around<'a>(
    catalog: &'a Objects,
    context: &'a Ctx,
    uuid: u128,
    nesting: u8,
    running: &'a Running<'a>,
    locals: &'a Locals,
) -> Around<'a>
    ensures setting { setting_of result ≡ record { catalog = objects_of catalog.now; context = context.now; uuid = uuid } }
    ensures nesting { result.nesting ≡ nesting }
    ensures running { result.running.now ≡ running.now }
    ensures locals { result.locals.now ≡ locals.now }
    ensures new_row { result.new_row ≡ None }
    ensures old_row { result.old_row ≡ None }
    ensures inserted { result.inserted ≡ None }
{
    Around {
        catalog,
        context,
        uuid,
        nesting,
        running,
        locals,
        new_row: None,
        old_row: None,
        inserted: None,
    }
}

/// What a statement leaves of a context: the seeds as drawn, a forced INSERT_ID used up, LAST_INSERT_ID().
pub(crate) fn settle(context: &mut Ctx, statement: &Stmt, seeds: (u64, u64), last_id: Option<i64>)
    requires { Counts last_id }
    ensures { context.new ≡ context_after context.old (view statement.now) seeds last_id }
{
    context.set_seeds(seeds.0, seeds.1);
    if uses_forced(statement) {
        context.clear_forced();
    }
    if let Some(id) = last_id {
        context.set_last_id(id);
    }
}
