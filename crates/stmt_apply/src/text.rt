//! A text of a transaction, run behind the changes so far.
ghost use Rattle.std.specs.Prelude.{◌≡◌, false, Ok, OnOk};
ghost use Rattle.sql_tree.specs.StatementView.{view};
ghost use Rattle.row_apply.specs.catalog_objects.Keys.{objects_of};
ghost use Rattle.log_groups.specs.catalog_rules.Checks.{session_scope, statement_refusal};
ghost use Rattle.apply_laws.specs.sql_reach.Reach.{is_definition};
ghost use Rattle.event_codec.specs.Event.{query_of};
ghost use Rattle.port_traits.specs.declared.identity.Identity.{Identity as Who};
ghost use Rattle.apply_model.specs.Texts.{allowed, carried_of, carry_text, may_stand, run_in};
ghost use Rattle.row_apply.specs.Ends.{Stays, progress_in};
ghost use Rattle.stmt_apply.specs.Applying.{Adds, applier_in};
ghost use Rattle.stmt_apply.specs.Ending.{EndsBy};
ghost use Rattle.stmt_apply.specs.Needing.{Counts, needs_of};

use crate::needs::Needs;
use crate::reading::statement_in;
use apply_laws::session_ctx::Ctx;
use event_codec::QueryView;
use port_traits::{Draw, Identity};
use prog_run::{Meter, Work, run_stmt};
use sql_locals::Locals;
use sql_tree::Stmt;
use std::alloc::Global;
use val_types::{SqlError, SqlRefusal};

/// A statement may not stand in a log where it stands (this project's number).
pub(crate) const NOT_ALLOWED: SqlError = 30005;

/// Whether a statement may stand in a transaction.
fn may_stand(statement: &Stmt) -> bool
    ensures { result ≡ may_stand (view statement.now) }
{
    match statement {
        Stmt::Insert(_)
        | Stmt::Replace(_)
        | Stmt::Update(_)
        | Stmt::Delete(_)
        | Stmt::Select(_)
        | Stmt::Do(_) => true,
        _ => false,
    }
}

/// What the catalog's checks refuse a statement for that stands in no stored program.
pub fn checked(alloc: Global, work: &Work, statement: &Stmt) -> Option<SqlError>
    ensures { result ≡ statement_refusal (objects_of work.now.objects) session_scope (view statement.now) }
{
    let locals = Locals::new(alloc);
    match work.catalog().check(statement, &locals) {
        Err(SqlRefusal::Sql(code)) => Some(code),
        _ => None,
    }
}

/// Runs a statement that is no definition.
fn run(
    alloc: Global,
    work: &mut Work,
    statement: &Stmt,
    context: &mut Ctx,
    draw: &Draw,
) -> Result<(), SqlRefusal>
    requires { is_definition (view statement.now) ≡ false }
    ensures ends { (who : Who) → EndsBy result (progress_in work.new) (run_in (applier_in who draw.entry.now work.old) context.old (view statement.now) (progress_in work.old)) }
    ensures rest { Stays work.old work.new }
    ensures adds { OnOk result (Adds work.old work.new) }
{
    let mut meter = Meter::full();
    work.together();
    let result = run_stmt(alloc, work, statement, context, draw, &mut meter);
    work.together();
    match result {
        Ok(_) => Ok(()),
        Err(refusal) => Err(refusal),
    }
}

/// A statement run, if it may stand in a transaction and the catalog has what it names: 30005, then the catalog's checks.
fn run_allowed(
    alloc: Global,
    work: &mut Work,
    statement: &Stmt,
    context: &mut Ctx,
    draw: &Draw,
) -> Result<(), SqlRefusal>
    ensures ends { (who : Who) → EndsBy result (progress_in work.new) (allowed (applier_in who draw.entry.now work.old) context.old (progress_in work.old) (Ok (view statement.now))) }
    ensures rest { Stays work.old work.new }
    ensures adds { OnOk result (Adds work.old work.new) }
{
    if !may_stand(statement) {
        return Err(SqlRefusal::Sql(NOT_ALLOWED));
    }
    if let Some(code) = checked(alloc, work, statement) {
        return Err(SqlRefusal::Sql(code));
    }
    run(alloc, work, statement, context, draw)
}

/// The text of a QUERY run with what stands before it, and with nothing else of the log.
pub(crate) fn run_text(
    alloc: Global,
    work: &mut Work,
    query: &QueryView,
    needs: &mut Needs,
    identity: &Identity,
    draw: &Draw,
) -> Result<(), SqlRefusal>
    requires { Counts query.now.step }
    ensures ends { EndsBy result (progress_in work.new) (carry_text (applier_in identity.now draw.entry.now work.old) query.now.text.now (carried_of query.now.stamp (query_of query.now) (needs_of needs.old)) (progress_in work.old)) }
    ensures rest { Stays work.old work.new }
    ensures adds { OnOk result (Adds work.old work.new) }
    ensures needs { needs_of needs.new ≡ needs_of needs.old }
{
    let mut context = needs.context(alloc, query, identity, draw)?;
    let parsed = statement_in(alloc, query.text)?;
    run_allowed(alloc, work, &parsed.statement, &mut context, draw)
}
