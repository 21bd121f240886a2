//! CREATE, DROP and TRUNCATE.
ghost use Rattle.std.specs.Prelude.{◌≡◌, [], false, true, None, IfOk, OnOk};
ghost use Rattle.sql_tree.specs.StatementView.{view};
ghost use Rattle.session_transaction.specs.catalog_rules.Bases.{defined};
ghost use Rattle.session_transaction.specs.catalog_rules.Creating.{ddl_refusal};
ghost use Rattle.session_transaction.specs.prog_work.Defining.{Makes};
ghost use Rattle.session_transaction.specs.sql_reach.Reach.{is_definition};
ghost use Rattle.session_model.specs.Commands.{define_turn, definition_turn, made_turn};
ghost use Rattle.session_model.specs.Running.{writing_refusal};
ghost use Rattle.session_transaction.specs.session_statement.Calls.{called};
ghost use Rattle.session_transaction.specs.session_shared.Desk.{shared_of};
ghost use Rattle.session_transaction.specs.session_statement.Turned.{IsTurn, not_begun};

use crate::writing::{definition_refusal, writing_refusal};
use answer_text::Answer;
use port_traits::Draw;
use session_ctx::Ctx;
use session_transaction::answer_making::{NodeFault, ok, refused};
use session_transaction::commit_open;
use session_transaction::prog_run::{Meter, Outcome, run_stmt};
use session_transaction::session_shared::waiting_entries::made_definition;
use session_transaction::session_shared::{Command, Desk, Session};
use sql_tree::Stmt;
use std::alloc::Global;
use val_types::SqlRefusal;

/// Runs a definition that nothing refuses, where no change is open.
fn run_definition(
    alloc: Global,
    desk: &mut Desk,
    statement: &Stmt,
    context: &mut Ctx,
    draw: &Draw,
) -> Result<Outcome, NodeFault>
    requires definition { is_definition (view statement.now) ≡ true }
    requires allowed { ddl_refusal ((shared_of desk.old).base.catalog) (view statement.now) ≡ None }
    requires none { desk.old.work.changes ≡ [] }
    ensures made { IfOk result (λ told. Makes (view statement.now) told (desk.old.work) (desk.new.work)) }
    ensures lock { desk.new.lock ≡ desk.old.lock }
    ensures committed { desk.new.committed ≡ desk.old.committed }
    ensures log { desk.new.log ≡ desk.old.log }
    ensures context { OnOk result (context.new ≡ context.old) }
{
    let mut meter = Meter::full();
    match run_stmt(alloc, &mut desk.work, statement, context, draw, &mut meter) {
        Err(SqlRefusal::NoMemory) => Err(NodeFault::NoMemory),
        Err(SqlRefusal::Sql(_)) => unreachable!(),
        Ok(told) => Ok(told),
    }
}

/// Makes a definition, which nothing refuses before, and logs it: what it leaves to be written waits before it runs, so that nothing has to be
/// taken back. In a run no change is open then, since a transaction that has one has an item, and was committed.
fn make(
    alloc: Global,
    command: &Command<'_>,
    desk: &mut Desk,
    session: &mut Session,
    text: &[u8],
    statement: &Stmt,
) -> Result<Answer, NodeFault>
    requires definition { is_definition (view statement.now) ≡ true }
    requires allowed { ddl_refusal ((shared_of desk.old).base.catalog) (view statement.now) ≡ None }
    requires room { writing_refusal command.now.number (shared_of desk.old) ≡ None }
    ensures { IfOk result (λ answer. IsTurn desk.old desk.new session.new answer (made_turn (called command.now) text.now (view statement.now) (defined (view statement.now) ((shared_of desk.old).base)) (not_begun (shared_of desk.old) session.old))) }
{
    if desk.has_changes() {
        return Err(NodeFault::NoMemory);
    }
    let committed = desk.committed + 1;
    let context = &mut session.vars.context;
    let made = made_definition(
        alloc,
        desk.place(),
        text,
        context,
        command.identity.server_id,
    )?;
    desk.log.put(made)?;
    let told = run_definition(alloc, desk, statement, context, command.draw)?;
    let _ = told.affected;
    desk.committed = committed;
    Ok(ok(alloc, 0))
}

/// A definition behind the implicit commit: the catalog's checks, those of every statement that writes, and then it is
/// made.
fn define_next(
    alloc: Global,
    command: &Command<'_>,
    desk: &mut Desk,
    session: &mut Session,
    text: &[u8],
    statement: &Stmt,
) -> Result<Answer, NodeFault>
    requires { is_definition (view statement.now) ≡ true }
    ensures { IfOk result (λ answer. IsTurn desk.old desk.new session.new answer (define_turn (called command.now) text.now (view statement.now) (not_begun (shared_of desk.old) session.old))) }
{
    if let Some(code) = definition_refusal(desk, statement) {
        return Ok(refused(alloc, code));
    }
    if let Some(answer) = writing_refusal(alloc, desk, command.number) {
        return Ok(answer);
    }
    make(alloc, command, desk, session, text, statement)
}

/// A definition: the open transaction is committed first, whatever comes of it.
pub(crate) fn define(
    alloc: Global,
    command: &Command<'_>,
    desk: &mut Desk,
    session: &mut Session,
    text: &[u8],
    statement: &Stmt,
) -> Result<Answer, NodeFault>
    requires { is_definition (view statement.now) ≡ true }
    ensures { IfOk result (λ answer. IsTurn desk.old desk.new session.new answer (definition_turn (called command.now) text.now (view statement.now) (shared_of desk.old) session.old)) }
{
    commit_open(alloc, command, desk, session)?;
    define_next(alloc, command, desk, session, text, statement)
}
