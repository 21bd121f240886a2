//! The statement of a command, whatever it is.
ghost use Rattle.std.specs.Prelude.{◌≡◌, false, true, IfNone, IfOk, IfSome};
ghost use Rattle.sql_tree.specs.Statement.{call_procedure, set_all};
ghost use Rattle.sql_tree.specs.StatementView.{view, view_assignments};
ghost use Rattle.sql_tree.specs.View.{view_trees};
ghost use Rattle.session_transaction.specs.sql_reach.Reach.{is_definition};
ghost use Rattle.session_model.specs.Machine.{statement_turn};
ghost use Rattle.session_model.specs.Commands.{plain_turn};
ghost use Rattle.session_transaction.specs.catalog_rules.Checks.{session_scope, statement_refusal};
ghost use Rattle.source_node.specs.Other.{is_call, is_of_transaction, is_set, other_turn};
ghost use Rattle.session_transaction.specs.session_shared.Desk.{shared_of};
ghost use Rattle.session_transaction.specs.session_statement.Calls.{called};
ghost use Rattle.session_transaction.specs.session_statement.Turned.{IsTurn};

use crate::calling::run_call;
use crate::definitions::define;
use crate::plain::run_plain;
use crate::writing::refused_here;
use answer_text::Answer;
use session_set::set;
use session_transaction::answer_making::{NodeFault, refused};
use session_transaction::prog_run::is_definition;
use session_transaction::session_shared::{Command, Desk, Session, lock_refusal};
use session_transaction::{begin, commit, release_savepoint, rollback, rollback_to, savepoint};
use sql_tree::{Assignment, Expr, Stmt};
use std::alloc::Global;
use std::mem;
use val_types::{Bytes, List, SqlError};

/// A change, a SELECT or a DO: the catalog's checks, the lock, then it is run.
fn plain(
    alloc: Global,
    command: &Command<'_>,
    desk: &mut Desk,
    session: &mut Session,
    text: &[u8],
    refusal: Option<SqlError>,
    statement: &Stmt,
) -> Result<Answer, NodeFault>
    requires definition { is_definition (view statement.now) ≡ false }
    requires refusal { refusal ≡ statement_refusal ((shared_of desk.old).base.catalog) session_scope (view statement.now) }
    ensures { IfOk result (λ answer. IsTurn desk.old desk.new session.new answer (plain_turn (called command.now) text.now (view statement.now) (shared_of desk.old) session.old)) }
{
    if let Some(code) = refusal {
        return Ok(refused(alloc, code));
    }
    if let Some(answer) = lock_refusal(alloc, desk, command.number, statement) {
        return Ok(answer);
    }
    run_plain(alloc, command, desk, session, text, statement)
}

/// A definition, or a change, a SELECT or a DO.
fn other(
    alloc: Global,
    command: &Command<'_>,
    desk: &mut Desk,
    session: &mut Session,
    text: &[u8],
    refusal: Option<SqlError>,
    statement: &Stmt,
) -> Result<Answer, NodeFault>
    requires { refusal ≡ statement_refusal ((shared_of desk.old).base.catalog) session_scope (view statement.now) }
    ensures { IfOk result (λ answer. IsTurn desk.old desk.new session.new answer (other_turn (called command.now) text.now (view statement.now) (shared_of desk.old) session.old)) }
{
    if is_definition(statement) {
        define(alloc, command, desk, session, text, statement)
    } else {
        plain(alloc, command, desk, session, text, refusal, statement)
    }
}

/// The assignments of a SET, taken out of it.
fn take_assignments(alloc: Global, statement: &mut Stmt) -> Option<List<Assignment>>
    ensures some { IfSome result (λ assignments. view statement.old ≡ set_all (view_assignments assignments)) }
    ensures none { IfNone result (view statement.new ≡ view statement.old) }
    ensures other { IfNone result (is_set (view statement.old) ≡ false) }
{
    match statement {
        Stmt::Set(assignments) => Some(mem::replace(assignments, List::new(alloc))),
        _ => None,
    }
}

/// The name and the arguments of a CALL, taken out of it.
fn take_call(alloc: Global, statement: &mut Stmt) -> Option<(Bytes, List<Expr>)>
    ensures some { IfSome result (λ parts. view statement.old ≡ call_procedure parts.0 (view_trees parts.1)) }
    ensures none { IfNone result (view statement.new ≡ view statement.old) }
    ensures other { IfNone result (is_call (view statement.old) ≡ false) }
{
    match statement {
        Stmt::Call { name, arguments } => Some((
            mem::replace(name, List::new(alloc)),
            mem::replace(arguments, List::new(alloc)),
        )),
        _ => None,
    }
}

/// Whether a statement is one on transactions.
fn is_of_transaction(statement: &Stmt) -> bool
    ensures { result ≡ is_of_transaction (view statement.now) }
{
    match statement {
        Stmt::Begin
        | Stmt::Commit
        | Stmt::Rollback
        | Stmt::Savepoint(_)
        | Stmt::RollbackTo(_)
        | Stmt::ReleaseSavepoint(_) => true,
        _ => false,
    }
}

/// A statement on transactions.
fn of_transaction(
    alloc: Global,
    command: &Command<'_>,
    desk: &mut Desk,
    session: &mut Session,
    text: &[u8],
    statement: &Stmt,
) -> Result<Answer, NodeFault>
    requires { is_of_transaction (view statement.now) ≡ true }
    ensures { IfOk result (λ answer. IsTurn desk.old desk.new session.new answer (statement_turn (called command.now) text.now (view statement.now) (shared_of desk.old) session.old)) }
{
    match statement {
        Stmt::Begin => Ok(begin(alloc, command, desk, session)?),
        Stmt::Commit => Ok(commit(alloc, command, desk, session)?),
        Stmt::Rollback => Ok(rollback(alloc, command, desk, session)),
        Stmt::Savepoint(name) => Ok(savepoint(alloc, command, desk, session, name)?),
        Stmt::RollbackTo(name) => Ok(rollback_to(alloc, command, desk, session, name)),
        Stmt::ReleaseSavepoint(name) => Ok(release_savepoint(alloc, desk, session, name)),
        _ => unreachable!(),
    }
}

/// A statement that is neither a SET nor a CALL.
fn run_kept(
    alloc: Global,
    command: &Command<'_>,
    desk: &mut Desk,
    session: &mut Session,
    text: &[u8],
    refusal: Option<SqlError>,
    statement: &Stmt,
) -> Result<Answer, NodeFault>
    requires refusal { refusal ≡ statement_refusal ((shared_of desk.old).base.catalog) session_scope (view statement.now) }
    requires set { is_set (view statement.now) ≡ false }
    requires call { is_call (view statement.now) ≡ false }
    ensures { IfOk result (λ answer. IsTurn desk.old desk.new session.new answer (statement_turn (called command.now) text.now (view statement.now) (shared_of desk.old) session.old)) }
{
    if is_of_transaction(statement) {
        of_transaction(alloc, command, desk, session, text, statement)
    } else {
        other(alloc, command, desk, session, text, refusal, statement)
    }
}

/// A statement of a session, whose parts may be taken out.
pub(crate) fn run(
    alloc: Global,
    command: &Command<'_>,
    desk: &mut Desk,
    session: &mut Session,
    text: &[u8],
    statement: &mut Stmt,
) -> Result<Answer, NodeFault>
    ensures { IfOk result (λ answer. IsTurn desk.old desk.new session.new answer (statement_turn (called command.now) text.now (view statement.old) (shared_of desk.old) session.old)) }
{
    let refusal = refused_here(alloc, desk, statement);
    if let Some(assignments) = take_assignments(alloc, statement) {
        return set(alloc, command, desk, session, refusal, assignments);
    }
    if let Some((name, arguments)) = take_call(alloc, statement) {
        return run_call(alloc, command, desk, session, refusal, &name, arguments);
    }
    run_kept(alloc, command, desk, session, text, refusal, statement)
}
