//! Changes, SELECT and DO.
ghost use Rattle.std.specs.Prelude.{◌≡◌, false, IfOk};
ghost use Rattle.sql_tree.specs.StatementView.{view};
ghost use Rattle.session_transaction.specs.sql_reach.Reach.{is_definition};
ghost use Rattle.session_model.specs.Running.{full, statement_run};
ghost use Rattle.session_model.specs.Commands.{given_turn};
ghost use Rattle.session_transaction.specs.session_statement.Calls.{called};
ghost use Rattle.session_transaction.specs.session_shared.Desk.{shared_of};
ghost use Rattle.session_transaction.specs.session_statement.Turned.{IsTurn};

use answer_text::Answer;
use session_transaction::answer_making::{NodeFault, refused, told, with_warning};
use session_transaction::prog_run::Meter;
use session_transaction::session_shared::{Command, Desk, Session};
use session_transaction::session_statement::run_with_text;
use sql_tree::Stmt;
use std::alloc::Global;
use val_types::SqlRefusal;

/// Runs a change, a SELECT or a DO, which nothing refuses before.
#[tactic(auto, using(crate::proofs::Ending::telling))]
pub(crate) fn run_plain(
    alloc: Global,
    command: &Command<'_>,
    desk: &mut Desk,
    session: &mut Session,
    text: &[u8],
    statement: &Stmt,
) -> Result<Answer, NodeFault>
    requires { is_definition (view statement.now) ≡ false }
    ensures { IfOk result (λ answer. IsTurn desk.old desk.new session.new answer (given_turn (statement_run (called command.now) full text.now (view statement.now) (shared_of desk.old) session.old))) }
{
    let mut meter = Meter::full();
    match run_with_text(alloc, command, desk, session, text, statement, &mut meter) {
        Err(SqlRefusal::NoMemory) => Err(NodeFault::NoMemory),
        Err(SqlRefusal::Sql(code)) => Ok(refused(alloc, code)),
        Ok(kept) => Ok(with_warning(told(alloc, &kept.value)?, kept.warned)),
    }
}
