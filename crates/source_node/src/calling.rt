//! CALL.
ghost use Rattle.std.specs.Prelude.{◌≡◌, IfOk};
ghost use Rattle.sql_tree.specs.Statement.{call_procedure, evaluate};
ghost use Rattle.sql_tree.specs.StatementView.{view};
ghost use Rattle.sql_tree.specs.View.{view_trees};
ghost use Rattle.session_transaction.specs.catalog_rules.Checks.{session_scope, statement_refusal};
ghost use Rattle.session_transaction.specs.prog_work.Outcomes.{Spends, full_meter};
ghost use Rattle.session_model.specs.Calling.{arguments_run, call_turn, called_with};
ghost use Rattle.session_transaction.specs.session_statement.Calls.{called};
ghost use Rattle.session_transaction.specs.session_shared.Desk.{shared_of};
ghost use Rattle.session_transaction.specs.session_statement.Ran.{fuel_at};
ghost use Rattle.session_transaction.specs.session_statement.Turned.{EndsWith, IsTurn};

use answer_text::Answer;
use session_call::call_steps;
use session_transaction::answer_making::{NodeFault, refused};
use session_transaction::prog_run::Meter;
use session_transaction::session_shared::{Command, Desk, MOST_TEXT, Session, lock_refusal};
use session_transaction::session_statement::{Kept, evaluate_with_text};
use sql_print::print;
use sql_tree::{Expr, Stmt};
use std::alloc::Global;
use val_types::{Bytes, List, SqlError, SqlRefusal, TEXT_TOO_LONG, Value};

/// The values of the arguments, which are those of the DO over them; where there is none, nothing is evaluated.
#[tactic(auto, using(crate::proofs::Ending::arguing))]
fn argument_values(
    alloc: Global,
    command: &Command<'_>,
    desk: &mut Desk,
    session: &mut Session,
    text: &Bytes,
    statement: &Stmt,
    arguments: &List<Expr>,
    meter: &mut Meter,
) -> Result<Kept<List<Value>>, SqlRefusal>
    requires is { view statement.now ≡ evaluate (view_trees arguments.now) }
    requires full { meter.old ≡ full_meter }
    ensures ends { EndsWith result (fuel_at meter.new) desk.old desk.new session.new (arguments_run (called command.now) text.now (view_trees arguments.now) (shared_of desk.old) session.old) }
    ensures spends { Spends meter.old meter.new }
{
    if arguments.is_empty() {
        return Ok(Kept {
            value: List::new(alloc),
            warned: false,
        });
    }
    evaluate_with_text(
        alloc,
        command,
        desk,
        session,
        text.as_slice(),
        statement,
        arguments,
        meter,
    )
}

/// The arguments, then the procedure; nothing refuses the CALL before.
#[tactic(auto, using(crate::proofs::Ending::call_refused))]
fn call_with(
    alloc: Global,
    command: &Command<'_>,
    desk: &mut Desk,
    session: &mut Session,
    name: &Bytes,
    text: &Bytes,
    statement: &Stmt,
    arguments: &List<Expr>,
) -> Result<Answer, NodeFault>
    requires { view statement.now ≡ evaluate (view_trees arguments.now) }
    ensures { IfOk result (λ answer. IsTurn desk.old desk.new session.new answer (called_with (called command.now) name.now (arguments_run (called command.now) text.now (view_trees arguments.now) (shared_of desk.old) session.old))) }
{
    let mut meter = Meter::full();
    match argument_values(
        alloc, command, desk, session, text, statement, arguments, &mut meter,
    ) {
        Err(SqlRefusal::NoMemory) => Err(NodeFault::NoMemory),
        Err(SqlRefusal::Sql(code)) => Ok(refused(alloc, code)),
        Ok(kept) => call_steps(alloc, command, desk, session, name, kept, &mut meter),
    }
}

/// CALL: 1153 for the text of the DO over its arguments, the catalog's checks, the lock, the values of the arguments, then
/// the procedure. The refusal is that of the catalog's checks.
pub(crate) fn run_call(
    alloc: Global,
    command: &Command<'_>,
    desk: &mut Desk,
    session: &mut Session,
    refusal: Option<SqlError>,
    name: &Bytes,
    arguments: List<Expr>,
) -> Result<Answer, NodeFault>
    requires { refusal ≡ statement_refusal ((shared_of desk.old).base.catalog) session_scope (call_procedure name.now (view_trees arguments)) }
    ensures { IfOk result (λ answer. IsTurn desk.old desk.new session.new answer (call_turn (called command.now) name.now (view_trees arguments) (shared_of desk.old) session.old)) }
{
    let statement = Stmt::Do(arguments);
    let text = print(alloc, &statement)?;
    if text.len() > MOST_TEXT {
        return Ok(refused(alloc, TEXT_TOO_LONG));
    }
    if let Some(code) = refusal {
        return Ok(refused(alloc, code));
    }
    if let Some(answer) = lock_refusal(alloc, desk, command.number, &statement) {
        return Ok(answer);
    }
    match &statement {
        Stmt::Do(arguments) => call_with(
            alloc, command, desk, session, name, &text, &statement, arguments,
        ),
        _ => unreachable!(),
    }
}
