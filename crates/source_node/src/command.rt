//! A command of a session: a text, whatever it is.
ghost use Rattle.std.specs.Prelude.{◌≡◌, ◌≤◌, Some, length, IfOk};
ghost use Rattle.session_model.specs.binlog_sizes.Sizes.{most_text};
ghost use Rattle.session_model.specs.Machine.{command as command_turn, text_turn};
ghost use Rattle.session_transaction.specs.session_statement.Calls.{called};
ghost use Rattle.session_transaction.specs.session_shared.Desk.{shared_of};
ghost use Rattle.session_transaction.specs.session_shared.Logging.{Logs};
ghost use Rattle.session_transaction.specs.session_statement.Turned.{IsTurn};
ghost use Rattle.session_transaction.specs.text_answers.Answers.{text_answer};

use crate::statements::run;
use crate::working::{at_work, count};
use answer_text::Answer;
use session_transaction::answer_making::{NodeFault, refused, refused_at, statement_of};
use session_transaction::session_shared::{Command, Desk, Session};
use sql_parse::ParseRefusal;
use std::alloc::Global;

/// A text is too deep.
const TOO_DEEP: u16 = 30007;

/// Carries out a text in its session.
fn run_text(
    alloc: Global,
    command: &Command<'_>,
    desk: &mut Desk,
    session: &mut Session,
    text: &[u8],
) -> Result<Answer, NodeFault>
    requires { length text.now ≤ most_text }
    ensures { IfOk result (λ answer. IsTurn desk.old desk.new session.new answer (text_turn (called command.now) text.now (text_answer text.now) (shared_of desk.old) session.old)) }
{
    match statement_of(alloc, text) {
        Err(ParseRefusal::NoMemory) => Err(NodeFault::NoMemory),
        Err(ParseRefusal::Deep) => Ok(refused(alloc, TOO_DEEP)),
        Err(ParseRefusal::Syntax { at }) => Ok(refused_at(alloc, at)),
        Ok(mut parsed) => run(alloc, command, desk, session, text, &mut parsed.statement),
    }
}

/// Carries out a text in the session at its place: a new one, where it has had no command.
pub(crate) fn run_command(
    alloc: Global,
    command: &Command<'_>,
    desk: &mut Desk,
    place: &mut Option<Session>,
    text: &[u8],
) -> Result<Answer, NodeFault>
    requires { length text.now ≤ most_text }
    ensures shared { IfOk result (λ answer. shared_of desk.new ≡ (command_turn (called command.now) text.now (shared_of desk.old) place.old).shared) }
    ensures session { IfOk result (λ answer. place.new ≡ Some ((command_turn (called command.now) text.now (shared_of desk.old) place.old).session)) }
    ensures answer { IfOk result (λ answer. answer ≡ (command_turn (called command.now) text.now (shared_of desk.old) place.old).given) }
    ensures log { IfOk result (λ answer. Logs ((command_turn (called command.now) text.now (shared_of desk.old) place.old).committed) desk.old desk.new) }
{
    let mut session = at_work(alloc, command, place.take())?;
    let answer = run_text(alloc, command, desk, &mut session, text)?;
    count(&mut session, &answer);
    *place = Some(session);
    Ok(answer)
}
