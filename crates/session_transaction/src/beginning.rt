//! BEGIN.
ghost use Rattle.std.specs.Prelude.{◌≡◌, IfOk, OnErr};
ghost use Rattle.answer_making.specs.session_model.Commands.{begin_turn};
ghost use Rattle.session_statement.specs.Calls.{called};
ghost use Rattle.session_statement.specs.session_shared.Desk.{shared_of};
ghost use Rattle.session_statement.specs.Turned.{IsTurn};

use crate::ending::commit_open;
use answer_making::ok;
use answer_text::Answer;
use session_statement::session_shared::{Command, Desk, Open, Session};
use std::alloc::Global;
use val_types::NoMemory;

/// BEGIN: commits the open transaction, and opens one.
pub fn begin(
    alloc: Global,
    command: &Command<'_>,
    desk: &mut Desk,
    session: &mut Session,
) -> Result<Answer, NoMemory>
    ensures ok { IfOk result (λ answer. IsTurn desk.old desk.new session.new answer (begin_turn (called command.now) (shared_of desk.old) session.old)) }
    ensures desk { OnErr result (desk.new ≡ desk.old) }
    ensures session { OnErr result (session.new ≡ session.old) }
{
    commit_open(alloc, command, desk, session)?;
    session.transaction = Some(Open::new(alloc));
    Ok(ok(alloc, 0))
}
