//! A session at its command.
ghost use Rattle.std.specs.Prelude.{◌≡◌, IfOk};
ghost use Rattle.session_model.specs.Counting.{counted};
ghost use Rattle.session_model.specs.Machine.{at_work};
ghost use Rattle.session_transaction.specs.session_statement.Calls.{called};

use answer_text::Answer;
use session_ctx::SessionVars;
use session_model::Format;
use session_transaction::answer_making::row_count_after;
use session_transaction::session_shared::{Command, Session};
use std::alloc::Global;
use val_types::NoMemory;

/// A session at its command: a new one, or with the moments of this command.
pub(crate) fn at_work(
    alloc: Global,
    command: &Command<'_>,
    slot: Option<Session>,
) -> Result<Session, NoMemory>
    ensures { IfOk result (λ session. session ≡ at_work (called command.now) slot) }
{
    match slot {
        None => Ok(Session {
            vars: SessionVars::new(
                alloc,
                command.identity,
                u32::from(command.number),
                command.draw,
            )?,
            format: Format::Mixed,
            transaction: None,
        }),
        Some(mut session) => {
            session.vars.begin_command(command.draw);
            Ok(session)
        }
    }
}

/// Sets ROW_COUNT() behind an answer.
pub(crate) fn count(session: &mut Session, answer: &Answer)
    ensures { session.new ≡ counted answer.now session.old }
{
    session
        .vars
        .context
        .set_row_count(row_count_after(&answer.end));
}
