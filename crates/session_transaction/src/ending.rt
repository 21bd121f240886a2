//! COMMIT and ROLLBACK.
ghost use Rattle.std.specs.Prelude.{◌≡◌, IfOk, OnErr, OnOk};
ghost use Rattle.answer_making.specs.session_model.Running.{commit_entries, commit_open, commit_shared, items_of};
ghost use Rattle.answer_making.specs.session_model.Commands.{commit_turn, rollback_turn};
ghost use Rattle.session_statement.specs.Calls.{called};
ghost use Rattle.session_statement.specs.session_shared.Desk.{shared_of};
ghost use Rattle.session_statement.specs.session_shared.Logging.{Logs};
ghost use Rattle.session_statement.specs.Turned.{IsTurn, Moves};

use answer_making::ok;
use answer_text::Answer;
use session_ctx::Ctx;
use session_statement::session_shared::{Command, Desk, Open, Session};
use std::alloc::Global;
use val_types::NoMemory;

/// Commits a transaction at the moment of a context, where it has an item.
fn commit_items(
    alloc: Global,
    command: &Command<'_>,
    desk: &mut Desk,
    context: &Ctx,
    transaction: &Option<Open>,
) -> Result<(), NoMemory>
    ensures shared { OnOk result (shared_of desk.new ≡ commit_shared (called command.now) context.now (items_of transaction.now) (shared_of desk.old)) }
    ensures log { OnOk result (Logs (commit_entries (called command.now) context.now (items_of transaction.now)) desk.old desk.new) }
    ensures err { OnErr result (desk.new ≡ desk.old) }
{
    let Some(open) = transaction else {
        return Ok(());
    };
    let items = open.items();
    if items.mark() == 0 {
        return Ok(());
    }
    desk.commit(alloc, context.stamp(), command.identity.server_id, items)
}

/// Ends the open transaction of a session, with its changes. Where memory is short, it stays open as it was.
pub fn commit_open(
    alloc: Global,
    command: &Command<'_>,
    desk: &mut Desk,
    session: &mut Session,
) -> Result<(), NoMemory>
    ensures ok { OnOk result (Moves desk.old desk.new session.new (commit_open (called command.now) (shared_of desk.old) session.old)) }
    ensures desk { OnErr result (desk.new ≡ desk.old) }
    ensures session { OnErr result (session.new ≡ session.old) }
{
    commit_items(
        alloc,
        command,
        desk,
        &session.vars.context,
        &session.transaction,
    )?;
    session.transaction = None;
    desk.release(command.number);
    Ok(())
}

/// COMMIT.
pub fn commit(
    alloc: Global,
    command: &Command<'_>,
    desk: &mut Desk,
    session: &mut Session,
) -> Result<Answer, NoMemory>
    ensures ok { IfOk result (λ answer. IsTurn desk.old desk.new session.new answer (commit_turn (called command.now) (shared_of desk.old) session.old)) }
    ensures desk { OnErr result (desk.new ≡ desk.old) }
    ensures session { OnErr result (session.new ≡ session.old) }
{
    commit_open(alloc, command, desk, session)?;
    Ok(ok(alloc, 0))
}

/// ROLLBACK.
pub fn rollback(
    alloc: Global,
    command: &Command<'_>,
    desk: &mut Desk,
    session: &mut Session,
) -> Answer
    ensures { IsTurn desk.old desk.new session.new result (rollback_turn (called command.now) (shared_of desk.old) session.old) }
{
    session.transaction = None;
    desk.drop_changes(command.number);
    ok(alloc, 0)
}
