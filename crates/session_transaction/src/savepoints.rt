//! SAVEPOINT, ROLLBACK TO and RELEASE SAVEPOINT.
ghost use Rattle.std.specs.Prelude.{◌≡◌, IfOk, OnErr};
ghost use Rattle.answer_making.specs.log_entries.declared.entries.Item.{Item as LoggedItem};
ghost use Rattle.answer_making.specs.session_model.Commands.{back_turn, release_in, save_turn};
ghost use Rattle.session_statement.specs.Calls.{called};
ghost use Rattle.session_statement.specs.session_shared.Desk.{shared_of};
ghost use Rattle.session_statement.specs.Turned.{IsTurn};

use answer_making::{ok, refused};
use answer_text::Answer;
use session_statement::session_shared::{Command, Desk, Session};
use std::alloc::Global;
use val_types::{Bytes, NoMemory};

/// There is no savepoint of the name.
const NO_SUCH_SAVEPOINT: u16 = 1305;

/// SAVEPOINT: one of the name moves; outside a transaction it does nothing.
pub fn savepoint(
    alloc: Global,
    command: &Command<'_>,
    desk: &Desk,
    session: &mut Session,
    name: &Bytes,
) -> Result<Answer, NoMemory>
    ensures ok { IfOk result (λ answer. IsTurn desk.now desk.now session.new answer (save_turn (called command.now) name.now (shared_of desk.now) session.old)) }
    ensures session { OnErr result (session.new ≡ session.old) }
{
    let changes = desk.own_changes(command.number);
    if let Some(mut open) = session.transaction.take() {
        let saved = open.save(alloc, name, changes);
        session.transaction = Some(open);
        saved?;
    }
    Ok(ok(alloc, 0))
}

/// ROLLBACK TO: what was done behind the savepoint is taken back, and it stays. 1305 outside a transaction, and
/// where there is no savepoint of the name.
pub fn rollback_to(
    alloc: Global,
    command: &Command<'_>,
    desk: &mut Desk,
    session: &mut Session,
    name: &Bytes,
) -> Answer
    ensures { IsTurn desk.old desk.new session.new result (back_turn (called command.now) name.now (shared_of desk.old) session.old) }
{
    let Some(mut open) = session.transaction.take() else {
        return refused(alloc, NO_SUCH_SAVEPOINT);
    };
    let changes = open.go_back(name);
    session.transaction = Some(open);
    match changes {
        None => refused(alloc, NO_SUCH_SAVEPOINT),
        Some(changes) => {
            desk.cut(command.number, changes);
            ok(alloc, 0)
        }
    }
}

/// RELEASE SAVEPOINT: drops that of the name alone. 1305 as above.
pub fn release_savepoint(alloc: Global, desk: &Desk, session: &mut Session, name: &Bytes) -> Answer
    ensures { IsTurn desk.now desk.now session.new result (release_in {I = LoggedItem} name.now (session.old.transaction) (shared_of desk.now) session.old) }
{
    let Some(mut open) = session.transaction.take() else {
        return refused(alloc, NO_SUCH_SAVEPOINT);
    };
    let is_there = open.has_save(name);
    if is_there {
        open.release(name);
    }
    session.transaction = Some(open);
    if is_there {
        ok(alloc, 0)
    } else {
        refused(alloc, NO_SUCH_SAVEPOINT)
    }
}
