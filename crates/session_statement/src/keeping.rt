//! What a statement changed, kept as its item.
ghost use Rattle.std.specs.Prelude.{◌≡◌, None, Some, pos, int_le, IsTrue, IfOk};
ghost use Rattle.session_shared.specs.binlog_items.Items.{numbers_of};
ghost use Rattle.sql_print.specs.StatementSpelling.{spelling};
ghost use Rattle.proc_parts.specs.sql_reach.Closing.{closed};
ghost use Rattle.sql_tree.specs.StatementView.{view};
ghost use Rattle.session_shared.specs.session_model.Commands.{changes_of_own};
ghost use Rattle.session_statement.specs.Calls.{called};
ghost use Rattle.session_shared.specs.Desk.{shared_of};
ghost use Rattle.session_statement.specs.Keeping.{item_kept, settled, statement_kept};
ghost use Rattle.session_statement.specs.Turned.{EndsAs, IsTurn};

use proc_parts::log_entries::Item;
use proc_parts::name_const::closed_over;
use proc_parts::session_ctx::Ctx;
use session_shared::binlog_items::{Before, Items, item_of};
use session_shared::{Command, Desk, Open, Session, how_logged};
use sql_locals::Locals;
use sql_print::print;
use sql_tree::Stmt;
use std::alloc::Global;
use val_types::{NoMemory, SqlError, SqlRefusal};

/// A transaction has too many bytes.
const TOO_LARGE: SqlError = 1197;

/// Where a statement begins: how many changes the transaction of its session has, and the numbers of its context.
#[derive(Clone, Copy)]
pub struct Start {
    pub mark: u64,
    pub before: Before,
}

/// What a statement came to, and whether it is warned: what it changed is logged by its text, though that is unsafe.
#[derive(Drop)]
pub struct Kept<T> {
    pub value: T,
    pub warned: bool,
}

/// Where a statement of a session begins.
pub(crate) fn start_of(desk: &Desk, number: u8, context: &Ctx) -> Start
    ensures mark { result.mark ≡ changes_of_own number (shared_of desk.now) }
    ensures before { result.before ≡ numbers_of context.now }
    ensures counts { IsTrue (int_le (pos 0) result.before.last_id) }
{
    context.bounds();
    Start {
        mark: desk.own_changes(number),
        before: Before::of(context),
    }
}

/// Keeps an item outside a transaction, as one by itself.
fn keep_alone(
    alloc: Global,
    command: &Command<'_>,
    desk: &mut Desk,
    session: &Session,
    item: Item,
    mark: u64,
) -> Result<bool, NoMemory>
    requires { session.now.transaction ≡ None }
    ensures { IfOk result (λ kept. IsTurn desk.old desk.new session.now kept (item_kept (called command.now) item mark (shared_of desk.old) session.now)) }
{
    let mut items = Items::new(alloc);
    items.add(item)?;
    if items.are_too_large() {
        desk.cut(command.number, mark);
        return Ok(false);
    }
    let stamp = session.vars.context.stamp();
    desk.commit(alloc, stamp, command.identity.server_id, &items)?;
    Ok(true)
}

/// Keeps an item as the last of an open transaction; the session keeps the lock.
fn keep_in(
    command: &Command<'_>,
    desk: &mut Desk,
    session: &mut Session,
    transaction: Open,
    item: Item,
    mark: u64,
) -> Result<bool, NoMemory>
    requires { session.old.transaction ≡ None }
    ensures { IfOk result (λ kept. IsTurn desk.old desk.new session.new kept (item_kept (called command.now) item mark (shared_of desk.old) (record session.old { transaction = Some transaction }))) }
{
    let mut open = transaction;
    let added = open.add_item(item);
    session.transaction = Some(open);
    let is_kept = added?;
    if is_kept {
        desk.take_lock(command.number);
    } else {
        desk.cut(command.number, mark);
    }
    Ok(is_kept)
}

/// Keeps the item of a statement, which made the changes behind a mark. Where the transaction would have too many bytes,
/// the changes are taken back, and the answer is false.
fn keep_item(
    alloc: Global,
    command: &Command<'_>,
    desk: &mut Desk,
    session: &mut Session,
    item: Item,
    mark: u64,
) -> Result<bool, NoMemory>
    ensures { IfOk result (λ kept. IsTurn desk.old desk.new session.new kept (item_kept (called command.now) item mark (shared_of desk.old) session.old)) }
{
    match session.transaction.take() {
        None => keep_alone(alloc, command, desk, session, item, mark),
        Some(open) => keep_in(command, desk, session, open, item, mark),
    }
}

/// Keeps what a statement changed, where it changed something, as an item in the format of its session, or refuses it with
/// 1197: then nothing of it is left but what it used. Gives whether the statement is warned.
pub(crate) fn keep(
    alloc: Global,
    command: &Command<'_>,
    desk: &mut Desk,
    session: &mut Session,
    text: &[u8],
    statement: &Stmt,
    start: Start,
    first: Option<i64>,
) -> Result<bool, SqlRefusal>
    requires { IsTrue (int_le (pos 0) start.before.last_id) }
    ensures { EndsAs result desk.old desk.new session.new (statement_kept (called command.now) text.now (view statement.now) (start.before) first (start.mark) (shared_of desk.old) session.old) }
{
    let changes = desk.changes_since(alloc, command.number, start.mark)?;
    if changes.len() == 0 {
        return Ok(false);
    }
    let objects = desk.work.catalog().objects();
    let logging = how_logged(session.format, statement, objects);
    let context = &session.vars.context;
    let item = item_of(
        alloc,
        text,
        statement,
        objects,
        context,
        start.before,
        first,
        logging.rows,
        changes,
    )?;
    if keep_item(alloc, command, desk, session, item, start.mark)? {
        return Ok(logging.warned);
    }
    session.vars.context.set_last_id(start.before.last_id);
    Err(SqlRefusal::Sql(TOO_LARGE))
}

/// Keeps what the expressions of a SET changed, or takes it back where an error refuses their values.
pub fn settle(
    alloc: Global,
    command: &Command<'_>,
    desk: &mut Desk,
    session: &mut Session,
    text: &[u8],
    statement: &Stmt,
    start: Start,
    refusal: Option<SqlError>,
) -> Result<bool, SqlRefusal>
    requires { IsTrue (int_le (pos 0) start.before.last_id) }
    ensures { EndsAs result desk.old desk.new session.new (settled (called command.now) refusal text.now (view statement.now) (start.before) (start.mark) (shared_of desk.old) session.old) }
{
    if let Some(code) = refusal {
        desk.cut(command.number, start.mark);
        return Err(SqlRefusal::Sql(code));
    }
    keep(alloc, command, desk, session, text, statement, start, None)
}

/// The same by the canonical text, which is made only where the statement changed something.
#[tactic(auto, using(crate::proofs::Keeps::nothing_kept))]
pub(crate) fn keep_printed(
    alloc: Global,
    command: &Command<'_>,
    desk: &mut Desk,
    session: &mut Session,
    statement: &Stmt,
    start: Start,
    first: Option<i64>,
) -> Result<bool, SqlRefusal>
    requires { IsTrue (int_le (pos 0) start.before.last_id) }
    ensures { EndsAs result desk.old desk.new session.new (statement_kept (called command.now) (spelling (view statement.now)) (view statement.now) (start.before) first (start.mark) (shared_of desk.old) session.old) }
{
    if !desk.has_changed(command.number, start.mark) {
        return Ok(false);
    }
    let text = print(alloc, statement)?;
    keep(
        alloc,
        command,
        desk,
        session,
        text.as_slice(),
        statement,
        start,
        first,
    )
}

/// The same of the DO over expressions, in which locals are closed. It is closed only where they changed something.
#[tactic(auto, using(crate::proofs::Keeps::nothing_kept))]
pub(crate) fn keep_closed(
    alloc: Global,
    command: &Command<'_>,
    desk: &mut Desk,
    session: &mut Session,
    statement: &Stmt,
    locals: &Locals,
    start: Start,
) -> Result<bool, SqlRefusal>
    requires { IsTrue (int_le (pos 0) start.before.last_id) }
    ensures { EndsAs result desk.old desk.new session.new (statement_kept (called command.now) (spelling (closed (view statement.now) locals.now)) (closed (view statement.now) locals.now) (start.before) None (start.mark) (shared_of desk.old) session.old) }
{
    if !desk.has_changed(command.number, start.mark) {
        return Ok(false);
    }
    let closed = closed_over(alloc, statement, locals)?;
    keep_printed(
        alloc,
        command,
        desk,
        session,
        closed.statement.get(),
        start,
        None,
    )
}
