//! What refuses a statement before it runs.
ghost use Rattle.std.specs.Prelude.{◌≡◌};
ghost use Rattle.sql_tree.specs.StatementView.{view};
ghost use Rattle.session_model.specs.catalog_rules.Checks.{statement_refusal};
ghost use Rattle.session_model.specs.proc_model.Procedures.{scope_of};
ghost use Rattle.session_model.specs.Answers.{refused_as};
ghost use Rattle.session_model.specs.Calling.{step_check};
ghost use Rattle.session_model.specs.Running.{lock_check, lock_refusal};
ghost use Rattle.session_shared.specs.Desk.{shared_of};

use crate::desk::Desk;
use answer_text::{Answer, End};
use sql_locals::Locals;
use sql_tree::Stmt;
use std::alloc::Global;
use std::marker::Model;
use val_types::{List, SqlError, SqlRefusal};
use waiting_entries::binlog_items::unsafe_rules::writes;

/// Why a statement is refused before it runs: its error, and with 1205 the session that writes.
#[derive(Drop)]
pub struct Refusal {
    pub code: SqlError,
    pub holder: Option<u8>,
}

impl Model for Refusal {
    ghost use Rattle.session_model.specs.proc_model.Talk.{Refusal as WhyRefused};

    ghost Value = { WhyRefused };

    ghost view = { λ r. record { code = r.code; holder = r.holder } };
}

/// A refusal as it is answered.
pub fn refused_as(alloc: Global, refusal: Refusal) -> Answer
    ensures { result ≡ refused_as refusal }
{
    Answer {
        sets: List::new(alloc),
        end: End::Refused {
            code: refusal.code,
            at: None,
            holder: refusal.holder,
        },
    }
}

/// The catalog's checks of a statement, where locals are in scope.
pub fn checked(desk: &Desk, statement: &Stmt, locals: &Locals) -> Option<SqlError>
    ensures { result ≡ statement_refusal ((shared_of desk.now).base.catalog) (scope_of locals.now) (view statement.now) }
{
    match desk.work.catalog().check(statement, locals) {
        Err(SqlRefusal::Sql(code)) => Some(code),
        _ => None,
    }
}

/// What refuses a statement for the writer's lock.
pub fn lock_check(desk: &Desk, number: u8, statement: &Stmt) -> Option<Refusal>
    ensures { result ≡ lock_check number (shared_of desk.now) (view statement.now) }
{
    if writes(statement, desk.work.catalog().objects()) {
        desk.writing_check(number)
    } else {
        None
    }
}

/// What refuses a statement for the writer's lock, as the answer to it. It takes the number of the session, and gives none
/// where the statement may run.
pub fn lock_refusal(alloc: Global, desk: &Desk, number: u8, statement: &Stmt) -> Option<Answer>
    ensures { result ≡ lock_refusal number (shared_of desk.now) (view statement.now) }
{
    match lock_check(desk, number, statement) {
        None => None,
        Some(refusal) => Some(refused_as(alloc, refusal)),
    }
}

/// What refuses a step of a procedure: the catalog's checks, then the lock.
pub fn step_check(desk: &Desk, number: u8, statement: &Stmt, locals: &Locals) -> Option<Refusal>
    ensures { result ≡ step_check number (scope_of locals.now) (view statement.now) (shared_of desk.now) }
{
    match checked(desk, statement, locals) {
        Some(code) => Some(Refusal { code, holder: None }),
        None => lock_check(desk, number, statement),
    }
}
