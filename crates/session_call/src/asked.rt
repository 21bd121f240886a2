//! What a procedure asks, as steps of its session.
ghost use Rattle.std.specs.Prelude.{◌≡◌, true};
ghost use Rattle.fault_counts.specs.Causes.{Rose};
ghost use Rattle.sql_tree.specs.StatementView.{view};
ghost use Rattle.proc_run.specs.proc_model.Procedures.{is_plain};
ghost use Rattle.answer_making.specs.prog_work.Outcomes.{Spends};
ghost use Rattle.proc_run.specs.proc_parts.Calls.{Tells, effect_of, expressions_of, is_do, left_of, plainly};
ghost use Rattle.proc_run.specs.proc_parts.declared.runner.RunRefusal.TheVariants.{Sql as Refused};
ghost use Rattle.answer_making.specs.Telling.{told_answer};
ghost use Rattle.answer_making.specs.session_model.Calling.{evaluate_step, run_step};
ghost use Rattle.answer_making.specs.session_model.Counting.{counted};
ghost use Rattle.session_statement.specs.Calls.{called};
ghost use Rattle.session_call.specs.Stepping.{Stepped, reached};

use answer_making::prog_work::{Meter, Outcome};
use answer_making::row_count_after;
use answer_text::End;
use proc_run::proc_parts::RunRefusal;
use session_statement::session_shared::{Command, Desk, Refusal, Session, step_check};
use session_statement::{evaluate_closed, run_printed};
use sql_locals::Locals;
use sql_tree::Stmt;
use std::alloc::Global;
use val_types::{List, Value};

/// A refusal as the procedure is told of it.
fn refusal_of(refusal: Refusal) -> RunRefusal
    ensures { result ≡ Refused refusal.code refusal.holder }
{
    RunRefusal::Sql {
        code: refusal.code,
        holder: refusal.holder,
    }
}

/// How the answer of a statement would end.
fn end_of(outcome: &Outcome) -> End
    ensures { result ≡ (told_answer outcome.now).end }
{
    match outcome.rows {
        None => End::Ok {
            affected: outcome.affected,
            warned: false,
        },
        Some(_) => End::Rows { warned: false },
    }
}

/// Sets ROW_COUNT() behind a statement.
fn count(session: &mut Session, outcome: &Outcome)
    ensures { session.new ≡ counted (told_answer outcome.now) session.old }
{
    let count = row_count_after(&end_of(outcome));
    session.vars.context.set_row_count(count);
}

/// A change, a SELECT or a DO of a procedure. Where it is warned, its CALL is.
#[tactic(auto, using(crate::proofs::Telling::running))]
pub(crate) fn run_step(
    alloc: Global,
    command: &Command<'_>,
    desk: &mut Desk,
    session: &mut Session,
    warned: &mut bool,
    statement: &Stmt,
    meter: &mut Meter,
) -> Result<Outcome, RunRefusal>
    requires { is_plain (view statement.now) ≡ true }
    ensures gives { Tells (λ told. Stepped (run_step (called command.now) (left_of meter.old) (view statement.now) (reached desk.old session.old warned.old)) told desk.old desk.new session.new warned.new) (Rose 0 0) effect_of result meter.new }
    ensures spends { Spends meter.old meter.new }
{
    let locals = Locals::new(alloc);
    if let Some(refusal) = step_check(desk, command.number, statement, &locals) {
        return Err(refusal_of(refusal));
    }
    let kept = run_printed(alloc, command, desk, session, statement, meter)?;
    *warned |= kept.warned;
    count(session, &kept.value);
    Ok(kept.value)
}

/// The values of a procedure's expressions, which stand in a DO. Where it is warned, the CALL is.
#[tactic(auto, using(crate::proofs::Telling::evaluating))]
pub(crate) fn evaluate_step(
    alloc: Global,
    command: &Command<'_>,
    desk: &mut Desk,
    session: &mut Session,
    warned: &mut bool,
    statement: &Stmt,
    locals: &Locals,
    meter: &mut Meter,
) -> Result<List<Value>, RunRefusal>
    requires { is_do (view statement.now) ≡ true }
    ensures gives { Tells (λ told. Stepped (evaluate_step (called command.now) (left_of meter.old) locals.now (expressions_of (view statement.now)) (reached desk.old session.old warned.old)) told desk.old desk.new session.new warned.new) (Rose 0 0) plainly result meter.new }
    ensures spends { Spends meter.old meter.new }
{
    let Stmt::Do(expressions) = statement else {
        unreachable!()
    };
    if let Some(refusal) = step_check(desk, command.number, statement, locals) {
        return Err(refusal_of(refusal));
    }
    let kept = evaluate_closed(
        alloc,
        command,
        desk,
        session,
        statement,
        expressions,
        locals,
        meter,
    )?;
    *warned |= kept.warned;
    Ok(kept.value)
}
