//! A statement run, with what it changed kept as its item.
ghost use Rattle.std.specs.Prelude.{◌≡◌, [], false, int_le, pos, IfOk, IsTrue};
ghost use Rattle.session_shared.specs.binlog_items.Items.{numbers_of};
ghost use Rattle.sql_print.specs.StatementSpelling.{spelling};
ghost use Rattle.sql_tree.specs.Statement.{evaluate};
ghost use Rattle.sql_tree.specs.StatementView.{view};
ghost use Rattle.sql_tree.specs.View.{view_trees};
ghost use Rattle.proc_parts.specs.sql_reach.Closing.{closed};
ghost use Rattle.proc_parts.specs.sql_reach.Reach.{is_definition};
ghost use Rattle.proc_parts.specs.prog_work.Outcomes.{Spends};
ghost use Rattle.proc_parts.specs.Calls.{left_of};
ghost use Rattle.session_shared.specs.session_model.Commands.{changes_of_own};
ghost use Rattle.session_shared.specs.session_model.Running.{expressions_run, statement_run, values_run, with_context};
ghost use Rattle.session_statement.specs.Calls.{called};
ghost use Rattle.session_shared.specs.Desk.{shared_of};
ghost use Rattle.session_statement.specs.Ran.{Gives, fuel_at, place_at, told_given};
ghost use Rattle.session_statement.specs.Evaluating.{values_of};
ghost use Rattle.session_statement.specs.Turned.{EndsWith, giving};

use crate::keeping::{Kept, Start, keep, keep_closed, keep_printed, start_of};
use crate::running::{evaluate, run};
use proc_parts::prog_run::{Meter, Outcome};
use session_shared::{Command, Desk, Session};
use sql_locals::Locals;
use sql_tree::{Expr, Stmt};
use std::alloc::Global;
use val_types::{List, SqlRefusal, Value};

/// Runs a change, a SELECT or a DO, and keeps what it changed by its text.
pub fn run_with_text(
    alloc: Global,
    command: &Command<'_>,
    desk: &mut Desk,
    session: &mut Session,
    text: &[u8],
    statement: &Stmt,
    meter: &mut Meter,
) -> Result<Kept<Outcome>, SqlRefusal>
    requires { is_definition (view statement.now) ≡ false }
    ensures ends { EndsWith result (fuel_at meter.new) desk.old desk.new session.new (giving told_given (statement_run (called command.now) (left_of meter.old) text.now (view statement.now) (shared_of desk.old) session.old)) }
    ensures spends { Spends meter.old meter.new }
{
    let start = start_of(desk, command.number, &session.vars.context);
    let context = &mut session.vars.context;
    match run(
        alloc,
        desk,
        command.number,
        statement,
        context,
        command.draw,
        meter,
    ) {
        Err(refusal) => Err(refusal),
        Ok(outcome) => {
            match keep(
                alloc,
                command,
                desk,
                session,
                text,
                statement,
                start,
                outcome.first,
            ) {
                Err(refusal) => Err(refusal),
                Ok(warned) => Ok(Kept {
                    value: outcome,
                    warned,
                }),
            }
        }
    }
}

/// The same of a statement of a procedure, whose text is the canonical one.
pub fn run_printed(
    alloc: Global,
    command: &Command<'_>,
    desk: &mut Desk,
    session: &mut Session,
    statement: &Stmt,
    meter: &mut Meter,
) -> Result<Kept<Outcome>, SqlRefusal>
    requires { is_definition (view statement.now) ≡ false }
    ensures ends { EndsWith result (fuel_at meter.new) desk.old desk.new session.new (giving told_given (statement_run (called command.now) (left_of meter.old) (spelling (view statement.now)) (view statement.now) (shared_of desk.old) session.old)) }
    ensures spends { Spends meter.old meter.new }
{
    let start = start_of(desk, command.number, &session.vars.context);
    let context = &mut session.vars.context;
    match run(
        alloc,
        desk,
        command.number,
        statement,
        context,
        command.draw,
        meter,
    ) {
        Err(refusal) => Err(refusal),
        Ok(outcome) => {
            match keep_printed(
                alloc,
                command,
                desk,
                session,
                statement,
                start,
                outcome.first,
            ) {
                Err(refusal) => Err(refusal),
                Ok(warned) => Ok(Kept {
                    value: outcome,
                    warned,
                }),
            }
        }
    }
}

/// The values of expressions, and where their evaluation began: what it changed is neither kept nor taken back.
#[derive(Drop)]
pub struct Evaluated {
    pub values: List<Value>,
    pub start: Start,
}

/// Evaluates expressions of a session where locals are in scope. What they changed is neither kept nor taken back.
pub fn evaluate_unkept(
    alloc: Global,
    command: &Command<'_>,
    desk: &mut Desk,
    session: &mut Session,
    expressions: &List<Expr>,
    locals: &Locals,
    meter: &mut Meter,
) -> Result<Evaluated, SqlRefusal>
    ensures gives { Gives (command.now.number) (command.now.draw.now) (left_of meter.old) locals.now (view_trees expressions.now) (values_of result) (fuel_at meter.new) (place_at (shared_of desk.old) (session.old.vars.context)) (place_at (shared_of desk.new) (session.new.vars.context)) }
    ensures session { session.new ≡ with_context (session.new.vars.context) session.old }
    ensures mark { IfOk result (λ evaluated. evaluated.start.mark ≡ changes_of_own (command.now.number) (shared_of desk.old)) }
    ensures before { IfOk result (λ evaluated. evaluated.start.before ≡ numbers_of (session.old.vars.context)) }
    ensures counts { IfOk result (λ evaluated. IsTrue (int_le (pos 0) evaluated.start.before.last_id)) }
    ensures log { desk.new.log ≡ desk.old.log }
    ensures committed { desk.new.committed ≡ desk.old.committed }
    ensures spends { Spends meter.old meter.new }
{
    let start = start_of(desk, command.number, &session.vars.context);
    let context = &mut session.vars.context;
    match evaluate(
        alloc,
        desk,
        command.number,
        expressions,
        locals,
        context,
        command.draw,
        meter,
    ) {
        Err(refusal) => Err(refusal),
        Ok(values) => Ok(Evaluated { values, start }),
    }
}

/// The values of a session's expressions, where no local is in scope.
fn evaluate_kept(
    alloc: Global,
    command: &Command<'_>,
    desk: &mut Desk,
    session: &mut Session,
    text: &[u8],
    statement: &Stmt,
    expressions: &List<Expr>,
    locals: &Locals,
    meter: &mut Meter,
) -> Result<Kept<List<Value>>, SqlRefusal>
    requires is { view statement.now ≡ evaluate (view_trees expressions.now) }
    requires none { locals.now ≡ [] }
    ensures ends { EndsWith result (fuel_at meter.new) desk.old desk.new session.new (expressions_run (called command.now) (left_of meter.old) text.now (view_trees expressions.now) (shared_of desk.old) session.old) }
    ensures spends { Spends meter.old meter.new }
{
    match evaluate_unkept(alloc, command, desk, session, expressions, locals, meter) {
        Err(refusal) => Err(refusal),
        Ok(evaluated) => {
            match keep(
                alloc,
                command,
                desk,
                session,
                text,
                statement,
                evaluated.start,
                None,
            ) {
                Err(refusal) => Err(refusal),
                Ok(warned) => Ok(Kept {
                    value: evaluated.values,
                    warned,
                }),
            }
        }
    }
}

/// The values of a session's expressions, which are those of the DO with a text; what functions changed is kept by it.
pub fn evaluate_with_text(
    alloc: Global,
    command: &Command<'_>,
    desk: &mut Desk,
    session: &mut Session,
    text: &[u8],
    statement: &Stmt,
    expressions: &List<Expr>,
    meter: &mut Meter,
) -> Result<Kept<List<Value>>, SqlRefusal>
    requires { view statement.now ≡ evaluate (view_trees expressions.now) }
    ensures ends { EndsWith result (fuel_at meter.new) desk.old desk.new session.new (expressions_run (called command.now) (left_of meter.old) text.now (view_trees expressions.now) (shared_of desk.old) session.old) }
    ensures spends { Spends meter.old meter.new }
{
    let locals = Locals::new(alloc);
    evaluate_kept(
        alloc,
        command,
        desk,
        session,
        text,
        statement,
        expressions,
        &locals,
        meter,
    )
}

/// The values of a procedure's expressions where locals are in scope; what functions changed is kept as the DO with its
/// locals closed in.
pub fn evaluate_closed(
    alloc: Global,
    command: &Command<'_>,
    desk: &mut Desk,
    session: &mut Session,
    statement: &Stmt,
    expressions: &List<Expr>,
    locals: &Locals,
    meter: &mut Meter,
) -> Result<Kept<List<Value>>, SqlRefusal>
    requires { view statement.now ≡ evaluate (view_trees expressions.now) }
    ensures ends { EndsWith result (fuel_at meter.new) desk.old desk.new session.new (values_run (called command.now) (left_of meter.old) (spelling (closed (view statement.now) locals.now)) (closed (view statement.now) locals.now) locals.now (view_trees expressions.now) (shared_of desk.old) session.old) }
    ensures spends { Spends meter.old meter.new }
{
    match evaluate_unkept(alloc, command, desk, session, expressions, locals, meter) {
        Err(refusal) => Err(refusal),
        Ok(evaluated) => {
            match keep_closed(
                alloc,
                command,
                desk,
                session,
                statement,
                locals,
                evaluated.start,
            ) {
                Err(refusal) => Err(refusal),
                Ok(warned) => Ok(Kept {
                    value: evaluated.values,
                    warned,
                }),
            }
        }
    }
}
