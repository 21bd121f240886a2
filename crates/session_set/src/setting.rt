//! SET.
ghost use Rattle.std.specs.Prelude.{◌≡◌, zip, IfOk, OnOk};
ghost use Rattle.sql_print.specs.StatementSpelling.{spelling};
ghost use Rattle.sql_tree.specs.Statement.{evaluate, set_all};
ghost use Rattle.sql_tree.specs.StatementView.{view, view_assignments};
ghost use Rattle.sql_tree.specs.View.{view_trees};
ghost use Rattle.answer_making.specs.catalog_rules.Checks.{session_scope, statement_refusal};
ghost use Rattle.answer_making.specs.session_model.Answers.{ok_warned};
ghost use Rattle.answer_making.specs.session_model.Running.{fitted_run, full};
ghost use Rattle.answer_making.specs.session_model.Commands.{all_assigned, is_open, is_too_long, set_turn};
ghost use Rattle.session_set.specs.Assigning.{misfit_of, set_from, set_parts};
ghost use Rattle.session_statement.specs.Calls.{called};
ghost use Rattle.session_statement.specs.session_shared.Desk.{shared_of};
ghost use Rattle.session_statement.specs.Turned.{IsTurn};

use crate::assigning::{assign_all, taken_apart};
use crate::evaluating::fitting_values;
use answer_making::prog_work::Meter;
use answer_making::{NodeFault, ok, refused, with_warning};
use answer_text::Answer;
use session_statement::session_shared::{Command, Desk, MOST_TEXT, Session, lock_refusal};
use sql_locals::Locals;
use sql_print::print;
use sql_tree::{Assignment, Expr, Stmt, Target};
use std::alloc::Global;
use val_types::{Bytes, List, NoMemory, SqlError, SqlRefusal, TEXT_TOO_LONG, Value};

/// Assigns values, which nothing refuses. The answer shows whether their evaluation is warned.
fn assign_values(
    alloc: Global,
    session: &mut Session,
    targets: &List<Target>,
    values: &List<Value>,
    warned: bool,
) -> Result<Answer, NoMemory>
    ensures answer { IfOk result (λ answer. answer ≡ ok_warned warned 0) }
    ensures session { OnOk result (session.new ≡ all_assigned session.old (zip targets.now values.now)) }
{
    assign_all(alloc, session, targets.as_slice(), values.as_slice())?;
    Ok(with_warning(ok(alloc, 0), warned))
}

/// Sets targets to the values of expressions, which nothing refuses before.
#[tactic(auto, using(crate::proofs::Ending::setting))]
fn set_values(
    alloc: Global,
    command: &Command<'_>,
    desk: &mut Desk,
    session: &mut Session,
    text: &Bytes,
    targets: &List<Target>,
    statement: &Stmt,
    expressions: &List<Expr>,
) -> Result<Answer, NodeFault>
    requires { view statement.now ≡ evaluate (view_trees expressions.now) }
    ensures { IfOk result (λ answer. IsTurn desk.old desk.new session.new answer (set_from targets.now (fitted_run (called command.now) full text.now (view_trees expressions.now) (misfit_of (is_open session.old) targets.now) (shared_of desk.old) session.old))) }
{
    let locals = Locals::new(alloc);
    let mut meter = Meter::full();
    match fitting_values(
        alloc,
        command,
        desk,
        session,
        text.as_slice(),
        targets,
        statement,
        expressions,
        &locals,
        &mut meter,
    ) {
        Err(SqlRefusal::NoMemory) => Err(NodeFault::NoMemory),
        Err(SqlRefusal::Sql(code)) => Ok(refused(alloc, code)),
        Ok(kept) => Ok(assign_values(alloc, session, targets, &kept.value, kept.warned)?),
    }
}

/// SET, taken apart: 1153 for the text of the DO over its expressions, the catalog's checks, the lock, the values of
/// all expressions, then all assignments.
fn set_taken(
    alloc: Global,
    command: &Command<'_>,
    desk: &mut Desk,
    session: &mut Session,
    refusal: Option<SqlError>,
    targets: &List<Target>,
    expressions: List<Expr>,
) -> Result<Answer, NodeFault>
    ensures { IfOk result (λ answer. IsTurn desk.old desk.new session.new answer (set_parts (called command.now) refusal targets.now (view_trees expressions) (shared_of desk.old) session.old)) }
{
    let statement = Stmt::Do(expressions);
    let text = print(alloc, &statement)?;
    if text.len() > MOST_TEXT {
        return Ok(refused(alloc, TEXT_TOO_LONG));
    }
    if let Some(code) = refusal {
        return Ok(refused(alloc, code));
    }
    if let Some(answer) = lock_refusal(alloc, desk, command.number, &statement) {
        return Ok(answer);
    }
    match &statement {
        Stmt::Do(expressions) => set_values(
            alloc,
            command,
            desk,
            session,
            &text,
            targets,
            &statement,
            expressions,
        ),
        _ => unreachable!(),
    }
}

/// SET. The refusal is that of the catalog's checks. Given is the answer, where desk and session stand as the machine's SET
/// leaves them, or memory is short.
pub fn set(
    alloc: Global,
    command: &Command<'_>,
    desk: &mut Desk,
    session: &mut Session,
    refusal: Option<SqlError>,
    assignments: List<Assignment>,
) -> Result<Answer, NodeFault>
    requires { refusal ≡ statement_refusal ((shared_of desk.old).base.catalog) session_scope (set_all (view_assignments assignments)) }
    ensures { IfOk result (λ answer. IsTurn desk.old desk.new session.new answer (set_turn (called command.now) (view_assignments assignments) (shared_of desk.old) session.old)) }
{
    let (targets, expressions) = taken_apart(alloc, assignments)?;
    set_taken(
        alloc,
        command,
        desk,
        session,
        refusal,
        &targets,
        expressions,
    )
}
