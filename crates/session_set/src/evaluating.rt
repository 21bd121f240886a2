//! The values of SET's expressions.
ghost use Rattle.std.specs.Prelude.{◌≡◌, []};
ghost use Rattle.sql_tree.specs.Statement.{evaluate};
ghost use Rattle.sql_tree.specs.StatementView.{view};
ghost use Rattle.sql_tree.specs.View.{view_trees};
ghost use Rattle.session_statement.specs.proc_parts.Calls.{left_of};
ghost use Rattle.answer_making.specs.session_model.Running.{fitted_run};
ghost use Rattle.answer_making.specs.session_model.Commands.{is_open};
ghost use Rattle.session_set.specs.Assigning.{misfit_of};
ghost use Rattle.session_statement.specs.Calls.{called};
ghost use Rattle.session_statement.specs.session_shared.Desk.{shared_of};
ghost use Rattle.session_statement.specs.Ran.{fuel_at};
ghost use Rattle.session_statement.specs.Turned.{EndsWith};

use crate::assigning::misfit_of;
use answer_making::prog_work::Meter;
use session_statement::session_shared::{Command, Desk, Session};
use session_statement::{Kept, evaluate_unkept, settle};
use sql_locals::Locals;
use sql_tree::{Expr, Stmt, Target};
use std::alloc::Global;
use val_types::{List, SqlRefusal, Value};

/// The values of SET's expressions, where no local is in scope. Where an assignment of them is refused, what their evaluation
/// changed is taken back; else it is kept.
pub(crate) fn fitting_values(
    alloc: Global,
    command: &Command<'_>,
    desk: &mut Desk,
    session: &mut Session,
    text: &[u8],
    targets: &List<Target>,
    statement: &Stmt,
    expressions: &List<Expr>,
    locals: &Locals,
    meter: &mut Meter,
) -> Result<Kept<List<Value>>, SqlRefusal>
    requires is { view statement.now ≡ evaluate (view_trees expressions.now) }
    requires none { locals.now ≡ [] }
    ensures { EndsWith result (fuel_at meter.new) desk.old desk.new session.new (fitted_run (called command.now) (left_of meter.old) text.now (view_trees expressions.now) (misfit_of (is_open session.old) targets.now) (shared_of desk.old) session.old) }
{
    match evaluate_unkept(alloc, command, desk, session, expressions, locals, meter) {
        Err(refusal) => Err(refusal),
        Ok(evaluated) => {
            let misfit = misfit_of(session, targets, &evaluated.values);
            match settle(
                alloc,
                command,
                desk,
                session,
                text,
                statement,
                evaluated.start,
                misfit,
            ) {
                Err(refusal) => Err(refusal),
                Ok(warned) => Ok(Kept {
                    value: evaluated.values,
                    warned,
                }),
            }
        }
    }
}
