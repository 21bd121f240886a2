//! A CALL of a session, with the values of its arguments.
ghost use Rattle.std.specs.Prelude.{◌≡◌, IfOk};
ghost use Rattle.proc_run.specs.log_entries.declared.entries.Item.{Item};
ghost use Rattle.proc_run.specs.proc_model.Procedures.{called as carried_out};
ghost use Rattle.proc_run.specs.proc_model.Talk.{brought};
ghost use Rattle.proc_run.specs.proc_parts.Calls.{left_of};
ghost use Rattle.answer_making.specs.session_model.Calling.{Reached, came_to, steps_of};
ghost use Rattle.session_statement.specs.Calls.{called};
ghost use Rattle.session_call.specs.Stepping.{Stood, call_by};
ghost use Rattle.session_statement.specs.session_shared.declared.desk.Desk.{Desk as LeftDesk};
ghost use Rattle.session_statement.specs.Turned.{IsTurn};

use crate::steps::CallSteps;
use answer_making::prog_work::{Meter, Work};
use answer_making::session_model::Format;
use answer_making::{NodeFault, with_warning};
use answer_text::Answer;
use proc_run::CallRefusal;
use proc_run::session_ctx::SessionVars;
use session_statement::Kept;
use session_statement::session_shared::{Command, Desk, Session};
use std::alloc::Global;
use std::mem;
use val_types::{Bytes, Duplicate, List, NoMemory, Value};

/// What stands in the place of a session while its CALL is carried out.
fn vacant(alloc: Global, command: &Command<'_>) -> Result<Session, NoMemory> {
    Ok(Session {
        vars: SessionVars::new(
            alloc,
            command.identity,
            u32::from(command.number),
            command.draw,
        )?,
        format: Format::Mixed,
        transaction: None,
    })
}

/// Takes desk and session of a command for the steps of its CALL; what is vacant stands in their places meanwhile. The CALL is
/// warned from the beginning where the evaluation of its arguments is.
fn begin(
    alloc: Global,
    command: &Command<'_>,
    desk: &mut Desk,
    session: &mut Session,
    warned: bool,
) -> Result<CallSteps, NoMemory>
    ensures command { IfOk result (λ steps. call_by steps ≡ called command.now) }
    ensures desk { IfOk result (λ steps. steps.desk ≡ desk.old) }
    ensures session { IfOk result (λ steps. steps.session ≡ session.old) }
    ensures warned { IfOk result (λ steps. steps.warned ≡ warned) }
{
    let identity = command.identity.duplicate(alloc)?;
    let aside = vacant(alloc, command)?;
    let nothing = Desk::found(alloc, Work::new(alloc), desk.place());
    Ok(CallSteps {
        alloc,
        identity,
        draw: *command.draw,
        number: command.number,
        desk: mem::replace(desk, nothing),
        session: mem::replace(session, aside),
        warned,
    })
}

/// Gives desk and session back, and whether the CALL is warned.
fn give_back(steps: CallSteps, desk: &mut Desk, session: &mut Session) -> bool
    ensures desk { desk.new ≡ steps.desk }
    ensures session { session.new ≡ steps.session }
    ensures warned { result ≡ steps.warned }
{
    *desk = steps.desk;
    *session = steps.session;
    steps.warned
}

/// Carries out a procedure with the values of its arguments, behind any turn that led here. The answer shows whether an item of
/// the CALL is warned, that of its arguments too. The runner has no device, and none failed, so that a CALL without an answer
/// wants memory.
pub fn call_steps(
    alloc: Global,
    command: &Command<'_>,
    desk: &mut Desk,
    session: &mut Session,
    name: &Bytes,
    arguments: Kept<List<Value>>,
    meter: &mut Meter,
) -> Result<Answer, NodeFault>
    ensures { (old : LeftDesk) → (at : Reached Item) → Stood old desk.old session.old (arguments.warned) at → IfOk result (λ answer. IsTurn old desk.new session.new answer (came_to (brought (steps_of (called command.now)) (carried_out at.shared.base.catalog (left_of meter.old) name.now (arguments.value)) at))) }
{
    let catalog = desk.work.catalog().copy()?;
    let mut steps = begin(alloc, command, desk, session, arguments.warned)?;
    let answer = proc_run::call(alloc, &mut steps, &catalog, name, arguments.value, meter);
    let warned = give_back(steps, desk, session);
    match answer {
        Ok(answer) => Ok(with_warning(answer, warned)),
        Err(CallRefusal::Device) => unreachable!(),
        Err(CallRefusal::NoMemory) => Err(NodeFault::NoMemory),
    }
}
