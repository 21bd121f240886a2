//! The assignments of SET.
ghost use Rattle.std.specs.Prelude.{◌≡◌, map, zip, IfOk, OnOk, Some, None};
ghost use Rattle.answer_making.specs.session_model.Commands.{all_assigned, assign, assignment_refusal, first_refused, is_open, variable_refusal, with_setting};
ghost use Rattle.session_set.specs.Assigning.{misfit_of, target_of, value_of};

use crate::formats::{format_for, format_refusal, is_format};
use answer_making::session_ctx::{set_variable, variable_fits};
use session_statement::session_shared::Session;
use sql_tree::{Assignment, Expr, Target};
use std::alloc::Global;
use val_types::{Bytes, Duplicate, List, NoMemory, SqlError, Value};

/// What refuses a value for a session variable, in an open transaction or outside of one.
fn misfit(is_open: bool, name: &Bytes, value: &Value) -> Option<SqlError>
    ensures { result ≡ variable_refusal is_open name.now value.now }
{
    if is_format(name) {
        return format_refusal(is_open, value);
    }
    match variable_fits(name, value) {
        Ok(()) => None,
        Err(code) => Some(code),
    }
}

/// What refuses an assignment: a user variable takes every value.
fn refusal(is_open: bool, target: &Target, value: &Value) -> Option<SqlError>
    ensures { result ≡ assignment_refusal is_open (target.now, value.now) }
{
    match target {
        Target::User(_) => None,
        Target::Plain(name) | Target::System(name) => misfit(is_open, name, value),
        Target::New(_) => Some(1193),
    }
}

/// The refusal of the first assignment that is refused.
#[tactic(auto, using(crate::proofs::Zipping::zipping))]
fn first_refused(is_open: bool, targets: &[Target], values: &[Value]) -> Option<SqlError>
    ensures { result ≡ first_refused is_open (zip targets.now values.now) }
{
    let (mut targets, mut values) = (targets, values);
    while let [target, targets_left @ ..] = targets {
        let [value, values_left @ ..] = values else {
            return None;
        };
        if let Some(code) = refusal(is_open, target, value) {
            return Some(code);
        }
        targets = targets_left;
        values = values_left;
    }
    None
}

/// What refuses values for the targets of a session's SET.
pub(crate) fn misfit_of(
    session: &Session,
    targets: &List<Target>,
    values: &List<Value>,
) -> Option<SqlError>
    ensures { result ≡ misfit_of (is_open session.now) targets.now values.now }
{
    let is_open = session.transaction.is_some();
    first_refused(is_open, targets.as_slice(), values.as_slice())
}

/// A session variable set; nothing is where the value is refused.
fn set_session(session: &mut Session, name: &Bytes, value: &Value)
    ensures { session.new ≡ with_setting name.now value.now session.old }
{
    if is_format(name) {
        match format_for(value) {
            Ok(format) => session.format = format,
            Err(_) => {}
        }
    } else {
        let _ = set_variable(&mut session.vars, name, value);
    }
}

/// An assignment that nothing refuses.
fn assign(
    alloc: Global,
    session: &mut Session,
    target: &Target,
    value: &Value,
) -> Result<(), NoMemory>
    ensures { OnOk result (session.new ≡ assign session.old (target.now, value.now)) }
{
    match target {
        Target::User(name) => {
            let value = value.duplicate(alloc)?;
            session.vars.context.set_user_variable(name, value)
        }
        Target::Plain(name) | Target::System(name) => {
            set_session(session, name, value);
            Ok(())
        }
        Target::New(_) => Ok(()),
    }
}

/// Assignments from left to right.
#[tactic(auto, using(crate::proofs::Zipping::zipping))]
pub(crate) fn assign_all(
    alloc: Global,
    session: &mut Session,
    targets: &[Target],
    values: &[Value],
) -> Result<(), NoMemory>
    ensures { OnOk result (session.new ≡ all_assigned session.old (zip targets.now values.now)) }
{
    let (mut targets, mut values) = (targets, values);
    while let [target, targets_left @ ..] = targets {
        let [value, values_left @ ..] = values else {
            return Ok(());
        };
        assign(alloc, session, target, value)?;
        targets = targets_left;
        values = values_left;
    }
    Ok(())
}

/// The targets of assignments, and their expressions.
pub(crate) fn taken_apart(
    alloc: Global,
    assignments: List<Assignment>,
) -> Result<(List<Target>, List<Expr>), NoMemory>
    ensures targets { IfOk result (λ parts. parts.0 ≡ map target_of assignments) }
    ensures values { IfOk result (λ parts. parts.1 ≡ map value_of assignments) }
{
    let mut assignments = assignments;
    let mut targets = Vec::new(alloc);
    let mut values = Vec::new(alloc);
    while let Some(Assignment { target, value }) = assignments.pop() {
        targets.push(target)?;
        values.push(value)?;
    }
    targets.reverse();
    values.reverse();
    Ok((List::from_vec(targets), List::from_vec(values)))
}
