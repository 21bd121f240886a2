//! The session variables that SET assigns.
ghost use Rattle.std.specs.Prelude.{◌≡◌, ◌≤◌, IsTrue, Ok};
ghost use Rattle.session_ctx.specs.declared.variables.SessionVariable.TheVariants.{Timestamp};
ghost use Rattle.session_ctx.specs.Variables.{assigned, counted, fitting, natural, number_for, setting, takes, unless_zero, variable_named};

use crate::session::SessionVars;
use val_types::{Bytes, SqlError, Value};

/// A name is no variable that SET assigns (ER_UNKNOWN_SYSTEM_VARIABLE).
pub const UNKNOWN_VARIABLE: SqlError = 1193;

/// A variable does not take a value (ER_WRONG_VALUE_FOR_VAR).
pub const WRONG_VALUE: SqlError = 1231;

/// A variable of a session, but for the format of its log.
#[derive(Clone, Copy, PartialEq, Eq)]
pub enum SessionVariable {
    Increment,
    Offset,
    Timestamp,
    LastInsertId,
    InsertId,
    RandSeed1,
    RandSeed2,
}

/// The variable of a name.
pub fn variable_named(name: &Bytes) -> Option<SessionVariable>
    ensures { result ≡ variable_named name.now }
{
    let name = name.as_slice();
    if name == b"auto_increment_increment".as_slice() {
        Some(SessionVariable::Increment)
    } else if name == b"auto_increment_offset".as_slice() {
        Some(SessionVariable::Offset)
    } else if name == b"timestamp".as_slice() {
        Some(SessionVariable::Timestamp)
    } else if name == b"last_insert_id".as_slice() {
        Some(SessionVariable::LastInsertId)
    } else if name == b"insert_id".as_slice() {
        Some(SessionVariable::InsertId)
    } else if name == b"rand_seed1".as_slice() {
        Some(SessionVariable::RandSeed1)
    } else if name == b"rand_seed2".as_slice() {
        Some(SessionVariable::RandSeed2)
    } else {
        None
    }
}

/// Whether a variable may be set to a number.
fn takes(variable: SessionVariable, number: i64) -> bool
    ensures { result ≡ takes variable number }
{
    match variable {
        SessionVariable::Increment | SessionVariable::Offset => true,
        SessionVariable::Timestamp => 0 <= number && number <= 2_147_483_647,
        SessionVariable::LastInsertId | SessionVariable::InsertId => 0 <= number,
        SessionVariable::RandSeed1 | SessionVariable::RandSeed2 => {
            0 <= number && number <= 1_073_741_822
        }
    }
}

/// The number that a value sets a variable to.
fn number_for(variable: SessionVariable, value: &Value) -> Result<i64, SqlError>
    ensures { result ≡ number_for variable value.now }
{
    match value {
        Value::Int(number) if takes(variable, *number) => Ok(*number),
        _ => Err(WRONG_VALUE),
    }
}

/// The variable of a name with the number that a value sets it to.
fn setting(name: &Bytes, value: &Value) -> Result<(SessionVariable, i64), SqlError>
    ensures { result ≡ setting name.now value.now }
{
    match variable_named(name) {
        None => Err(UNKNOWN_VARIABLE),
        Some(variable) => match number_for(variable, value) {
            Err(code) => Err(code),
            Ok(number) => Ok((variable, number)),
        },
    }
}

/// Whether SET may assign a value to a variable: 1193 for a name that is none, then 1231 for a value that it does not
/// take. The AUTO_INCREMENT variables take every number; a timestamp goes up to 2147483647, LAST_INSERT_ID and INSERT_ID
/// up to 9223372036854775807, the seeds up to 1073741822, all from 0; NULL and texts are for none.
pub fn variable_fits(name: &Bytes, value: &Value) -> Result<(), SqlError>
    ensures { result ≡ fitting (setting name.now value.now) }
{
    match setting(name, value) {
        Err(code) => Err(code),
        Ok(_) => Ok(()),
    }
}

/// Assigns a value to a variable, or refuses as [`variable_fits`] does and changes nothing. Of the AUTO_INCREMENT variables 0
/// is 1 and a number out of 1 to 65535 is 65535; 0 clears a timestamp and a forced INSERT_ID. A timestamp counts from the
/// next command on.
pub fn set_variable(session: &mut SessionVars, name: &Bytes, value: &Value) -> Result<(), SqlError>
    ensures answer { result ≡ fitting (setting name.now value.now) }
    ensures session { session.new ≡ assigned (setting name.now value.now) session.old }
{
    match setting(name, value) {
        Err(code) => Err(code),
        Ok((variable, number)) => {
            assign(session, variable, number);
            Ok(())
        }
    }
}

/// Assigns a number that a variable takes.
fn assign(session: &mut SessionVars, variable: SessionVariable, number: i64)
    requires { IsTrue (takes variable number) }
    ensures { session.new ≡ assigned (Ok (variable, number)) session.old }
{
    let context = &mut session.context;
    match variable {
        SessionVariable::Timestamp => session.timestamp = timestamp_for(number),
        SessionVariable::Increment => context.set_increment(counted(number)),
        SessionVariable::Offset => context.set_offset(counted(number)),
        SessionVariable::LastInsertId => context.set_last_id(number),
        SessionVariable::InsertId => context.force(number),
        SessionVariable::RandSeed1 => {
            let seeds = context.seeds();
            context.set_seeds(number as u64, seeds.1);
        }
        SessionVariable::RandSeed2 => {
            let seeds = context.seeds();
            context.set_seeds(seeds.0, number as u64);
        }
    }
}

/// What an AUTO_INCREMENT variable becomes.
fn counted(number: i64) -> u16
    ensures value { result ≡ counted number }
    ensures counts { 1 ≤ result }
{
    match u16::try_from(number) {
        Ok(number) => number.max(1),
        Err(_) => u16::MAX,
    }
}

/// The timestamp that a number fixes, None for 0.
fn timestamp_for(number: i64) -> Option<u32>
    requires { IsTrue (takes Timestamp number) }
    ensures { result ≡ unless_zero number (natural number) }
{
    if number == 0 {
        None
    } else {
        Some(number as u32)
    }
}
