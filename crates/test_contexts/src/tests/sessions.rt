//! Contexts of sessions: new ones, assignments, commands, and those of items.

ghost use Rattle.std.specs.Prelude.{IfOk};
ghost use Rattle.session_ctx.specs.Carrying.{IsCarriedInBounds};

use log_entries::{Carried, Vars};
use port_traits::{Draw, Identity};
use session_ctx::{Ctx, SessionVars, from_carried, set_variable};
use std::alloc::Global;
use std::test::Fail;
use val_types::{Bytes, List, NoMemory, SqlError, Value};

const DRAW: Draw = Draw {
    now: 1_700_000_000,
    sys: 1_700_000_005,
    seed1: 7,
    seed2: 1_073_741_824,
    uuid: [0; 16],
};

fn name(alloc: Global, bytes: &[u8]) -> Result<Bytes, NoMemory> {
    List::from_slice(alloc, bytes)
}

fn root(alloc: Global) -> Result<Identity, NoMemory> {
    Ok(Identity {
        server_id: 3,
        user: name(alloc, b"root@localhost")?,
    })
}

fn session(alloc: Global) -> Result<SessionVars, NoMemory> {
    SessionVars::new(alloc, &root(alloc)?, 9, &DRAW)
}

/// What a new session has: its moment, its number, its seeds and ROW_COUNT().
fn new_session(alloc: Global) -> Result<(u32, u32, (u64, u64), i64), NoMemory> {
    let session = session(alloc)?;
    let context = &session.context;
    Ok((
        context.stamp(),
        context.connection(),
        context.seeds(),
        context.row_count(),
    ))
}

#[test]
fn a_new_session(rt: HostRuntime) -> Result<(), Fail> {
    assert!(rt; new_session(rt.alloc())? == (1_700_000_000, 9, (7, 1), -1));
    Ok(())
}

/// The error of an assignment, 0 where there is none.
fn set(session: &mut SessionVars, variable: &Bytes, number: i64) -> SqlError {
    match set_variable(session, variable, &Value::Int(number)) {
        Ok(()) => 0,
        Err(code) => code,
    }
}

/// The moment of the next command.
fn next_stamp(session: &mut SessionVars) -> u32 {
    session.begin_command(&DRAW);
    session.context.stamp()
}

/// The moments of commands behind assignments of 5 and of 0 to the timestamp.
fn stamps(alloc: Global) -> Result<(u32, u32, u32), NoMemory> {
    let timestamp = name(alloc, b"timestamp")?;
    let mut session = session(alloc)?;
    let _ = set(&mut session, &timestamp, 5);
    let first = next_stamp(&mut session);
    let second = next_stamp(&mut session);
    let _ = set(&mut session, &timestamp, 0);
    Ok((first, second, next_stamp(&mut session)))
}

#[test]
fn a_timestamp_lasts(rt: HostRuntime) -> Result<(), Fail> {
    assert!(rt; stamps(rt.alloc())? == (5, 5, 1_700_000_000));
    Ok(())
}

/// What assignments to a variable of a new session answer, and its increment, offset and seeds then.
fn assigned(
    alloc: Global,
    variable: &[u8],
    number: i64,
) -> Result<(SqlError, u16, u16, (u64, u64)), NoMemory> {
    let variable = name(alloc, variable)?;
    let mut session = session(alloc)?;
    let code = set(&mut session, &variable, number);
    let context = &session.context;
    Ok((code, context.increment(), context.offset(), context.seeds()))
}

#[test]
fn numbers_are_cut_or_refused(rt: HostRuntime) -> Result<(), Fail> {
    let alloc = rt.alloc();
    assert!(rt; assigned(alloc, b"auto_increment_increment", 70_000)? == (0, 65535, 1, (7, 1)));
    assert!(rt; assigned(alloc, b"auto_increment_offset", 10)? == (0, 1, 10, (7, 1)));
    assert!(rt; assigned(alloc, b"rand_seed2", 1_073_741_823)? == (1231, 1, 1, (7, 1)));
    assert!(rt; assigned(alloc, b"rand_seed2", 1_073_741_822)? == (0, 1, 1, (7, 1_073_741_822)));
    assert!(rt; assigned(alloc, b"sql_mode", 0)? == (1193, 1, 1, (7, 1)));
    Ok(())
}

/// What an item carries that reaches a user variable, which was set to 1 and then to 2.
fn one_variable(alloc: Global, variable: &Bytes) -> Result<Carried, NoMemory>
    ensures { IfOk result (λ carried. IsCarriedInBounds carried) }
{
    let mut vars = Vars::new(alloc);
    vars.set(variable, Value::Int(1))?;
    vars.set(variable, Value::Int(2))?;
    Ok(Carried {
        stamp: 8,
        connection: 4,
        inc: 10,
        off: 3,
        last_id: Some(6),
        first: None,
        seeds: None,
        vars,
    })
}

fn number_of(context: &Ctx, name: &Bytes) -> Option<i64> {
    match context.user_variable(name) {
        Some(Value::Int(number)) => Some(*number),
        _ => None,
    }
}

/// What an item's context has: its moment, LAST_INSERT_ID(), its seeds and the user variable.
fn context_of_item(alloc: Global) -> Result<(u32, i64, (u64, u64), Option<i64>), NoMemory> {
    let x = name(alloc, b"x")?;
    let identity = root(alloc)?;
    let carried = one_variable(alloc, &x)?;
    let context = from_carried(alloc, &carried, &identity, &DRAW)?;
    Ok((
        context.stamp(),
        context.last_id(),
        context.seeds(),
        number_of(&context, &x),
    ))
}

#[test]
fn the_context_of_an_item(rt: HostRuntime) -> Result<(), Fail> {
    assert!(rt; context_of_item(rt.alloc())? == (8, 6, (7, 1), Some(2)));
    Ok(())
}
