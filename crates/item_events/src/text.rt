//! The events of an item by its text.
ghost use Rattle.std.specs.Prelude.{◌≡◌, ◌∷◌, [], IfOk, OnErr};
ghost use Rattle.std.specs.Int.{w64, cast_unsigned};
ghost use Rattle.std.specs.Option.{option_map};
ghost use Rattle.byte_fields.specs.Field.{BeginsWith};
ghost use Rattle.event_codec.specs.Event.{int_var, query, rand, user_var, value_of};
ghost use Rattle.row_events.specs.log_model.Items.{at_time, query_of, step_of, text_of};
ghost use Rattle.row_events.specs.log_model.Spelling.{bodies_of};
ghost use Rattle.row_events.specs.log_model.Written.{CanWriteAll};
ghost use Rattle.row_events.specs.Writing.{Wrote};
ghost use Rattle.item_events.specs.Parts.{if_some, numbers, variables};

use event_codec::{Event, Header, IntVarKind, QueryView, Step, UserVarView, VarValue};
use row_events::log_entries::{Carried, Vars};
use row_events::put;
use val_types::{Bytes, NoMemory, Value};

/// Puts an INTVAR at the end, where there is a number.
fn put_int_var(
    kind: IntVarKind,
    number: Option<i64>,
    h: Header,
    out: &mut Bytes,
) -> Result<Header, NoMemory>
    requires { CanWriteAll h.pos (at_time h.stamp (if_some (int_var kind) (option_map (cast_unsigned w64) number))) }
    ensures ok { IfOk result (λ to. Wrote (at_time h.stamp (if_some (int_var kind) (option_map (cast_unsigned w64) number))) h to out.old out.new) }
    ensures err { OnErr result (BeginsWith out.new out.old) }
{
    let Some(number) = number else {
        return Ok(h);
    };
    let event = Event::IntVar {
        stamp: 0,
        length: 0,
        kind,
        value: number.cast_unsigned(),
    };
    put(&event, h, out)
}

/// Puts a RAND at the end, where there are seeds.
fn put_seeds(seeds: Option<(u64, u64)>, h: Header, out: &mut Bytes) -> Result<Header, NoMemory>
    requires { CanWriteAll h.pos (at_time h.stamp (if_some (λ s. rand s.0 s.1) seeds)) }
    ensures ok { IfOk result (λ to. Wrote (at_time h.stamp (if_some (λ s. rand s.0 s.1) seeds)) h to out.old out.new) }
    ensures err { OnErr result (BeginsWith out.new out.old) }
{
    let Some((first, second)) = seeds else {
        return Ok(h);
    };
    let event = Event::Rand {
        stamp: 0,
        length: 0,
        first: first as u32,
        second: second as u32,
    };
    put(&event, h, out)
}

/// Puts the numbers at the end that a statement needs.
fn put_numbers(carried: &Carried, h: Header, out: &mut Bytes) -> Result<Header, NoMemory>
    requires { CanWriteAll h.pos (at_time h.stamp (numbers carried.now)) }
    ensures ok { IfOk result (λ to. Wrote (at_time h.stamp (numbers carried.now)) h to out.old out.new) }
    ensures err { OnErr result (BeginsWith out.new out.old) }
{
    let here = put_int_var(IntVarKind::LastInsertId, carried.last_id, h, out)?;
    let here = put_int_var(IntVarKind::InsertId, carried.first, here, out)?;
    put_seeds(carried.seeds, here, out)
}

/// A value of a user variable, as an event has it.
fn view(value: &Value) -> VarValue<'_>
    ensures { value_of result ≡ value.now }
{
    match value {
        Value::Null => VarValue::Null,
        Value::Int(number) => VarValue::Int(*number),
        Value::Text(text) => VarValue::Text(text.as_slice()),
    }
}

/// Puts a USER_VAR at the end.
fn put_var(name: &Bytes, value: &Value, h: Header, out: &mut Bytes) -> Result<Header, NoMemory>
    requires { CanWriteAll h.pos (at_time h.stamp (user_var name.now value.now ∷ [])) }
    ensures ok { IfOk result (λ to. Wrote (at_time h.stamp (user_var name.now value.now ∷ [])) h to out.old out.new) }
    ensures err { OnErr result (BeginsWith out.new out.old) }
{
    let event = Event::UserVar(UserVarView {
        stamp: 0,
        length: 0,
        name: name.as_slice(),
        value: view(value),
    });
    put(&event, h, out)
}

/// Puts USER_VARs at the end, in the order of the variables.
fn put_vars(vars: &Vars, h: Header, out: &mut Bytes) -> Result<Header, NoMemory>
    requires { CanWriteAll h.pos (at_time h.stamp (variables vars.now)) }
    ensures ok { IfOk result (λ to. Wrote (at_time h.stamp (variables vars.now)) h to out.old out.new) }
    ensures err { OnErr result (BeginsWith out.new out.old) }
{
    let mut here = h;
    for place in 0..vars.len() {
        match vars.at(place) {
            Some((name, value)) => here = put_var(name, value, here, out)?,
            None => {}
        }
    }
    Ok(here)
}

/// Increment and offset, where they are not 1 and 1.
pub fn step_of(increment: u16, offset: u16) -> Option<Step>
    ensures { result ≡ step_of increment offset }
{
    if increment == 1 && offset == 1 {
        None
    } else {
        Some(Step { increment, offset })
    }
}

/// Puts the QUERY of a text at the end.
fn put_query(
    text: &Bytes,
    carried: &Carried,
    h: Header,
    out: &mut Bytes,
) -> Result<Header, NoMemory>
    requires { CanWriteAll h.pos (at_time h.stamp (query (query_of text.now carried.now) ∷ [])) }
    ensures ok { IfOk result (λ to. Wrote (at_time h.stamp (query (query_of text.now carried.now) ∷ [])) h to out.old out.new) }
    ensures err { OnErr result (BeginsWith out.new out.old) }
{
    let event = Event::Query(QueryView {
        stamp: 0,
        length: 0,
        thread: carried.connection,
        step: step_of(carried.inc, carried.off),
        text: text.as_slice(),
    });
    put(&event, h, out)
}

/// Puts the events of an item by its text at the end: what the statement needs, and its QUERY.
pub fn put_text(
    text: &Bytes,
    carried: &Carried,
    h: Header,
    out: &mut Bytes,
) -> Result<Header, NoMemory>
    requires { CanWriteAll h.pos (at_time h.stamp (bodies_of (text_of text.now carried.now))) }
    ensures ok { IfOk result (λ to. Wrote (at_time h.stamp (bodies_of (text_of text.now carried.now))) h to out.old out.new) }
    ensures err { OnErr result (BeginsWith out.new out.old) }
{
    let here = put_numbers(carried, h, out)?;
    let here = put_vars(&carried.vars, here, out)?;
    put_query(text, carried, here, out)
}
