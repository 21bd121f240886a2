//! What an event says, a function a type.
ghost use Rattle.std.specs.Prelude.{◌≡◌, ◌++◌, codes, IfOk, OnOk};
ghost use Rattle.std.specs.Fmt.{decimal};
ghost use Rattle.event_codec.specs.Event.{body_of, query_of, stamp_of, value_of};
ghost use Rattle.val_types.specs.Text.{text_of};
ghost use Rattle.log_print.specs.Escapes.{before_zero, escapes};
ghost use Rattle.log_print.specs.Lines.{int_var_name, map_seen, query_words, step_words, words_of};

use crate::putting::{put_escapes, put_log_name, put_number, put_version};
use crate::rows::put_rows;
use event_codec::{Event, IntVarKind, MapView, QueryView, Step, UserVarView, VarValue};
use std::alloc::Global;
use val_types::{Bytes, NoMemory, Value, value_text};

/// Puts increment and offset, where they are not 1 and 1.
fn put_step(alloc: Global, out: &mut Bytes, step: Option<Step>) -> Result<(), NoMemory>
    ensures { OnOk result (out.new ≡ out.old ++ step_words step) }
{
    match step {
        None => Ok(()),
        Some(step) => {
            put_number(alloc, out, b" inc=", u64::from(step.increment))?;
            put_number(alloc, out, b" off=", u64::from(step.offset))
        }
    }
}

/// Puts the thread that ran a statement, and its timestamp.
fn put_thread(alloc: Global, out: &mut Bytes, thread: u32, stamp: u32) -> Result<(), NoMemory>
    ensures { OnOk result (out.new ≡ out.old ++ codes "QUERY thread=" ++ decimal thread ++ codes " time=" ++ decimal stamp) }
{
    put_number(alloc, out, b"QUERY thread=", u64::from(thread))?;
    put_number(alloc, out, b" time=", u64::from(stamp))
}

/// Puts thread, timestamp, increment and offset, and the text of a statement.
fn put_query(alloc: Global, out: &mut Bytes, query: &QueryView) -> Result<(), NoMemory>
    ensures { OnOk result (out.new ≡ out.old ++ query_words query.now.stamp (query_of query.now)) }
{
    put_thread(alloc, out, query.thread, query.stamp)?;
    put_step(alloc, out, query.step)?;
    out.push(b' ')?;
    put_escapes(alloc, out, query.text)
}

/// Which number of the next statement an INTVAR gives.
fn name(kind: IntVarKind) -> &'static [u8]
    ensures { result.now ≡ int_var_name kind }
{
    match kind {
        IntVarKind::LastInsertId => b"INTVAR LAST_INSERT_ID ",
        IntVarKind::InsertId => b"INTVAR INSERT_ID ",
    }
}

/// Puts the seeds of RAND().
fn put_rand(alloc: Global, out: &mut Bytes, first: u32, second: u32) -> Result<(), NoMemory>
    ensures { OnOk result (out.new ≡ out.old ++ codes "RAND " ++ decimal first ++ codes " " ++ decimal second) }
{
    put_number(alloc, out, b"RAND ", u64::from(first))?;
    put_number(alloc, out, b" ", u64::from(second))
}

/// A value apart from the bytes that it was read from.
fn kept(alloc: Global, value: &VarValue) -> Result<Value, NoMemory>
    ensures { IfOk result (λ v. v ≡ value_of value.now) }
{
    match value {
        VarValue::Null => Ok(Value::Null),
        VarValue::Int(number) => Ok(Value::Int(*number)),
        VarValue::Text(text) => Ok(Value::Text(Bytes::from_slice(alloc, text)?)),
    }
}

/// Puts the name and the value of a user variable.
fn put_user_var(alloc: Global, out: &mut Bytes, variable: &UserVarView) -> Result<(), NoMemory>
    ensures { OnOk result (out.new ≡ out.old ++ codes "USER_VAR " ++ escapes variable.now.name.now ++ codes " " ++ text_of (value_of variable.now.value)) }
{
    out.extend_from_slice(b"USER_VAR ")?;
    put_escapes(alloc, out, variable.name)?;
    out.push(b' ')?;
    let value = kept(alloc, &variable.value)?;
    out.append(value_text(alloc, &value)?)
}

/// Puts the id and the name of a table's map.
fn put_map(alloc: Global, out: &mut Bytes, map: &MapView) -> Result<(), NoMemory>
    ensures { OnOk result (out.new ≡ out.old ++ codes "TABLE_MAP " ++ decimal map.now.id ++ codes " " ++ escapes map.now.name.now) }
{
    put_number(alloc, out, b"TABLE_MAP ", map.id)?;
    out.push(b' ')?;
    put_escapes(alloc, out, map.name)
}

/// Puts the version of the server whose log begins, up to its first 0.
fn put_start(alloc: Global, out: &mut Bytes, version: &[u8]) -> Result<(), NoMemory>
    ensures { OnOk result (out.new ≡ out.old ++ codes "FORMAT_DESCRIPTION " ++ escapes (before_zero version.now)) }
{
    out.extend_from_slice(b"FORMAT_DESCRIPTION ")?;
    put_version(alloc, out, version)
}

/// Puts what an event says.
pub(crate) fn put_event(
    alloc: Global,
    out: &mut Bytes,
    event: &Event,
    map: Option<&MapView>,
) -> Result<(), NoMemory>
    ensures { OnOk result (out.new ≡ out.old ++ words_of (map_seen map.entry) (stamp_of event.now) (body_of event.now)) }
{
    match event {
        Event::Query(query) => put_query(alloc, out, query),
        Event::Rotate { next, .. } => {
            out.extend_from_slice(b"ROTATE ")?;
            put_log_name(out, *next)
        }
        Event::IntVar { kind, value, .. } => put_number(alloc, out, name(*kind), *value),
        Event::Rand { first, second, .. } => put_rand(alloc, out, *first, *second),
        Event::UserVar(variable) => put_user_var(alloc, out, variable),
        Event::FormatDescription { version, .. } => put_start(alloc, out, version),
        Event::Xid { number, .. } => put_number(alloc, out, b"XID ", *number),
        Event::TableMap(table) => put_map(alloc, out, table),
        Event::Rows(rows) => put_rows(alloc, out, map, rows),
    }
}
