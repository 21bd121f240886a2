//! The body of a QUERY: a statement's text and the part of its session that it needs.
ghost use Rattle.std.specs.Prelude.{◌≡◌, ◌≤◌, ◌+◌, ◌++◌, length, OnOk, OnErr};
ghost use Rattle.byte_fields.specs.Field.{BeginsWith};
ghost use Rattle.event_codec.specs.Event.{query_of};
ghost use Rattle.event_codec.specs.Bodies.{only, step_at, status_of, query_body};
ghost use Rattle.event_codec.specs.Reading.{event_seen, headed};
ghost use Rattle.event_codec.specs.Writing.{step_bytes, query_bytes};

use crate::event::{Event, QueryView, Step};
use crate::fault::Fault;
use crate::parts::{four, one, some, two};
use crate::schema::{SCHEMA, is_schema};
use byte_fields::{bytes_u16, bytes_u32};
use val_types::{Bytes, NoMemory};

/// The code of the status variable with a session's increment and offset, the one that this log knows.
const STEP_CODE: u8 = 3;

/// A step behind which nothing stands.
fn alone(step: Step, rest: &[u8]) -> Result<Option<Step>, Fault>
    ensures { result ≡ only step rest.now }
{
    match rest {
        [] => Ok(Some(step)),
        [STEP_CODE, ..] => Err(Fault::Damaged),
        [_, ..] => Err(Fault::Foreign),
    }
}

/// The increment and the offset behind their code.
#[tactic(auto, unfolding(crate::specs::Bodies::step_at))]
fn read_step(values: &[u8]) -> Result<Option<Step>, Fault>
    ensures { result ≡ step_at values.now }
{
    let (increment, rest) = two(values)?;
    let (offset, rest) = two(rest)?;
    if increment == 0 || offset == 0 {
        return Err(Fault::Damaged);
    }
    alone(Step { increment, offset }, rest)
}

/// The status variables.
fn read_status(status: &[u8]) -> Result<Option<Step>, Fault>
    ensures { result ≡ status_of status.now }
{
    match status {
        [] => Ok(None),
        [STEP_CODE, values @ ..] => read_step(values),
        [_, ..] => Err(Fault::Foreign),
    }
}

/// The QUERY with this body.
#[tactic(auto, unfolding(crate::specs::Bodies::query_body))]
pub fn read_query(stamp: u32, length: u64, body: &[u8]) -> Result<Event<'_>, Fault>
    ensures { event_seen result ≡ headed stamp length (query_body body.now) }
{
    let (thread, rest) = four(body)?;
    let (_, rest) = four(rest)?;
    let (schema_length, rest) = one(rest)?;
    let (error, rest) = two(rest)?;
    let (status_length, rest) = two(rest)?;
    let (status, rest) = some(u64::from(status_length), rest)?;
    let step = read_status(status)?;
    let (schema, rest) = some(u64::from(schema_length), rest)?;
    let (zero, text) = one(rest)?;
    if zero != 0 {
        return Err(Fault::Damaged);
    }
    if error != 0 || !is_schema(schema) {
        return Err(Fault::Foreign);
    }
    Ok(Event::Query(QueryView {
        stamp,
        length,
        thread,
        step,
        text,
    }))
}

/// How many bytes the status variables take.
#[tactic(auto, unfolding(byte_fields::specs::Field::number_bytes))]
fn step_size(step: Option<Step>) -> u16
    ensures exact { result ≡ length (step_bytes step) }
    ensures few { result ≤ 5 }
{
    match step {
        None => 0,
        Some(_) => 5,
    }
}

/// Puts the status variables at the end.
#[tactic(auto, using(byte_fields::proofs::FieldLaws::begins_more))]
fn put_step(step: Option<Step>, out: &mut Bytes) -> Result<(), NoMemory>
    ensures ok { OnOk result (out.new ≡ out.old ++ step_bytes step) }
    ensures err { OnErr result (BeginsWith out.new out.old) }
{
    let Some(Step { increment, offset }) = step else {
        return Ok(());
    };
    out.push(STEP_CODE)?;
    out.extend_from_slice(&bytes_u16(u64::from(increment)))?;
    out.extend_from_slice(&bytes_u16(u64::from(offset)))
}

/// How many bytes a QUERY takes.
#[tactic(auto, unfolding(crate::specs::Writing::query_bytes, byte_fields::specs::Field::number_bytes))]
pub fn query_size(v: &QueryView) -> u64
    requires { 19 + length (query_bytes (query_of v.now)) ≤ 1200000000 }
    ensures { result ≡ 19 + length (query_bytes (query_of v.now)) }
{
    35 + u64::from(step_size(v.step)) + v.text.len() as u64
}

/// Puts the body of a QUERY at the end.
#[tactic(auto, using(byte_fields::proofs::FieldLaws::begins_more), unfolding(crate::specs::Writing::query_bytes))]
pub fn put_query(v: &QueryView, out: &mut Bytes) -> Result<(), NoMemory>
    ensures ok { OnOk result (out.new ≡ out.old ++ query_bytes (query_of v.now)) }
    ensures err { OnErr result (BeginsWith out.new out.old) }
{
    out.extend_from_slice(&bytes_u32(u64::from(v.thread)))?;
    out.extend_from_slice(&bytes_u32(0))?;
    out.push(SCHEMA.len() as u8)?;
    out.extend_from_slice(&bytes_u16(0))?;
    out.extend_from_slice(&bytes_u16(u64::from(step_size(v.step))))?;
    put_step(v.step, out)?;
    out.extend_from_slice(&SCHEMA)?;
    out.push(0)?;
    out.extend_from_slice(v.text)
}
