//! The bodies of INTVAR, RAND and XID, which are numbers.
ghost use Rattle.std.specs.Prelude.{◌≡◌, ◌∷◌, ◌++◌, OnOk, OnErr};
ghost use Rattle.byte_fields.specs.Field.{BeginsWith, number_bytes};
ghost use Rattle.event_codec.specs.Bodies.{int_var_kind, int_var_body, rand_body, xid_body};
ghost use Rattle.event_codec.specs.Reading.{event_seen, headed};
ghost use Rattle.event_codec.specs.Writing.{int_var_code};

use crate::event::{Event, IntVarKind};
use crate::fault::Fault;
use crate::parts::{eight, one};
use byte_fields::bytes_u64;
use val_types::{Bytes, NoMemory};

/// The greatest BIGINT.
const GREATEST: u64 = 9_223_372_036_854_775_807;

/// Seeds are taken modulo this number.
const SEED_BOUND: u64 = 1_073_741_823;

/// The kind of an INTVAR by its code.
fn kind_of_code(code: u8) -> Result<IntVarKind, Fault>
    ensures { result ≡ int_var_kind code }
{
    match code {
        1 => Ok(IntVarKind::LastInsertId),
        2 => Ok(IntVarKind::InsertId),
        _ => Err(Fault::Damaged),
    }
}

/// The INTVAR with this body.
#[tactic(auto, unfolding(crate::specs::Bodies::int_var_body))]
pub fn read_int_var(stamp: u32, length: u64, body: &[u8]) -> Result<Event<'_>, Fault>
    ensures { event_seen result ≡ headed stamp length (int_var_body body.now) }
{
    let (code, rest) = one(body)?;
    let (value, rest) = eight(rest)?;
    let kind = kind_of_code(code)?;
    if !rest.is_empty() {
        return Err(Fault::Damaged);
    }
    if value > GREATEST {
        return Err(Fault::Foreign);
    }
    Ok(Event::IntVar {
        stamp,
        length,
        kind,
        value,
    })
}

/// The RAND with this body.
#[tactic(auto, unfolding(crate::specs::Bodies::rand_body))]
pub fn read_rand(stamp: u32, length: u64, body: &[u8]) -> Result<Event<'_>, Fault>
    ensures { event_seen result ≡ headed stamp length (rand_body body.now) }
{
    let (first, rest) = eight(body)?;
    let (second, rest) = eight(rest)?;
    if !rest.is_empty() {
        return Err(Fault::Damaged);
    }
    Ok(Event::Rand {
        stamp,
        length,
        first: (first % SEED_BOUND) as u32,
        second: (second % SEED_BOUND) as u32,
    })
}

/// The XID with this body.
#[tactic(auto, unfolding(crate::specs::Bodies::xid_body))]
pub fn read_xid(stamp: u32, length: u64, body: &[u8]) -> Result<Event<'_>, Fault>
    ensures { event_seen result ≡ headed stamp length (xid_body body.now) }
{
    let (number, rest) = eight(body)?;
    if !rest.is_empty() {
        return Err(Fault::Damaged);
    }
    Ok(Event::Xid {
        stamp,
        length,
        number,
    })
}

/// The code of an INTVAR's kind.
fn code_of_kind(kind: IntVarKind) -> u8
    ensures { result ≡ int_var_code kind }
{
    match kind {
        IntVarKind::LastInsertId => 1,
        IntVarKind::InsertId => 2,
    }
}

/// Puts the body of an INTVAR at the end.
#[tactic(auto, using(byte_fields::proofs::FieldLaws::begins_more))]
pub fn put_int_var(kind: IntVarKind, value: u64, out: &mut Bytes) -> Result<(), NoMemory>
    ensures ok { OnOk result (out.new ≡ out.old ++ (int_var_code kind ∷ number_bytes 8 value)) }
    ensures err { OnErr result (BeginsWith out.new out.old) }
{
    out.push(code_of_kind(kind))?;
    out.extend_from_slice(&bytes_u64(value))
}

/// Puts the body of a RAND at the end.
#[tactic(auto, using(byte_fields::proofs::FieldLaws::begins_more))]
pub fn put_rand(first: u32, second: u32, out: &mut Bytes) -> Result<(), NoMemory>
    ensures ok { OnOk result (out.new ≡ out.old ++ (number_bytes 8 first ++ number_bytes 8 second)) }
    ensures err { OnErr result (BeginsWith out.new out.old) }
{
    out.extend_from_slice(&bytes_u64(u64::from(first)))?;
    out.extend_from_slice(&bytes_u64(u64::from(second)))
}
