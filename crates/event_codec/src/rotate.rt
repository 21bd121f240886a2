//! The body of a ROTATE: the name of the next log.
ghost use Rattle.std.specs.Prelude.{◌≡◌, ◌≤◌, ◌++◌, IfOk, OnOk, OnErr};
ghost use Rattle.byte_fields.specs.Field.{BeginsWith};
ghost use Rattle.event_codec.specs.Bodies.{rotate_body};
ghost use Rattle.event_codec.specs.LogName.{digit_value, digits, last_digit, log_name, log_number};
ghost use Rattle.event_codec.specs.Reading.{event_seen, headed};
ghost use Rattle.event_codec.specs.Writing.{rotate_bytes};

use crate::event::Event;
use crate::fault::Fault;
use crate::parts::eight;
use byte_fields::bytes_u64;
use val_types::{Bytes, NoMemory};

/// What the name of a log begins with.
const LOG: [u8; 7] = *b"binlog.";

/// The number of a decimal digit.
fn digit(byte: u8) -> Result<u32, Fault>
    ensures value { result ≡ digit_value byte }
    ensures small { IfOk result (λ d. d ≤ 9) }
{
    if byte.is_ascii_digit() {
        Ok(u32::from(byte - b'0'))
    } else {
        Err(Fault::Foreign)
    }
}

/// The number in the name of a log.
#[tactic(auto, unfolding(crate::specs::LogName::log_number))]
fn read_log_number(name: &[u8]) -> Result<u32, Fault>
    ensures { result ≡ log_number name.now }
{
    if name.len() != 13 || &name[..7] != LOG.as_slice() {
        return Err(Fault::Foreign);
    }
    let [a, b, c, d, e, f] = &name[7..] else {
        return Err(Fault::Foreign);
    };
    let high = (digit(*a)? * 10 + digit(*b)?) * 10 + digit(*c)?;
    Ok(((high * 10 + digit(*d)?) * 10 + digit(*e)?) * 10 + digit(*f)?)
}

/// The ROTATE with this body.
#[tactic(auto, unfolding(crate::specs::Bodies::rotate_body))]
pub fn read_rotate(stamp: u32, length: u64, body: &[u8]) -> Result<Event<'_>, Fault>
    ensures { event_seen result ≡ headed stamp length (rotate_body body.now) }
{
    let (place, name) = eight(body)?;
    if place != 4 {
        return Err(Fault::Foreign);
    }
    let next = read_log_number(name)?;
    Ok(Event::Rotate {
        stamp,
        length,
        next,
    })
}

/// The last decimal digit of a number.
fn last_digit(number: u32) -> u8
    ensures { result ≡ last_digit number }
{
    b'0' + (number % 10) as u8
}

/// The last six decimal digits of a number.
fn digits(number: u32) -> [u8; 6]
    ensures { result ≡ digits number }
{
    [
        last_digit(number / 100_000),
        last_digit(number / 10_000),
        last_digit(number / 1_000),
        last_digit(number / 100),
        last_digit(number / 10),
        last_digit(number),
    ]
}

/// Puts the name of the log with a number at the end.
#[tactic(auto, using(byte_fields::proofs::FieldLaws::begins_more), unfolding(crate::specs::LogName::log_name))]
fn put_log_name(number: u32, out: &mut Bytes) -> Result<(), NoMemory>
    ensures ok { OnOk result (out.new ≡ out.old ++ log_name number) }
    ensures err { OnErr result (BeginsWith out.new out.old) }
{
    out.extend_from_slice(&LOG)?;
    out.extend_from_slice(&digits(number))
}

/// Puts the body of a ROTATE at the end.
#[tactic(auto, using(byte_fields::proofs::FieldLaws::begins_more), unfolding(crate::specs::Writing::rotate_bytes))]
pub fn put_rotate(next: u32, out: &mut Bytes) -> Result<(), NoMemory>
    ensures ok { OnOk result (out.new ≡ out.old ++ rotate_bytes next) }
    ensures err { OnErr result (BeginsWith out.new out.old) }
{
    out.extend_from_slice(&bytes_u64(4))?;
    put_log_name(next, out)
}
