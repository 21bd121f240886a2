//! Moments as text.
ghost use Rattle.std.specs.Prelude.{◌≡◌, ◌*◌, pos, IfOk};
ghost use Rattle.jiff.specs.Words.{civil_nanos, date_text as plain_date_text, time_text as plain_time_text};
ghost use Rattle.value_rules.specs.Moments.{moment_text};

use jiff::Timestamp;
use jiff::civil::{Date, DateTime, Time};
use jiff::tz::Offset;
use std::alloc::Global;
use val_types::{Bytes, List, NoMemory};

/// What a clock in UTC shows at a moment.
fn utc_clock(t: u32) -> DateTime
    ensures { civil_nanos result ≡ pos (t * 1_000_000_000) }
{
    match Timestamp::from_second(i64::from(t)) {
        Ok(moment) => Offset::UTC.to_datetime(moment),
        Err(_) => unreachable!(),
    }
}

/// A date as `YYYY-MM-DD`.
fn date_text(alloc: Global, date: Date) -> Result<Bytes, NoMemory>
    ensures { IfOk result (λ text. text ≡ plain_date_text date) }
{
    List::from_slice(alloc, date.to_string(alloc)?.as_bytes())
}

/// A time of day as `HH:MM:SS`, with a fraction where it has one.
fn clock_text(alloc: Global, time: Time) -> Result<Bytes, NoMemory>
    ensures { IfOk result (λ text. text ≡ plain_time_text None time) }
{
    List::from_slice(alloc, time.to_string(alloc)?.as_bytes())
}

/// The text of a moment, in seconds since 1970-01-01 00:00:00 UTC, as `YYYY-MM-DD HH:MM:SS` in UTC.
pub fn time_text(alloc: Global, t: u32) -> Result<Bytes, NoMemory>
    ensures { IfOk result (λ text. text ≡ moment_text t) }
{
    let clock = utc_clock(t);
    let mut text = date_text(alloc, clock.date())?;
    text.push(b' ')?;
    text.append(clock_text(alloc, clock.time())?)?;
    Ok(text)
}
