//! The values that a statement generates.
ghost use Rattle.std.specs.Prelude.{◌≡◌, ◌≤◌, if◌then◌else◌, int_le, pos};
ghost use Rattle.std.specs.Option.{option_map, option_map_or};
ghost use Rattle.auto_inc.specs.Counting.{behind};
ghost use Rattle.auto_inc.specs.Generating.{after_explicit, after_generated, least_congruent, next_value, start_of, used_offset};

use crate::counters::behind;
use std::marker::Model;

/// What a statement has generated so far: its first value, and where it looks for the next one.
#[derive(Debug, Drop)]
pub struct StmtSeq {
    generated: Option<(i64, u64)>,
}

impl Model for StmtSeq {
    ghost use Rattle.auto_inc.specs.Generating.{Sequence};

    ghost Value = { Sequence };

    ghost view = { λ s. s.generated };
}

impl StmtSeq {
    /// The sequence of a statement that has generated no value.
    pub fn new() -> StmtSeq
        ensures { result ≡ None }
    {
        StmtSeq { generated: None }
    }

    /// The next value: the least at or above the statement's own next number, or before the first
    /// value at or above the table's counter, that is congruent to the offset modulo the increment;
    /// an offset above the increment counts as 0. None where it is past `top`, the greatest number
    /// of the column's type.
    pub fn next(&mut self, counter: u64, increment: u16, offset: u16, top: i64) -> Option<i64>
        requires { 1 ≤ increment }
        ensures value { result ≡ next_value counter increment offset top self.old }
        ensures sequence { self.new
            ≡ option_map_or (λ value. after_generated value self.old) result self.old }
    {
        let start = match self.generated {
            None => counter,
            Some((_, next)) => next,
        };
        let value = within(least_congruent(increment, offset, start), top)?;
        self.generated = match self.generated {
            None => Some((value, behind(value))),
            Some((first, _)) => Some((first, behind(value))),
        };
        Some(value)
    }

    /// Takes note of a value that was given for the column.
    pub fn explicit(&mut self, value: i64)
        ensures { self.new ≡ after_explicit value self.old }
    {
        if let Some((first, next)) = self.generated {
            if value >= 0 && next <= value as u64 {
                self.generated = Some((first, behind(value)));
            }
        }
    }

    /// Takes a forced value as the first one that was generated.
    pub fn forced(&mut self, value: i64)
        ensures { self.new ≡ Some (value, behind value) }
    {
        self.generated = Some((value, behind(value)));
    }

    /// The first value that was generated, None where there is none yet.
    pub fn first(&self) -> Option<i64>
        ensures { result ≡ option_map (λ generated. generated.0) self.now }
    {
        match self.generated {
            None => None,
            Some((first, _)) => Some(first),
        }
    }
}

/// The least number at or above a number that is congruent to the offset modulo the increment. It may
/// be past 64 bits.
fn least_congruent(increment: u16, offset: u16, from: u64) -> u128
    requires { 1 ≤ increment }
    ensures { result ≡ least_congruent increment (used_offset increment offset) from }
{
    let offset = if increment < offset { 0 } else { offset };
    let wanted = u128::from(offset % increment);
    let increment = u128::from(increment);
    let from = u128::from(from);
    let block = from - from % increment;
    if from <= block + wanted {
        block + wanted
    } else {
        block + increment + wanted
    }
}

/// A number as a value of a column, None where it is past the greatest.
fn within(number: u128, top: i64) -> Option<i64>
    ensures { result ≡ (if int_le (pos number) top then Some (pos number) else None) }
{
    match i64::try_from(number) {
        Ok(value) if value <= top => Some(value),
        _ => None,
    }
}
