//! Whether a log can carry an item by its text.
ghost use Rattle.std.specs.Prelude.{◌<◌, ◌≤◌, ◌^◌, FitsSigned, IfSome};
ghost use Rattle.std.specs.Bool.{OnTrue};
ghost use Rattle.std.specs.Int.{w64, cast_unsigned};
ghost use Rattle.std.specs.Option.{option_map};
ghost use Rattle.event_codec.specs.Laws.{FitsValue};
ghost use Rattle.log_entry_laws.specs.Ids.{HasIds, IsId};
ghost use Rattle.log_entry_laws.specs.log_model.Items.{text_of};
ghost use Rattle.log_entry_laws.specs.log_model.Spelling.{bodies_of};
ghost use Rattle.binlog_items.specs.Logged.{AreValues, HaveForms};

use crate::carrying::have_words;
use log_entry_laws::log_entries::{Carried, Vars};
use val_types::{Bytes, Value};

/// The modulus of RAND()'s seeds.
const SEED_MODULUS: u64 = 1_073_741_823;

/// Whether a number, where there is one, is not below 0; it has 64 bits.
fn is_natural(number: Option<i64>) -> bool
    ensures bits { OnTrue result (IfSome (option_map (cast_unsigned w64) number) (λ n. n ≤ 9223372036854775807)) }
    ensures id { OnTrue result (IfSome number IsId) }
{
    match number {
        None => true,
        Some(number) => number >= 0,
    }
}

/// Whether seeds, where there are some, are below their modulus.
fn are_seeds(seeds: Option<(u64, u64)>) -> bool
    ensures { OnTrue result (IfSome seeds (λ s. (s.0 < 1073741823) × (s.1 < 1073741823))) }
{
    match seeds {
        None => true,
        Some((first, second)) => first < SEED_MODULUS && second < SEED_MODULUS,
    }
}

/// Whether increment and offset count from 1 on; they have 16 bits.
fn are_steps(increment: u16, offset: u16) -> bool
    ensures { OnTrue result ((1 ≤ increment) × (1 ≤ offset) × (increment < 2 ^ 16) × (offset < 2 ^ 16)) }
{
    increment >= 1 && offset >= 1
}

/// A fact of a number: it has 64 bits.
fn is_number(number: i64)
    ensures { FitsSigned w64 number }
{
    let _ = number;
}

/// A fact of a value: an integer has 64 bits.
fn has_width(value: &Value)
    ensures { FitsValue value.now }
{
    match value {
        Value::Int(number) => is_number(*number),
        Value::Null | Value::Text(_) => {}
    }
}

/// A fact of the values of user variables: integers have 64 bits.
fn have_widths(vars: &Vars)
    ensures { AreValues vars.now }
{
    for place in 0..vars.len() {
        match vars.at(place) {
            Some((_, value)) => has_width(value),
            None => {}
        }
    }
}

/// Whether a log can carry a text with what its statement needs.
pub(crate) fn can_carry_text(text: &Bytes, carried: &Carried) -> bool
    ensures { OnTrue result (HaveForms (bodies_of (text_of text.now carried.now)) × HasIds carried.now) }
{
    let _ = text;
    have_words(carried.stamp, carried.connection);
    have_widths(&carried.vars);
    is_natural(carried.last_id)
        && is_natural(carried.first)
        && are_seeds(carried.seeds)
        && are_steps(carried.inc, carried.off)
}
