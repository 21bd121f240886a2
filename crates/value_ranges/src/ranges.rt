//! Ranges.
ghost use Rattle.std.specs.Prelude.{◌≡◌};
ghost use Rattle.std.specs.Option.{option_map};
ghost use Rattle.value_ranges.specs.Ranges.{bound_of, everything, has_end, is_from, is_in, is_to, met, met_high, met_low, range_of};

use crate::ends::{End, earlier_of, is_above, is_below, later_of};
use val_types::Value;

/// Values from one end to another, where there are ends.
#[derive(Clone, Copy)]
pub struct ValueRange<'a> {
    pub low: Option<End<'a>>,
    pub high: Option<End<'a>>,
}

/// The range without ends.
pub fn everything<'a>() -> ValueRange<'a>
    ensures { range_of result ≡ everything }
{
    ValueRange {
        low: None,
        high: None,
    }
}

/// Whether a value is not before a lower end that may be there.
pub fn is_from(low: Option<End<'_>>, value: &Value) -> bool
    ensures { result ≡ is_from (option_map bound_of low.entry) value.now }
{
    match low {
        Some(low) => is_above(low, value),
        None => true,
    }
}

/// Whether a value is not behind an upper end that may be there.
pub fn is_to(high: Option<End<'_>>, value: &Value) -> bool
    ensures { result ≡ is_to (option_map bound_of high.entry) value.now }
{
    match high {
        Some(high) => is_below(high, value),
        None => true,
    }
}

/// Whether a value is in a range.
pub fn is_in(range: ValueRange<'_>, value: &Value) -> bool
    ensures { result ≡ is_in (range_of range.entry) value.now }
{
    is_from(range.low, value) && is_to(range.high, value)
}

/// Whether a range has an end.
pub fn has_end(range: ValueRange<'_>) -> bool
    ensures { result ≡ has_end (range_of range.entry) }
{
    range.low.is_some() || range.high.is_some()
}

fn met_low<'a>(a: Option<End<'a>>, b: Option<End<'a>>) -> Option<End<'a>>
    ensures { option_map bound_of result ≡ met_low (option_map bound_of a.entry) (option_map bound_of b.entry) }
{
    match (a, b) {
        (Some(a), Some(b)) => Some(later_of(a, b)),
        (Some(a), None) => Some(a),
        (None, b) => b,
    }
}

fn met_high<'a>(a: Option<End<'a>>, b: Option<End<'a>>) -> Option<End<'a>>
    ensures { option_map bound_of result ≡ met_high (option_map bound_of a.entry) (option_map bound_of b.entry) }
{
    match (a, b) {
        (Some(a), Some(b)) => Some(earlier_of(a, b)),
        (Some(a), None) => Some(a),
        (None, b) => b,
    }
}

/// The values of two ranges.
pub fn met<'a>(a: ValueRange<'a>, b: ValueRange<'a>) -> ValueRange<'a>
    ensures { range_of result ≡ met (range_of a.entry) (range_of b.entry) }
{
    ValueRange {
        low: met_low(a.low, b.low),
        high: met_high(a.high, b.high),
    }
}
