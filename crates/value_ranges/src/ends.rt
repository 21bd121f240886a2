//! Ends of ranges.
ghost use Rattle.std.specs.Prelude.{◌≡◌};
ghost use Rattle.value_ranges.specs.Ranges.{bound_of, earlier_of, is_above, is_below, later_of};

use val_types::Value;

/// A value at which a range ends, and whether it is in the range itself.
#[derive(Clone, Copy)]
pub struct End<'a> {
    pub value: &'a Value,
    pub among: bool,
}

/// Whether a value is on the inner side of a lower end.
pub fn is_above(low: End<'_>, value: &Value) -> bool
    ensures { result ≡ is_above (bound_of low.entry) value.now }
{
    let order = value.cmp(low.value);
    if low.among {
        order.is_ge()
    } else {
        order.is_gt()
    }
}

/// Whether a value is on the inner side of an upper end.
pub fn is_below(high: End<'_>, value: &Value) -> bool
    ensures { result ≡ is_below (bound_of high.entry) value.now }
{
    let order = value.cmp(high.value);
    if high.among {
        order.is_le()
    } else {
        order.is_lt()
    }
}

/// The one of two lower ends that leaves more out.
pub fn later_of<'a>(a: End<'a>, b: End<'a>) -> End<'a>
    ensures { bound_of result ≡ later_of (bound_of a.entry) (bound_of b.entry) }
{
    if is_above(a, b.value) { b } else { a }
}

/// The one of two upper ends that leaves more out.
pub fn earlier_of<'a>(a: End<'a>, b: End<'a>) -> End<'a>
    ensures { bound_of result ≡ earlier_of (bound_of a.entry) (bound_of b.entry) }
{
    if is_below(a, b.value) { b } else { a }
}
