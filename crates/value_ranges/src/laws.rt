//! What follows from the definitions.
ghost use Rattle.value_ranges.specs.Ranges.{FromOn, RangesMeet, ToOn};

/// A law: a value is in two ranges that are met just where it is in both.
pub fn ranges_meet()
    ensures { RangesMeet }
{}

/// A law: a value above one that is not before a range is not before it, and one below one that is not behind it is not behind it.
pub fn ends_part_values()
    ensures from { FromOn }
    ensures to { ToOn }
{}
