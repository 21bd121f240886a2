//! What follows where a condition says a range.
ghost use Rattle.where_ranges.specs.Laws.{NamedRangesAreEnough};

/// A law: only the rows within the range that a condition says of the first column of the primary key need be looked at.
pub fn named_ranges_are_enough()
    ensures { NamedRangesAreEnough }
{}
