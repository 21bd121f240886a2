//! Laws of WHERE.
ghost use Rattle.where_laws.specs.Laws.{FactsAreEnough, FrontsGuard, KeysAreEnough, KnownIsSo, NothingGuards, QuietsGuard, RangesAreEnough, UniqueKeysAreEnough, ValuesAreEnough, WholesGuard};
ghost use Rattle.where_laws.specs.Leaving.{RowsMayBeLeftOut};
ghost use Rattle.where_laws.specs.Sides.{SidesAreSo};

/// A law: rows for which a test is quietly false may be left out.
pub fn rows_may_be_left_out()
    ensures { RowsMayBeLeftOut }
{}

/// A law: sides of a comparison are what they are said to be, before a row is looked at.
pub fn sides_are_known()
    ensures { SidesAreSo }
{}

/// A law: what guards, from the parts of an AND to the whole.
pub fn conditions_guard()
    ensures nothing { NothingGuards }
    ensures wholes { WholesGuard }
    ensures quiets { QuietsGuard }
    ensures fronts { FrontsGuard }
{}

/// A law: what is known of a condition before a row is looked at is so of it.
pub fn conditions_are_known()
    ensures { KnownIsSo }
{}

/// A law: only the rows of which the facts are so need be looked at: those within a range of a column, and those that have
/// the values named for some columns.
pub fn facts_are_enough()
    ensures facts { FactsAreEnough }
    ensures ranges { RangesAreEnough }
    ensures values { ValuesAreEnough }
{}

/// A law: where the facts name the primary key or a unique key, only the row that has it need be looked at.
pub fn keys_are_enough()
    ensures primary { KeysAreEnough }
    ensures unique { UniqueKeysAreEnough }
{}
