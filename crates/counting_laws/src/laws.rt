//! Laws: what is counted is bounded by the changes that are made.
ghost use Rattle.counting_laws.specs.Counts.{ClearedRowsCount, DeletedRowsCount, DeletesCount, InsertedRowsCount, InsertsCount, LevelsKeepChanges, PerformedCount, PlacedRowsCount, PutRowsCount, StatementsCount, UpdatedRowsCount, UpdatesCount};

/// A law: functions and triggers, at each level of nesting, take no change back.
pub fn levels_keep_changes()
    ensures { LevelsKeepChanges }
{}

/// A law: what a row of a statement counts, with its triggers, is at most its changes, or twice these where rows are inserted, also in
/// the middle of a statement.
pub fn rows_count_changes()
    ensures deleted { DeletedRowsCount }
    ensures cleared { ClearedRowsCount }
    ensures updated { UpdatedRowsCount }
    ensures put { PutRowsCount }
    ensures placed { PlacedRowsCount }
    ensures inserted { InsertedRowsCount }
{}

/// A law: so it is with whole statements, of sessions and of bodies.
pub fn statements_count_changes()
    ensures inserts { InsertsCount }
    ensures updates { UpdatesCount }
    ensures deletes { DeletesCount }
    ensures performed { PerformedCount }
    ensures statements { StatementsCount }
{}
