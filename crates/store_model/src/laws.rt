//! What follows of the definitions: each function proves a law, and does nothing.
ghost use Rattle.std.specs.Prelude.{List, Option};
ghost use Rattle.val_types.specs.declared.change.Change.{Change};
ghost use Rattle.sql_reach.specs.catalog_rules.Bases.{Base};
ghost use Rattle.binlog_sizes.specs.log_entries.declared.entries.Item.{Item};
ghost use Rattle.store_model.specs.Laws.{
  BodiesAreRead,
  ChangesAreCounted,
  ChangesAreRead,
  EntriesRecordsLead,
  HeldStand,
  LogsAreLong,
  RecordsAreApplied,
  RowsAreCounted,
  RowsAreRead,
  SnapshotsAreRead,
  StandIsHeld,
  StepsRecordsLead,
  WhatCountsDecides,
  WritersGoOn,
};

/// The body of a record is read as that record; so are its rows and changes, whatever follows them; so is a snapshot's.
pub fn bodies_are_read()
    ensures rows { RowsAreRead }
    ensures changes { ChangesAreRead }
    ensures bodies { BodiesAreRead }
    ensures snapshots { SnapshotsAreRead }
{}

/// Rows and changes have as many bytes as a transaction is counted by.
pub fn bodies_are_counted()
    ensures rows { RowsAreCounted }
    ensures changes { ChangesAreCounted }
{}

/// What an image holds, taken apart: what its journal begins from, its open records, its logs.
pub fn images_stand()
    ensures apart { HeldStand }
    ensures together { StandIsHeld }
    ensures logs { LogsAreLong }
{}

/// What does not count may change: a snapshot's file without an open snapshot, a journal behind its open
/// records, the journal of the other generation, the bytes of a log behind its end, and each other file.
pub fn what_counts_decides()
    ensures { WhatCountsDecides }
{}

/// One open record more makes of what was held what it is applied to.
pub fn records_are_applied()
    ensures { RecordsAreApplied }
{}

/// Where an entry leads on, so does the record that a source writes for it; and the next one is written where its log ends.
pub fn entries_lead<I>()
    ensures records { (kept : I → Item) (changes_of : I → List Change) (define : I → Base → Option Base) → EntriesRecordsLead kept changes_of define }
    ensures places { WritersGoOn }
{}

/// Where what a replica carried out leads on, so does its record.
pub fn steps_lead()
    ensures { StepsRecordsLead }
{}
