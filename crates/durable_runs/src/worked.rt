//! Runs by hand.
ghost use Rattle.std.specs.Prelude.{◌≡◌, [], ◌∷◌, ◌++◌, length, map, take, Some, None};
ghost use Rattle.session_model.specs.Machine.{nowhere};
ghost use Rattle.store_model.specs.Held.{nothing_held};
ghost use Rattle.store_model.specs.Worked.{source_at, with_rows, one_row, source_with_row};
ghost use Rattle.session_model.specs.catalog_rules.Bases.{empty_base};
ghost use Rattle.durable_runs.specs.Marks.{named, last_named, source_mark, replica_mark, served_mark};
ghost use Rattle.durable_runs.specs.Runs.{Claim, Runs};
ghost use Rattle.waiting_entries.specs.Added.{added_to};
ghost use Rattle.durable_runs.specs.Sources.{held_after, records_of, end_of, source_side};
ghost use Rattle.durable_runs.specs.Worked.{
  three_marks,
  counting,
  no_call,
  byte_kept,
  one_behind,
  three_entries,
  put,
  next_log,
  as_kept,
  journal_with,
  image_staged,
  stored_with_table,
};

/// What the three marks name: of the source its second commit from the 22nd call of its disk on; of the replica its one transaction from
/// the 13th call of its own; and it may have carried out two from the 9th on, behind which the marks of both commits were pushed.
pub fn marks_by_hand()
    ensures at_start { named 0 (map source_mark three_marks) 15 ≡ 0 }
    ensures first { named 0 (map source_mark three_marks) 16 ≡ 1 }
    ensures before_second { named 0 (map source_mark three_marks) 21 ≡ 1 }
    ensures second { named 0 (map source_mark three_marks) 22 ≡ 2 }
    ensures none_applied { named 0 (map replica_mark three_marks) 12 ≡ 0 }
    ensures applied { named 0 (map replica_mark three_marks) 13 ≡ 1 }
    ensures none_served { named 0 (map served_mark three_marks) 8 ≡ 0 }
    ensures served { named 0 (map served_mark three_marks) 9 ≡ 2 }
    ensures last { last_named 0 (map source_mark three_marks) ≡ 2 }
{}

/// A byte that is written and synced is a run where its mark is pushed behind the sync, and none where it is pushed behind the write: a crash
/// between the two calls may leave no byte. Nor is it one where its mark says a third call, which was not made.
pub fn runs_by_hand()
    ensures kept { Runs counting no_call byte_kept 0 (7 ∷ []) [] (one_behind 2) }
    ensures early { Runs counting no_call byte_kept 0 (7 ∷ []) [] (one_behind 1) → ⊥ }
    ensures late { Runs counting no_call byte_kept 0 (7 ∷ []) [] (one_behind 3) → ⊥ }
{}

/// What is held behind each of the three entries; the same row again cannot be put. Their records are those of a journal by hand.
pub fn entries_by_hand()
    ensures log_begun { held_after (take 1 three_entries) nothing_held ≡ Some (source_at empty_base 0 123) }
    ensures table { held_after (take 2 three_entries) nothing_held ≡ Some (source_at (with_rows []) 1 206) }
    ensures row { held_after three_entries nothing_held ≡ Some (source_at (with_rows (one_row 10)) 2 336) }
    ensures twice { held_after (three_entries ++ put.committed) nothing_held ≡ None }
    ensures records { journal_with (records_of (as_kept three_entries) 0 nowhere) ≡ source_with_row 10 }
{}

/// The three entries put 336 bytes into log 1, and nothing into another; when the next log begins, log 1 has its name, of 40 bytes, and
/// log 2 a head.
pub fn logs_by_hand()
    ensures zeroth { added_to 0 (as_kept three_entries) 0 nowhere ≡ [] }
    ensures first { length (added_to 1 (as_kept three_entries) 0 nowhere) ≡ 336 }
    ensures second { added_to 2 (as_kept three_entries) 0 nowhere ≡ [] }
    ensures named { length (added_to 1 (as_kept (three_entries ++ next_log)) 0 nowhere) ≡ 376 }
    ensures head { length (added_to 2 (as_kept (three_entries ++ next_log)) 0 nowhere) ≡ 123 }
    ensures ends { end_of 2 (record { pos = 163 } ∷ record { pos = 206 } ∷ []) ≡ 206 }
    ensures no_end { end_of 3 (record { pos = 163 } ∷ record { pos = 206 } ∷ []) ≡ 0 }
{}

/// The row is logged and its record staged: while five calls had returned, a run that puts the row may leave this, although it pushes a mark
/// behind the sixth; when that call had returned, it may not.
pub fn images_by_hand()
    ensures inside { Claim source_side stored_with_table put.committed (record { number = 2; calls = 6 } ∷ []) 5 image_staged }
    ensures behind { Claim source_side stored_with_table put.committed (record { number = 2; calls = 6 } ∷ []) 6 image_staged → ⊥ }
{}
