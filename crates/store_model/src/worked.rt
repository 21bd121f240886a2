//! Stores by hand, byte by byte.
ghost use Rattle.std.specs.Prelude.{◌≡◌, [], ◌∷◌, ◌++◌, replicate, length, Ok, Err};
ghost use Rattle.sql_reach.specs.catalog_rules.Bases.{empty_base};
ghost use Rattle.store_model.specs.declared.record.Kind.TheVariants.{Source, Replica};
ghost use Rattle.store_model.specs.Held.{nothing_held};
ghost use Rattle.store_model.specs.Snapshots.{snapshot_body};
ghost use Rattle.store_model.specs.Stores.{held_by};
ghost use Rattle.store_model.specs.Worked.{
  image_of,
  with_log,
  with_two_logs,
  source_with_logs,
  source_with_ends,
  snapshot_numbered,
  log_started,
  new_source,
  source_with_table,
  source_with_row,
  source_staged,
  replica_with_table,
  replica_with_row,
  replica_behind_log,
  log_started_at,
  row_selected,
  table_made,
  table_numbered,
  row_numbered,
  went_on,
  new_snapshot,
  with_rows,
  one_row,
  source_at,
  replica_at,
};

/// A source's store: nothing, a byte that is no record, the first log, a table, a row that is staged and
/// one whose gate is open; the same row with another byte read; and the table in a second log.
pub fn sources_by_hand()
    ensures nothing { held_by Source (image_of [] [] [] []) ≡ Ok nothing_held }
    ensures one_byte { held_by Source (image_of [] [] (0x5a ∷ []) []) ≡ Ok nothing_held }
    ensures log_begun { held_by Source (with_log new_source 123) ≡ Ok (source_at empty_base 0 123) }
    ensures of_27 { length new_source ≡ 27 }
    ensures table { held_by Source (with_log source_with_table 206) ≡ Ok (source_at (with_rows []) 1 206) }
    ensures staged { held_by Source (with_log source_staged 336) ≡ Ok (source_at (with_rows []) 1 206) }
    ensures row { held_by Source (with_log (source_with_row 10) 336) ≡ Ok (source_at (with_rows (one_row 10)) 2 336) }
    ensures row_read { held_by Source (with_log (source_with_row 20) 336) ≡ Ok (source_at (with_rows (one_row 20)) 2 336) }
    ensures two_logs { held_by Source (with_two_logs (source_with_logs 2) 163 206) ≡ Ok (source_with_ends (with_rows []) 1 163 206) }
{}

/// A replica's store: nothing, a table, a row, and the place at the next log.
pub fn replicas_by_hand()
    ensures nothing { held_by Replica (image_of [] [] [] []) ≡ Ok nothing_held }
    ensures table { held_by Replica (image_of [] [] replica_with_table []) ≡ Ok (replica_at (with_rows []) 1 1 206) }
    ensures row { held_by Replica (image_of [] [] replica_with_row []) ≡ Ok (replica_at (with_rows (one_row 10)) 2 1 336) }
    ensures next_log { held_by Replica (image_of [] [] replica_behind_log []) ≡ Ok (replica_at (with_rows (one_row 10)) 2 2 4) }
{}

/// A snapshot of 38 bytes in file 1, whose journal, file 3, has no record yet; the journal of file 2
/// does not count any more. Of two snapshots the greater counts.
pub fn snapshots_by_hand()
    ensures open { held_by Source (image_of [] new_snapshot (1 ∷ 255 ∷ 0 ∷ []) (replicate 123 0)) ≡ Ok (source_at empty_base 0 123) }
    ensures bytes { 1 ∷ 0x1d ∷ 0 ∷ 0 ∷ 0 ∷ 0 ∷ 0 ∷ 0 ∷ 0 ∷ snapshot_body Source 1 (source_at empty_base 0 123) ≡ new_snapshot }
    ensures greater { held_by Source (image_of (snapshot_numbered 2 0x7c) new_snapshot [] (replicate 124 0)) ≡ Ok (source_at empty_base 0 124) }
    ensures later { held_by Source (image_of (snapshot_numbered 2 0x7c) (snapshot_numbered 3 0x7b) (1 ∷ 255 ∷ []) (replicate 123 0)) ≡ Ok (source_at empty_base 0 123) }
    ensures closed { held_by Source (image_of (0 ∷ 7 ∷ []) (0 ∷ 1 ∷ []) new_source (replicate 123 0)) ≡ Ok (source_at empty_base 0 123) }
{}

/// Places of damage: a record that is not whole, one of the other kind of store, a number that is not the
/// next, a log that is too short, a snapshot in the other generation's file.
pub fn damage_by_hand()
    ensures not_whole { held_by Source (image_of [] [] (1 ∷ 0xff ∷ 0 ∷ 0 ∷ 0 ∷ 0 ∷ []) []) ≡ Err (record { file = 2; at = 0 }) }
    ensures cut { held_by Source (image_of [] [] (1 ∷ 0x15 ∷ 0 ∷ 0 ∷ 0 ∷ []) []) ≡ Err (record { file = 2; at = 0 }) }
    ensures other_kind { held_by Source (image_of [] [] replica_with_table []) ≡ Err (record { file = 2; at = 0 }) }
    ensures twice { held_by Source (image_of [] [] (1 ∷ (log_started ++ new_source)) (replicate 123 0)) ≡ Err (record { file = 2; at = 26 }) }
    ensures short_log { held_by Source (with_log source_with_table 205) ≡ Err (record { file = 8; at = 205 }) }
    ensures short_second { held_by Source (with_two_logs (source_with_logs 2) 163 7) ≡ Err (record { file = 9; at = 7 }) }
    ensures short_first { held_by Source (with_two_logs (source_with_logs 2) 162 7) ≡ Err (record { file = 8; at = 162 }) }
    ensures snapshot { held_by Source (image_of new_snapshot [] [] []) ≡ Err (record { file = 0; at = 0 }) }
{}

/// The first of several: one snapshot before the other, and before a journal; a record that cannot be the next before one that is not
/// whole; a journal before a log.
pub fn first_damage_by_hand()
    ensures snapshots { held_by Source (image_of (1 ∷ 0 ∷ []) (1 ∷ 2 ∷ []) [] []) ≡ Err (record { file = 0; at = 0 }) }
    ensures snapshot { held_by Source (image_of [] (1 ∷ 2 ∷ []) (1 ∷ 0xff ∷ []) []) ≡ Err (record { file = 1; at = 0 }) }
    ensures record { held_by Source (image_of [] [] (1 ∷ (log_started ++ 1 ∷ (log_started ++ 1 ∷ 9 ∷ []))) []) ≡ Err (record { file = 2; at = 26 }) }
    ensures journal { held_by Source (image_of [] [] (1 ∷ (log_started ++ 1 ∷ 9 ∷ [])) []) ≡ Err (record { file = 2; at = 26 }) }
{}

/// Records that are whole and cannot be the next: an end that is too late, beside the latest one; the log before the last one;
/// another log than the next; an
/// old end before the first log; a byte behind the body; another number than the next; a definition before the first
/// log; a text that defines nothing, or a table that is there; a key that is taken; a table that is not there; a place
/// that is moved with another number.
pub fn unfit_by_hand()
    ensures late_end { held_by Source (image_of [] [] (1 ∷ (log_started_at 0x15 0x81 1 0 ++ 0 ∷ [])) []) ≡ Err (record { file = 2; at = 0 }) }
    ensures latest_end { held_by Source (image_of [] [] (1 ∷ (log_started_at 0x15 0x80 1 0 ++ 0 ∷ [])) []) ≡ Err (record { file = 8; at = 0 }) }
    ensures log_before { held_by Source (with_two_logs (source_with_logs 1) 206 206) ≡ Err (record { file = 2; at = 52 }) }
    ensures second_log { held_by Source (image_of [] [] (1 ∷ (log_started_at 0x15 0x80 2 0 ++ 0 ∷ [])) []) ≡ Err (record { file = 2; at = 0 }) }
    ensures old_end { held_by Source (image_of [] [] (1 ∷ (log_started_at 0x15 0x80 1 1 ++ 0 ∷ [])) []) ≡ Err (record { file = 2; at = 0 }) }
    ensures byte_behind { held_by Source (image_of [] [] (1 ∷ (log_started_at 0x16 0x80 1 0 ++ 0 ∷ 0 ∷ [])) []) ≡ Err (record { file = 2; at = 0 }) }
    ensures number { held_by Source (image_of [] [] (1 ∷ (log_started ++ 1 ∷ (table_numbered 2 ++ 0 ∷ []))) []) ≡ Err (record { file = 2; at = 26 }) }
    ensures before_log { held_by Source (image_of [] [] (1 ∷ (table_made ++ 0 ∷ [])) []) ≡ Err (record { file = 2; at = 0 }) }
    ensures no_definition { held_by Source (image_of [] [] (1 ∷ (log_started ++ 1 ∷ (row_selected ++ 0 ∷ []))) []) ≡ Err (record { file = 2; at = 26 }) }
    ensures table_there { held_by Source (image_of [] [] (1 ∷ (log_started ++ 1 ∷ (table_made ++ 1 ∷ (table_numbered 2 ++ 0 ∷ [])))) []) ≡ Err (record { file = 2; at = 100 }) }
    ensures key_taken { held_by Source (image_of [] [] (1 ∷ (log_started ++ 1 ∷ (table_made ++ 1 ∷ (row_numbered 2 10 ++ 1 ∷ (row_numbered 3 20 ++ 0 ∷ []))))) []) ≡ Err (record { file = 2; at = 148 }) }
    ensures no_table { held_by Source (image_of [] [] (1 ∷ (log_started ++ 1 ∷ (row_numbered 1 10 ++ 0 ∷ []))) []) ≡ Err (record { file = 2; at = 26 }) }
    ensures moved { held_by Replica (image_of [] [] (1 ∷ (went_on ++ 0 ∷ [])) []) ≡ Err (record { file = 2; at = 0 }) }
{}
