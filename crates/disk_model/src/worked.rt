//! Images by hand.
ghost use Rattle.std.specs.Prelude.{◌≡◌, ℕ, List, [], ◌∷◌, true, false};
ghost use Rattle.disk_model.specs.declared.call.Call.TheVariants.{Look, Write, Cut, Sync};
ghost use Rattle.disk_model.specs.Left.{LeftAfter};
ghost use Rattle.disk_model.specs.Story.{seen_after};
ghost use Rattle.disk_model.specs.Worked.{six_bytes, two_writes, one_synced, cut_and_grown};

/// Two writes over one file without a sync between them, whose ranges overlap, from 1 to 4 and from 3 to 5.
/// A crash may leave the old bytes, those of the first write alone, those of the second alone, or any byte in
/// both ranges, also where the later write did not reach: it may not leave another first or last byte, or another length.
/// Where the file was synced between both, the first write is there for sure, but for the byte that the second covers.
pub fn images_by_hand()
    ensures read { seen_after six_bytes two_writes 8 ≡ 10 ∷ 21 ∷ 22 ∷ 33 ∷ 34 ∷ 15 ∷ [] }
    ensures old { LeftAfter six_bytes two_writes 8 (10 ∷ 11 ∷ 12 ∷ 13 ∷ 14 ∷ 15 ∷ []) }
    ensures second_alone { LeftAfter six_bytes two_writes 8 (10 ∷ 11 ∷ 12 ∷ 33 ∷ 34 ∷ 15 ∷ []) }
    ensures first_alone { LeftAfter six_bytes two_writes 8 (10 ∷ 21 ∷ 22 ∷ 23 ∷ 14 ∷ 15 ∷ []) }
    ensures any { LeftAfter six_bytes two_writes 8 (10 ∷ 99 ∷ 12 ∷ 98 ∷ 34 ∷ 15 ∷ []) }
    ensures first_byte { ¬ LeftAfter six_bytes two_writes 8 (99 ∷ 21 ∷ 22 ∷ 33 ∷ 34 ∷ 15 ∷ []) }
    ensures last_byte { ¬ LeftAfter six_bytes two_writes 8 (10 ∷ 21 ∷ 22 ∷ 33 ∷ 34 ∷ 99 ∷ []) }
    ensures shorter { ¬ LeftAfter six_bytes two_writes 8 (10 ∷ 21 ∷ 22 ∷ 33 ∷ 34 ∷ []) }
    ensures no_byte { ¬ LeftAfter six_bytes two_writes 8 (10 ∷ 300 ∷ 22 ∷ 33 ∷ 34 ∷ 15 ∷ []) }
    ensures synced { LeftAfter six_bytes one_synced 8 (10 ∷ 21 ∷ 22 ∷ 99 ∷ 34 ∷ 15 ∷ []) }
    ensures not_lost { ¬ LeftAfter six_bytes one_synced 8 (10 ∷ 11 ∷ 22 ∷ 33 ∷ 34 ∷ 15 ∷ []) }
    ensures other_file { ¬ LeftAfter six_bytes two_writes 2 (10 ∷ []) }
{}

/// A file of six bytes that is cut to 2 and written from there on to 3: a crash may leave any length from 2 to 6.
/// Bytes that were neither written nor are past the old end are the old ones.
pub fn lengths_by_hand()
    ensures read { seen_after six_bytes cut_and_grown 8 ≡ 10 ∷ 11 ∷ 40 ∷ [] }
    ensures shortest { LeftAfter six_bytes cut_and_grown 8 (10 ∷ 11 ∷ []) }
    ensures not_cut { LeftAfter six_bytes cut_and_grown 8 (10 ∷ 11 ∷ 99 ∷ 13 ∷ 14 ∷ 15 ∷ []) }
    ensures shorter { ¬ LeftAfter six_bytes cut_and_grown 8 (10 ∷ []) }
    ensures longer { ¬ LeftAfter six_bytes cut_and_grown 8 (10 ∷ 11 ∷ 40 ∷ 13 ∷ 14 ∷ 15 ∷ 0 ∷ []) }
    ensures old_bytes { ¬ LeftAfter six_bytes cut_and_grown 8 (10 ∷ 11 ∷ 40 ∷ 99 ∷ []) }
{}
