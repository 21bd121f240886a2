//! Checkpoints by hand, byte by byte.
ghost use Rattle.std.specs.Prelude.{◌≡◌, [], ◌∷◌, ◌++◌, map, replicate, length, Ok};
ghost use Rattle.store_model.specs.declared.record.Kind.TheVariants.{Source, Replica};
ghost use Rattle.store_model.specs.Stores.{held_by};
ghost use Rattle.store_model.specs.Worked.{image_of, new_snapshot, new_source, one_row, replica_at, snapshot_numbered, source_at, with_rows};
ghost use Rattle.checkpoint_model.specs.Pieces.{pieces_of};
ghost use Rattle.checkpoint_model.specs.Worked.{
  closed_source,
  new_held,
  new_image,
  once,
  over_others,
  replica_once,
  snapshot_with_row,
  source_once,
  twice,
};

/// A source with its first log: its snapshot of generation 1 comes into file 1, which has 38 bytes then, and the new journal is file 3. The next
/// one comes into file 0, and the first journal's gate is closed. Over more bytes behind a closed gate, those behind the snapshot stay.
pub fn new_checkpoints_by_hand()
    ensures snapshot { once 1 ≡ new_snapshot }
    ensures of_38 { length (once 1) ≡ 38 }
    ensures journal { once 3 ≡ 0 ∷ [] }
    ensures old_journal { once 2 ≡ new_source }
    ensures held { held_by Source once ≡ Ok new_held }
    ensures next { twice 0 ≡ snapshot_numbered 2 0x7b }
    ensures next_journal { twice 2 ≡ closed_source }
    ensures last { twice 1 ≡ new_snapshot }
    ensures others { over_others 1 ≡ new_snapshot ++ replicate 13 9 }
{}

/// A table with a row, of a source and of a replica.
pub fn rows_by_hand()
    ensures source { source_once 1 ≡ snapshot_with_row 1 }
    ensures of_143 { length (snapshot_with_row 1) ≡ 143 }
    ensures replica { replica_once 1 ≡ snapshot_with_row 2 }
{}

/// Which files the pieces come into: four pieces into a new file, or over an open snapshot; three over bytes behind a closed gate. An odd
/// generation comes into files 1 and 3, an even one into 0 and 2.
pub fn pieces_by_hand()
    ensures new { map (λ p. p.file) (pieces_of Source 1 new_held []) ≡ 1 ∷ 3 ∷ 1 ∷ 1 ∷ [] }
    ensures one_byte { map (λ p. p.file) (pieces_of Source 1 new_held (0 ∷ [])) ≡ 1 ∷ 3 ∷ 1 ∷ 1 ∷ [] }
    ensures over { map (λ p. p.file) (pieces_of Source 4 new_held (snapshot_numbered 2 0x7b)) ≡ 0 ∷ 2 ∷ 0 ∷ 0 ∷ [] }
    ensures closed { map (λ p. p.file) (pieces_of Source 2 new_held (0 ∷ 7 ∷ [])) ≡ 2 ∷ 0 ∷ 0 ∷ [] }
    ensures gates { map (λ p. p.at) (pieces_of Source 1 new_held []) ≡ 0 ∷ 0 ∷ 1 ∷ 0 ∷ [] }
{}
