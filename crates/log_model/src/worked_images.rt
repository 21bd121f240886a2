//! Rows in bytes by hand, which the checker computes from the definitions.
ghost use Rattle.std.specs.Prelude.{◌≡◌, [], ◌∷◌, codes, false, neg_ℤ, pos, true, None, Some, ℕ};
ghost use Rattle.val_types.specs.declared.change.Change.TheVariants.{Delete as Remove, Insert, Update as Replace};
ghost use Rattle.val_types.specs.declared.definitions.ColType.TheVariants.{BigInt, Int as IntType, Varchar};
ghost use Rattle.val_types.specs.declared.value.Value.TheVariants.{Int, Null, Text};
ghost use Rattle.event_codec.specs.declared.event.RowsKind.TheVariants.{Delete, Update, Write};
ghost use Rattle.event_codec.specs.Event.{Map, Rows};
ghost use Rattle.log_model.specs.Images.{are_rows, change_bytes, changes_at, changes_in, row_at, row_bytes, types_of};
ghost use Rattle.log_model.specs.Worked.{pairs, pair_bytes};

/// Rows of two numbers, of NULL and of texts, both ways.
#[tactic(auto, unfolding(crate::specs::Images::row_bytes, crate::specs::Images::row_at, crate::specs::Images::changes_at, byte_fields::specs::Unroll::all_from, byte_fields::specs::Field::number_bytes, byte_fields::specs::Field::number_at))]
pub fn rows_by_hand()
    ensures types { types_of (3 ∷ 15 ∷ 8 ∷ []) (0x2c ∷ 1 ∷ []) ≡ IntType ∷ Varchar 300 ∷ BigInt ∷ [] }
    ensures numbers { row_bytes (IntType ∷ IntType ∷ []) (Int (pos 1) ∷ Int (pos 10) ∷ []) ≡ 0 ∷ 1 ∷ 0 ∷ 0 ∷ 0 ∷ 10 ∷ 0 ∷ 0 ∷ 0 ∷ [] }
    ensures null_and_text { row_bytes (BigInt ∷ Varchar 300 ∷ []) (Null ∷ Text (codes "ab") ∷ []) ≡ 1 ∷ 2 ∷ 0 ∷ 0x61 ∷ 0x62 ∷ [] }
    ensures negative { row_at (IntType ∷ Varchar 9 ∷ []) (2 ∷ 0xfb ∷ 0xff ∷ 0xff ∷ 0xff ∷ 7 ∷ []) ≡ Some (Int (neg_ℤ (pos 5)) ∷ Null ∷ [], 7 ∷ []) }
    ensures too_long { row_at (Varchar 1 ∷ []) (0 ∷ 2 ∷ 0x61 ∷ 0x62 ∷ []) ≡ None }
    ensures no_columns { row_at [] (0 ∷ []) ≡ None }
    ensures put_in { changes_at Write (codes "t") (IntType ∷ []) (0 ∷ 1 ∷ 0 ∷ 0 ∷ 0 ∷ 1 ∷ []) ≡ (Insert (codes "t") (Int (pos 1) ∷ []) ∷ Insert (codes "t") (Null ∷ []) ∷ [], []) }
    ensures changed { changes_at Update (codes "t") (IntType ∷ []) (1 ∷ 1 ∷ []) ≡ (Replace (codes "t") (Null ∷ []) (Null ∷ []) ∷ [], []) }
    ensures half { changes_at Update (codes "t") (IntType ∷ []) (1 ∷ 1 ∷ 1 ∷ []) ≡ (Replace (codes "t") (Null ∷ []) (Null ∷ []) ∷ [], 1 ∷ []) }
    ensures two_numbers { are_rows (pairs 1) (record { kind = Write; id = 1; ends = true; columns = 2; rows = pair_bytes }) ≡ true }
    ensures other_count { are_rows (pairs 1) (record { kind = Write; id = 1; ends = true; columns = 3; rows = pair_bytes }) ≡ false }
{}
