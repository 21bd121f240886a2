//! Values by hand, which the checker computes from the definitions.
ghost use Rattle.std.specs.Prelude.{◌≡◌, [], ◌∷◌, neg_ℤ, None, pos, Some};
ghost use Rattle.val_types.specs.declared.value.Value.TheVariants.{Int, Null};
ghost use Rattle.auto_inc.specs.Counting.{start_value};
ghost use Rattle.auto_inc.specs.Generating.{after_explicit, least_congruent, next_value, used_offset};

/// Offsets and the values looked for: an offset above the increment counts as 0.
pub fn values_looked_for()
    ensures within { used_offset 10 3 ≡ 3 }
    ensures same { used_offset 10 10 ≡ 10 }
    ensures above { used_offset 10 20 ≡ 0 }
    ensures next_block { least_congruent 10 3 4 ≡ 13 }
    ensures at_the_start { least_congruent 10 3 3 ≡ 3 }
    ensures rest_of_nothing { least_congruent 10 (used_offset 10 20) 14 ≡ 20 }
    ensures each { least_congruent 1 1 150 ≡ 150 }
{}

/// The values of a statement: the counter counts before the first one, an explicit value moves what
/// comes behind, and nothing is past the greatest number.
pub fn values_generated()
    ensures first { next_value 4 10 3 (pos 2147483647) None ≡ Some (pos 13) }
    ensures later { next_value 99 10 3 (pos 2147483647) (Some (pos 13, 14)) ≡ Some (pos 23) }
    ensures past { next_value 2147483648 1 1 (pos 2147483647) None ≡ None }
    ensures moved { after_explicit (pos 40) (Some (pos 13, 14)) ≡ Some (pos 13, 41) }
    ensures below { after_explicit (neg_ℤ (pos 5)) (Some (pos 13, 14)) ≡ Some (pos 13, 14) }
{}

/// What counters start with.
pub fn values_at_start()
    ensures greatest { start_value (Some 0) ((Int (pos 3) ∷ Null ∷ []) ∷ (Int (pos 7) ∷ Null ∷ []) ∷ (Int (pos 5) ∷ Null ∷ []) ∷ []) ≡ 8 }
    ensures below { start_value (Some 1) ((Int (pos 3) ∷ Int (neg_ℤ (pos 9)) ∷ []) ∷ (Int (pos 7) ∷ Null ∷ []) ∷ []) ≡ 1 }
    ensures empty { start_value (Some 0) [] ≡ 1 }
    ensures no_column { start_value None ((Int (pos 3) ∷ []) ∷ []) ≡ 1 }
{}
