//! Ranges by hand, of which the checker computes which values are in them.
ghost use Rattle.std.specs.Prelude.{◌≡◌, true, false};
ghost use Rattle.val_types.specs.declared.value.Value.TheVariants.{Null};
ghost use Rattle.value_ranges.specs.Ranges.{everything, is_in, met};
ghost use Rattle.value_ranges.specs.Worked.{between, number};

/// From 5 on, to 9 without it; this met with another, either way round; and all.
pub fn ranges_by_hand()
    ensures first { is_in (between 5 9) (number 5) ≡ true }
    ensures last { is_in (between 5 9) (number 8) ≡ true }
    ensures before { is_in (between 5 9) (number 4) ≡ false }
    ensures behind { is_in (between 5 9) (number 9) ≡ false }
    ensures null { is_in (between 5 9) Null ≡ false }
    ensures nearer { met (between 5 9) (between 3 7) ≡ between 5 7 }
    ensures turned { met (between 3 7) (between 5 9) ≡ between 5 7 }
    ensures all { is_in everything Null ≡ true }
{}
