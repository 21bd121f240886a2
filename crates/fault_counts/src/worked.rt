//! Counts by hand.
ghost use Rattle.std.specs.Prelude.{◌≡◌, ℕ, ◌-◌, ◌^◌, Result, Ok, Err};
ghost use Rattle.fault_counts.specs.Causes.{HasCause, Rose, one_more};

/// A count goes on by one and stands still at its last value. A count that stays has not risen, unless it
/// stands there. A call that is well may leave the count, one that answers a fault may not.
pub fn counts_by_hand()
    ensures next { one_more 7 ≡ 8 }
    ensures last { one_more (2 ^ 64 - 1) ≡ 2 ^ 64 - 1 }
    ensures rose { Rose 7 8 }
    ensures rose_twice { Rose 7 9 }
    ensures stayed { ¬ Rose 7 7 }
    ensures rose_to_last { Rose (2 ^ 64 - 2) (2 ^ 64 - 1) }
    ensures at_last { Rose (2 ^ 64 - 1) (2 ^ 64 - 1) }
    ensures well { HasCause {T = ℕ} {E = ℕ} 7 7 (Ok 1) }
    ensures fault { HasCause {T = ℕ} {E = ℕ} 7 8 (Err 0) }
    ensures no_fault { ¬ HasCause {T = ℕ} {E = ℕ} 7 7 (Err 0) }
{}
