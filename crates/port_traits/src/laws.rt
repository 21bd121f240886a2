//! What follows of counts and of draws, as contracts of functions that do nothing.
ghost use Rattle.std.specs.Prelude.{◌≡◌, ℕ, ◌+◌, ◌-◌, ◌^◌, ◌<◌, ◌≤◌, ◌++◌, List, [], length, take, min, slice_get, Option, option_map, IfSome};
ghost use Rattle.port_traits.specs.declared.identity.Draw.{Draw};
ghost use Rattle.fault_counts.specs.Causes.{Rose};
ghost use Rattle.port_traits.specs.Streams.{Took};
ghost use Rattle.port_traits.specs.Draws.{draws_after, draws_left, handed_out};

/// A law of counts: one that stayed as it was has not risen, unless it stands at its last value,
/// and one that rose has risen also since before and until later.
pub fn counts_rise()
    ensures stays { (count : ℕ) → count < 2 ^ 64 - 1 → ¬ Rose count count }
    ensures earlier { (a b c : ℕ) → a ≤ b → Rose b c → Rose a c }
    ensures later { (a b c : ℕ) → Rose a b → b ≤ c → Rose a c }
{}

/// A law of reads: what was read before, the bytes that a read took and what is left then are all
/// that there was, and a read with room that took nothing found nothing left,
/// so that what was read before is all.
pub fn reads_join()
    ensures joined { (front : List ℕ) (before after : Option (List ℕ)) (count : ℕ) (buffer : List ℕ)
        → Took before after count buffer
        → option_map (λ rest. (front ++ take count buffer) ++ rest) after
        ≡ option_map (λ rest. front ++ rest) before }
    ensures end { (before after : Option (List ℕ)) (buffer : List ℕ) → Took before after 0 buffer
        → 0 < length buffer → IfSome before (λ left. left ≡ []) }
    ensures all { (front : List ℕ) (start before after : Option (List ℕ)) (buffer : List ℕ)
        → option_map (λ rest. front ++ rest) before ≡ start → Took before after 0 buffer
        → 0 < length buffer → IfSome start (λ left. front ≡ left) }
{}

/// A law of draws: one draw more is the first of those that are left, which is then taken off,
/// and where there is a draw there is always one left. The draw at a place
/// is the one at that place in the list, past its end the last one.
pub fn draws_come_in_order()
    ensures next { (n : ℕ) (ds : List Draw)
        → handed_out (n + 1) ds ≡ handed_out n ds ++ take 1 (draws_left n ds) }
    ensures left { (n : ℕ) (ds : List Draw) → draws_after (draws_left n ds) ≡ draws_left (n + 1) ds }
    ensures some { (n : ℕ) (ds : List Draw) → 0 < length ds → 0 < length (draws_left n ds) }
    ensures count { (n : ℕ) (ds : List Draw) → 0 < length ds → length (handed_out n ds) ≡ n }
    ensures each { (n k : ℕ) (ds : List Draw) → k < n
        → slice_get (handed_out n ds) k ≡ slice_get ds (min k (length ds - 1)) }
{}
