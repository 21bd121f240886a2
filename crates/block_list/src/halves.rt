//! What is looked for by halves.
ghost use Rattle.std.specs.Prelude.{◌≡◌, ◌+◌, ◌-◌, ◌*◌, ◌^◌, ◌<◌, ◌≤◌, ℕ, MatchResult};
ghost use Rattle.std.specs.declared.cmp.Ordering.{Ordering as Order};
ghost use Rattle.block_list.specs.Places.{AreParted, Computes, IsPlace};

use crate::counting::Steps;
use std::cmp::Ordering;
use std::sync::ledger::Ledger;

/// Where among so many what is looked for stands, or belongs, by how the one at a place compares with it; in at most as many
/// comparisons as the count has binary digits.
pub(crate) fn place_in<L: Ledger, F: Fn(usize) -> Ordering>(
    count: usize,
    compare_at: &F,
    steps: &mut Steps<L>,
) -> Result<usize, usize>
    requires callable { (at : ℕ) → at < count → F.pre compare_at.now at }
    ensures within { MatchResult result (λ at. at < count) (λ at. at ≤ count) }
    ensures place { (order : ℕ → Order) → ((at : ℕ) (o : Order) → at < count → F.post compare_at.now at o → o ≡ order at) → AreParted order count → IsPlace order count result }
    ensures cost { 2 ^ (steps.new - steps.old) ≤ 2 * count + 1 }
    ensures more { steps.old ≤ steps.new }
{
    let mut low = 0;
    let mut high = count;
    while low < high {
        let middle = low + (high - low) / 2;
        steps.tick();
        match compare_at(middle) {
            Ordering::Less => low = middle + 1,
            Ordering::Greater => high = middle,
            Ordering::Equal => return Ok(middle),
        }
    }
    Err(low)
}
