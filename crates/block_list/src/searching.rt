//! A number looked for in few comparisons: first among the first numbers of all blocks but the first, then in one block.
ghost use Rattle.std.specs.Prelude.{◌≡◌, ◌+◌, ◌-◌, ◌*◌, ◌^◌, ◌<◌, ◌≤◌, ℕ, length, slice_index, MatchResult};
ghost use Rattle.std.specs.declared.cmp.Ordering.{Ordering as Order};
ghost use Rattle.block_list.specs.Layouts.{flat, AreWithinDigits};
ghost use Rattle.block_list.specs.Places.{AreInOrder, Computes, IsPlace};
ghost use Rattle.block_list.specs.Spots.{block_at, place, IsAt, IsFound, IsSpot};

use crate::blocks::Blocks;
use crate::counting::Steps;
use crate::halves::place_in;
use crate::spot::Spot;
use std::cmp::Ordering;
use std::marker::Brand;
use std::sync::ledger::{Blank, Ledger};

/// Where in some numbers what is looked for stands, or belongs.
fn place_of<L: Ledger, F: Fn(u32) -> Ordering>(
    numbers: &[u32],
    compare: &F,
    steps: &mut Steps<L>,
) -> Result<usize, usize>
    requires callable { F.IsAlwaysCallable compare.now }
    ensures within { MatchResult result (λ at. at < length numbers.now) (λ at. at ≤ length numbers.now) }
    ensures place { (order : ℕ → Order) → Computes (F.post compare.now) order → AreInOrder order numbers.now → IsPlace (λ at. order (slice_index numbers.now at)) (length numbers.now) result }
    ensures cost { 2 ^ (steps.new - steps.old) ≤ 2 * length numbers.now + 1 }
    ensures more { steps.old ≤ steps.new }
{
    let compare_at = |at: usize| -> Ordering
        requires callable { F.IsAlwaysCallable compare.now }
        requires within { at < length numbers.now }
        ensures { F.post compare.entry.now (slice_index numbers.entry.now at) result }
    { compare(numbers[at]) };
    place_in(numbers.len(), &compare_at, steps)
}

impl Blocks {
    /// The block in which what is looked for stands or belongs, less one; Ok where it is the first number of that block.
    fn block_of<L: Ledger, F: Fn(u32) -> Ordering>(
        &self,
        compare: &F,
        steps: &mut Steps<L>,
    ) -> Result<usize, usize>
        requires callable { F.IsAlwaysCallable compare.now }
        requires some { 0 < length self.now.blocks }
        ensures within { MatchResult result (λ at. at < length self.now.blocks - 1) (λ at. at ≤ length self.now.blocks - 1) }
        ensures place { (order : ℕ → Order) → Computes (F.post compare.now) order → AreInOrder order (flat self.now.blocks) → IsPlace (λ at. order (slice_index (block_at self.now.blocks (at + 1)) 0)) (length self.now.blocks - 1) result }
        ensures cost { 2 ^ (steps.new - steps.old) ≤ 2 * (length self.now.blocks - 1) + 1 }
        ensures more { steps.old ≤ steps.new }
    {
        let blocks = self.block_count();
        let compare_at = |at: usize| -> Ordering
            requires callable { F.IsAlwaysCallable compare.now }
            requires some { 0 < length (block_at self.now.blocks (at + 1)) }
            requires fits { at + 1 < 2 ^ 64 }
            ensures { F.post compare.entry.now (slice_index (block_at self.entry.now.blocks (at + 1)) 0) result }
        { compare(self.numbers_of(at + 1)[0]) };
        place_in(blocks - 1, &compare_at, steps)
    }

    /// Where a number stands or belongs, by a comparison that says how a number stands to what is looked for: in at most one
    /// comparison more than the count of numbers has binary digits.
    pub fn search<L: Ledger, F: Fn(u32) -> Ordering>(
        &self,
        compare: &F,
        steps: &mut Steps<L>,
    ) -> Result<Spot, Spot>
        requires callable { F.IsAlwaysCallable compare.now }
        ensures spot { MatchResult result (λ spot. IsAt self.now.blocks spot) (λ spot. IsSpot self.now.blocks spot) }
        ensures place { (order : ℕ → Order) → Computes (F.post compare.now) order → AreInOrder order (flat self.now.blocks) → IsFound order self.now.blocks result }
        ensures cost { AreWithinDigits (length (flat self.now.blocks)) (steps.new - steps.old) }
        ensures more { steps.old ≤ steps.new }
    {
        if self.block_count() == 0 {
            return Err(self.first());
        }
        match self.block_of(compare, steps) {
            Ok(before) => Ok(Spot {
                block: before + 1,
                at: 0,
            }),
            Err(block) => match place_of(self.numbers_of(block), compare, steps) {
                Ok(at) => Ok(Spot { block, at }),
                Err(at) => Err(Spot { block, at }),
            },
        }
    }

    /// The same where nobody counts.
    pub fn find<F: Fn(u32) -> Ordering>(&self, compare: &F) -> Result<Spot, Spot>
        requires callable { F.IsAlwaysCallable compare.now }
        ensures spot { MatchResult result (λ spot. IsAt self.now.blocks spot) (λ spot. IsSpot self.now.blocks spot) }
        ensures place { (order : ℕ → Order) → Computes (F.post compare.now) order → AreInOrder order (flat self.now.blocks) → IsFound order self.now.blocks result }
    {
        self.find_in::<Brand, F>(compare, Blank::new(1))
    }

    /// The same in a ledger of its own.
    fn find_in<L: Ledger, F: Fn(u32) -> Ordering>(
        &self,
        compare: &F,
        blank: Blank,
    ) -> Result<Spot, Spot>
        requires name { blank.name ≡ L.name }
        requires parts { blank.parts ≡ L.parts }
        requires some { 0 < blank.parts }
        requires callable { F.IsAlwaysCallable compare.now }
        ensures spot { MatchResult result (λ spot. IsAt self.now.blocks spot) (λ spot. IsSpot self.now.blocks spot) }
        ensures place { (order : ℕ → Order) → Computes (F.post compare.now) order → AreInOrder order (flat self.now.blocks) → IsFound order self.now.blocks result }
    {
        let mut steps: Steps<L> = Steps::new(blank);
        self.search(compare, &mut steps)
    }
}
