//! Numbers read where they stand, one after the other.
ghost use Rattle.std.specs.Prelude.{◌≡◌, ◌+◌, ◌<◌, length, slice_get, IfSome, IfNone};
ghost use Rattle.block_list.specs.Layouts.{flat};
ghost use Rattle.block_list.specs.Spots.{place, IsAt, IsSpot};

use crate::blocks::Blocks;
use crate::spot::Spot;

impl Blocks {
    /// Where the first number stands.
    pub fn first(&self) -> Spot
        ensures spot { IsSpot self.now.blocks result }
        ensures place { place self.now.blocks result ≡ 0 }
    {
        Spot { block: 0, at: 0 }
    }

    /// The spot of the number at the place of a spot, which may be behind the last one of a block; None behind all.
    pub fn standing(&self, spot: Spot) -> Option<Spot>
        requires { IsSpot self.now.blocks spot }
        ensures some { IfSome result (λ here. IsAt self.now.blocks here × (place self.now.blocks here ≡ place self.now.blocks spot)) }
        ensures few { IfSome result (λ here. here.at < 255) }
        ensures none { IfNone result (place self.now.blocks spot ≡ length (flat self.now.blocks)) }
    {
        if spot.at < self.numbers_of(spot.block).len() {
            return Some(spot);
        }
        let blocks = self.block_count();
        if spot.block + 1 < blocks {
            return Some(Spot {
                block: spot.block + 1,
                at: 0,
            });
        }
        None
    }

    /// The number at a spot, None behind the last one.
    pub fn get(&self, spot: Spot) -> Option<u32>
        requires { IsSpot self.now.blocks spot }
        ensures { result ≡ slice_get (flat self.now.blocks) (place self.now.blocks spot) }
    {
        match self.standing(spot) {
            Some(here) => Some(self.numbers_of(here.block)[here.at]),
            None => None,
        }
    }

    /// Where the next number stands, or the end.
    pub fn after(&self, spot: Spot) -> Spot
        requires spot { IsSpot self.now.blocks spot }
        requires within { place self.now.blocks spot < length (flat self.now.blocks) }
        ensures spot { IsSpot self.now.blocks result }
        ensures place { place self.now.blocks result ≡ place self.now.blocks spot + 1 }
    {
        match self.standing(spot) {
            Some(here) => Spot {
                block: here.block,
                at: here.at + 1,
            },
            None => spot,
        }
    }

    /// The end: behind the last number.
    pub fn end(&self) -> Spot
        ensures spot { IsSpot self.now.blocks result }
        ensures place { place self.now.blocks result ≡ length (flat self.now.blocks) }
    {
        let block = self.block_count().saturating_sub(1);
        Spot {
            block,
            at: self.numbers_of(block).len(),
        }
    }

    /// Where the number before a spot stands, None at the first one.
    pub fn before(&self, spot: Spot) -> Option<Spot>
        requires { IsSpot self.now.blocks spot }
        ensures some { IfSome result (λ back. IsAt self.now.blocks back × (place self.now.blocks back + 1 ≡ place self.now.blocks spot)) }
        ensures none { IfNone result (place self.now.blocks spot ≡ 0) }
    {
        if spot.at > 0 {
            return Some(Spot {
                block: spot.block,
                at: spot.at - 1,
            });
        }
        if spot.block == 0 {
            return None;
        }
        let block = spot.block - 1;
        Some(Spot {
            block,
            at: self.numbers_of(block).len() - 1,
        })
    }
}
