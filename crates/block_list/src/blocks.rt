//! Numbers in an order of their own.
ghost use Rattle.std.specs.Prelude.{◌≡◌, ◌+◌, ◌-◌, ◌*◌, ◌^◌, ◌<◌, ◌≤◌, ◌↔◌, ℕ, [], length, insert, remove, slice_get, IsTrue, OnOk, OnErr};
ghost use Rattle.block_list.specs.Layouts.{flat, holds, room, AreShaped};
ghost use Rattle.block_list.specs.Spots.{block_at, place, IsAt, IsSpot};

use crate::block::Block;
use crate::changing::{put_into, take_from};
use crate::spot::Spot;
use std::alloc::{AllocError, Global};
use std::marker::Model;

/// Numbers in blocks: those in use, and spare ones, each with room for all that a block may have.
#[derive(Drop)]
pub struct Blocks {
    blocks: Vec<Block>,
    spares: Vec<Block>,
    count: usize,
}

impl Model for Blocks {
    ghost use Rattle.std.specs.Prelude.{◌≡◌, ◌+◌, ◌^◌, ◌≤◌, length, vec_capacity, vec_len};
    ghost use Rattle.block_list.specs.Layouts.{Layout, flat, AreShaped};

    ghost Value = { Layout };

    ghost view = { λ b. record { blocks = b.blocks.items; spares = vec_len b.spares } };

    ghost invariant = { λ b. record {
      shaped : AreShaped b.blocks.items;
      counted : b.count ≡ length (flat b.blocks.items);
      few : b.count ≤ 2 ^ 32;
      room_for_blocks : vec_len b.blocks + vec_len b.spares ≤ vec_capacity b.blocks;
      room_for_spares : vec_len b.blocks + vec_len b.spares ≤ vec_capacity b.spares;
    } };
}

impl Blocks {
    /// No numbers, which take no memory until there is to be room for some.
    pub fn new(alloc: Global) -> Blocks
        ensures numbers { flat result.blocks ≡ [] }
    {
        Blocks {
            blocks: Vec::new(alloc),
            spares: Vec::new(alloc),
            count: 0,
        }
    }

    /// How many numbers there are.
    pub fn len(&self) -> usize
        ensures count { result ≡ length (flat self.now.blocks) }
        ensures few { result ≤ 2 ^ 32 }
    {
        self.count
    }

    /// Whether there are none.
    pub fn is_empty(&self) -> bool
        ensures { IsTrue result ↔ (length (flat self.now.blocks) ≡ 0) }
    {
        self.count == 0
    }

    /// The numbers of a block, none behind the last one.
    pub(crate) fn numbers_of(&self, block: usize) -> &[u32]
        ensures value { result.now ≡ block_at self.now.blocks block }
        ensures few { length result.now ≤ 255 }
        ensures some { block < length self.now.blocks → 0 < length result.now }
    {
        match self.blocks.get(block) {
            Some(numbers) => numbers.as_slice(),
            None => &[],
        }
    }

    /// How many blocks are in use.
    pub(crate) fn block_count(&self) -> usize
        ensures count { result ≡ length self.now.blocks }
        ensures shaped { AreShaped self.now.blocks }
    {
        self.blocks.len()
    }

    /// Puts a number before the one at a spot, which takes no memory.
    pub fn put(&mut self, spot: Spot, number: u32)
        requires spot { IsSpot self.old.blocks spot }
        requires room { 0 < room self.old }
        requires few { length (flat self.old.blocks) < 2 ^ 32 }
        ensures numbers { flat self.new.blocks ≡ insert (flat self.old.blocks) (place self.old.blocks spot) number }
        ensures room { room self.old ≤ room self.new + 1 }
        ensures holds { holds self.new ≡ holds self.old }
    {
        put_into(&mut self.blocks, &mut self.spares, spot, number);
        self.count += 1;
    }

    /// Takes the number at a spot out, which takes no memory and leaves the room for others.
    pub fn take(&mut self, spot: Spot) -> u32
        requires { IsAt self.old.blocks spot }
        ensures number { slice_get (flat self.old.blocks) (place self.old.blocks spot) ≡ Some result }
        ensures numbers { flat self.new.blocks ≡ remove (flat self.old.blocks) (place self.old.blocks spot) }
        ensures room { room self.old ≤ room self.new }
        ensures holds { holds self.new ≡ holds self.old }
    {
        self.count -= 1;
        take_from(&mut self.blocks, &mut self.spares, spot)
    }

    /// Makes room for so many more numbers, wherever they are put. Where there is no memory, there may be more room than before.
    pub fn make_room(&mut self, alloc: Global, more: usize) -> Result<(), AllocError>
        requires { more ≤ 2 ^ 32 }
        ensures made { OnOk result (more ≤ room self.new) }
        ensures numbers { self.new.blocks ≡ self.old.blocks }
        ensures room { room self.old ≤ room self.new }
        ensures holds { holds self.old ≤ holds self.new }
    {
        // each spare block is room for one number at least, and for half of what it holds where there are so many
        let needed = usize::min(more, (self.count + 2 * more).div_ceil(256));
        while self.spares.len() < needed {
            self.add_spare(alloc)?;
        }
        Ok(())
    }

    /// Makes blocks that hold so many numbers, however often they are taken out and put at other places. Where there is no memory, there
    /// may be more of them than before.
    pub fn make_hold(&mut self, alloc: Global, count: usize) -> Result<(), AllocError>
        requires { count ≤ 2 ^ 33 }
        ensures made { OnOk result (count ≤ holds self.new) }
        ensures numbers { self.new.blocks ≡ self.old.blocks }
        ensures room { room self.old ≤ room self.new }
        ensures holds { holds self.old ≤ holds self.new }
    {
        let needed = count.div_ceil(128) + usize::min(count, 1);
        while self.blocks.len() + self.spares.len() < needed {
            self.add_spare(alloc)?;
        }
        Ok(())
    }

    /// A law: where fewer numbers stand than all blocks hold, there is room for one more.
    pub fn has_room(&self)
        ensures { length (flat self.now.blocks) < holds self.now → 0 < room self.now }
    {
        let _ = &self.count;
    }

    /// Makes one more spare block.
    fn add_spare(&mut self, alloc: Global) -> Result<(), AllocError>
        ensures numbers { self.new.blocks ≡ self.old.blocks }
        ensures ok { OnOk result (self.new.spares ≡ self.old.spares + 1) }
        ensures err { OnErr result (self.new.spares ≡ self.old.spares) }
    {
        self.blocks.reserve(self.spares.len() + 1)?;
        self.spares.reserve(self.blocks.len() + 1)?;
        self.spares.push_reserved(Block::new(alloc)?);
        Ok(())
    }

    /// Takes all numbers out, and keeps the room.
    pub fn clear(&mut self)
        ensures numbers { flat self.new.blocks ≡ [] }
        ensures room { room self.old ≤ room self.new }
        ensures holds { holds self.new ≡ holds self.old }
    {
        // there is room, so no memory is asked for
        let _ = self.spares.append(&mut self.blocks);
        self.count = 0;
    }
}
