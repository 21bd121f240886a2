//! One block of numbers.
ghost use Rattle.std.specs.Prelude.{◌≡◌, ◌+◌, ◌-◌, ◌<◌, ◌≤◌, [], ◌++◌, length, take, drop, insert, remove, slice_index, IfOk};

use std::alloc::{AllocError, Global};
use std::marker::Model;

/// How many numbers a block may have.
pub(crate) const HOLDS: usize = 255;

/// Numbers, with room for as many as a block may have.
#[derive(Drop)]
pub struct Block {
    numbers: Vec<u32>,
}

impl Model for Block {
    ghost use Rattle.std.specs.Prelude.{ℕ, List, ◌≤◌, vec_capacity, vec_len};

    ghost Value = { List ℕ };

    ghost view = { λ b. b.numbers.items };

    ghost invariant = { λ b. (vec_len b.numbers ≤ 255) × (255 ≤ vec_capacity b.numbers) };
}

impl Block {
    /// A block without numbers.
    pub(crate) fn new(alloc: Global) -> Result<Block, AllocError>
        ensures { IfOk result (λ b. b ≡ []) }
    {
        Ok(Block {
            numbers: Vec::with_capacity(alloc, HOLDS)?,
        })
    }

    /// Its numbers.
    pub(crate) fn as_slice(&self) -> &[u32]
        ensures value { result.now ≡ self.now }
        ensures few { length self.now ≤ 255 }
    {
        self.numbers.as_slice()
    }

    /// How many numbers it has.
    pub(crate) fn len(&self) -> usize
        ensures count { result ≡ length self.now }
        ensures few { length self.now ≤ 255 }
    {
        self.numbers.len()
    }

    /// Puts a number before the one at a place, or at the end.
    pub(crate) fn insert(&mut self, at: usize, number: u32)
        requires within { at ≤ length self.old }
        requires room { length self.old < 255 }
        ensures { self.new ≡ insert self.old at number }
    {
        // there is room, so no memory is asked for
        let _ = self.numbers.insert(at, number);
    }

    /// Takes the number at a place out.
    pub(crate) fn remove(&mut self, at: usize) -> u32
        requires { at < length self.old }
        ensures number { result ≡ slice_index self.old at }
        ensures rest { self.new ≡ remove self.old at }
    {
        self.numbers.remove(at)
    }

    /// Moves the numbers from a place on to the end of another block.
    pub(crate) fn move_tail(&mut self, from: usize, to: &mut Block)
        requires within { from ≤ length self.old }
        requires room { length to.old + (length self.old - from) ≤ 255 }
        ensures left { self.new ≡ take from self.old }
        ensures moved { to.new ≡ to.old ++ drop from self.old }
    {
        // there is room, so no memory is asked for
        let _ = to.numbers.extend_from_slice(&self.numbers[from..]);
        self.numbers.truncate(from);
    }

    /// Takes all numbers out.
    pub(crate) fn clear(&mut self)
        ensures { self.new ≡ [] }
    {
        self.numbers.clear();
    }
}
