//! Blocks split and joined. What is done here may leave the shape of blocks for a while, so it is done to vectors.
ghost use Rattle.std.specs.Prelude.{◌≡◌, ◌+◌, ◌-◌, ◌<◌, ◌≤◌, ℕ, List, [], ◌∷◌, ◌++◌, length, take, drop, insert, vec_len, vec_capacity};
ghost use Rattle.block_list.specs.Joining.{joined};
ghost use Rattle.block_list.specs.Spots.{block_at};

use crate::block::{Block, HOLDS};
use crate::spot::Spot;

/// How many numbers each half of a block has that was full and is split.
const HALF: usize = 128;

/// Joins the block at a place with the one behind it, where the two fit one block.
fn join(blocks: &mut Vec<Block>, spares: &mut Vec<Block>, at: usize)
    requires there { at < vec_len blocks.old }
    requires room { vec_len blocks.old + vec_len spares.old ≤ vec_capacity spares.old }
    ensures blocks { blocks.new.items ≡ joined (take (at + 1) blocks.old.items) (drop (at + 1) blocks.old.items) }
    ensures count { vec_len blocks.new + vec_len spares.new ≡ vec_len blocks.old + vec_len spares.old }
    ensures spares { vec_len spares.old ≤ vec_len spares.new }
    ensures room_for_blocks { vec_capacity blocks.new ≡ vec_capacity blocks.old }
    ensures room_for_spares { vec_capacity spares.new ≡ vec_capacity spares.old }
{
    if at + 1 == blocks.len() || blocks[at].len() + blocks[at + 1].len() > HOLDS {
        return;
    }
    let mut behind = blocks.remove(at + 1);
    behind.move_tail(0, &mut blocks[at]);
    spares.push_reserved(behind);
}

/// Joins the blocks from one place to another with their neighbours.
pub(crate) fn join_around(
    blocks: &mut Vec<Block>,
    spares: &mut Vec<Block>,
    first: usize,
    last: usize,
)
    requires order { first ≤ last }
    requires there { last < vec_len blocks.old }
    requires room { vec_len blocks.old + vec_len spares.old ≤ vec_capacity spares.old }
    ensures blocks { blocks.new.items ≡ joined (take first blocks.old.items) (joined (drop first (take (last + 1) blocks.old.items)) (drop (last + 1) blocks.old.items)) }
    ensures count { vec_len blocks.new + vec_len spares.new ≡ vec_len blocks.old + vec_len spares.old }
    ensures spares { vec_len spares.old ≤ vec_len spares.new }
    ensures room_for_blocks { vec_capacity blocks.new ≡ vec_capacity blocks.old }
    ensures room_for_spares { vec_capacity spares.new ≡ vec_capacity spares.old }
{
    join(blocks, spares, last);
    if first > 0 {
        join(blocks, spares, first - 1);
    }
}

/// Puts a number into a full block, of which the second half goes into an empty one.
fn put_in_halves(front: &mut Block, behind: &mut Block, at: usize, number: u32)
    requires full { length front.old ≡ 255 }
    requires empty { behind.old ≡ [] }
    requires within { at ≤ 255 }
    ensures front { front.new ≡ take 128 (insert front.old at number) }
    ensures behind { behind.new ≡ drop 128 (insert front.old at number) }
{
    if at < HALF {
        front.move_tail(HALF - 1, behind);
        front.insert(at, number);
    } else {
        front.move_tail(HALF, behind);
        behind.insert(at - HALF, number);
    }
}

/// Puts a number into a full block, which is split into two.
pub(crate) fn split(blocks: &mut Vec<Block>, spares: &mut Vec<Block>, spot: Spot, number: u32)
    requires there { spot.block < vec_len blocks.old }
    requires full { length (block_at blocks.old.items spot.block) ≡ 255 }
    requires within { spot.at ≤ 255 }
    requires spare { 0 < vec_len spares.old }
    requires room { vec_len blocks.old < vec_capacity blocks.old }
    ensures blocks { let whole = insert (block_at blocks.old.items spot.block) spot.at number in blocks.new.items ≡ take spot.block blocks.old.items ++ take 128 whole ∷ (drop 128 whole ∷ drop (spot.block + 1) blocks.old.items) }
    ensures count { vec_len blocks.new ≡ vec_len blocks.old + 1 }
    ensures spares { vec_len spares.new + 1 ≡ vec_len spares.old }
    ensures room_for_blocks { vec_capacity blocks.new ≡ vec_capacity blocks.old }
    ensures room_for_spares { vec_capacity spares.new ≡ vec_capacity spares.old }
{
    let mut behind = spares.take_last();
    behind.clear();
    put_in_halves(&mut blocks[spot.block], &mut behind, spot.at, number);
    // there is room, so no memory is asked for
    let _ = blocks.insert(spot.block + 1, behind);
}

/// Puts a number into a new last block.
pub(crate) fn put_last(blocks: &mut Vec<Block>, spares: &mut Vec<Block>, number: u32)
    requires spare { 0 < vec_len spares.old }
    requires room { vec_len blocks.old < vec_capacity blocks.old }
    ensures blocks { blocks.new.items ≡ blocks.old.items ++ (number ∷ []) ∷ [] }
    ensures count { vec_len blocks.new ≡ vec_len blocks.old + 1 }
    ensures spares { vec_len spares.new + 1 ≡ vec_len spares.old }
    ensures room_for_blocks { vec_capacity blocks.new ≡ vec_capacity blocks.old }
    ensures room_for_spares { vec_capacity spares.new ≡ vec_capacity spares.old }
{
    let mut last = spares.take_last();
    last.clear();
    last.insert(0, number);
    blocks.push_reserved(last);
}
