//! A number put among those of blocks, or taken out, so that the blocks keep their shape.
ghost use Rattle.std.specs.Prelude.{◌≡◌, ◌+◌, ◌<◌, ◌≤◌, ℕ, List, [], ◌∷◌, ◌++◌, length, insert, remove, slice_get, vec_len, vec_capacity};
ghost use Rattle.block_list.specs.Layouts.{flat, room, AreShaped};
ghost use Rattle.block_list.specs.Joining.{Becomes};
ghost use Rattle.block_list.specs.Spots.{block_at, place, IsAt, IsSpot};

use crate::block::{Block, HOLDS};
use crate::joining::{join_around, put_last, split};
use crate::spot::Spot;

/// Puts a number into a full block: behind the last one into a new block, else the block is split.
fn put_in_full(blocks: &mut Vec<Block>, spares: &mut Vec<Block>, spot: Spot, number: u32)
    requires shaped { AreShaped blocks.old.items }
    requires there { spot.block < vec_len blocks.old }
    requires full { length (block_at blocks.old.items spot.block) ≡ 255 }
    requires within { spot.at ≤ 255 }
    requires spare { 0 < vec_len spares.old }
    requires room_for_blocks { vec_len blocks.old + vec_len spares.old ≤ vec_capacity blocks.old }
    requires room_for_spares { vec_len blocks.old + vec_len spares.old ≤ vec_capacity spares.old }
    ensures blocks { Becomes blocks.old.items blocks.new.items (insert (flat blocks.old.items) (place blocks.old.items spot) number) 1 }
    ensures count { vec_len blocks.new + vec_len spares.new ≡ vec_len blocks.old + vec_len spares.old }
    ensures spares { vec_len spares.old ≤ vec_len spares.new + 1 }
    ensures capacity_of_blocks { vec_capacity blocks.new ≡ vec_capacity blocks.old }
    ensures capacity_of_spares { vec_capacity spares.new ≡ vec_capacity spares.old }
{
    if spot.at == HOLDS && spot.block + 1 == blocks.len() {
        put_last(blocks, spares, number);
    } else {
        split(blocks, spares, spot, number);
        join_around(blocks, spares, spot.block, spot.block + 1);
    }
}

/// Puts a number before the one at a spot.
pub(crate) fn put_into(blocks: &mut Vec<Block>, spares: &mut Vec<Block>, spot: Spot, number: u32)
    requires shaped { AreShaped blocks.old.items }
    requires spot { IsSpot blocks.old.items spot }
    requires room { 0 < room (record { blocks = blocks.old.items; spares = vec_len spares.old }) }
    requires room_for_blocks { vec_len blocks.old + vec_len spares.old ≤ vec_capacity blocks.old }
    requires room_for_spares { vec_len blocks.old + vec_len spares.old ≤ vec_capacity spares.old }
    ensures blocks { Becomes blocks.old.items blocks.new.items (insert (flat blocks.old.items) (place blocks.old.items spot) number) 1 }
    ensures count { vec_len blocks.new + vec_len spares.new ≡ vec_len blocks.old + vec_len spares.old }
    ensures spares { vec_len spares.old ≤ vec_len spares.new + 1 }
    ensures capacity_of_blocks { vec_capacity blocks.new ≡ vec_capacity blocks.old }
    ensures capacity_of_spares { vec_capacity spares.new ≡ vec_capacity spares.old }
{
    if blocks.is_empty() {
        return put_last(blocks, spares, number);
    }
    if blocks[spot.block].len() == HOLDS {
        return put_in_full(blocks, spares, spot, number);
    }
    blocks[spot.block].insert(spot.at, number);
}

/// Takes the number at a spot out.
pub(crate) fn take_from(blocks: &mut Vec<Block>, spares: &mut Vec<Block>, spot: Spot) -> u32
    requires shaped { AreShaped blocks.old.items }
    requires spot { IsAt blocks.old.items spot }
    requires room_for_spares { vec_len blocks.old + vec_len spares.old ≤ vec_capacity spares.old }
    ensures number { slice_get (flat blocks.old.items) (place blocks.old.items spot) ≡ Some result }
    ensures blocks { Becomes blocks.old.items blocks.new.items (remove (flat blocks.old.items) (place blocks.old.items spot)) 0 }
    ensures count { vec_len blocks.new + vec_len spares.new ≡ vec_len blocks.old + vec_len spares.old }
    ensures spares { vec_len spares.old ≤ vec_len spares.new }
    ensures capacity_of_blocks { vec_capacity blocks.new ≡ vec_capacity blocks.old }
    ensures capacity_of_spares { vec_capacity spares.new ≡ vec_capacity spares.old }
{
    let number = blocks[spot.block].remove(spot.at);
    if blocks[spot.block].len() == 0 {
        // its neighbours are full, since two have more than one block holds
        spares.push_reserved(blocks.remove(spot.block));
    } else {
        join_around(blocks, spares, spot.block, spot.block);
    }
    number
}
