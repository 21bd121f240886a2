//! Callers of `block_list`, as a test of how little proof it asks of the crates above; the tests of that crate and of `row_arena`.
//!
//! A set of numbers in rising order, kept in blocks.
//!
//! - `tests`: sets that are put together and taken apart, beside a sorted vector; rows under numbers
//!
//! # Proved
//! - [`put_rising`] and [`take_rising`] keep the numbers rising
//!
//! # Only tested
//! That calls succeed with ample memory; which numbers there are after many calls; how many comparisons a
//! search among 1,000 numbers takes.
#![tactic(auto)]

use block_list::Blocks;
use std::alloc::{AllocError, Global};

/// How many numbers a set may have.
pub const MOST: usize = 100_000;

/// Puts a number into a set where it belongs; false where it is there, or where the set has too many.
pub fn put_rising(alloc: Global, set: &mut Blocks, number: u32) -> Result<bool, AllocError> {
    set.make_room(alloc, 1)?;
    match set.find(&|other: u32| other.cmp(&number)) {
        Err(spot) if set.len() < MOST => {
            set.put(spot, number);
            Ok(true)
        }
        _ => Ok(false),
    }
}

/// Takes a number out of a set; false where it is not there.
pub fn take_rising(set: &mut Blocks, number: u32) -> bool {
    match set.find(&|other: u32| other.cmp(&number)) {
        Ok(spot) => {
            let _ = set.take(spot);
            true
        }
        Err(_) => false,
    }
}

/// Whether a set has just the numbers of a list, in its order.
pub fn has_just(set: &Blocks, list: &[u32]) -> bool {
    let mut spot = set.first();
    for number in list {
        if set.get(spot) != Some(*number) {
            return false;
        }
        spot = set.after(spot);
    }
    set.get(spot).is_none() && set.len() == list.len()
}

/// The same from the end.
pub fn has_just_backwards(set: &Blocks, list: &[u32]) -> bool {
    let mut spot = set.end();
    for number in list.iter().rev() {
        match set.before(spot) {
            Some(back) if set.get(back) == Some(*number) => spot = back,
            _ => return false,
        }
    }
    set.before(spot).is_none()
}

#[cfg(test)]
mod tests;
