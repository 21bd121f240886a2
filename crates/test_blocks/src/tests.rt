//! Sets of numbers put together and taken apart, each beside a sorted vector that has the same numbers.

ghost use Rattle.std.specs.Prelude.{◌<◌};

use super::*;
use row_arena::RowArena;
use sharing::Shared;
use std::cell::Cell;
use std::process::Abort;
use std::test::Fail;
use val_types::{List, Row, Value};

/// A set, and the sorted vector beside it.
#[derive(Drop)]
struct Pair {
    set: Blocks,
    list: Vec<u32>,
}

impl Pair {
    fn new(alloc: Global) -> Pair {
        Pair {
            set: Blocks::new(alloc),
            list: Vec::new(alloc),
        }
    }

    /// Puts a number into both; whether both had it, or both had it not.
    fn put(&mut self, alloc: Global, number: u32) -> Result<bool, Fail> {
        let is_new = put_rising(alloc, &mut self.set, number)?;
        match self.list.binary_search(&number) {
            Ok(_) => Ok(!is_new),
            Err(at) => {
                self.list.insert(at, number)?;
                Ok(is_new)
            }
        }
    }

    /// Takes a number out of both; whether both had it, or both had it not.
    fn take(&mut self, number: u32) -> bool {
        let was_there = take_rising(&mut self.set, number);
        match self.list.binary_search(&number) {
            Ok(at) => {
                let _ = self.list.remove(at);
                was_there
            }
            Err(_) => !was_there,
        }
    }

    /// Whether both have the same numbers.
    fn agrees(&self) -> bool {
        has_just(&self.set, self.list.as_slice())
            && has_just_backwards(&self.set, self.list.as_slice())
    }
}

/// The next of a row of numbers that look drawn by lot.
fn next(seed: u32) -> u32 {
    seed.wrapping_mul(1_664_525).wrapping_add(1_013_904_223)
}

/// Puts and takes some 3,000 numbers below a bound, more puts than takes at first and then fewer.
fn put_and_take(
    rt: &impl Abort,
    pair: &mut Pair,
    alloc: Global,
    seed: u32,
    below: u32,
) -> Result<(), Fail>
    requires { 0 < below }
{
    let mut seed = seed;
    for i in 0..6_000u32 {
        seed = next(seed);
        let number = (seed >> 8) % below;
        let puts = if i < 3_000 { 3 } else { 1 };
        seed = next(seed);
        if (seed >> 16) % 4 < puts {
            assert!(rt; pair.put(alloc, number)?, "put {number} at {i}");
        } else {
            assert!(rt; pair.take(number), "take {number} at {i}");
        }
        if i % 100 == 0 {
            assert!(rt; pair.agrees(), "after {i} of those below {below}");
        }
    }
    Ok(())
}

#[test]
fn numbers_by_lot(rt: HostRuntime) -> Result<(), Fail> {
    for below in [40, 255, 256, 400, 1_000, 5_000] {
        let mut pair = Pair::new(rt.alloc());
        put_and_take(&rt, &mut pair, rt.alloc(), below, below)?;
        assert!(rt; pair.agrees(), "below {below}");
        pair.set.clear();
        pair.list.clear();
        assert!(rt; pair.agrees(), "cleared");
        put_and_take(&rt, &mut pair, rt.alloc(), below + 1, below)?;
        assert!(rt; pair.agrees(), "below {below}, again");
    }
    Ok(())
}

/// Puts some numbers in the order of a list of places, takes them out in another, and compares after each.
fn put_then_take(rt: &impl Abort, alloc: Global, put: &[u32], take: &[u32]) -> Result<(), Fail> {
    let mut pair = Pair::new(alloc);
    for number in put {
        assert!(rt; pair.put(alloc, *number)?, "put {number}");
        assert!(rt; pair.agrees(), "with {number}");
    }
    for number in take {
        assert!(rt; pair.take(*number), "take {number}");
        assert!(rt; pair.agrees(), "without {number}");
    }
    assert!(rt; pair.set.is_empty());
    Ok(())
}

/// The numbers from 0 on.
fn rising(alloc: Global, count: u32) -> Result<Vec<u32>, Fail> {
    let mut numbers = Vec::new(alloc);
    for number in 0..count {
        numbers.push(number)?;
    }
    Ok(numbers)
}

/// The numbers down to 0.
fn falling(alloc: Global, count: u32) -> Result<Vec<u32>, Fail> {
    let mut numbers = rising(alloc, count)?;
    numbers.reverse();
    Ok(numbers)
}

/// Now one from the front, now one from the back.
fn from_both_ends(alloc: Global, count: u32) -> Result<Vec<u32>, Fail> {
    let mut numbers = Vec::new(alloc);
    for number in 0..count {
        numbers.push(if number % 2 == 0 {
            number / 2
        } else {
            count - 1 - number / 2
        })?;
    }
    Ok(numbers)
}

#[test]
fn blocks_that_become_full_and_empty(rt: HostRuntime) -> Result<(), Fail> {
    for count in [1, 2, 127, 128, 255, 256, 257, 384, 511, 600] {
        let up = rising(rt.alloc(), count)?;
        let down = falling(rt.alloc(), count)?;
        let both = from_both_ends(rt.alloc(), count)?;
        put_then_take(&rt, rt.alloc(), &up, &up)?;
        put_then_take(&rt, rt.alloc(), &up, &down)?;
        put_then_take(&rt, rt.alloc(), &down, &up)?;
        put_then_take(&rt, rt.alloc(), &down, &both)?;
        put_then_take(&rt, rt.alloc(), &both, &both)?;
    }
    Ok(())
}

/// How many comparisons it takes to look for a number.
fn comparisons(set: &Blocks, number: u32) -> u32 {
    let asked = Cell::new(0u32);
    let _ = set.find(&|other: u32| {
        asked.set(asked.get().wrapping_add(1));
        other.cmp(&number)
    });
    asked.get()
}

#[test]
fn searches_are_short(rt: HostRuntime) -> Result<(), Fail> {
    // 1,000 has ten binary digits, and one comparison more is allowed
    for numbers in [
        rising(rt.alloc(), 1_001)?,
        falling(rt.alloc(), 1_001)?,
        from_both_ends(rt.alloc(), 1_001)?,
    ] {
        let mut set = Blocks::new(rt.alloc());
        assert_eq!(rt; comparisons(&set, 7), 0);
        for number in &numbers {
            if *number > 0 {
                assert!(rt; put_rising(rt.alloc(), &mut set, *number)?);
            }
        }
        assert_eq!(rt; set.len(), 1_000);
        for number in 0..1_002 {
            assert!(rt; comparisons(&set, number) <= 11, "for {number}");
        }
    }
    Ok(())
}

/// A row of one number.
fn row_of(alloc: Global, number: i64) -> Result<Shared<Row>, Fail> {
    let mut row = List::new(alloc);
    row.push(Value::Int(number))?;
    Ok(Shared::new(alloc, row)?)
}

/// Whether the row under a number is that of one number.
fn is_row_of(arena: &RowArena, under: u32, number: i64) -> bool {
    match arena.get(under) {
        Some(row) => row.get(0) == Some(&Value::Int(number)),
        None => false,
    }
}

/// Puts another row under a number that has one; whether it had.
fn replaced(arena: &mut RowArena, under: u32, row: Shared<Row>) -> bool {
    if arena.get(under).is_none() {
        return false;
    }
    arena.replace(under, row).is_some()
}

#[test]
fn rows_keep_their_numbers(rt: HostRuntime) -> Result<(), Fail> {
    let mut arena = RowArena::new(rt.alloc());
    arena.make_room(3)?;
    let first = arena.put(row_of(rt.alloc(), 10)?);
    let second = arena.put(row_of(rt.alloc(), 20)?);
    assert!(rt; first != second);
    assert!(rt; is_row_of(&arena, first, 10) && is_row_of(&arena, second, 20));
    assert!(rt; arena.take(first).is_some());
    assert!(rt; arena.get(first).is_none() && arena.take(first).is_none());
    let third = arena.put(row_of(rt.alloc(), 30)?);
    assert_eq!(rt; third, first, "a number is given again");
    assert!(rt; is_row_of(&arena, third, 30) && is_row_of(&arena, second, 20));
    assert!(rt; replaced(&mut arena, second, row_of(rt.alloc(), 21)?));
    assert!(rt; is_row_of(&arena, second, 21));
    assert!(rt; arena.get(7).is_none());
    Ok(())
}
