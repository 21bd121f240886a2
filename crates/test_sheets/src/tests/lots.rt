//! Calls by lot.
ghost use Rattle.std.specs.Prelude.{◌<◌};

use super::beside::{Beside, Two};
use std::alloc::Global;
use std::process::Abort;
use std::test::Fail;

/// The next of a row of numbers that look drawn by lot.
fn next(seed: u32) -> u32 {
    seed.wrapping_mul(1_664_525).wrapping_add(1_013_904_223)
}

/// A number below a bound.
fn below(seed: u32, bound: u32) -> i64
    requires { 0 < bound }
{
    ((seed >> 8) % bound) as i64
}

/// One call on a row; whether the table answered as the values say.
fn call(
    beside: &mut Beside,
    alloc: Global,
    which: i64,
    two: Two,
    other: i64,
) -> Result<bool, Fail> {
    let standing = beside.standing(other);
    let same = beside.standing(two.key);
    match which {
        0 | 1 | 2 => beside.insert(alloc, two),
        3 => beside.replace(alloc, two.key, two),
        4 => beside.replace(alloc, other, two),
        5 => beside.replace_same(alloc, same, two),
        6 => beside.replace_same(alloc, standing, two),
        7 => beside.replace_same(alloc, two, standing),
        8 => beside.take(alloc, two, true),
        9 => beside.take(alloc, two, false),
        10 => beside.take(alloc, standing, false),
        11 => beside.insert_in_vain(alloc, two),
        _ => beside.take_in_vain(alloc, standing),
    }
}

/// What is done now and then: a transaction ends, is set aside for a reader, or goes back to where it was; whether all is as it has to be.
fn end(beside: &mut Beside, alloc: Global, which: i64) -> Result<bool, Fail> {
    match which {
        0 => beside.settle(alloc)?,
        1 => beside.forget(alloc)?,
        2 => return beside.aside(alloc),
        _ => return beside.back(alloc),
    }
    beside.mark(alloc)?;
    Ok(true)
}

/// So many calls on keys below a bound, and the end of a transaction behind each of some.
fn calls(
    rt: &impl Abort,
    beside: &mut Beside,
    alloc: Global,
    bound: u32,
    each: u32,
    count: u32,
) -> Result<(), Fail>
    requires bound { 0 < bound }
    requires each { 0 < each }
{
    let mut seed = bound;
    for i in 0..count {
        seed = next(seed);
        let key = below(seed, bound);
        seed = next(seed);
        let value = below(seed, bound);
        seed = next(seed);
        let other = below(seed, bound);
        seed = next(seed);
        let which = below(seed, 13);
        assert!(rt;
            call(beside, alloc, which, Two { key, value }, other)?,
            "call {i}"
        );
        if i % each == 0 {
            seed = next(seed);
            assert!(rt; end(beside, alloc, below(seed, 4))?, "the end at {i}");
            assert!(rt; beside.agrees(alloc)?, "after {i}");
        }
    }
    assert!(rt; beside.finds(alloc)?);
    Ok(())
}

#[test]
fn tables_by_lot(rt: HostRuntime) -> Result<(), Fail> {
    for (bound, each, count) in [(5, 3, 300), (40, 7, 500), (1_000, 150, 2_000)] {
        let mut beside = Beside::new(rt.alloc(), false, bound as i64)?;
        calls(&rt, &mut beside, rt.alloc(), bound, each, count)?;
    }
    Ok(())
}

#[test]
fn tables_with_a_unique_key_by_lot(rt: HostRuntime) -> Result<(), Fail> {
    for (bound, each, count) in [(5, 3, 300), (40, 7, 500)] {
        let mut beside = Beside::new(rt.alloc(), true, bound as i64)?;
        calls(&rt, &mut beside, rt.alloc(), bound, each, count)?;
    }
    Ok(())
}
