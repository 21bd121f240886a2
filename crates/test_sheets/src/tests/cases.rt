//! Transactions by hand.

use super::beside::{Beside, Two};
use std::alloc::Global;
use std::process::Abort;
use std::test::Fail;

const fn two(key: i64, value: i64) -> Two {
    Two { key, value }
}

/// Two rows, of which each gets the other's value; a value is free once its row has another.
fn swap(rt: &impl Abort, beside: &mut Beside, alloc: Global) -> Result<(), Fail> {
    assert!(rt; beside.replace(alloc, 1, two(1, 20))?);
    assert!(rt; beside.replace_same(alloc, two(1, 10), two(1, 30))?);
    assert!(rt; beside.replace_same(alloc, two(2, 20), two(2, 10))?);
    assert!(rt; beside.replace(alloc, 1, two(1, 20))?);
    Ok(())
}

/// Both are settled in the order of their keys.
fn swap_two(rt: &impl Abort, beside: &mut Beside, alloc: Global) -> Result<(), Fail> {
    assert!(rt; beside.insert(alloc, two(1, 10))? && beside.insert(alloc, two(2, 20))?);
    beside.settle(alloc)?;
    swap(rt, beside, alloc)?;
    assert!(rt; beside.aside(alloc)?);
    beside.settle(alloc)?;
    assert!(rt; beside.agrees(alloc)? && beside.finds(alloc)?);
    assert!(rt; beside.has(two(1, 20), false) && beside.has(two(2, 10), false));
    Ok(())
}

#[test]
fn values_that_two_rows_swap(rt: HostRuntime) -> Result<(), Fail> {
    let mut beside = Beside::new(rt.alloc(), true, 5)?;
    swap_two(&rt, &mut beside, rt.alloc())
}

/// A row that comes, and goes before it is settled.
fn come_and_go(rt: &impl Abort, beside: &mut Beside, alloc: Global) -> Result<(), Fail> {
    assert!(rt; beside.insert(alloc, two(7, 1))? && beside.take(alloc, two(7, 1), false)?);
    beside.settle(alloc)?;
    assert!(rt; beside.agrees(alloc)? && !beside.has(two(7, 1), true));
    Ok(())
}

/// One that goes, and comes again before it is settled.
fn go_and_come(rt: &impl Abort, beside: &mut Beside, alloc: Global) -> Result<(), Fail> {
    assert!(rt; beside.insert(alloc, two(7, 2))?);
    beside.settle(alloc)?;
    assert!(rt; beside.take(alloc, two(7, 2), true)? && beside.insert(alloc, two(7, 3))?);
    assert!(rt; beside.aside(alloc)?);
    beside.settle(alloc)?;
    assert!(rt; beside.agrees(alloc)? && beside.has(two(7, 3), false));
    Ok(())
}

/// One that goes in vain, and then for good.
fn go(rt: &impl Abort, beside: &mut Beside, alloc: Global) -> Result<(), Fail> {
    assert!(rt; beside.take(alloc, two(7, 3), false)?);
    beside.forget(alloc)?;
    assert!(rt; beside.agrees(alloc)? && beside.has(two(7, 3), false));
    assert!(rt; beside.take(alloc, two(7, 3), true)?);
    beside.settle(alloc)?;
    assert!(rt; beside.agrees(alloc)? && !beside.has(two(7, 3), true));
    Ok(())
}

#[test]
fn rows_that_come_and_go_before_they_are_settled(rt: HostRuntime) -> Result<(), Fail> {
    let mut beside = Beside::new(rt.alloc(), false, 9)?;
    come_and_go(&rt, &mut beside, rt.alloc())?;
    go_and_come(&rt, &mut beside, rt.alloc())?;
    go(&rt, &mut beside, rt.alloc())
}
