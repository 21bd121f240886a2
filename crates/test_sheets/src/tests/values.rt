//! Rows found by their values in a unique key, by hand.

use super::beside::{Beside, Two};
use std::alloc::Global;
use std::process::Abort;
use std::test::Fail;

const fn two(key: i64, value: i64) -> Two {
    Two { key, value }
}

/// Two committed rows, of which one has another value now, and the first one again.
fn change(rt: &impl Abort, beside: &mut Beside, alloc: Global) -> Result<(), Fail> {
    assert!(rt; beside.insert(alloc, two(1, 10))? && beside.insert(alloc, two(2, 20))?);
    beside.settle(alloc)?;
    assert!(rt; beside.replace_same(alloc, two(1, 10), two(1, 30))?);
    assert!(rt; beside.key_with(alloc, 10)? == None && beside.key_with(alloc, 30)? == Some(1));
    assert!(rt; beside.key_with(alloc, 20)? == Some(2));
    assert!(rt; beside.replace(alloc, 1, two(1, 10))?);
    assert!(rt; beside.key_with(alloc, 10)? == Some(1) && beside.key_with(alloc, 30)? == None);
    Ok(())
}

/// The value of a row that is taken out goes to a new one, and what was committed is found while that is set aside.
fn hand_on(rt: &impl Abort, beside: &mut Beside, alloc: Global) -> Result<(), Fail> {
    assert!(rt; beside.take(alloc, two(2, 20), true)?);
    assert!(rt; beside.key_with(alloc, 20)? == None);
    assert!(rt; beside.insert(alloc, two(3, 20))?);
    assert!(rt; beside.key_with(alloc, 20)? == Some(3));
    assert!(rt; beside.key_aside(alloc, 20)? == Some(2));
    assert!(rt; beside.key_with(alloc, 20)? == Some(3));
    beside.settle(alloc)?;
    assert!(rt; beside.key_with(alloc, 20)? == Some(3) && beside.key_aside(alloc, 20)? == Some(3));
    Ok(())
}

#[test]
fn rows_found_by_values_that_others_had(rt: HostRuntime) -> Result<(), Fail> {
    let mut beside = Beside::new(rt.alloc(), true, 5)?;
    change(&rt, &mut beside, rt.alloc())?;
    hand_on(&rt, &mut beside, rt.alloc())
}

/// What is taken back leaves no value behind.
fn take_back(rt: &impl Abort, beside: &mut Beside, alloc: Global) -> Result<(), Fail> {
    assert!(rt; beside.insert(alloc, two(1, 10))?);
    beside.settle(alloc)?;
    assert!(rt; beside.insert_in_vain(alloc, two(2, 20))? && beside.key_with(alloc, 20)? == None);
    assert!(rt; beside.take_in_vain(alloc, two(1, 10))? && beside.key_with(alloc, 10)? == Some(1));
    assert!(rt; beside.replace(alloc, 1, two(1, 20))?);
    beside.forget(alloc)?;
    assert!(rt; beside.key_with(alloc, 10)? == Some(1) && beside.key_with(alloc, 20)? == None);
    Ok(())
}

#[test]
fn values_of_changes_that_are_taken_back(rt: HostRuntime) -> Result<(), Fail> {
    let mut beside = Beside::new(rt.alloc(), true, 5)?;
    take_back(&rt, &mut beside, rt.alloc())
}

/// A NULL is in no way of another, and no row is found by it.
fn have_none(rt: &impl Abort, beside: &mut Beside, alloc: Global) -> Result<(), Fail> {
    assert!(rt; beside.insert_null(alloc, 1)? && beside.insert_null(alloc, 2)?);
    assert!(rt; !beside.is_null_found(alloc)?);
    beside.sheet.settle(alloc);
    assert!(rt; beside.insert_null(alloc, 3)? && !beside.is_null_found(alloc)?);
    assert!(rt; beside.sheet.count() == 3);
    Ok(())
}

#[test]
fn rows_without_a_value(rt: HostRuntime) -> Result<(), Fail> {
    let mut beside = Beside::new(rt.alloc(), true, 5)?;
    have_none(&rt, &mut beside, rt.alloc())
}

/// Rows found by the values of a key of each number, of entries and of committed rows.
fn find(rt: &impl Abort, beside: &mut Beside, alloc: Global) -> Result<(), Fail> {
    assert!(rt; beside.insert(alloc, two(1, 10))? && beside.insert(alloc, two(2, 20))?);
    beside.settle(alloc)?;
    assert!(rt; beside.insert(alloc, two(3, 30))? && beside.insert_null(alloc, 4)?);
    assert!(rt; beside.key_by(alloc, 0, 2)? == Some(2) && beside.key_by(alloc, 0, 20)? == None);
    assert!(rt; beside.key_by(alloc, 1, 20)? == Some(2) && beside.key_by(alloc, 1, 30)? == Some(3));
    assert!(rt; beside.key_by(alloc, 1, 40)? == None && beside.key_by(alloc, 2, 20)? == None);
    assert!(rt; beside.finds_none(alloc)?);
    Ok(())
}

/// A value that a row had is no longer found, in an entry, once it is settled, and once the row is gone.
fn find_no_more(rt: &impl Abort, beside: &mut Beside, alloc: Global) -> Result<(), Fail> {
    assert!(rt; beside.replace_same(alloc, two(2, 20), two(2, 25))?);
    assert!(rt; beside.key_by(alloc, 1, 20)? == None && beside.key_by(alloc, 1, 25)? == Some(2));
    assert!(rt; beside.take(alloc, two(1, 10), true)? && beside.key_by(alloc, 1, 10)? == None);
    beside.sheet.settle(alloc);
    assert!(rt; beside.key_by(alloc, 1, 20)? == None && beside.key_by(alloc, 1, 25)? == Some(2));
    assert!(rt; beside.key_by(alloc, 1, 10)? == None && beside.key_by(alloc, 1, 30)? == Some(3));
    Ok(())
}

#[test]
fn rows_found_by_the_values_of_a_key(rt: HostRuntime) -> Result<(), Fail> {
    let mut beside = Beside::new(rt.alloc(), true, 5)?;
    find(&rt, &mut beside, rt.alloc())?;
    find_no_more(&rt, &mut beside, rt.alloc())
}
