//! A table of 10,000 rows that come in no order.

use super::beside::{Beside, Two};
use std::alloc::Global;
use std::process::Abort;
use std::test::Fail;

/// How many keys there may be: twice a prime.
const KEYS: i64 = 20_014;

/// The key of a row by its number: those below 10,007 in no order.
fn key_of_number(i: i64) -> i64 {
    (i % 10_007) * 6_337 % 10_007
}

/// Inserts the rows, and settles now and then.
fn fill(rt: &impl Abort, beside: &mut Beside, alloc: Global) -> Result<(), Fail> {
    for i in 0..10_000i64 {
        let key = key_of_number(i);
        assert!(rt; beside.insert(alloc, Two { key, value: i })?, "row {i}");
        if i % 4_000 == 3_000 {
            beside.settle(alloc)?;
        }
    }
    Ok(())
}

/// Of each four rows one is taken out, one gets another value, one another key, and one stays; some are done twice.
fn change(rt: &impl Abort, beside: &mut Beside, alloc: Global) -> Result<(), Fail> {
    for i in 0..12_000i64 {
        let of = key_of_number(i.wrapping_mul(3));
        let standing = beside.standing(of);
        let key = if of % 4 == 2 {
            of.wrapping_add(10_007)
        } else {
            of
        };
        let is_so = match of % 4 {
            0 => beside.take(alloc, standing, of % 8 == 0)?,
            1 | 2 => beside.replace_same(alloc, standing, Two { key, value: i })?,
            _ => beside.insert(alloc, Two { key, value: i })?,
        };
        assert!(rt; is_so, "change {i}");
    }
    Ok(())
}

/// All of it.
fn fill_and_change(rt: &impl Abort, beside: &mut Beside, alloc: Global) -> Result<(), Fail> {
    fill(rt, beside, alloc)?;
    assert!(rt; beside.aside(alloc)?);
    beside.settle(alloc)?;
    change(rt, beside, alloc)?;
    assert!(rt; beside.aside(alloc)?);
    beside.settle(alloc)?;
    assert!(rt; beside.agrees(alloc)? && beside.finds(alloc)?);
    Ok(())
}

#[test]
fn ten_thousand_rows(rt: HostRuntime) -> Result<(), Fail> {
    let mut beside = Beside::new(rt.alloc(), false, KEYS)?;
    fill_and_change(&rt, &mut beside, rt.alloc())
}
