//! Changes with their inverses, and refusals.

use super::bytes;
use sharing::Shared;
use std::alloc::{AllocError, Global};
use val_types::{Change, Duplicate, List, NoMemory, Row, SqlError, SqlRefusal, Value};

/// A row of one number.
fn one(alloc: Global, number: i64) -> Row {
    let mut row = List::new(alloc);
    let _ = row.push(Value::Int(number));
    row
}

/// Inserts a row of one number into `t`.
fn put(alloc: Global, number: i64) -> Result<Change, NoMemory> {
    Ok(Change::Insert {
        table: Shared::new(alloc, bytes(alloc, b"t"))?,
        row: Shared::new(alloc, one(alloc, number))?,
    })
}

/// Deletes it.
fn taken(alloc: Global, number: i64) -> Result<Change, NoMemory> {
    Ok(Change::Delete {
        table: Shared::new(alloc, bytes(alloc, b"t"))?,
        row: Shared::new(alloc, one(alloc, number))?,
    })
}

/// Puts another in its place.
fn replaced(alloc: Global, before: i64, after: i64) -> Result<Change, NoMemory> {
    Ok(Change::Update {
        table: Shared::new(alloc, bytes(alloc, b"t"))?,
        before: Shared::new(alloc, one(alloc, before))?,
        after: Shared::new(alloc, one(alloc, after))?,
    })
}

/// Whether two changes are of one kind and have the same rows.
fn have_same_rows(a: &Change, b: &Change) -> bool {
    match (a, b) {
        (Change::Insert { row: a, .. }, Change::Insert { row: b, .. }) => a.get() == b.get(),
        (Change::Delete { row: a, .. }, Change::Delete { row: b, .. }) => a.get() == b.get(),
        (
            Change::Update {
                before: a,
                after: c,
                ..
            },
            Change::Update {
                before: b,
                after: d,
                ..
            },
        ) => a.get() == b.get() && c.get() == d.get(),
        _ => false,
    }
}

/// Whether two changes are the same.
fn are_same(a: &Change, b: &Change) -> bool {
    a.table() == b.table() && have_same_rows(a, b)
}

/// Whether a change has an inverse and a copy, and is one of `t`.
fn is_turned(
    alloc: Global,
    change: Result<Change, NoMemory>,
    inverse: Result<Change, NoMemory>,
) -> bool {
    let (Ok(change), Ok(inverse)) = (change, inverse) else {
        return false;
    };
    let copied = match change.duplicate(alloc) {
        Ok(copy) => are_same(&copy, &change),
        Err(_) => false,
    };
    let named = change.table().as_slice() == b"t".as_slice();
    copied && named && are_same(&change.inverse(), &inverse)
}

/// A refusal by an error's number.
fn refused() -> Result<(), SqlRefusal> {
    let failed: Result<(), SqlError> = Err(1062);
    failed?;
    Ok(())
}

/// A refusal for want of memory.
fn without_memory() -> Result<(), SqlRefusal> {
    let failed: Result<(), NoMemory> = Err(AllocError);
    failed?;
    Ok(())
}

#[test]
fn changes_and_refusals(rt: HostRuntime) {
    let alloc = rt.alloc();
    assert!(rt; is_turned(alloc, put(alloc, 5), taken(alloc, 5)));
    assert!(rt; is_turned(alloc, taken(alloc, 5), put(alloc, 5)));
    assert!(rt; is_turned(alloc, replaced(alloc, 5, 6), replaced(alloc, 6, 5)));
    assert!(rt; refused() == Err(SqlRefusal::Sql(1062)));
    assert!(rt; without_memory() == Err(SqlRefusal::NoMemory));
}
