//! Bodies that are put.

use super::bytes;
use super::tables::{
    LOG_BEGINS, PLACE_MOVED, ROW_CARRIED_OUT, ROW_CHANGED, ROW_PUT_IN, ROW_TAKEN_OUT,
    TABLE_CARRIED_OUT, TABLE_MADE, VALUES,
};
use crate::has_form;
use sharing::Shared;
use std::alloc::Global;
use store_bodies::{put_object_text, put_record, put_row};
use store_model::{Head, Kind, Record};
use val_types::{Bytes, Change, List, NoMemory, Row, Value};

static TEXT: &[u8] = b"CREATE TABLE t (id INT, v INT, PRIMARY KEY (id))";

fn head(number: u64, log: u32, pos: u32) -> Head {
    Head { number, log, pos }
}

fn name(alloc: Global, of: &[u8]) -> Result<Shared<Bytes>, NoMemory> {
    Shared::new(alloc, bytes(alloc, of))
}

/// A row of numbers and NULLs.
fn plain_row(alloc: Global, of: &[Option<i64>]) -> Row {
    let mut row = Row::new(alloc);
    for number in of {
        let value = match number {
            Some(number) => Value::Int(*number),
            None => Value::Null,
        };
        let _ = row.push(value);
    }
    row
}

fn shared_row(alloc: Global, of: &[Option<i64>]) -> Result<Shared<Row>, NoMemory> {
    Shared::new(alloc, plain_row(alloc, of))
}

fn listed(alloc: Global, change: Change) -> List<Change> {
    let mut changes = List::new(alloc);
    let _ = changes.push(change);
    changes
}

fn insertion(alloc: Global) -> Result<Change, NoMemory> {
    Ok(Change::Insert {
        row: shared_row(alloc, &[Some(1), Some(10)])?,
        table: name(alloc, b"t")?,
    })
}

fn update(alloc: Global) -> Result<Change, NoMemory> {
    Ok(Change::Update {
        before: shared_row(alloc, &[Some(1), Some(10)])?,
        after: shared_row(alloc, &[Some(1), None])?,
        table: name(alloc, b"t")?,
    })
}

fn removal(alloc: Global) -> Result<Change, NoMemory> {
    Ok(Change::Delete {
        row: shared_row(alloc, &[Some(1), None])?,
        table: name(alloc, b"t")?,
    })
}

/// A row of two texts and two numbers.
fn mixed_row(alloc: Global) -> Row {
    let mut row = Row::new(alloc);
    let _ = row.push(Value::Text(bytes(alloc, b"hi")));
    let _ = row.push(Value::Text(bytes(alloc, b"")));
    let _ = row.push(Value::Int(-1));
    let _ = row.push(Value::Int(i64::MIN));
    row
}

fn two_changes(alloc: Global) -> Result<List<Change>, NoMemory> {
    let mut changes = listed(
        alloc,
        Change::Insert {
            row: Shared::new(alloc, mixed_row(alloc))?,
            table: name(alloc, b"ab")?,
        },
    );
    changes.push(Change::Delete {
        row: shared_row(alloc, &[])?,
        table: name(alloc, b"")?,
    })?;
    Ok(changes)
}

/// Whether a record is put as these bytes behind two others.
fn puts(alloc: Global, kind: Kind, r: &Record, wanted: &[u8]) -> bool {
    if !has_form(kind, r) {
        return false;
    }
    let mut out = bytes(alloc, b"ab");
    put_record(r, &mut out).is_ok()
        && out.as_slice().starts_with(b"ab")
        && out.as_slice().ends_with(wanted)
        && out.len().checked_sub(wanted.len()) == Some(2)
}

/// Whether a transaction of a source with one change is put as these bytes.
fn puts_change(alloc: Global, head: Head, change: Result<Change, NoMemory>, wanted: &[u8]) -> bool {
    match change {
        Ok(change) => {
            let changes = listed(alloc, change);
            puts(
                alloc,
                Kind::Source,
                &Record::Transaction { head, changes },
                wanted,
            )
        }
        Err(_) => false,
    }
}

#[test]
fn a_source_puts_these_bytes(rt: HostRuntime) {
    let alloc = rt.alloc();
    let begins = Record::LogStart {
        head: head(0, 1, 123),
        old_end: 0,
    };
    assert!(&rt; puts(alloc, Kind::Source, &begins, &LOG_BEGINS));
    let made = Record::Definition {
        head: head(1, 1, 206),
        text: bytes(alloc, TEXT),
    };
    assert!(&rt; puts(alloc, Kind::Source, &made, TABLE_MADE));
    assert!(&rt; puts_change(alloc, head(2, 1, 336), insertion(alloc), &ROW_PUT_IN));
    assert!(&rt; puts_change(alloc, head(3, 1, 466), update(alloc), &ROW_CHANGED));
    assert!(&rt; puts_change(alloc, head(4, 1, 596), removal(alloc), &ROW_TAKEN_OUT));
}

/// Whether a transaction of a replica is put as these bytes.
fn puts_applied(
    alloc: Global,
    head: Head,
    changes: Result<List<Change>, NoMemory>,
    wanted: &[u8],
) -> bool {
    match changes {
        Ok(changes) => puts(
            alloc,
            Kind::Replica,
            &Record::TransactionApplied { head, changes },
            wanted,
        ),
        Err(_) => false,
    }
}

fn inserted(alloc: Global) -> Result<List<Change>, NoMemory> {
    Ok(listed(alloc, insertion(alloc)?))
}

#[test]
fn a_replica_puts_these_bytes(rt: HostRuntime) {
    let alloc = rt.alloc();
    let made = Record::DefinitionApplied {
        head: head(1, 1, 206),
        text: bytes(alloc, TEXT),
    };
    assert!(&rt; puts(alloc, Kind::Replica, &made, TABLE_CARRIED_OUT));
    assert!(&rt; puts_applied(alloc, head(2, 1, 336), inserted(alloc), &ROW_CARRIED_OUT));
    assert!(&rt; puts_applied(alloc, head(u64::MAX, 2, 4), two_changes(alloc), &VALUES));
    let moved = Record::PlaceMoved {
        head: head(4, 2, 4),
    };
    assert!(&rt; puts(alloc, Kind::Replica, &moved, &PLACE_MOVED));
}

/// Whether a record has no body in a store of this kind.
fn has_none(kind: Kind, r: &Record) -> bool {
    !has_form(kind, r)
}

#[test]
fn a_record_belongs_to_its_kind_of_store(rt: HostRuntime) {
    let begins = Record::LogStart {
        head: head(0, 1, 123),
        old_end: 0,
    };
    assert!(&rt; has_none(Kind::Replica, &begins));
    let moved = Record::PlaceMoved {
        head: head(4, 2, 4),
    };
    assert!(&rt; has_none(Kind::Source, &moved));
}

/// The text of an object behind a byte.
fn text_put(alloc: Global) -> Bytes {
    let mut out = bytes(alloc, b"a");
    let _ = put_object_text(&bytes(alloc, b"hi"), &mut out);
    out
}

#[test]
fn parts_of_a_snapshot_have_these_bytes(rt: HostRuntime) {
    let alloc = rt.alloc();
    assert_eq!(&rt;
        text_put(alloc).as_slice(),
        b"a\x02\x00\x00\x00\x00\x00\x00\x00hi".as_slice()
    );
}
