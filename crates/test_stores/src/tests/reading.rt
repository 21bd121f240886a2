//! Bodies that are read.

use super::bytes;
use super::tables::{
    CHANGE_CARRIED_OUT, CLAIMS_MORE, LOG_BEGINS, PLACE_MOVED, REMOVAL_CARRIED_OUT, ROW_CARRIED_OUT,
    ROW_CHANGED, ROW_PUT_IN, ROW_TAKEN_OUT, TABLE_CARRIED_OUT, TABLE_MADE, VALUES,
};
use std::alloc::Global;
use store_bodies::{record_of, take_object_text, take_rows};
use store_model::{Head, Kind, Record};
use val_types::{Bytes, Change, List, Row, Value};

fn is_head(head: &Head, number: u64, log: u32, pos: u32) -> bool {
    head.number == number && head.log == log && head.pos == pos
}

fn is_int(value: &Value, wanted: i64) -> bool {
    match value {
        Value::Int(number) => *number == wanted,
        _ => false,
    }
}

fn is_null(value: &Value) -> bool {
    match value {
        Value::Null => true,
        _ => false,
    }
}

fn is_text(value: &Value, wanted: &[u8]) -> bool {
    match value {
        Value::Text(text) => text.as_slice() == wanted,
        _ => false,
    }
}

/// (1, 10)
fn is_begun(row: &Row) -> bool {
    row.len() == 2 && is_int(&row[0], 1) && is_int(&row[1], 10)
}

/// (1, NULL)
fn is_changed(row: &Row) -> bool {
    row.len() == 2 && is_int(&row[0], 1) && is_null(&row[1])
}

fn is_t(table: &Bytes) -> bool {
    table.as_slice() == b"t".as_slice()
}

fn is_insertion(change: &Change) -> bool {
    match change {
        Change::Insert { table, row } => is_t(table.get()) && is_begun(row.get()),
        _ => false,
    }
}

fn is_update(change: &Change) -> bool {
    match change {
        Change::Update {
            table,
            before,
            after,
        } => is_t(table.get()) && is_begun(before.get()) && is_changed(after.get()),
        _ => false,
    }
}

fn is_removal(change: &Change) -> bool {
    match change {
        Change::Delete { table, row } => is_t(table.get()) && is_changed(row.get()),
        _ => false,
    }
}

/// The last two fields of a transaction's head, and its changes.
fn transaction(alloc: Global, kind: Kind, body: &[u8]) -> Option<(Head, List<Change>)> {
    match record_of(alloc, kind, body).ok()?? {
        Record::Transaction { head, changes } => Some((head, changes)),
        Record::TransactionApplied { head, changes } => Some((head, changes)),
        _ => None,
    }
}

/// Whether a body is a transaction with one change, which is tested.
fn has_change(alloc: Global, kind: Kind, body: &[u8], number: u64, pos: u32, which: u32) -> bool {
    match transaction(alloc, kind, body) {
        Some((head, changes)) => {
            is_head(&head, number, 1, pos)
                && changes.len() == 1
                && match which {
                    1 => is_insertion(&changes[0]),
                    2 => is_update(&changes[0]),
                    _ => is_removal(&changes[0]),
                }
        }
        None => false,
    }
}

#[test]
fn changes_are_read(rt: HostRuntime) {
    let alloc = rt.alloc();
    assert!(&rt; has_change(alloc, Kind::Source, &ROW_PUT_IN, 2, 336, 1));
    assert!(&rt; has_change(alloc, Kind::Source, &ROW_CHANGED, 3, 466, 2));
    assert!(&rt; has_change(alloc, Kind::Source, &ROW_TAKEN_OUT, 4, 596, 3));
    assert!(&rt; has_change(alloc, Kind::Replica, &ROW_CARRIED_OUT, 2, 336, 1));
    assert!(&rt; has_change(alloc, Kind::Replica, &CHANGE_CARRIED_OUT, 3, 466, 2));
    assert!(&rt; has_change(alloc, Kind::Replica, &REMOVAL_CARRIED_OUT, 4, 596, 3));
}

fn is_mixed(row: &Row) -> bool {
    row.len() == 4
        && is_text(&row[0], b"hi")
        && is_text(&row[1], b"")
        && is_int(&row[2], -1)
        && is_int(&row[3], i64::MIN)
}

fn is_first(change: &Change) -> bool {
    match change {
        Change::Insert { table, row } => table.get().as_slice() == b"ab".as_slice()
            && is_mixed(row.get()),
        _ => false,
    }
}

fn is_second(change: &Change) -> bool {
    match change {
        Change::Delete { table, row } => table.get().is_empty() && row.get().is_empty(),
        _ => false,
    }
}

#[test]
fn values_are_read(rt: HostRuntime) {
    let read = match transaction(rt.alloc(), Kind::Replica, &VALUES) {
        Some((head, changes)) => {
            is_head(&head, u64::MAX, 2, 4)
                && changes.len() == 2
                && is_first(&changes[0])
                && is_second(&changes[1])
        }
        None => false,
    };
    assert!(&rt; read);
}

/// Whether a body is a definition of the table, which leaves log 1 at 206.
fn is_made(alloc: Global, kind: Kind, body: &[u8]) -> bool {
    let wanted: &[u8] = b"CREATE TABLE t (id INT, v INT, PRIMARY KEY (id))";
    match record_of(alloc, kind, body) {
        Ok(Some(Record::Definition { head, text })) => {
            is_head(&head, 1, 1, 206) && text.as_slice() == wanted
        }
        Ok(Some(Record::DefinitionApplied { head, text })) => {
            is_head(&head, 1, 1, 206) && text.as_slice() == wanted
        }
        _ => false,
    }
}

fn is_log_start(alloc: Global) -> bool {
    match record_of(alloc, Kind::Source, &LOG_BEGINS) {
        Ok(Some(Record::LogStart { head, old_end })) => is_head(&head, 0, 1, 123) && old_end == 0,
        _ => false,
    }
}

fn is_moved(alloc: Global) -> bool {
    match record_of(alloc, Kind::Replica, &PLACE_MOVED) {
        Ok(Some(Record::PlaceMoved { head })) => is_head(&head, 4, 2, 4),
        _ => false,
    }
}

#[test]
fn definitions_and_places_are_read(rt: HostRuntime) {
    let alloc = rt.alloc();
    assert!(&rt; is_made(alloc, Kind::Source, TABLE_MADE));
    assert!(&rt; is_made(alloc, Kind::Replica, TABLE_CARRIED_OUT));
    assert!(&rt; is_log_start(alloc));
    assert!(&rt; is_moved(alloc));
}

/// Whether a body is one, in a store of this kind.
fn is_body(alloc: Global, kind: Kind, body: &[u8]) -> bool {
    match record_of(alloc, kind, body) {
        Ok(Some(_)) => true,
        _ => false,
    }
}

/// Whether a body is none without its last bytes, however many, nor with one more.
fn is_whole(alloc: Global, kind: Kind, body: &[u8]) -> bool {
    for size in 0..body.len() {
        if is_body(alloc, kind, &body[..size]) {
            return false;
        }
    }
    let mut more = bytes(alloc, body);
    let _ = more.push(0);
    !is_body(alloc, kind, more.as_slice()) && is_body(alloc, kind, body)
}

#[test]
fn a_body_is_read_to_its_last_byte(rt: HostRuntime) {
    let alloc = rt.alloc();
    let of_source: [&[u8]; 5] = [
        &LOG_BEGINS,
        TABLE_MADE,
        &ROW_PUT_IN,
        &ROW_CHANGED,
        &ROW_TAKEN_OUT,
    ];
    for body in &of_source {
        assert!(&rt; is_whole(alloc, Kind::Source, *body));
        assert!(&rt; !is_body(alloc, Kind::Replica, *body));
    }
    let of_replica: [&[u8]; 4] = [TABLE_CARRIED_OUT, &ROW_CARRIED_OUT, &VALUES, &PLACE_MOVED];
    for body in &of_replica {
        assert!(&rt; is_whole(alloc, Kind::Replica, *body));
        assert!(&rt; !is_body(alloc, Kind::Source, *body));
    }
    assert!(&rt; !is_body(alloc, Kind::Replica, &CLAIMS_MORE));
}

/// A body with another byte at a place.
fn with_byte(alloc: Global, body: &[u8], at: usize, byte: u8) -> Bytes {
    let mut other = bytes(alloc, body);
    if at < other.len() {
        other.set(at, byte);
    }
    other
}

/// Whether a body with another byte at a place is one.
fn is_body_with(alloc: Global, kind: Kind, body: &[u8], at: usize, byte: u8) -> bool {
    is_body(alloc, kind, with_byte(alloc, body, at, byte).as_slice())
}

#[test]
fn kinds_are_told_apart(rt: HostRuntime) {
    let alloc = rt.alloc();
    for byte in 0..=255 {
        // Four bytes of 0 behind the head are no change, no text, or an old end.
        let of_source = byte == 1 || byte == 2 || byte == 3;
        assert!(&rt;
            is_body_with(alloc, Kind::Source, &LOG_BEGINS, 0, byte) == of_source,
            "record {byte}"
        );
        let of_replica = byte == 17 || byte == 18;
        assert!(&rt;
            is_body_with(alloc, Kind::Replica, &LOG_BEGINS, 0, byte) == of_replica,
            "record {byte}"
        );
        // A row that is put in or taken out, and never one behind another.
        let of_change = byte == 1 || byte == 3;
        assert!(&rt;
            is_body_with(alloc, Kind::Source, &ROW_PUT_IN, 21, byte) == of_change,
            "change {byte}"
        );
        // The last value of a row is NULL alone.
        assert!(&rt;
            is_body_with(alloc, Kind::Source, &ROW_TAKEN_OUT, 34, byte) == (byte == 0),
            "value {byte}"
        );
    }
}

/// What stands behind the text of an object, where it is this one.
fn behind_text<'a>(of: &'a [u8], wanted: &[u8]) -> Option<&'a [u8]> {
    let (text, rest) = take_object_text(of)?;
    if text == wanted { Some(rest) } else { None }
}

/// Two rows behind their count: one of a number, one of none; and a byte.
static ROWS: [u8; 20] = [2, 0, 0, 0, 0, 0, 0, 0, 1, 1, 7, 0, 0, 0, 0, 0, 0, 0, 0, 9];

/// (7)
fn is_seven(row: &Row) -> bool {
    row.len() == 1 && is_int(&row[0], 7)
}

fn has_rows(alloc: Global) -> bool {
    match take_rows(alloc, &ROWS) {
        Ok(Some((rows, rest))) => {
            rows.len() == 2
                && is_seven(rows[0].get())
                && rows[1].get().is_empty()
                && rest == b"\x09".as_slice()
        }
        _ => false,
    }
}

fn has_no_rows(alloc: Global, of: &[u8]) -> bool {
    match take_rows(alloc, of) {
        Ok(None) => true,
        _ => false,
    }
}

#[test]
fn parts_of_a_snapshot_are_read(rt: HostRuntime) {
    let alloc = rt.alloc();
    let text: &[u8] = b"\x02\x00\x00\x00\x00\x00\x00\x00hi!";
    assert!(&rt; behind_text(text, b"hi") == Some(b"!".as_slice()));
    assert!(&rt; take_object_text(&text[..9]).is_none());
    assert!(&rt; has_rows(alloc));
    for size in 0..19 {
        assert!(&rt; has_no_rows(alloc, &ROWS[..size]), "{size} bytes");
    }
}
