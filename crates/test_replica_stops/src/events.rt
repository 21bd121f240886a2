//! Logs of another server, made event by event behind the head of a log.

use program_calls::bytes;
use std::alloc::Global;
use val_types::Bytes;

/// What stands before the text of a statement: the session 7, no time, a schema of two letters, no error, no variables; the schema.
const BEFORE_TEXT: &[u8] = b"\x07\x00\x00\x00\x00\x00\x00\x00\x02\x00\x00\x00\x00db\x00";

/// The map of `t`: the number 1, no flags, the schema, the name, two columns of four bytes, of which the second may be NULL.
const MAP: &[u8] = b"\x01\x00\x00\x00\x00\x00\x00\x00\x02db\x00\x01t\x00\x02\x03\x03\x00\x02";

/// The row (1, 10) of that map: its number, the end of a statement, two columns that are all there, none NULL.
const ROW: &[u8] =
    b"\x01\x00\x00\x00\x00\x00\x01\x00\x02\x00\x02\x03\x00\x01\x00\x00\x00\x0a\x00\x00\x00";

/// The next log, from its position 4 on: `binlog.000002`.
const SECOND_LOG: &[u8] = b"\x04\x00\x00\x00\x00\x00\x00\x00binlog.000002";

/// Puts a number of four bytes, the least first.
fn put_number(log: &mut Bytes, number: usize) {
    let [a, b, c, d, _, _, _, _] = number.to_le_bytes();
    let _ = log.extend_from_slice(&[a, b, c, d]);
}

/// Puts an event: a moment, its type, the server 9, its length, the next position, no flags; its body.
fn put_event(log: &mut Bytes, kind: u8, body: &[u8]) {
    let length = body.len().saturating_add(19);
    let next = log.len().saturating_add(length);
    let _ = log.extend_from_slice(&[1, 0, 0, 0, kind]);
    put_number(log, 9);
    put_number(log, length);
    put_number(log, next);
    let _ = log.extend_from_slice(b"\x00\x00");
    let _ = log.extend_from_slice(body);
}

/// Puts a statement's event: 35 bytes and its text.
pub fn put_text(alloc: Global, log: &mut Bytes, text: &str) {
    let mut body = bytes(alloc, BEFORE_TEXT);
    let _ = body.extend_from_slice(text.as_bytes());
    put_event(log, 2, body.as_slice());
}

/// Puts the end of a transaction: 27 bytes.
fn put_xid(log: &mut Bytes) {
    put_event(log, 16, b"\x02\x00\x00\x00\x00\x00\x00\x00");
}

/// Puts a transaction of one text: 40 bytes, the text's, 27.
pub fn put_transaction(alloc: Global, log: &mut Bytes, text: &str) {
    put_text(alloc, log, "BEGIN");
    put_text(alloc, log, text);
    put_xid(log);
}

/// Puts a transaction that takes the row (1, 10) out of `t`: 40 bytes, the map's 39, the row's 40, 27.
pub fn put_removal(alloc: Global, log: &mut Bytes) {
    put_text(alloc, log, "BEGIN");
    put_event(log, 19, MAP);
    put_event(log, 32, ROW);
    put_xid(log);
}

/// Puts the end of the first log: 40 bytes.
pub fn put_end(log: &mut Bytes) {
    put_event(log, 4, SECOND_LOG);
}

/// Puts an event of a type that is not known: 61 bytes.
pub fn put_unknown(log: &mut Bytes) {
    put_event(log, 34, &[0; 42]);
}
