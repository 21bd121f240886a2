//! Logs made event by event, as another server might have written them.

use program_calls::bytes;
use std::alloc::Global;
use val_types::Bytes;

/// What a test puts into a log.
#[derive(Clone, Copy)]
pub enum Piece<'a> {
    /// A text, of the seventh session.
    Text(&'a str),
    /// The text `BEGIN`.
    Begin,
    Xid(u8),
    /// An event of a type with this body.
    Event(u8, &'a [u8]),
    /// An event of a type of rows with these rows of two numbers, by the map with the number 1, and the end of a statement.
    Rows(u8, &'a [(usize, usize)]),
    /// Bytes as they are.
    Raw(&'a [u8]),
}

/// The body of the event with which a log begins: version 4 with a server's name, the length of headers, a table of lengths, no
/// checksums.
pub const FIRST_BODY: &[u8] =
    b"\x04\x005.7.44-log\x00\x00\x00\x00\x00\x00\x00\x00\x00\x00\x00\x00\x00\x00\x00\x00\x00\x00\x00\x00\x00\x00\x00\x00\x00\x00\x00\x00\x00\x00\x00\x00\x00\x00\x00\x00\x00\x00\x00\x00\x00\x00\x00\x00\x13\x38\x0d\x00\x08\x00\x12\x00\x04\x04\x04\x04\x12\x00\x00\x5f\x00\x04\x1a\x08\x00\x00\x00\x08\x08\x08\x02\x00\x00\x00\x0a\x0a\x0a\x2a\x2a\x00\x12\x34\x00\x00\x00\x00\x00\x00";

/// What stands before the text of a statement: the session 7, no time, a schema of two letters, no error, no variables; the schema.
const BEFORE_TEXT: &[u8] = b"\x07\x00\x00\x00\x00\x00\x00\x00\x02\x00\x00\x00\x00db\x00";

/// Puts a number of four bytes, the least first.
fn put_number(log: &mut Bytes, number: usize) {
    let [a, b, c, d, _, _, _, _] = number.to_le_bytes();
    let _ = log.extend_from_slice(&[a, b, c, d]);
}

/// Puts an event: a moment, its type, the server 9, its length, the next position, no flags; its body.
fn put_event(log: &mut Bytes, kind: u8, body: &[u8]) {
    let length = body.len().saturating_add(19);
    let next = log.len().saturating_add(length);
    let _ = log.extend_from_slice(&[1, 0, 0, 0, kind]);
    put_number(log, 9);
    put_number(log, length);
    put_number(log, next);
    let _ = log.extend_from_slice(b"\x00\x00");
    let _ = log.extend_from_slice(body);
}

/// Puts a statement's event.
pub fn put_text(alloc: Global, log: &mut Bytes, text: &[u8]) {
    let mut body = bytes(alloc, BEFORE_TEXT);
    let _ = body.extend_from_slice(text);
    put_event(log, 2, body.as_slice());
}

/// Puts an event of rows: the map's number, the end of a statement, two columns that are all there, in an update twice; the rows, none
/// with a NULL.
fn put_rows(alloc: Global, log: &mut Bytes, kind: u8, rows: &[(usize, usize)]) {
    let mut body = bytes(alloc, b"\x01\x00\x00\x00\x00\x00\x01\x00\x02\x00\x02\x03");
    if kind == 31 {
        let _ = body.extend_from_slice(&[3]);
    }
    for row in rows {
        let (id, v) = row;
        let _ = body.extend_from_slice(&[0]);
        put_number(&mut body, *id);
        put_number(&mut body, *v);
    }
    put_event(log, kind, body.as_slice());
}

fn put_piece(alloc: Global, log: &mut Bytes, piece: Piece<'_>) {
    match piece {
        Piece::Text(text) => put_text(alloc, log, text.as_bytes()),
        Piece::Begin => put_text(alloc, log, b"BEGIN"),
        Piece::Xid(number) => put_event(log, 16, &[number, 0, 0, 0, 0, 0, 0, 0]),
        Piece::Event(kind, body) => put_event(log, kind, body),
        Piece::Rows(kind, rows) => put_rows(alloc, log, kind, rows),
        Piece::Raw(raw) => {
            let _ = log.extend_from_slice(raw);
        }
    }
}

/// A log that has begun: its magic and first event, 123 bytes.
pub fn begun(alloc: Global) -> Bytes {
    let mut log = bytes(alloc, b"\xFEbin");
    put_event(&mut log, 15, FIRST_BODY);
    log
}

/// Puts pieces, one after the other.
pub fn put_all(alloc: Global, log: &mut Bytes, pieces: &[Piece<'_>]) {
    for piece in pieces {
        put_piece(alloc, log, *piece);
    }
}
