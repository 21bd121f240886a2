//! A small log with events of all types: written, read, and read with each byte changed. An independent
//! program wrote the bytes from the layouts of the events; their checksums are of the standard CRC-32.
ghost use Rattle.std.specs.Prelude.{◌≡◌, ◌≤◌, length};

use event_codec::{
    Event, Header, IntVarKind, MapView, QueryView, Read, RowsKind, RowsView, Step, UserVarView,
    VarValue, read_event, write_event,
};
use std::alloc::Global;
use std::process::Abort;
use val_types::{Bytes, Change, List, NoMemory};

pub(crate) static LOG: [u8; 638] = [
    0xfe, 0x62, 0x69, 0x6e,
    // FORMAT_DESCRIPTION, from 4
    0x00, 0xf1, 0x53, 0x65, 0x0f, 0x01, 0x00, 0x00, 0x00, 0x77, 0x00, 0x00, 0x00, 0x7b, 0x00, 0x00,
    0x00, 0x00, 0x00, 0x04, 0x00, 0x35, 0x2e, 0x37, 0x2e, 0x34, 0x34, 0x2d, 0x6c, 0x6f, 0x67, 0x00,
    0x00, 0x00, 0x00, 0x00, 0x00, 0x00, 0x00, 0x00, 0x00, 0x00, 0x00, 0x00, 0x00, 0x00, 0x00, 0x00,
    0x00, 0x00, 0x00, 0x00, 0x00, 0x00, 0x00, 0x00, 0x00, 0x00, 0x00, 0x00, 0x00, 0x00, 0x00, 0x00,
    0x00, 0x00, 0x00, 0x00, 0x00, 0x00, 0x00, 0x00, 0xf1, 0x53, 0x65, 0x13, 0x38, 0x0d, 0x00, 0x08,
    0x00, 0x12, 0x00, 0x04, 0x04, 0x04, 0x04, 0x12, 0x00, 0x00, 0x5f, 0x00, 0x04, 0x1a, 0x08, 0x00,
    0x00, 0x00, 0x08, 0x08, 0x08, 0x02, 0x00, 0x00, 0x00, 0x0a, 0x0a, 0x0a, 0x2a, 0x2a, 0x00, 0x12,
    0x34, 0x00, 0x00, 0x00, 0x00, 0x00, 0x00,
    // QUERY `BEGIN` of thread 1, from 123
    0x01, 0xf1, 0x53, 0x65, 0x02, 0x01, 0x00, 0x00, 0x00, 0x28, 0x00, 0x00, 0x00, 0xa3, 0x00, 0x00,
    0x00, 0x00, 0x00, 0x01, 0x00, 0x00, 0x00, 0x00, 0x00, 0x00, 0x00, 0x02, 0x00, 0x00, 0x00, 0x00,
    0x64, 0x62, 0x00, 0x42, 0x45, 0x47, 0x49, 0x4e,
    // INTVAR LAST_INSERT_ID 5, from 163
    0x01, 0xf1, 0x53, 0x65, 0x05, 0x01, 0x00, 0x00, 0x00, 0x1c, 0x00, 0x00, 0x00, 0xbf, 0x00, 0x00,
    0x00, 0x00, 0x00, 0x01, 0x05, 0x00, 0x00, 0x00, 0x00, 0x00, 0x00, 0x00,
    // INTVAR INSERT_ID 2, from 191
    0x01, 0xf1, 0x53, 0x65, 0x05, 0x01, 0x00, 0x00, 0x00, 0x1c, 0x00, 0x00, 0x00, 0xdb, 0x00, 0x00,
    0x00, 0x00, 0x00, 0x02, 0x02, 0x00, 0x00, 0x00, 0x00, 0x00, 0x00, 0x00,
    // RAND 1 2, from 219
    0x01, 0xf1, 0x53, 0x65, 0x0d, 0x01, 0x00, 0x00, 0x00, 0x23, 0x00, 0x00, 0x00, 0xfe, 0x00, 0x00,
    0x00, 0x00, 0x00, 0x01, 0x00, 0x00, 0x00, 0x00, 0x00, 0x00, 0x00, 0x02, 0x00, 0x00, 0x00, 0x00,
    0x00, 0x00, 0x00,
    // USER_VAR x NULL, from 254
    0x01, 0xf1, 0x53, 0x65, 0x0e, 0x01, 0x00, 0x00, 0x00, 0x19, 0x00, 0x00, 0x00, 0x17, 0x01, 0x00,
    0x00, 0x00, 0x00, 0x01, 0x00, 0x00, 0x00, 0x78, 0x01,
    // USER_VAR y -2, from 279
    0x01, 0xf1, 0x53, 0x65, 0x0e, 0x01, 0x00, 0x00, 0x00, 0x2b, 0x00, 0x00, 0x00, 0x42, 0x01, 0x00,
    0x00, 0x00, 0x00, 0x01, 0x00, 0x00, 0x00, 0x79, 0x00, 0x02, 0x3f, 0x00, 0x00, 0x00, 0x08, 0x00,
    0x00, 0x00, 0xfe, 0xff, 0xff, 0xff, 0xff, 0xff, 0xff, 0xff, 0x00,
    // USER_VAR z 'a', from 322
    0x01, 0xf1, 0x53, 0x65, 0x0e, 0x01, 0x00, 0x00, 0x00, 0x24, 0x00, 0x00, 0x00, 0x66, 0x01, 0x00,
    0x00, 0x00, 0x00, 0x01, 0x00, 0x00, 0x00, 0x7a, 0x00, 0x00, 0x3f, 0x00, 0x00, 0x00, 0x01, 0x00,
    0x00, 0x00, 0x61, 0x00,
    // QUERY `DO 1` of thread 2, increment 10, offset 20, from 358
    0x01, 0xf1, 0x53, 0x65, 0x02, 0x01, 0x00, 0x00, 0x00, 0x2c, 0x00, 0x00, 0x00, 0x92, 0x01, 0x00,
    0x00, 0x00, 0x00, 0x02, 0x00, 0x00, 0x00, 0x00, 0x00, 0x00, 0x00, 0x02, 0x00, 0x00, 0x05, 0x00,
    0x03, 0x0a, 0x00, 0x14, 0x00, 0x64, 0x62, 0x00, 0x44, 0x4f, 0x20, 0x31,
    // TABLE_MAP 1 of `t`, from 402
    0x02, 0xf1, 0x53, 0x65, 0x13, 0x01, 0x00, 0x00, 0x00, 0x27, 0x00, 0x00, 0x00, 0xb9, 0x01, 0x00,
    0x00, 0x00, 0x00, 0x01, 0x00, 0x00, 0x00, 0x00, 0x00, 0x00, 0x00, 0x02, 0x64, 0x62, 0x00, 0x01,
    0x74, 0x00, 0x02, 0x03, 0x03, 0x00, 0x02,
    // WRITE_ROWS 1, from 441
    0x02, 0xf1, 0x53, 0x65, 0x1e, 0x01, 0x00, 0x00, 0x00, 0x28, 0x00, 0x00, 0x00, 0xe1, 0x01, 0x00,
    0x00, 0x00, 0x00, 0x01, 0x00, 0x00, 0x00, 0x00, 0x00, 0x00, 0x00, 0x02, 0x00, 0x02, 0x03, 0x00,
    0x01, 0x00, 0x00, 0x00, 0x01, 0x00, 0x00, 0x00,
    // UPDATE_ROWS 1, from 481
    0x02, 0xf1, 0x53, 0x65, 0x1f, 0x01, 0x00, 0x00, 0x00, 0x32, 0x00, 0x00, 0x00, 0x13, 0x02, 0x00,
    0x00, 0x00, 0x00, 0x01, 0x00, 0x00, 0x00, 0x00, 0x00, 0x00, 0x00, 0x02, 0x00, 0x02, 0x03, 0x03,
    0x00, 0x01, 0x00, 0x00, 0x00, 0x01, 0x00, 0x00, 0x00, 0x00, 0x01, 0x00, 0x00, 0x00, 0x02, 0x00,
    0x00, 0x00,
    // DELETE_ROWS 1 at the end of its statement, from 531
    0x02, 0xf1, 0x53, 0x65, 0x20, 0x01, 0x00, 0x00, 0x00, 0x28, 0x00, 0x00, 0x00, 0x3b, 0x02, 0x00,
    0x00, 0x00, 0x00, 0x01, 0x00, 0x00, 0x00, 0x00, 0x00, 0x01, 0x00, 0x02, 0x00, 0x02, 0x03, 0x00,
    0x01, 0x00, 0x00, 0x00, 0x02, 0x00, 0x00, 0x00,
    // XID 1, from 571
    0x02, 0xf1, 0x53, 0x65, 0x10, 0x01, 0x00, 0x00, 0x00, 0x1b, 0x00, 0x00, 0x00, 0x56, 0x02, 0x00,
    0x00, 0x00, 0x00, 0x01, 0x00, 0x00, 0x00, 0x00, 0x00, 0x00, 0x00,
    // ROTATE to log 2, from 598
    0x03, 0xf1, 0x53, 0x65, 0x04, 0x01, 0x00, 0x00, 0x00, 0x28, 0x00, 0x00, 0x00, 0x7e, 0x02, 0x00,
    0x00, 0x00, 0x00, 0x04, 0x00, 0x00, 0x00, 0x00, 0x00, 0x00, 0x00, 0x62, 0x69, 0x6e, 0x6c, 0x6f,
    0x67, 0x2e, 0x30, 0x30, 0x30, 0x30, 0x30, 0x32,
];

/// The version of the server in its 50 bytes.
static VERSION: [u8; 50] =
    *b"5.7.44-log\0\0\0\0\0\0\0\0\0\0\0\0\0\0\0\0\0\0\0\0\0\0\0\0\0\0\0\0\0\0\0\0\0\0\0\0\0\0\0\0";

fn header(stamp: u32, pos: u64) -> Header
    ensures { result.pos ≡ pos }
{
    Header {
        stamp,
        server_id: 1,
        pos,
    }
}

/// Writes the first event and what begins a transaction.
fn put_head(out: &mut Bytes) -> Result<(), NoMemory> {
    let start = Event::FormatDescription {
        stamp: 0,
        length: 0,
        version: &VERSION,
    };
    write_event(&start, &header(1_700_000_000, 4), out)?;
    let begin = Event::Query(QueryView {
        stamp: 0,
        length: 0,
        thread: 1,
        step: None,
        text: b"BEGIN",
    });
    write_event(&begin, &header(1_700_000_001, 123), out)
}

/// Writes what the statement needs of its session as numbers.
fn put_numbers(out: &mut Bytes) -> Result<(), NoMemory> {
    let last = Event::IntVar {
        stamp: 0,
        length: 0,
        kind: IntVarKind::LastInsertId,
        value: 5,
    };
    write_event(&last, &header(1_700_000_001, 163), out)?;
    let first = Event::IntVar {
        stamp: 0,
        length: 0,
        kind: IntVarKind::InsertId,
        value: 2,
    };
    write_event(&first, &header(1_700_000_001, 191), out)?;
    let seeds = Event::Rand {
        stamp: 0,
        length: 0,
        first: 1,
        second: 2,
    };
    write_event(&seeds, &header(1_700_000_001, 219), out)
}

/// Writes its user variables.
fn put_variables(out: &mut Bytes) -> Result<(), NoMemory> {
    let null = Event::UserVar(UserVarView {
        stamp: 0,
        length: 0,
        name: b"x",
        value: VarValue::Null,
    });
    write_event(&null, &header(1_700_000_001, 254), out)?;
    let integer = Event::UserVar(UserVarView {
        stamp: 0,
        length: 0,
        name: b"y",
        value: VarValue::Int(-2),
    });
    write_event(&integer, &header(1_700_000_001, 279), out)?;
    let text = Event::UserVar(UserVarView {
        stamp: 0,
        length: 0,
        name: b"z",
        value: VarValue::Text(b"a"),
    });
    write_event(&text, &header(1_700_000_001, 322), out)
}

/// Writes the statement.
fn put_statement(out: &mut Bytes) -> Result<(), NoMemory> {
    let statement = Event::Query(QueryView {
        stamp: 0,
        length: 0,
        thread: 2,
        step: Some(Step {
            increment: 10,
            offset: 20,
        }),
        text: b"DO 1",
    });
    write_event(&statement, &header(1_700_000_001, 358), out)
}

/// Writes the map of a table `t` of two numbers, of which the second may be NULL.
fn put_map(out: &mut Bytes) -> Result<(), NoMemory> {
    let map = Event::TableMap(MapView {
        stamp: 0,
        length: 0,
        id: 1,
        name: b"t",
        kinds: &[3, 3],
        metadata: &[],
        nulls: &[2],
    });
    write_event(&map, &header(1_700_000_002, 402), out)
}

/// Writes rows of the table.
fn put_rows(
    kind: RowsKind,
    ends: bool,
    rows: &[u8],
    pos: u64,
    out: &mut Bytes,
) -> Result<(), NoMemory>
    requires some { 1 ≤ length rows.now }
    requires few { length rows.now ≤ 100 }
    requires pos { pos ≤ 1000 }
{
    let event = Event::Rows(RowsView {
        stamp: 0,
        length: 0,
        kind,
        id: 1,
        ends,
        columns: 2,
        rows,
    });
    write_event(&event, &header(1_700_000_002, pos), out)
}

/// Writes the end of the transaction and of the log.
fn put_end(out: &mut Bytes) -> Result<(), NoMemory> {
    let commit = Event::Xid {
        stamp: 0,
        length: 0,
        number: 1,
    };
    write_event(&commit, &header(1_700_000_002, 571), out)?;
    let next = Event::Rotate {
        stamp: 0,
        length: 0,
        next: 2,
    };
    write_event(&next, &header(1_700_000_003, 598), out)
}

/// Writes all of them.
fn put_log(out: &mut Bytes) -> Result<(), NoMemory> {
    put_head(out)?;
    put_numbers(out)?;
    put_variables(out)?;
    put_statement(out)?;
    put_map(out)?;
    put_rows(RowsKind::Write, false, &LOG[472..481], 441, out)?;
    put_rows(RowsKind::Update, false, &LOG[513..531], 481, out)?;
    put_rows(RowsKind::Delete, true, &LOG[562..571], 531, out)?;
    put_end(out)
}

/// Bytes with memory of their own.
pub(crate) fn bytes(alloc: Global, of: &[u8]) -> Bytes {
    let mut bytes = List::new(alloc);
    let _ = bytes.extend_from_slice(of);
    bytes
}

/// Whether a text is made, and is this one.
pub(crate) fn is_text(found: Result<Bytes, NoMemory>, wanted: &[u8]) -> bool {
    match found {
        Ok(text) => text.as_slice() == wanted,
        Err(_) => false,
    }
}

/// Whether two changes are of one kind, and have the same rows.
fn have_same_rows(a: &Change, b: &Change) -> bool {
    match (a, b) {
        (Change::Insert { row, .. }, Change::Insert { row: other, .. }) => *row.get()
            == *other.get(),
        (Change::Delete { row, .. }, Change::Delete { row: other, .. }) => *row.get()
            == *other.get(),
        (
            Change::Update { before, after, .. },
            Change::Update {
                before: old,
                after: new,
                ..
            },
        ) => *before.get() == *old.get() && *after.get() == *new.get(),
        _ => false,
    }
}

/// Whether changes are made, and are just this one.
pub(crate) fn is_change(
    found: Result<List<Change>, NoMemory>,
    wanted: Result<Change, NoMemory>,
) -> bool {
    let (Ok(found), Ok(wanted)) = (found, wanted) else {
        return false;
    };
    match found.as_slice() {
        [change] => *change.table() == *wanted.table() && have_same_rows(change, &wanted),
        _ => false,
    }
}

/// Expects of a table that all its cases hold.
pub(crate) fn expect_all(rt: &impl Abort, of: &str, held: usize, cases: usize) {
    assert_eq!(rt; held, cases, "{of}");
}

/// A letter for what stands there: an event, fewer bytes, damage, or what is not known.
fn letter(read: &Read, pos: u64) -> u8 {
    match read {
        Read::Event(_) => b'e',
        Read::Short { .. } => b's',
        Read::Damaged { pos: at } => { if *at == pos { b'd' } else { b'?' } }
        Read::Foreign { pos: at, .. } => { if *at == pos { b'f' } else { b'?' } }
    }
}

/// What stands at a place of a log.
fn letter_at(log: &[u8], pos: u64) -> u8 {
    if pos > log.len() as u64 {
        return b'?';
    }
    letter(&read_event(&log[pos as usize..], pos), pos)
}

/// The answers for an event's header with one of its bytes set to ff.
pub(crate) static HEADER: [u8; 19] = *b"eeeefeeeeddddddddee";

/// Where each event begins, and the answers for its body with one of its bytes set to ff.
pub(crate) static BODIES: [(u64, &[u8]); 15] = [
    (
        4,
        b"ffeeeeeeeeeeeeeeeeeeeeeeeeeeeeeeeeeeeeeeeeeeeeeeeeeeeeeeffffffffffffffffffffffffffffffffffffffffeeee",
    ),
    (123, b"eeeeeeeedffddffdeeeee"),
    (163, b"deeeeeeef"),
    (191, b"deeeeeeef"),
    (219, b"eeeeeeeeeeeeeeee"),
    (254, b"dddded"),
    (279, b"ddddedfffffddddeeeeeeeef"),
    (322, b"ddddedfffffddddef"),
    (358, b"eeeeeeeedffddfeeeeffdeeee"),
    (402, b"eeeeeeeedffddeddffde"),
    (441, b"eeeeeeeeffdeeeeeeeeee"),
    (481, b"eeeeeeeeffdeeeeeeeeeeeeeeeeeeee"),
    (531, b"eeeeeeeeffdeeeeeeeeee"),
    (571, b"eeeeeeee"),
    (598, b"fffffffffffffffffffff"),
];

/// Whether these are the answers with one byte after the other from a place on set to ff, where an event begins at `pos`.
fn are_answers(log: &mut Bytes, pos: u64, from: usize, wanted: &[u8]) -> bool {
    for (i, letter) in wanted.iter().enumerate() {
        let place = from.saturating_add(i);
        if place >= log.len() {
            return false;
        }
        let old = log[place];
        log.set(place, 0xff);
        let found = letter_at(log.as_slice(), pos);
        log.set(place, old);
        if found != *letter {
            return false;
        }
    }
    true
}

/// How many events are read so, from the first on, as they are and with each byte changed.
fn held(log: &mut Bytes) -> usize {
    for (i, (pos, body)) in BODIES.iter().enumerate() {
        let start = *pos as usize;
        if letter_at(log.as_slice(), *pos) != b'e'
            || !are_answers(log, *pos, start, &HEADER)
            || !are_answers(log, *pos, start.saturating_add(19), *body)
        {
            return i;
        }
    }
    BODIES.len()
}

/// How many bytes an event needs of which so many are there, None where it is not cut.
fn need_of(length: usize) -> Option<u64> {
    if length > 67 {
        return None;
    }
    match read_event(&LOG[571..571 + length], 571) {
        Read::Short { need } => Some(need),
        _ => None,
    }
}

#[test]
fn events_written_and_read(rt: HostRuntime) {
    let mut log = bytes(rt.alloc(), &LOG[..4]);
    assert!(rt; put_log(&mut log).is_ok());
    assert!(rt; log.as_slice() == LOG.as_slice());
    expect_all(&rt, "events with each byte changed", held(&mut log), 15);
    assert!(rt; need_of(18) == Some(19) && need_of(19) == Some(27) && need_of(26) == Some(27));
}
