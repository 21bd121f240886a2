//! Lines of events, worked out by hand.
use crate::tests::{LOG, expect_all, is_text};
use event_codec::{
    Event, IntVarKind, MapView, QueryView, Read, RowsKind, RowsView, Step, UserVarView, VarValue,
    read_event,
};
use log_print::line;
use std::alloc::Global;

/// The place and the line of each event of the small log.
static LINES: [(u64, &[u8]); 15] = [
    (4, b"4 FORMAT_DESCRIPTION 5.7.44-log"),
    (123, b"123 QUERY thread=1 time=1700000001 BEGIN"),
    (163, b"163 INTVAR LAST_INSERT_ID 5"),
    (191, b"191 INTVAR INSERT_ID 2"),
    (219, b"219 RAND 1 2"),
    (254, b"254 USER_VAR x NULL"),
    (279, b"279 USER_VAR y -2"),
    (322, b"322 USER_VAR z 'a'"),
    (
        358,
        b"358 QUERY thread=2 time=1700000001 inc=10 off=20 DO 1",
    ),
    (402, b"402 TABLE_MAP 1 t"),
    (441, b"441 WRITE_ROWS 1 (1, 1)"),
    (481, b"481 UPDATE_ROWS 1 (1, 1)->(1, 2)"),
    (531, b"531 DELETE_ROWS 1 end (1, 2)"),
    (571, b"571 XID 1"),
    (598, b"598 ROTATE binlog.000002"),
];

/// The event at a place of the small log.
fn event_at(pos: u64) -> Option<Event<'static>> {
    if pos > LOG.len() as u64 {
        return None;
    }
    match read_event(&LOG[pos as usize..], pos) {
        Read::Event(event) => Some(event),
        _ => None,
    }
}

/// The map at 402, by which the events from there on are shown.
fn map_for(pos: u64) -> Option<MapView<'static>> {
    if pos < 402 {
        return None;
    }
    match event_at(402) {
        Some(Event::TableMap(map)) => Some(map),
        _ => None,
    }
}

/// Whether the event at a place has a line.
fn has_line(alloc: Global, pos: u64, wanted: &[u8]) -> bool {
    match event_at(pos) {
        Some(event) => is_text(line(alloc, &event, map_for(pos).as_ref(), pos), wanted),
        None => false,
    }
}

/// How many events have their line, from the first on.
fn held_lines(alloc: Global) -> usize {
    for (i, (pos, wanted)) in LINES.iter().enumerate() {
        if !has_line(alloc, *pos, *wanted) {
            return i;
        }
    }
    LINES.len()
}

/// A statement.
fn query(thread: u32, stamp: u32, step: Option<Step>, text: &[u8]) -> Event<'_> {
    Event::Query(QueryView {
        stamp,
        length: 0,
        thread,
        step,
        text,
    })
}

/// Places, timestamps, increments of 10 with an offset or 0 for none, texts of statements of the first
/// thread, and their lines.
static STATEMENTS: [(u64, u32, u16, &[u8], &[u8]); 6] = [
    (
        123,
        1_700_000_001,
        0,
        b"CREATE TABLE t (id INT, v INT, PRIMARY KEY (id))",
        b"123 QUERY thread=1 time=1700000001 CREATE TABLE t (id INT, v INT, PRIMARY KEY (id))",
    ),
    (
        206,
        1_700_000_002,
        0,
        b"BEGIN",
        b"206 QUERY thread=1 time=1700000002 BEGIN",
    ),
    (
        246,
        1_700_000_002,
        0,
        b"INSERT INTO t VALUES (1, 10)",
        b"246 QUERY thread=1 time=1700000002 INSERT INTO t VALUES (1, 10)",
    ),
    (
        300,
        1_700_000_003,
        3,
        b"INSERT INTO a (k) VALUES (2)",
        b"300 QUERY thread=1 time=1700000003 inc=10 off=3 INSERT INTO a (k) VALUES (2)",
    ),
    (
        400,
        0,
        20,
        b"INSERT INTO a (k) VALUES (3)",
        b"400 QUERY thread=1 time=0 inc=10 off=20 INSERT INTO a (k) VALUES (3)",
    ),
    (
        500,
        4_294_967_295,
        0,
        b"INSERT INTO `n` VALUES (1, 7, NAME_CONST('b', X'0027'))",
        b"500 QUERY thread=1 time=4294967295 INSERT INTO `n` VALUES (1, 7, NAME_CONST('b', X'0027'))",
    ),
];

/// An increment of 10 with an offset, none where that is 0.
fn step_of(offset: u16) -> Option<Step> {
    if offset == 0 {
        return None;
    }
    Some(Step {
        increment: 10,
        offset,
    })
}

/// How many statements show their session, from the first on.
fn held_statements(alloc: Global) -> usize {
    for (i, (pos, stamp, offset, text, wanted)) in STATEMENTS.iter().enumerate() {
        let event = query(1, *stamp, step_of(*offset), *text);
        if !is_text(line(alloc, &event, None, *pos), *wanted) {
            return i;
        }
    }
    STATEMENTS.len()
}

/// Texts, and what shows of them: 20 to 7E but for the backslash as they are, the bytes beside these as
/// escapes, a quote as itself.
static TEXTS: [(&[u8], &[u8]); 6] = [
    (
        b"\x1f\x20\x7e\x7f",
        b"9 QUERY thread=1 time=1700000001 \\x1f ~\\x7f",
    ),
    (b"\x5b\\\x5d", b"9 QUERY thread=1 time=1700000001 [\\x5c]"),
    (b"it's \"`", b"9 QUERY thread=1 time=1700000001 it's \"`"),
    (
        b"\x00\n\r\t",
        b"9 QUERY thread=1 time=1700000001 \\x00\\x0a\\x0d\\x09",
    ),
    (
        b"\x80\xab\xff",
        b"9 QUERY thread=1 time=1700000001 \\x80\\xab\\xff",
    ),
    (b"", b"9 QUERY thread=1 time=1700000001 "),
];

/// How many texts show so, from the first on.
fn held_texts(alloc: Global) -> usize {
    for (i, (text, wanted)) in TEXTS.iter().enumerate() {
        let event = query(1, 1_700_000_001, None, *text);
        if !is_text(line(alloc, &event, None, 9), *wanted) {
            return i;
        }
    }
    TEXTS.len()
}

/// A table with a line feed in its name: INT, BIGINT and VARCHAR(300).
static TABLE: MapView = MapView {
    stamp: 0,
    length: 0,
    id: 281_474_976_710_655,
    name: b"t\n",
    kinds: &[3, 8, 15],
    metadata: &[0x2c, 0x01],
    nulls: &[7],
};

/// Kinds of rows of the table, whether they end their statement, their bytes, and the line.
static ROWS: [(RowsKind, bool, &[u8], &[u8]); 4] = [
    (
        RowsKind::Write,
        true,
        &[0x02, 0xfe, 0xff, 0xff, 0xff, 0x02, 0x00, 0x61, 0x62],
        b"7 WRITE_ROWS 281474976710655 end (-2, NULL, 'ab')",
    ),
    (
        RowsKind::Write,
        false,
        &[
            0x07, 0x01, 0, 0, 0, 0, 0, 0, 0, 0x80, 0x02, 0x00, 0x27, 0x0a,
        ],
        b"7 WRITE_ROWS 281474976710655 (NULL, NULL, NULL) (NULL, -9223372036854775808, X'270A')",
    ),
    (
        RowsKind::Update,
        true,
        &[0x07, 0x03, 0x01, 0x00, 0x5c],
        b"7 UPDATE_ROWS 281474976710655 end (NULL, NULL, NULL)->(NULL, NULL, X'5C')",
    ),
    (
        RowsKind::Delete,
        false,
        &[0x07, 0x03, 0x00, 0x00],
        b"7 DELETE_ROWS 281474976710655 (NULL, NULL, NULL) (NULL, NULL, '')",
    ),
];

/// Rows of the table.
fn rows(kind: RowsKind, ends: bool, rows: &[u8]) -> Event<'_> {
    Event::Rows(RowsView {
        stamp: 0,
        length: 0,
        kind,
        id: 281_474_976_710_655,
        ends,
        columns: 3,
        rows,
    })
}

/// How many rows show their values, from the first on; rows whose map is not there show none.
fn held_rows(alloc: Global) -> usize {
    for (i, (kind, ends, bytes, wanted)) in ROWS.iter().enumerate() {
        if !is_text(
            line(alloc, &rows(*kind, *ends, *bytes), Some(&TABLE), 7),
            *wanted,
        ) {
            return i;
        }
    }
    let alone = line(alloc, &rows(RowsKind::Write, true, &[7]), None, 7);
    if !is_text(alone, b"7 WRITE_ROWS 281474976710655 end") {
        return 0;
    }
    ROWS.len()
}

/// The first and the last numbers of their types.
static NUMBERS: [(Event<'static>, &[u8]); 8] = [
    (
        Event::Query(QueryView {
            stamp: 1_700_000_001,
            length: 0,
            thread: 4_294_967_295,
            step: Some(Step {
                increment: 65535,
                offset: 1,
            }),
            text: b"x",
        }),
        b"1200000000 QUERY thread=4294967295 time=1700000001 inc=65535 off=1 x",
    ),
    (
        Event::IntVar {
            stamp: 0,
            length: 0,
            kind: IntVarKind::LastInsertId,
            value: 9_223_372_036_854_775_807,
        },
        b"1200000000 INTVAR LAST_INSERT_ID 9223372036854775807",
    ),
    (
        Event::Rand {
            stamp: 0,
            length: 0,
            first: 0,
            second: 1_073_741_822,
        },
        b"1200000000 RAND 0 1073741822",
    ),
    (
        Event::UserVar(UserVarView {
            stamp: 0,
            length: 0,
            name: b"a\\",
            value: VarValue::Int(-9_223_372_036_854_775_808),
        }),
        b"1200000000 USER_VAR a\\x5c -9223372036854775808",
    ),
    (
        Event::UserVar(UserVarView {
            stamp: 0,
            length: 0,
            name: b"b",
            value: VarValue::Text(b"\\"),
        }),
        b"1200000000 USER_VAR b X'5C'",
    ),
    (
        Event::Xid {
            stamp: 0,
            length: 0,
            number: 18_446_744_073_709_551_615,
        },
        b"1200000000 XID 18446744073709551615",
    ),
    (
        Event::TableMap(MapView {
            stamp: 0,
            length: 0,
            id: 281_474_976_710_655,
            name: b"t\n",
            kinds: &[3, 8, 15],
            metadata: &[0x2c, 0x01],
            nulls: &[7],
        }),
        b"1200000000 TABLE_MAP 281474976710655 t\\x0a",
    ),
    (
        Event::Rotate {
            stamp: 0,
            length: 0,
            next: 60000,
        },
        b"1200000000 ROTATE binlog.060000",
    ),
];

/// How many show whole, from the first on.
fn held_numbers(alloc: Global) -> usize {
    for (i, (event, wanted)) in NUMBERS.iter().enumerate() {
        if !is_text(line(alloc, event, None, 1_200_000_000), *wanted) {
            return i;
        }
    }
    NUMBERS.len()
}

#[test]
fn lines_of_events(rt: HostRuntime) {
    let alloc = rt.alloc();
    expect_all(&rt, "events of a log", held_lines(alloc), 15);
    expect_all(
        &rt,
        "statements with their session",
        held_statements(alloc),
        6,
    );
    expect_all(&rt, "bytes that are escaped", held_texts(alloc), 6);
    expect_all(&rt, "rows with their values", held_rows(alloc), 4);
    expect_all(&rt, "numbers that show whole", held_numbers(alloc), 8);
}
