//! An event of the log, as a view of the bytes that it was read from.
ghost use Rattle.std.specs.Prelude.{◌≡◌};
ghost use Rattle.event_codec.specs.Event.{size_of, stamp_of};

/// What an event is written with: its timestamp, the server that logs it, and the place of its first
/// byte in the log.
#[derive(Clone, Copy)]
pub struct Header {
    pub stamp: u32,
    pub server_id: u32,
    pub pos: u64,
}

/// A session's AUTO_INCREMENT increment and offset, where they are not 1 and 1.
#[derive(Clone, Copy)]
pub struct Step {
    pub increment: u16,
    pub offset: u16,
}

/// A statement's text, with the thread that ran it.
#[derive(Clone, Copy)]
pub struct QueryView<'a> {
    pub stamp: u32,
    pub length: u64,
    pub thread: u32,
    pub step: Option<Step>,
    pub text: &'a [u8],
}

/// Which number of the next statement an INTVAR gives.
#[derive(Clone, Copy)]
pub enum IntVarKind {
    LastInsertId,
    InsertId,
}

/// The value of a user variable.
#[derive(Clone, Copy)]
pub enum VarValue<'a> {
    Null,
    Int(i64),
    Text(&'a [u8]),
}

/// A user variable that the next statement reads.
#[derive(Clone, Copy)]
pub struct UserVarView<'a> {
    pub stamp: u32,
    pub length: u64,
    pub name: &'a [u8],
    pub value: VarValue<'a>,
}

/// A table's columns: a type each, the greatest length of each text in two bytes, and a bit for each
/// that may be NULL. Bits behind the last column are not looked at.
#[derive(Clone, Copy)]
pub struct MapView<'a> {
    pub stamp: u32,
    pub length: u64,
    pub id: u64,
    pub name: &'a [u8],
    pub kinds: &'a [u8],
    pub metadata: &'a [u8],
    pub nulls: &'a [u8],
}

/// What rows were: put in, changed or taken out.
#[derive(Clone, Copy)]
pub enum RowsKind {
    Write,
    Update,
    Delete,
}

/// Rows of the table with an id, each with all columns; `ends` where they are the last of their
/// statement.
#[derive(Clone, Copy)]
pub struct RowsView<'a> {
    pub stamp: u32,
    pub length: u64,
    pub kind: RowsKind,
    pub id: u64,
    pub ends: bool,
    pub columns: u64,
    pub rows: &'a [u8],
}

/// An event with what its body says, its timestamp, and its `length` in bytes with the header.
#[derive(Clone, Copy)]
pub enum Event<'a> {
    Query(QueryView<'a>),
    /// The number of the log that follows.
    Rotate {
        stamp: u32,
        length: u64,
        next: u32,
    },
    IntVar {
        stamp: u32,
        length: u64,
        kind: IntVarKind,
        value: u64,
    },
    /// The seeds of RAND() before the next statement.
    Rand {
        stamp: u32,
        length: u64,
        first: u32,
        second: u32,
    },
    UserVar(UserVarView<'a>),
    /// The server's version, in 50 bytes.
    FormatDescription {
        stamp: u32,
        length: u64,
        version: &'a [u8],
    },
    Xid {
        stamp: u32,
        length: u64,
        number: u64,
    },
    TableMap(MapView<'a>),
    Rows(RowsView<'a>),
}

impl Event<'_> {
    /// How many bytes it has, header included.
    pub fn length(&self) -> u64
        ensures { result ≡ size_of self.now }
    {
        match self {
            Event::Query(v) => v.length,
            Event::Rotate { length, .. } => *length,
            Event::IntVar { length, .. } => *length,
            Event::Rand { length, .. } => *length,
            Event::UserVar(v) => v.length,
            Event::FormatDescription { length, .. } => *length,
            Event::Xid { length, .. } => *length,
            Event::TableMap(m) => m.length,
            Event::Rows(r) => r.length,
        }
    }

    /// Its timestamp.
    pub fn stamp(&self) -> u32
        ensures { result ≡ stamp_of self.now }
    {
        match self {
            Event::Query(v) => v.stamp,
            Event::Rotate { stamp, .. } => *stamp,
            Event::IntVar { stamp, .. } => *stamp,
            Event::Rand { stamp, .. } => *stamp,
            Event::UserVar(v) => v.stamp,
            Event::FormatDescription { stamp, .. } => *stamp,
            Event::Xid { stamp, .. } => *stamp,
            Event::TableMap(m) => m.stamp,
            Event::Rows(r) => r.stamp,
        }
    }
}
