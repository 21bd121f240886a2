//! How a run ends.
ghost use Rattle.std.specs.Prelude.{◌≡◌, ◌++◌, codes, IfOk, OnOk};
ghost use Rattle.answer_text.specs.Statuses.{damaged_words, differing_words, ended, foreign_words, number_of_status, status_line, status_words, table_text};

use crate::putting::{put_number, put_with};
use std::alloc::Global;
use val_types::{Bytes, List, NoMemory, Row, SqlError, row_text};

/// How a run ends. What each comes for stands in the contract of the program's top call.
#[derive(Drop)]
pub enum Status {
    Done,
    /// The words are none that the program knows.
    BadWords,
    /// The script has no command at this byte.
    BadScript {
        at: u64,
    },
    ReadFault,
    WriteFault,
    SourceDisk,
    ReplicaDisk,
    /// The source's files stand for no state: the first such file, and the place in it.
    SourceDamaged {
        file: u32,
        at: u64,
    },
    ReplicaDamaged {
        file: u32,
        at: u64,
    },
    /// An event of the log is outside its form.
    LogDamaged {
        pos: u64,
    },
    /// An event of the log is not known, of this type.
    LogForeign {
        pos: u64,
        kind: u8,
    },
    /// What the log says cannot be done on the tables: the error's number, with the table and the key where
    /// there are any.
    Differs {
        pos: u64,
        code: SqlError,
        table: Bytes,
        key: Row,
    },
    NoMemory,
}

impl Status {
    /// The number that the program exits with.
    pub fn number(&self) -> u8
        ensures { result ≡ number_of_status self.now }
    {
        match self {
            Status::Done => 0,
            Status::BadWords => 1,
            Status::BadScript { .. } => 2,
            Status::ReadFault => 3,
            Status::WriteFault => 4,
            Status::SourceDisk => 5,
            Status::ReplicaDisk => 6,
            Status::SourceDamaged { .. } => 7,
            Status::ReplicaDamaged { .. } => 8,
            Status::LogDamaged { .. } => 9,
            Status::LogForeign { .. } => 10,
            Status::Differs { .. } => 11,
            Status::NoMemory => 12,
        }
    }
}

/// Which node's files stand for no state, and the first place.
fn damaged(alloc: Global, node: &[u8], file: u32, at: u64) -> Result<Bytes, NoMemory>
    ensures { IfOk result (λ text. text ≡ damaged_words node.now file at) }
{
    let mut text = List::from_slice(alloc, node)?;
    put_with(alloc, &mut text, b" damaged file ", u64::from(file))?;
    put_with(alloc, &mut text, b" at ", at)?;
    Ok(text)
}

/// Puts a table's name, a dash where there is none.
fn put_table(text: &mut Bytes, table: &Bytes) -> Result<(), NoMemory>
    ensures { OnOk result (text.new ≡ text.old ++ table_text table.now) }
{
    match table.as_slice() {
        [] => text.push(b'-'),
        name => text.extend_from_slice(name),
    }
}

/// What a log and the tables differ in.
fn differing(
    alloc: Global,
    pos: u64,
    code: SqlError,
    table: &Bytes,
    key: &Row,
) -> Result<Bytes, NoMemory>
    ensures { IfOk result (λ text. text ≡ differing_words pos code table.now key.now) }
{
    let mut text = List::from_slice(alloc, b"differs at ")?;
    put_number(alloc, &mut text, pos)?;
    put_with(alloc, &mut text, b" code ", u64::from(code))?;
    text.extend_from_slice(b" table ")?;
    put_table(&mut text, table)?;
    text.extend_from_slice(b" key (")?;
    text.append(row_text(alloc, key)?)?;
    text.push(b')')?;
    Ok(text)
}

/// The place and the type of an event that is not known.
fn foreign(alloc: Global, pos: u64, kind: u8) -> Result<Bytes, NoMemory>
    ensures { IfOk result (λ text. text ≡ foreign_words pos kind) }
{
    let mut text = List::from_slice(alloc, b"log foreign at ")?;
    put_number(alloc, &mut text, pos)?;
    put_with(alloc, &mut text, b" type ", u64::from(kind))?;
    Ok(text)
}

/// Puts the words that tell a status.
fn put_words(alloc: Global, text: &mut Bytes, status: &Status) -> Result<(), NoMemory>
    ensures { OnOk result (text.new ≡ text.old ++ status_words status.now) }
{
    match status {
        Status::Done => Ok(()),
        Status::BadWords => text.extend_from_slice(b"bad words"),
        Status::BadScript { at } => put_with(alloc, text, b"bad script at ", *at),
        Status::ReadFault => text.extend_from_slice(b"read fault"),
        Status::WriteFault => text.extend_from_slice(b"write fault"),
        Status::SourceDisk => text.extend_from_slice(b"source disk fault"),
        Status::ReplicaDisk => text.extend_from_slice(b"replica disk fault"),
        Status::SourceDamaged { file, at } => text.append(damaged(alloc, b"source", *file, *at)?),
        Status::ReplicaDamaged { file, at } => text.append(damaged(alloc, b"replica", *file, *at)?),
        Status::LogDamaged { pos } => put_with(alloc, text, b"log damaged at ", *pos),
        Status::LogForeign { pos, kind } => text.append(foreign(alloc, *pos, *kind)?),
        Status::Differs {
            pos,
            code,
            table,
            key,
        } => text.append(differing(alloc, *pos, *code, table, key)?),
        Status::NoMemory => text.extend_from_slice(b"out of memory"),
    }
}

/// The line that tells a status on standard error, as `bad script at 7`; nothing for Done.
pub fn status_line(alloc: Global, status: &Status) -> Result<Bytes, NoMemory>
    ensures { IfOk result (λ text. text ≡ status_line status.now) }
{
    let mut text = List::new(alloc);
    put_words(alloc, &mut text, status)?;
    if !text.is_empty() {
        text.push(b'\n')?;
    }
    Ok(text)
}
