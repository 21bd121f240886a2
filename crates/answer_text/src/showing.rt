//! The lines of an answer.
ghost use Rattle.std.specs.Prelude.{◌≡◌, ◌++◌, ◌∷◌, [], codes, IfOk, OnOk, length};
ghost use Rattle.std.specs.Fmt.{decimal};
ghost use Rattle.val_types.specs.Text.{row_text_of};
ghost use Rattle.answer_text.specs.Shown.{count_line, end_line, number_if, row_line, set_lines, sets_lines, shown, warning_text, warns_rows};

use crate::answer::{Answer, End};
use crate::putting::{put_number, put_with};
use std::alloc::Global;
use val_types::{Bytes, List, NoMemory, Row, row_text};

/// Begins a line of the command with this number: the number, a space and the first words.
fn begin(alloc: Global, text: &mut Bytes, number: u32, words: &[u8]) -> Result<(), NoMemory>
    ensures { OnOk result (text.new ≡ text.old ++ decimal number ++ codes " " ++ words.now) }
{
    put_number(alloc, text, u64::from(number))?;
    text.push(b' ')?;
    text.extend_from_slice(words)
}

/// Ends a line, with a warning where a statement is unsafe.
fn end_warned(text: &mut Bytes, warned: bool) -> Result<(), NoMemory>
    ensures { OnOk result (text.new ≡ text.old ++ warning_text warned ++ 0x0a ∷ []) }
{
    if warned {
        text.extend_from_slice(b" warning 1592")?;
    }
    text.push(b'\n')
}

/// Puts the line of a row.
fn put_row(alloc: Global, text: &mut Bytes, number: u32, row: &Row) -> Result<(), NoMemory>
    ensures { OnOk result (text.new ≡ text.old ++ row_line number row.now) }
{
    begin(alloc, text, number, b"row ")?;
    text.append(row_text(alloc, row)?)?;
    text.push(b'\n')
}

/// Puts the lines of rows, and how many they are.
fn put_set(
    alloc: Global,
    text: &mut Bytes,
    number: u32,
    warned: bool,
    rows: &List<Row>,
) -> Result<(), NoMemory>
    ensures { OnOk result (text.new ≡ text.old ++ set_lines number warned rows.now) }
{
    for row in rows.as_slice() {
        put_row(alloc, text, number, row)?;
    }
    begin(alloc, text, number, b"rows ")?;
    put_number(alloc, text, rows.len() as u64)?;
    end_warned(text, warned)
}

/// Puts the lines of sets of rows; a warning stands behind the last.
fn put_sets(
    alloc: Global,
    text: &mut Bytes,
    number: u32,
    warned: bool,
    sets: &List<List<Row>>,
) -> Result<(), NoMemory>
    ensures { OnOk result (text.new ≡ text.old ++ sets_lines number warned sets.now) }
{
    let last = sets.len();
    for (i, rows) in sets.as_slice().iter().enumerate() {
        put_set(alloc, text, number, warned && i + 1 == last, rows)?;
    }
    Ok(())
}

/// Puts words and a number, where there is one.
fn put_if(
    alloc: Global,
    text: &mut Bytes,
    words: &[u8],
    number: Option<u64>,
) -> Result<(), NoMemory>
    ensures { OnOk result (text.new ≡ text.old ++ number_if words.now number) }
{
    match number {
        None => Ok(()),
        Some(number) => put_with(alloc, text, words, number),
    }
}

/// Whether the last set of rows ends with a warning.
fn warns_rows(end: &End) -> bool
    ensures { result ≡ warns_rows end.now }
{
    match end {
        End::Rows { warned } => *warned,
        End::Ok { .. } | End::Refused { .. } => false,
    }
}

/// Puts the last line.
fn put_end(alloc: Global, text: &mut Bytes, number: u32, end: &End) -> Result<(), NoMemory>
    ensures { OnOk result (text.new ≡ text.old ++ end_line number end.now) }
{
    match end {
        End::Ok { affected, warned } => {
            begin(alloc, text, number, b"ok ")?;
            put_number(alloc, text, *affected)?;
            end_warned(text, *warned)
        }
        End::Rows { .. } => Ok(()),
        End::Refused { code, at, holder } => {
            begin(alloc, text, number, b"error ")?;
            put_number(alloc, text, u64::from(*code))?;
            put_if(alloc, text, b" at ", at.map(u64::from))?;
            put_if(alloc, text, b" by s", holder.map(u64::from))?;
            text.push(b'\n')
        }
    }
}

/// The lines that show the answer to the command with this number, counted from 1: for each set of rows
/// `1 row 1, 'a'` and so on, and `1 rows 2`; then `1 ok 1`, or `1 error 1062`, where 1064 adds ` at` and
/// the byte, and 1205 ` by s` and the number of the session that has the writer's lock. A warning that a
/// statement is unsafe ends the last line.
pub fn shown(alloc: Global, number: u32, answer: &Answer) -> Result<Bytes, NoMemory>
    ensures { IfOk result (λ text. text ≡ shown number answer.now) }
{
    let mut text = List::new(alloc);
    put_sets(
        alloc,
        &mut text,
        number,
        warns_rows(&answer.end),
        &answer.sets,
    )?;
    put_end(alloc, &mut text, number, &answer.end)?;
    Ok(text)
}
