//! The lines that show FETCH and APPLY.
ghost use Rattle.std.specs.Prelude.{◌≡◌, ◌++◌, codes, IfOk, OnOk};
ghost use Rattle.std.specs.Fmt.{decimal};
ghost use Rattle.std.specs.Option.{option_map};
ghost use Rattle.val_types.specs.Text.{row_text_of};
ghost use Rattle.answer_text.specs.Statuses.{table_text};
ghost use Rattle.replica_model.specs.Applying.{differs};
ghost use Rattle.replica_model.specs.Lines.{applied_line, fetched_line, stop_if, stop_words};
ghost use Rattle.replica_node.specs.Steps.{stop_of};

use crate::told::{Applied, Stopped};
use std::alloc::Global;
use val_types::{Bytes, List, NoMemory, Row, SqlError, row_text};

/// Puts words and a number behind them at the end.
fn put_with(alloc: Global, text: &mut Bytes, words: &[u8], number: u64) -> Result<(), NoMemory>
    ensures { OnOk result (text.new ≡ text.old ++ words.now ++ decimal number) }
{
    text.extend_from_slice(words)?;
    text.extend_from_slice(number.to_string(alloc)?.as_bytes())
}

/// The beginning of a line of the command with this number: a word and a count.
fn begun(alloc: Global, number: u32, word: &[u8], count: u32) -> Result<Bytes, NoMemory>
    ensures { IfOk result (λ text. text ≡ decimal number ++ codes " " ++ word.now ++ decimal count) }
{
    let mut text = List::new(alloc);
    put_with(alloc, &mut text, b"", u64::from(number))?;
    text.push(b' ')?;
    put_with(alloc, &mut text, word, u64::from(count))?;
    Ok(text)
}

/// Puts a table's name, a dash where there is none.
fn put_table(text: &mut Bytes, table: &Bytes) -> Result<(), NoMemory>
    ensures { OnOk result (text.new ≡ text.old ++ table_text table.now) }
{
    match table.as_slice() {
        [] => text.push(b'-'),
        name => text.extend_from_slice(name),
    }
}

/// Puts a table and a key, where there are any.
fn put_key(alloc: Global, text: &mut Bytes, table: &Bytes, key: &Row) -> Result<(), NoMemory>
    ensures { OnOk result (text.new ≡ text.old ++ codes " " ++ table_text table.now ++ codes " (" ++ row_text_of key.now ++ codes ")") }
{
    text.push(b' ')?;
    put_table(text, table)?;
    text.extend_from_slice(b" (")?;
    text.append(row_text(alloc, key)?)?;
    text.push(b')')
}

/// Puts what a log and the tables differ in.
fn put_differs(
    alloc: Global,
    text: &mut Bytes,
    pos: u64,
    code: SqlError,
    table: &Bytes,
    key: &Row,
) -> Result<(), NoMemory>
    ensures { OnOk result (text.new ≡ text.old ++ stop_words (differs (record { place = pos; code = code; table = table.now; key = key.now }))) }
{
    put_with(alloc, text, b" stopped differs ", pos)?;
    put_with(alloc, text, b" ", u64::from(code))?;
    put_key(alloc, text, table, key)
}

/// Puts why no more was carried out.
fn put_stop(alloc: Global, text: &mut Bytes, stop: &Stopped) -> Result<(), NoMemory>
    ensures { OnOk result (text.new ≡ text.old ++ stop_words (stop_of stop.now)) }
{
    match stop {
        Stopped::Differs {
            pos,
            code,
            table,
            key,
        } => put_differs(alloc, text, *pos, *code, table, key),
        Stopped::Damaged { pos } => put_with(alloc, text, b" stopped damaged ", *pos),
        Stopped::Foreign { pos, kind } => {
            put_with(alloc, text, b" stopped foreign ", *pos)?;
            put_with(alloc, text, b" ", u64::from(*kind))
        }
    }
}

/// Puts why no more was carried out, if anything stopped it.
fn put_stop_if(alloc: Global, text: &mut Bytes, stop: &Option<Stopped>) -> Result<(), NoMemory>
    ensures { OnOk result (text.new ≡ text.old ++ stop_if (option_map stop_of stop.now)) }
{
    match stop {
        None => Ok(()),
        Some(stop) => put_stop(alloc, text, stop),
    }
}

/// The line of the FETCH with this number, counted from 1, which took so many bytes: `3 fetched 348`.
pub fn fetched_line(alloc: Global, number: u32, count: u32) -> Result<Bytes, NoMemory>
    ensures { IfOk result (λ text. text ≡ fetched_line number count) }
{
    let mut text = begun(alloc, number, b"fetched ", count)?;
    text.push(b'\n')?;
    Ok(text)
}

/// The line of the APPLY with this number: `4 applied 2 1:352`, with the log and the position behind what was carried out. Where
/// it stopped, ` stopped differs 246 1062 t (1)`, ` stopped damaged 246` or ` stopped foreign 246 34` follows.
pub fn applied_line(alloc: Global, number: u32, applied: &Applied) -> Result<Bytes, NoMemory>
    ensures { IfOk result (λ text. text ≡ applied_line number applied.now.count (record { log = applied.now.log; pos = applied.now.pos }) (option_map stop_of applied.now.stop)) }
{
    let mut text = begun(alloc, number, b"applied ", applied.count)?;
    put_with(alloc, &mut text, b" ", u64::from(applied.log))?;
    put_with(alloc, &mut text, b":", u64::from(applied.pos))?;
    put_stop_if(alloc, &mut text, &applied.stop)?;
    text.push(b'\n')?;
    Ok(text)
}
