//! The text of a change.
ghost use Rattle.std.specs.Prelude.{◌≡◌, ◌++◌, OnOk};
ghost use Rattle.std.specs.Fmt.{decimal};
ghost use Rattle.load_script.specs.Script.{change_text, delete_text, insert_text, pair_text, update_text};

use std::alloc::Global;
use val_types::{Bytes, NoMemory};

/// What the number of the second row of a pair is greater by.
const SECOND: u64 = 100_000;

/// Puts words and a number behind them to the end.
fn put_with(alloc: Global, text: &mut Bytes, words: &[u8], number: u64) -> Result<(), NoMemory>
    ensures { OnOk result (text.new ≡ text.old ++ words.now ++ decimal number) }
{
    text.extend_from_slice(words)?;
    text.extend_from_slice(number.to_string(alloc)?.as_bytes())
}

/// Puts the text that puts a row in.
fn put_insert(alloc: Global, text: &mut Bytes, i: u64) -> Result<(), NoMemory>
    ensures { OnOk result (text.new ≡ text.old ++ insert_text i) }
{
    put_with(alloc, text, b"INSERT INTO g (k, v) VALUES (", i)?;
    put_with(alloc, text, b", 'a", i)?;
    text.extend_from_slice(b"')")
}

/// Puts the text that takes it out.
fn put_delete(alloc: Global, text: &mut Bytes, i: u64) -> Result<(), NoMemory>
    ensures { OnOk result (text.new ≡ text.old ++ delete_text i) }
{
    put_with(
        alloc,
        text,
        b"DELETE FROM g WHERE k = ",
        i.saturating_sub(1),
    )?;
    text.extend_from_slice(b" LIMIT 1")
}

/// Puts the text that puts two rows in.
fn put_pair(alloc: Global, text: &mut Bytes, i: u32) -> Result<(), NoMemory>
    ensures { OnOk result (text.new ≡ text.old ++ pair_text i) }
{
    let number = u64::from(i);
    put_with(alloc, text, b"INSERT INTO g (k, v) VALUES (", number)?;
    put_with(alloc, text, b", 'b", number)?;
    put_with(alloc, text, b"'), (", number + SECOND)?;
    text.extend_from_slice(b", 'c')")
}

/// Puts the text that changes the first of them.
fn put_update(alloc: Global, text: &mut Bytes, i: u64) -> Result<(), NoMemory>
    ensures { OnOk result (text.new ≡ text.old ++ update_text i) }
{
    put_with(
        alloc,
        text,
        b"UPDATE g SET v = CONCAT(v, 'x') WHERE k = ",
        i.saturating_sub(1),
    )
}

/// Puts the text of the i-th change.
pub(crate) fn put_change(alloc: Global, text: &mut Bytes, i: u32) -> Result<(), NoMemory>
    ensures { OnOk result (text.new ≡ text.old ++ change_text i) }
{
    if i % 4 == 1 {
        put_insert(alloc, text, u64::from(i))
    } else if i % 4 == 2 {
        put_delete(alloc, text, u64::from(i))
    } else if i % 4 == 3 {
        put_pair(alloc, text, i)
    } else {
        put_update(alloc, text, u64::from(i))
    }
}
