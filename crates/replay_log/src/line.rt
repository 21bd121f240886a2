//! The line that tells what was carried out.
ghost use Rattle.std.specs.Prelude.{◌≡◌, ◌∷◌, ◌++◌, [], IfOk, OnOk};
ghost use Rattle.std.specs.Fmt.{decimal};
ghost use Rattle.durable_replica.specs.replica_node.replica_model.Lines.{applied_words};

use std::alloc::Global;
use val_types::{Bytes, NoMemory};

/// Puts words and a number behind them at the end.
fn put_with(alloc: Global, text: &mut Bytes, words: &[u8], number: u32) -> Result<(), NoMemory>
    ensures { OnOk result (text.new ≡ text.old ++ words.now ++ decimal number) }
{
    text.extend_from_slice(words)?;
    text.extend_from_slice(number.to_string(alloc)?.as_bytes())
}

/// The line of so many groups that were carried out, and of the log and the position behind them: `applied 2 1:336`.
pub(crate) fn replayed_line(
    alloc: Global,
    count: u32,
    log: u32,
    pos: u32,
) -> Result<Bytes, NoMemory>
    ensures { IfOk result (λ text. text ≡ applied_words count (record { log = log; pos = pos }) ++ 0x0a ∷ []) }
{
    let mut text = Bytes::new(alloc);
    put_with(alloc, &mut text, b"applied ", count)?;
    put_with(alloc, &mut text, b" ", log)?;
    put_with(alloc, &mut text, b":", pos)?;
    text.push(b'\n')?;
    Ok(text)
}
