//! Words and numbers at the end of a text.
ghost use Rattle.std.specs.Prelude.{◌≡◌, ◌++◌, OnOk};
ghost use Rattle.std.specs.Fmt.{decimal};

use std::alloc::Global;
use val_types::{Bytes, NoMemory};

/// Puts a number in decimal at the end.
pub(crate) fn put_number(alloc: Global, text: &mut Bytes, number: u64) -> Result<(), NoMemory>
    ensures { OnOk result (text.new ≡ text.old ++ decimal number) }
{
    text.extend_from_slice(number.to_string(alloc)?.as_bytes())
}

/// Puts words and a number behind them at the end.
pub(crate) fn put_with(
    alloc: Global,
    text: &mut Bytes,
    words: &[u8],
    number: u64,
) -> Result<(), NoMemory>
    ensures { OnOk result (text.new ≡ text.old ++ words.now ++ decimal number) }
{
    text.extend_from_slice(words)?;
    put_number(alloc, text, number)
}
