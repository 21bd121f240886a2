//! Words, numbers and bytes at the end of a line.
ghost use Rattle.std.specs.Prelude.{◌≡◌, ◌++◌, OnOk};
ghost use Rattle.std.specs.Fmt.{decimal};
ghost use Rattle.event_codec.specs.LogName.{digits, last_digit, log_name};
ghost use Rattle.log_print.specs.Escapes.{before_zero, escaped, escapes, is_plain};

use std::alloc::Global;
use val_types::{Bytes, NoMemory};

/// Puts words and a number in decimal behind them.
pub(crate) fn put_number(
    alloc: Global,
    out: &mut Bytes,
    words: &[u8],
    number: u64,
) -> Result<(), NoMemory>
    ensures { OnOk result (out.new ≡ out.old ++ words.now ++ decimal number) }
{
    out.extend_from_slice(words)?;
    out.extend_from_slice(number.to_string(alloc)?.as_bytes())
}

/// Whether a byte shows as itself: printable ASCII other than a backslash.
fn is_plain(byte: u8) -> bool
    ensures { result ≡ is_plain byte }
{
    (0x20..=0x7e).contains(&byte) && byte != b'\\'
}

/// Puts a byte: itself, or a backslash, `x` and two hexadecimal digits.
fn put_byte(alloc: Global, out: &mut Bytes, byte: u8) -> Result<(), NoMemory>
    ensures { OnOk result (out.new ≡ out.old ++ escaped byte) }
{
    if is_plain(byte) {
        out.push(byte)
    } else {
        out.extend_from_slice(b"\\x")?;
        out.extend_from_slice(hex::encode(alloc, [byte].as_slice())?.as_bytes())
    }
}

/// Puts bytes, those that are not plain as escapes.
pub(crate) fn put_escapes(alloc: Global, out: &mut Bytes, bytes: &[u8]) -> Result<(), NoMemory>
    ensures { OnOk result (out.new ≡ out.old ++ escapes bytes.now) }
{
    for byte in bytes {
        put_byte(alloc, out, *byte)?;
    }
    Ok(())
}

/// Puts the bytes before the first 0.
pub(crate) fn put_version(alloc: Global, out: &mut Bytes, version: &[u8]) -> Result<(), NoMemory>
    ensures { OnOk result (out.new ≡ out.old ++ escapes (before_zero version.now)) }
{
    for byte in version {
        if *byte == 0 {
            return Ok(());
        }
        put_byte(alloc, out, *byte)?;
    }
    Ok(())
}

/// The last decimal digit of a number.
fn last_digit(number: u32) -> u8
    ensures { result ≡ last_digit number }
{
    b'0' + (number % 10) as u8
}

/// The last six decimal digits of a number.
fn digits(number: u32) -> [u8; 6]
    ensures { result ≡ digits number }
{
    [
        last_digit(number / 100_000),
        last_digit(number / 10_000),
        last_digit(number / 1_000),
        last_digit(number / 100),
        last_digit(number / 10),
        last_digit(number),
    ]
}

/// Puts the name of the log with a number, of which it shows the last six digits.
pub(crate) fn put_log_name(out: &mut Bytes, number: u32) -> Result<(), NoMemory>
    ensures { OnOk result (out.new ≡ out.old ++ log_name number) }
{
    out.extend_from_slice(b"binlog.")?;
    out.extend_from_slice(&digits(number))
}
