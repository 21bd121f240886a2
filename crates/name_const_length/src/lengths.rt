//! Bytes, names, values and LIMITs, at the end of a length.
ghost use Rattle.std.specs.Prelude.{◌≡◌, ◌++◌, codes};
ghost use Rattle.std.specs.Fmt.{decimal, signed_decimal};
ghost use Rattle.std.specs.List.{list_all};
ghost use Rattle.hex.specs.Hex.{encode_upper};
ghost use Rattle.val_types.specs.Text.{is_plain, quoted_of, text_of};
ghost use Rattle.val_types.specs.declared.value.Value.TheVariants.{Text};
ghost use Rattle.sql_print.specs.Names.{count_if, count_of, doubled, limit_if, names_of, offset_if, quoted_name};
ghost use Rattle.sql_print.specs.Spelling.{tree_text};
ghost use Rattle.sql_reach.specs.sql_meaning.Frames.{number_or_none};
ghost use Rattle.sql_reach.specs.Closing.{closed_count, closed_name, number_if};
ghost use Rattle.sql_tree.specs.declared.expressions.Count.TheVariants.{Name};
ghost use Rattle.name_const_length.specs.Closed.{closed_count_if, closed_limit};
ghost use Rattle.name_const_length.specs.Growing.{grown};
ghost use Rattle.name_const_length.specs.Items.{comma};

use sql_locals::Locals;
use sql_tree::{Count, Limit};
use val_types::{Bytes, List, Value};

/// Some bytes.
pub fn add(total: &mut u64, bytes: &[u8])
    ensures { total.new ≡ grown total.old bytes.now }
{
    *total = total.saturating_add(bytes.len() as u64);
}

/// Bytes with each backquote doubled.
fn add_doubled(total: &mut u64, bytes: &[u8])
    ensures { total.new ≡ grown total.old (doubled bytes.now) }
{
    for byte in bytes {
        if *byte == b'`' {
            add(total, b"`");
        }
        add(total, &[*byte]);
    }
}

/// A name in backquotes.
pub fn add_name(total: &mut u64, name: &Bytes)
    ensures { total.new ≡ grown total.old (quoted_name name.now) }
{
    add(total, b"`");
    add_doubled(total, name.as_slice());
    add(total, b"`");
}

/// A name in backquotes behind other bytes.
pub fn add_prefixed(total: &mut u64, prefix: &[u8], name: &Bytes)
    ensures { total.new ≡ grown total.old (prefix.now ++ quoted_name name.now) }
{
    add(total, prefix);
    add_name(total, name);
}

/// A comma and a space before each item but the first.
pub fn add_comma(total: &mut u64, first: bool)
    ensures { total.new ≡ grown total.old (comma first) }
{
    if !first {
        add(total, b", ");
    }
}

/// Names in backquotes, with a comma and a space between two.
pub fn add_names(total: &mut u64, names: &List<Bytes>)
    ensures { total.new ≡ grown total.old (names_of names.now) }
{
    let mut first = true;
    for name in names.as_slice() {
        add_comma(total, first);
        add_name(total, name);
        first = false;
    }
}

/// A number in decimal, digit by digit.
pub fn add_number(total: &mut u64, number: u64)
    ensures { total.new ≡ grown total.old (decimal number) }
{
    let mut rest = number;
    while rest >= 10 {
        add(total, b"0");
        rest /= 10;
    }
    add(total, b"0");
}

/// A number that may be below 0.
fn add_signed(total: &mut u64, number: i64)
    ensures { total.new ≡ grown total.old (signed_decimal number) }
{
    if number < 0 {
        add(total, b"-");
    }
    add_number(total, number.unsigned_abs());
}

/// Whether a byte stands for itself between quotes.
fn is_plain(byte: u8) -> bool
    ensures { result ≡ is_plain byte }
{
    (0x20..=0x7e).contains(&byte) && byte != b'\'' && byte != b'\\'
}

/// Whether all bytes are plain.
fn all_plain(bytes: &[u8]) -> bool
    ensures { result ≡ list_all is_plain bytes.now }
{
    bytes.iter().all(|byte| is_plain(*byte))
}

/// Two hexadecimal digits for each byte.
fn add_hexadecimal(total: &mut u64, bytes: &[u8])
    ensures { total.new ≡ grown total.old (encode_upper bytes.now) }
{
    add(total, bytes);
    add(total, bytes);
}

/// A text as a literal.
fn add_text(total: &mut u64, bytes: &[u8])
    ensures { total.new ≡ grown total.old (quoted_of bytes.now) }
{
    if all_plain(bytes) {
        add(total, b"'");
        add(total, bytes);
    } else {
        add(total, b"X'");
        add_hexadecimal(total, bytes);
    }
    add(total, b"'");
}

/// A value as a literal.
pub fn add_value(total: &mut u64, value: &Value)
    ensures { total.new ≡ grown total.old (text_of value.now) }
{
    match value {
        Value::Null => add(total, b"NULL"),
        Value::Int(number) => add_signed(total, *number),
        Value::Text(bytes) => add_text(total, bytes.as_slice()),
    }
}

/// `NAME_CONST('name', value)`
pub fn add_name_const(total: &mut u64, name: &Bytes, value: &Value)
    ensures { total.new ≡ grown total.old (codes "NAME_CONST(" ++ text_of (Text name.now) ++ codes ", " ++ text_of value.now ++ codes ")") }
{
    add(total, b"NAME_CONST(");
    add_text(total, name.as_slice());
    add(total, b", ");
    add_value(total, value);
    add(total, b")");
}

/// A name, as NAME_CONST where a local hides it.
pub fn add_closed_name(total: &mut u64, locals: &Locals, name: &Bytes)
    ensures { total.new ≡ grown total.old (tree_text (closed_name locals.now name.now)) }
{
    match locals.find(name) {
        None => add_name(total, name),
        Some(local) => add_name_const(total, name, &local.value),
    }
}

/// A LIMIT's name, as the number of the local that it means.
fn add_count_by(total: &mut u64, name: &Bytes, value: &Value)
    ensures { total.new ≡ grown total.old (count_of (number_if (Name name.now) (number_or_none value.now))) }
{
    match value {
        Value::Int(number) if *number >= 0 => add_number(total, *number as u64),
        _ => add_name(total, name),
    }
}

/// The number of a LIMIT.
fn add_count(total: &mut u64, locals: &Locals, count: &Count)
    ensures { total.new ≡ grown total.old (count_of (closed_count locals.now count.now)) }
{
    match count {
        Count::Number(number) => add_number(total, *number),
        Count::Name(name) => match locals.find(name) {
            None => add_name(total, name),
            Some(local) => add_count_by(total, name, &local.value),
        },
    }
}

/// LIMIT of UPDATE and DELETE.
pub fn add_count_if(total: &mut u64, locals: &Locals, count: &Option<Count>)
    ensures { total.new ≡ grown total.old (count_if (closed_count_if locals.now count.now)) }
{
    if let Some(count) = count {
        add(total, b" LIMIT ");
        add_count(total, locals, count);
    }
}

fn add_offset_if(total: &mut u64, locals: &Locals, count: &Option<Count>)
    ensures { total.new ≡ grown total.old (offset_if (closed_count_if locals.now count.now)) }
{
    if let Some(count) = count {
        add(total, b" OFFSET ");
        add_count(total, locals, count);
    }
}

/// LIMIT of SELECT.
pub fn add_limit_if(total: &mut u64, locals: &Locals, limit: &Option<Limit>)
    ensures { total.new ≡ grown total.old (limit_if (closed_limit locals.now limit.now)) }
{
    if let Some(limit) = limit {
        add(total, b" LIMIT ");
        add_count(total, locals, &limit.count);
        add_offset_if(total, locals, &limit.offset);
    }
}
