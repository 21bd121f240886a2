//! Names, literals, types and counts that the grammar can give.
ghost use Rattle.std.specs.Prelude.{◌≡◌};
ghost use Rattle.std.specs.List.{list_all};
ghost use Rattle.sql_tree.specs.Well.{is_name_byte, is_name, are_names, are_names_if, is_number, is_literal, is_literal_if, is_count, is_count_if, is_limit_if, is_type, is_type_if};
ghost use Rattle.val_types.specs.declared.value.Value.TheVariants.{Text};

use crate::expressions::{Count, Limit};
use crate::statements::SqlType;
use val_types::{Bytes, List, Value};

const GREATEST_NUMBER: u64 = 9223372036854775807;

fn is_name_byte(byte: u8) -> bool
    ensures { result ≡ is_name_byte byte }
{
    (0x20..=0x7e).contains(&byte) && !byte.is_ascii_uppercase()
}

fn all_name_bytes(bytes: &[u8]) -> bool
    ensures { result ≡ list_all is_name_byte bytes.now }
{
    bytes.iter().all(|byte| is_name_byte(*byte))
}

/// Whether some bytes can be a name: 1 to 64 printable characters with no upper case letter.
pub fn is_name(name: &Bytes) -> bool
    ensures { result ≡ is_name name.now }
{
    (1..=64).contains(&name.len()) && all_name_bytes(name.as_slice())
}

fn all_names(names: &[Bytes]) -> bool
    ensures { result ≡ list_all is_name names.now }
{
    names.iter().all(is_name)
}

/// Whether there is at least one name, and each can be one.
pub fn are_names(names: &List<Bytes>) -> bool
    ensures { result ≡ are_names names.now }
{
    names.len() >= 1 && all_names(names.as_slice())
}

pub fn are_names_if(names: &Option<List<Bytes>>) -> bool
    ensures { result ≡ are_names_if names.now }
{
    match names {
        None => true,
        Some(names) => are_names(names),
    }
}

/// Whether a number can be written without a sign.
pub fn is_number(number: u64) -> bool
    ensures { result ≡ is_number number }
{
    number <= GREATEST_NUMBER
}

/// Whether some bytes can be a text between quotes. All can.
pub fn is_text(bytes: &Bytes) -> bool
    ensures { result ≡ is_literal (Text bytes.now) }
{
    bytes.as_slice().iter().all(|byte| *byte <= u8::MAX)
}

/// Whether a value can be written as a literal. Each one can.
pub fn is_literal(value: &Value) -> bool
    ensures { result ≡ is_literal value.now }
{
    match value {
        Value::Null => true,
        Value::Int(number) => *number >= i64::MIN && *number <= i64::MAX,
        Value::Text(bytes) => is_text(bytes),
    }
}

pub fn is_literal_if(value: &Option<Value>) -> bool
    ensures { result ≡ is_literal_if value.now }
{
    match value {
        None => true,
        Some(value) => is_literal(value),
    }
}

pub fn is_count(count: &Count) -> bool
    ensures { result ≡ is_count count.now }
{
    match count {
        Count::Number(number) => is_number(*number),
        Count::Name(name) => is_name(name),
    }
}

pub fn is_count_if(count: &Option<Count>) -> bool
    ensures { result ≡ is_count_if count.now }
{
    match count {
        None => true,
        Some(count) => is_count(count),
    }
}

pub fn is_limit_if(limit: &Option<Limit>) -> bool
    ensures { result ≡ is_limit_if limit.now }
{
    match limit {
        None => true,
        Some(limit) => is_count(&limit.count) && is_count_if(&limit.offset),
    }
}

pub fn is_type(kind: &SqlType) -> bool
    ensures { result ≡ is_type kind.now }
{
    match kind {
        SqlType::Int | SqlType::BigInt => true,
        SqlType::Varchar(length) => is_number(*length),
    }
}

pub fn is_type_if(kind: &Option<SqlType>) -> bool
    ensures { result ≡ is_type_if kind.now }
{
    match kind {
        None => true,
        Some(kind) => is_type(kind),
    }
}
