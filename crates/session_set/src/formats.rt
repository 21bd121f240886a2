//! How a session's statements are logged: the variable binlog_format.
ghost use Rattle.std.specs.Prelude.{◌≡◌};
ghost use Rattle.answer_making.specs.catalog_rules.Bodies.{format_name};
ghost use Rattle.answer_making.specs.catalog_rules.Names.{same_name};
ghost use Rattle.answer_making.specs.session_model.Formats.{format_for, format_named, format_refusal, is_word};

use answer_making::session_ctx::WRONG_VALUE;
use answer_making::session_model::Format;
use val_types::{Bytes, SqlError, Value};

/// The format is no variable that may be set in an open transaction.
const IN_TRANSACTION: SqlError = 30006;

/// Whether a name is that of the variable.
pub(crate) fn is_format(name: &Bytes) -> bool
    ensures { result ≡ same_name name.now format_name }
{
    name.as_slice() == b"binlog_format".as_slice()
}

/// Whether a text is a word, in upper and lower case alike.
fn is_word(word: &[u8], text: &[u8]) -> bool
    ensures { result ≡ is_word word.now text.now }
{
    text.eq_ignore_ascii_case(word)
}

/// The format that a text names.
fn format_named(text: &[u8]) -> Option<Format>
    ensures { result ≡ format_named text.now }
{
    if is_word(b"STATEMENT", text) {
        Some(Format::Statement)
    } else if is_word(b"MIXED", text) {
        Some(Format::Mixed)
    } else if is_word(b"ROW", text) {
        Some(Format::Row)
    } else {
        None
    }
}

/// The format that a value sets, else 1231.
pub(crate) fn format_for(value: &Value) -> Result<Format, SqlError>
    ensures { result ≡ format_for value.now }
{
    match value {
        Value::Null | Value::Int(_) => Err(WRONG_VALUE),
        Value::Text(text) => match format_named(text.as_slice()) {
            None => Err(WRONG_VALUE),
            Some(format) => Ok(format),
        },
    }
}

/// What refuses a value for it: 1231, and then 30006 in an open transaction.
pub(crate) fn format_refusal(is_open: bool, value: &Value) -> Option<SqlError>
    ensures { result ≡ format_refusal is_open (format_for value.now) }
{
    match format_for(value) {
        Err(code) => Some(code),
        Ok(_) => { if is_open { Some(IN_TRANSACTION) } else { None } }
    }
}
