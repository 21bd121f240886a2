//! The table of built-in functions: their names, and what of them an item's safety and its context ask.
ghost use Rattle.std.specs.Prelude.{◌≡◌, map};
ghost use Rattle.std.specs.Char.{to_ascii_lowercase};
ghost use Rattle.std.specs.Str.{bytes_eq};
ghost use Rattle.sql_tree.specs.BuiltIns.{about, function_named, lower_name, named_among};

use val_types::{Func, Func0, Func1, Func2, Func3, FuncN};

/// The functions that are called by a name: all but IF, which is a word of the grammar.
static FUNCTIONS: [Func; 14] = [
    Func::Zero(Func0::Now),
    Func::Zero(Func0::UnixTimestamp),
    Func::Zero(Func0::SysDate),
    Func::Zero(Func0::User),
    Func::Zero(Func0::Uuid),
    Func::Zero(Func0::ConnectionId),
    Func::Zero(Func0::LastInsertId),
    Func::Zero(Func0::RowCount),
    Func::One(Func1::Abs),
    Func::One(Func1::Length),
    Func::Two(Func2::IfNull),
    Func::Three(Func3::Substring),
    Func::Many(FuncN::Coalesce),
    Func::Many(FuncN::Concat),
];

/// The name of a built-in function, in upper case.
pub fn function_name(function: Func) -> &'static [u8]
    ensures { result.now ≡ (about function).name }
{
    match function {
        Func::Zero(Func0::Now) => b"NOW",
        Func::Zero(Func0::UnixTimestamp) => b"UNIX_TIMESTAMP",
        Func::Zero(Func0::SysDate) => b"SYSDATE",
        Func::Zero(Func0::User) => b"USER",
        Func::Zero(Func0::Uuid) => b"UUID",
        Func::Zero(Func0::ConnectionId) => b"CONNECTION_ID",
        Func::Zero(Func0::LastInsertId) => b"LAST_INSERT_ID",
        Func::Zero(Func0::RowCount) => b"ROW_COUNT",
        Func::One(Func1::Abs) => b"ABS",
        Func::One(Func1::Length) => b"LENGTH",
        Func::Two(Func2::IfNull) => b"IFNULL",
        Func::Three(Func3::If) => b"IF",
        Func::Three(Func3::Substring) => b"SUBSTRING",
        Func::Many(FuncN::Coalesce) => b"COALESCE",
        Func::Many(FuncN::Concat) => b"CONCAT",
    }
}

/// Whether a word is the name of a built-in function, in any case of its letters.
fn is_named(function: Func, word: &[u8]) -> bool
    ensures { result ≡ bytes_eq (lower_name function) (map to_ascii_lowercase word.now) }
{
    function_name(function).eq_ignore_ascii_case(word)
}

/// The first of some built-in functions that a word names.
fn named_among(functions: &[Func], word: &[u8]) -> Option<Func>
    ensures { result ≡ named_among functions.now (map to_ascii_lowercase word.now) }
{
    for function in functions {
        if is_named(*function, word) {
            return Some(*function);
        }
    }
    None
}

/// The built-in function that a word names, in any case of its letters.
pub fn function_named(word: &[u8]) -> Option<Func>
    ensures { result ≡ function_named (map to_ascii_lowercase word.now) }
{
    named_among(&FUNCTIONS, word)
}

/// Whether the value of a built-in function may differ on a replica.
pub fn is_unsafe(function: Func) -> bool
    ensures { result ≡ (about function).is_unsafe }
{
    match function {
        Func::Zero(Func0::SysDate | Func0::User | Func0::Uuid | Func0::RowCount) => true,
        _ => false,
    }
}

/// Whether a built-in function reads the last insert id of the session.
pub fn reads_last_id(function: Func) -> bool
    ensures { result ≡ (about function).reads_last_id }
{
    matches!(function, Func::Zero(Func0::LastInsertId))
}
