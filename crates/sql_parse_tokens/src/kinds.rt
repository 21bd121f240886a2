//! The kinds of tokens: signs first, then literals, names and built-in functions, then keywords.
ghost use Rattle.std.specs.Prelude.{◌≡◌};
ghost use Rattle.sql_syntax.specs.Tokens.{code, function_code, sign_code};

use sql_lex::{Keyword, Symbol};
use val_types::Func;

/// The kind of numbers.
pub const NUMBER: u8 = 20;

/// The kind of 9223372036854775808 behind a minus.
pub const LEAST: u8 = 21;

/// The kind of texts.
pub const TEXT: u8 = 22;

/// The kind of a minus directly before a number.
pub const TIGHT_MINUS: u8 = 23;

/// The kind of a minus directly before digits that are no number.
pub const BROKEN_MINUS: u8 = 24;

/// The kind of words that are neither keywords nor names of built-in functions.
pub const NAME: u8 = 25;

/// The kind of names in backquotes.
pub const QUOTED: u8 = 26;

/// The kind of names of built-in functions without arguments.
pub const OF_NONE: u8 = 27;

/// The kind of names of built-in functions of one argument.
pub const OF_ONE: u8 = 28;

/// The kind of names of built-in functions of two arguments.
pub const OF_TWO: u8 = 29;

/// The kind of names of built-in functions of three arguments.
pub const OF_THREE: u8 = 30;

/// The kind of names of built-in functions of one argument or more.
pub const OF_MANY: u8 = 31;

/// The kind of the first keyword, behind all other kinds.
pub const FIRST_WORD: u8 = 64;

/// The kind of a keyword: its place among them, from the first one's kind on.
pub fn code(k: Keyword) -> u8
    ensures { result ≡ code k }
{
    FIRST_WORD + k as u8
}

/// The kind of a sign.
pub fn sign_code(s: Symbol) -> u8
    ensures { result ≡ sign_code s }
{
    s as u8
}

/// The kind of a built-in function's name.
pub fn function_code(f: Func) -> u8
    ensures { result ≡ function_code f }
{
    match f {
        Func::Zero(_) => OF_NONE,
        Func::One(_) => OF_ONE,
        Func::Two(_) => OF_TWO,
        Func::Three(_) => OF_THREE,
        Func::Many(_) => OF_MANY,
    }
}
