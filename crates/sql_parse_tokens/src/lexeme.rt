//! Tokens as the parser looks at them.
ghost use Rattle.std.specs.Prelude.{◌≡◌};
ghost use Rattle.sql_grammar.specs.Sets.{member};
ghost use Rattle.sql_parse_tokens.specs.Lexemes.{kind_by};
ghost use Rattle.sql_syntax.specs.Tokens.{code, names, own_names};

use crate::kinds::{
    BROKEN_MINUS, LEAST, NAME, NUMBER, QUOTED, TEXT, TIGHT_MINUS, code, function_code, sign_code,
};
use sql_lex::{Keyword, Symbol};
use val_types::Func;

/// What a lexeme is. A `Key` is a keyword without quotes, a `Function` another word that names a
/// built-in function, a `Name` any other word, `Quoted` a name in backquotes. `Least` are the digits
/// 9223372036854775808 directly behind a `-`. A `-` directly before a number is `TightMinus`, one
/// directly before digits that are no number `BrokenMinus`; `Mark` is every other sign.
#[derive(Clone, Copy)]
pub enum Sort {
    Key(Keyword),
    Function(Func),
    Name,
    Quoted,
    Number(u64),
    Least,
    Text,
    Mark(Symbol),
    TightMinus,
    BrokenMinus,
}

/// A token, which stands in its text from the byte `at` to before the byte `end`, counted from 0.
#[derive(Clone, Copy)]
pub struct Lexeme {
    pub sort: Sort,
    pub at: u32,
    pub end: u32,
}

/// Whether a keyword may be a name.
fn is_name_word(k: Keyword) -> bool
    ensures { result ≡ member (code k) names }
{
    !k.is_reserved()
}

/// Whether a keyword calls a stored function before a parenthesis: it may be a name, and takes part
/// in no call of its own.
fn is_own_word(k: Keyword) -> bool
    ensures { result ≡ member (code k) own_names }
{
    !k.is_reserved() && code(k) <= code(Keyword::Work)
}

impl Sort {
    /// The kind of what a lexeme of this sort says.
    pub fn kind(self) -> u8
        ensures { result ≡ kind_by self }
    {
        match self {
            Sort::Key(k) => code(k),
            Sort::Function(f) => function_code(f),
            Sort::Name => NAME,
            Sort::Quoted => QUOTED,
            Sort::Number(_) => NUMBER,
            Sort::Least => LEAST,
            Sort::Text => TEXT,
            Sort::Mark(s) => sign_code(s),
            Sort::TightMinus => TIGHT_MINUS,
            Sort::BrokenMinus => BROKEN_MINUS,
        }
    }

    /// Whether it may be a name.
    pub fn is_name(self) -> bool
        ensures { result ≡ member (kind_by self) names }
    {
        match self {
            Sort::Key(k) => is_name_word(k),
            Sort::Function(_) | Sort::Name | Sort::Quoted => true,
            _ => false,
        }
    }

    /// Whether it calls a stored function before a parenthesis.
    pub fn is_own_name(self) -> bool
        ensures { result ≡ member (kind_by self) own_names }
    {
        match self {
            Sort::Key(k) => is_own_word(k),
            Sort::Name | Sort::Quoted => true,
            _ => false,
        }
    }
}
