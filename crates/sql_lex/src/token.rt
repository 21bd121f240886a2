//! Tokens as places in their text.
ghost use Rattle.std.specs.Prelude.{◌≡◌};
ghost use Rattle.sql_lex.specs.Plain.{bytes_at};

use val_types::List;

/// A sign of one to three bytes. `NotEqual` is `<>` or `!=`, `NullSafeEqual` is `<=>`, `Assign` is
/// `:=`.
#[derive(Clone, Copy, PartialEq, Eq)]
pub enum Symbol {
    Open,
    Close,
    Comma,
    Semicolon,
    Dot,
    At,
    AtAt,
    Equal,
    Assign,
    NullSafeEqual,
    NotEqual,
    Less,
    LessEqual,
    Greater,
    GreaterEqual,
    Plus,
    Minus,
    Star,
    Percent,
}

/// What a token is. A `Word` is a name or a keyword without quotes, `Quoted` a name in backquotes,
/// `Least` the digits 9223372036854775808 directly behind a `-`, `Text` a string or `X'..'`.
#[derive(Clone, Copy, PartialEq, Eq)]
pub enum TokenKind {
    Word,
    Quoted,
    Number(u64),
    Least,
    Text,
    Symbol(Symbol),
}

/// A token, which stands in its text from the byte `at` to before the byte `end`, counted from 0.
#[derive(Clone, Copy, PartialEq, Eq)]
pub struct Token {
    pub kind: TokenKind,
    pub at: u32,
    pub end: u32,
}

/// The tokens of a text, in order.
pub type Tokens = List<Token>;

/// The bytes of a token as they stand in the text.
pub fn bytes_of(text: &[u8], token: Token) -> &[u8]
    ensures { result.now ≡ bytes_at text.now token.at token.end }
{
    let from = (token.at as usize).min(text.len());
    let tail = &text[from..];
    let count = (token.end.saturating_sub(token.at) as usize).min(tail.len());
    &tail[..count]
}
