//! The words of the grammar.
ghost use Rattle.std.specs.Prelude.{◌≡◌, ◌<◌, length, map};
ghost use Rattle.std.specs.Str.{bytes_eq};
ghost use Rattle.sql_lex.specs.Folded.{folded};
ghost use Rattle.sql_lex.specs.Keywords as spec;
ghost use Rattle.sql_lex.specs.ByLetter.{row_at, beginning_with};

use crate::words::{BY_LETTER, WORDS};

/// A word that the grammar knows, in the order: reserved words, which are no names without
/// backquotes; words that may be names too; of those last the ones that take part in a call.
#[derive(Clone, Copy, PartialEq, Eq)]
pub enum Keyword {
    Alter,
    And,
    As,
    Asc,
    Before,
    Between,
    Bigint,
    By,
    Call,
    Case,
    Create,
    Declare,
    Default,
    Delete,
    Desc,
    Deterministic,
    Distinct,
    Div,
    Drop,
    Each,
    Else,
    Elseif,
    Exists,
    For,
    From,
    Group,
    If,
    Ignore,
    In,
    Insert,
    Int,
    Integer,
    Into,
    Is,
    Join,
    Key,
    Limit,
    Mod,
    Modifies,
    Not,
    Null,
    On,
    Or,
    Order,
    Primary,
    Procedure,
    Reads,
    Release,
    Replace,
    Return,
    Select,
    Set,
    Sql,
    Table,
    Then,
    To,
    Trigger,
    Union,
    Unique,
    Update,
    Values,
    Varchar,
    When,
    Where,
    While,
    After,
    AutoIncrement,
    Begin,
    Commit,
    Contains,
    Data,
    Do,
    Duplicate,
    End,
    Engine,
    Function,
    Index,
    Innodb,
    Mixed,
    New,
    No,
    Offset,
    Old,
    Returns,
    Rollback,
    Row,
    Savepoint,
    Session,
    Start,
    Statement,
    Transaction,
    Truncate,
    Value,
    Work,
    Count,
    Floor,
    Max,
    Min,
    NameConst,
    Rand,
    Sum,
}

impl Keyword {
    /// The word in lower case, as `select`.
    pub fn word(self) -> &'static [u8]
        ensures { result.now ≡ spec.word_of self }
    {
        WORDS[self as usize]
    }

    /// Whether the word is no name without backquotes.
    pub fn is_reserved(self) -> bool
        ensures { result ≡ spec.is_reserved self }
    {
        self as usize <= Keyword::While as usize
    }
}

/// The row at a place, counted from 0.
fn row<'a>(rows: &[&'a [Keyword]], at: usize) -> &'a [Keyword]
    requires { at < length rows.now }
    ensures { result.now ≡ row_at at (map (λ row. row.now) rows.now) }
{
    rows[at]
}

/// The keywords whose words begin with a small letter; none for another byte.
fn beginning_with(letter: u8) -> &'static [Keyword]
    ensures { result.now ≡ beginning_with letter }
{
    if letter.is_ascii_lowercase() {
        row(&BY_LETTER, usize::from(letter - b'a'))
    } else {
        &[]
    }
}

/// The keyword that a word is, in any case of its letters.
pub(crate) fn keyword_of(word: &[u8]) -> Option<Keyword>
    ensures { result ≡ spec.keyword_of (folded word.now) }
{
    match word {
        [] => None,
        [first, ..] => find_keyword(beginning_with(first.to_ascii_lowercase()), word),
    }
}

fn find_keyword(keywords: &[Keyword], word: &[u8]) -> Option<Keyword>
    ensures { result ≡ spec.keyword_among keywords.now (folded word.now) }
{
    for keyword in keywords {
        if folds_to(word, keyword.word()) {
            return Some(*keyword);
        }
    }
    None
}

/// Whether some bytes in lower case are the word.
fn folds_to(bytes: &[u8], word: &[u8]) -> bool
    ensures { result ≡ bytes_eq word.now (folded bytes.now) }
{
    if bytes.len() != word.len() {
        return false;
    }
    for (i, byte) in bytes.iter().enumerate() {
        if byte.to_ascii_lowercase() != word[i] {
            return false;
        }
    }
    true
}

/// Each keyword is the one that its word names.
pub fn keywords_have_words()
    ensures { (k : Keyword) → spec.keyword_of (spec.word_of k) ≡ Some k }
{}
