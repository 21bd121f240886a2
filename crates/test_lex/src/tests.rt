//! Texts with their tokens, by hand.
use sql_lex::Symbol::*;
use sql_lex::TokenKind::{self, *};
use sql_lex::{Keyword, LexRefusal, Token, bytes_of, keyword_at, lex, lex_front, name_of, text_of};
use std::alloc::Global;
use std::process::Abort;
use val_types::{Bytes, List, NoMemory};

type Place = (TokenKind, u32, u32);

static TEXTS: [(&[u8], &[Place]); 31] = [
    (b"", &[]),
    (b" \t\r\n", &[]),
    (
        b"SELECT a.b",
        &[
            (Word, 0, 6),
            (Word, 7, 8),
            (Symbol(Dot), 8, 9),
            (Word, 9, 10),
        ],
    ),
    (b"a1_$ _", &[(Word, 0, 4), (Word, 5, 6)]),
    (
        b"aaaaaaaaaaaaaaaaaaaaaaaaaaaaaaaaaaaaaaaaaaaaaaaaaaaaaaaaaaaaaaaa",
        &[(Word, 0, 64)],
    ),
    (b"`A``b`", &[(Quoted, 0, 6)]),
    (b"````", &[(Quoted, 0, 4)]),
    (
        b"`aaaaaaaaaaaaaaaaaaaaaaaaaaaaaaaaaaaaaaaaaaaaaaaaaaaaaaaaaaaaaaaa`",
        &[(Quoted, 0, 66)],
    ),
    (
        b"`aaaaaaaaaaaaaaaaaaaaaaaaaaaaaaaaaaaaaaaaaaaaaaaaaaaaaaaaaaaaaaa```",
        &[(Quoted, 0, 67)],
    ),
    (b"` ~\\`", &[(Quoted, 0, 5)]),
    (b"0 007", &[(Number(0), 0, 1), (Number(7), 2, 5)]),
    (
        b"5a 1.5",
        &[
            (Number(5), 0, 1),
            (Word, 1, 2),
            (Number(1), 3, 4),
            (Symbol(Dot), 4, 5),
            (Number(5), 5, 6),
        ],
    ),
    (
        b"9223372036854775807",
        &[(Number(9_223_372_036_854_775_807), 0, 19)],
    ),
    (
        b"-9223372036854775808",
        &[(Symbol(Minus), 0, 1), (Least, 1, 20)],
    ),
    (
        b"3 -0009223372036854775808",
        &[(Number(3), 0, 1), (Symbol(Minus), 2, 3), (Least, 3, 25)],
    ),
    (
        b"--5",
        &[
            (Symbol(Minus), 0, 1),
            (Symbol(Minus), 1, 2),
            (Number(5), 2, 3),
        ],
    ),
    (b"-- ", &[]),
    (b"1--", &[(Number(1), 0, 1)]),
    (b"--\n1", &[(Number(1), 3, 4)]),
    (b"--\ta\rb\n1", &[(Number(1), 7, 8)]),
    (b"a-- 'b", &[(Word, 0, 1)]),
    (b"/**/1", &[(Number(1), 4, 5)]),
    (b"/* a * / ' */1/*-*/", &[(Number(1), 13, 14)]),
    (b"-/*-*/5", &[(Symbol(Minus), 0, 1), (Number(5), 6, 7)]),
    (
        b"@@session.x @y",
        &[
            (Symbol(AtAt), 0, 2),
            (Word, 2, 9),
            (Symbol(Dot), 9, 10),
            (Word, 10, 11),
            (Symbol(At), 12, 13),
            (Word, 13, 14),
        ],
    ),
    (
        b":=<=><>!=<<=5>>=",
        &[
            (Symbol(Assign), 0, 2),
            (Symbol(NullSafeEqual), 2, 5),
            (Symbol(NotEqual), 5, 7),
            (Symbol(NotEqual), 7, 9),
            (Symbol(Less), 9, 10),
            (Symbol(LessEqual), 10, 12),
            (Number(5), 12, 13),
            (Symbol(Greater), 13, 14),
            (Symbol(GreaterEqual), 14, 16),
        ],
    ),
    (
        b"(),;.@=+-*%",
        &[
            (Symbol(Open), 0, 1),
            (Symbol(Close), 1, 2),
            (Symbol(Comma), 2, 3),
            (Symbol(Semicolon), 3, 4),
            (Symbol(Dot), 4, 5),
            (Symbol(At), 5, 6),
            (Symbol(Equal), 6, 7),
            (Symbol(Plus), 7, 8),
            (Symbol(Minus), 8, 9),
            (Symbol(Star), 9, 10),
            (Symbol(Percent), 10, 11),
        ],
    ),
    (b"X'0027'x''", &[(Text, 0, 7), (Text, 7, 10)]),
    (
        b"x 'a' xy'b'",
        &[(Word, 0, 1), (Text, 2, 5), (Word, 6, 8), (Text, 8, 11)],
    ),
    (b"'a''b'\"c\\\"d\"", &[(Text, 0, 6), (Text, 6, 12)]),
    (b"'\\\\''/*'", &[(Text, 0, 8)]),
];

/// Texts that are no tokens, with the first byte that begins none.
static REFUSED: [(&[u8], u32); 34] = [
    (b"9223372036854775808", 0),
    (b"3 - 9223372036854775808", 4),
    (b"-9223372036854775809", 1),
    (b"99999999999999999999999", 0),
    (b"-/**/9223372036854775808", 5),
    (b"a $", 2),
    (b"a:b", 1),
    (b"a!b", 1),
    (b"1/2", 1),
    (b"#", 0),
    (b"a \xc3\xa9", 2),
    (b"\0", 0),
    (b"1 \x0b", 2),
    (b"x'4g'", 0),
    (b"SELECT X'414'", 7),
    (b"X'41", 0),
    (b"X'41 '", 0),
    (b"'abc", 0),
    (b"1 'a\\'", 2),
    (b"\"a''", 0),
    (b"'a''", 0),
    (b"a ``", 2),
    (b"``a`", 0),
    (b"`a", 0),
    (b"`a``", 0),
    (b"`a\x1f`", 0),
    (b"`\x7f`", 0),
    (
        b"aaaaaaaaaaaaaaaaaaaaaaaaaaaaaaaaaaaaaaaaaaaaaaaaaaaaaaaaaaaaaaaaa",
        0,
    ),
    (
        b"`aaaaaaaaaaaaaaaaaaaaaaaaaaaaaaaaaaaaaaaaaaaaaaaaaaaaaaaaaaaaaaaaa`",
        0,
    ),
    (
        b"`aaaaaaaaaaaaaaaaaaaaaaaaaaaaaaaaaaaaaaaaaaaaaaaaaaaaaaaaaaaaaaaa```",
        0,
    ),
    (b"/*! a */", 0),
    (b"1 /* a", 2),
    (b"/*/", 0),
    (b"a /", 2),
];

/// Literals with the bytes that they stand for.
static LITERALS: [(&[u8], &[u8]); 8] = [
    (
        b"'\\0\\'\\\"\\b\\n\\r\\t\\Z\\\\'",
        &[0, 39, 34, 8, 10, 13, 9, 26, 92],
    ),
    (b"'\\%\\_\\a\\N\\1'", b"\\%\\_aN1"),
    (b"'a''b\"\"c`'", b"a'b\"\"c`"),
    (b"\"a\"\"b''c\"", b"a\"b''c"),
    (b"''''", b"'"),
    (b"X'0027fF'", &[0, 39, 255]),
    (b"x''", b""),
    (b"abc", b""),
];

/// Names with their meaning.
static NAMES: [(&[u8], &[u8]); 5] = [
    (b"SeLect_$Z9", b"select_$z9"),
    (b"`A``B `", b"a`b "),
    (b"`a\\n`", b"a\\n"),
    (b"````", b"`"),
    (b"5", b""),
];

static WORDS: [(&[u8], Option<Keyword>); 8] = [
    (b"SELECT", Some(Keyword::Select)),
    (b"elseIf", Some(Keyword::Elseif)),
    (b"Auto_Increment", Some(Keyword::AutoIncrement)),
    (b"rand", Some(Keyword::Rand)),
    (b"uuid", None),
    (b"selects", None),
    (b"`select`", None),
    (b"'select'", None),
];

/// Whether tokens are these, at these places.
fn are_tokens(tokens: &List<Token>, places: &[Place]) -> bool {
    let mut same = tokens.len() == places.len();
    for (token, place) in tokens.as_slice().iter().zip(places) {
        same = same && (token.kind, token.at, token.end) == *place;
    }
    same
}

/// Where the tokens of a text end, where they are these.
fn front_of(alloc: Global, text: &[u8], places: &[Place]) -> Option<usize> {
    if text.len() >= 1000 {
        return None;
    }
    match lex_front(alloc, text) {
        Ok((tokens, stop)) => are_tokens(&tokens, places).then_some(stop),
        Err(_) => None,
    }
}

/// Whether a text has just these tokens.
fn is_read(alloc: Global, text: &[u8], places: &[Place]) -> bool {
    if front_of(alloc, text, places) != Some(text.len()) || text.len() >= 1000 {
        return false;
    }
    match lex(alloc, text) {
        Ok(tokens) => are_tokens(&tokens, places),
        Err(_) => false,
    }
}

/// How many texts are read so, from the first on.
fn held_texts(alloc: Global) -> usize {
    for (i, (text, places)) in TEXTS.iter().enumerate() {
        if !is_read(alloc, *text, *places) {
            return i;
        }
    }
    TEXTS.len()
}

/// The first byte that begins no token.
fn stop_of(alloc: Global, text: &[u8]) -> Option<usize> {
    if text.len() >= 1000 {
        return None;
    }
    match lex_front(alloc, text) {
        Ok((_, stop)) => Some(stop),
        Err(_) => None,
    }
}

/// Whether a text is refused at a byte.
fn is_refused(alloc: Global, text: &[u8], place: u32) -> bool {
    if stop_of(alloc, text) != Some(place as usize) || text.len() >= 1000 {
        return false;
    }
    match lex(alloc, text) {
        Ok(_) => false,
        Err(refusal) => refusal == LexRefusal::At(place),
    }
}

/// How many texts are refused so, from the first on.
fn held_refused(alloc: Global) -> usize {
    for (i, (text, place)) in REFUSED.iter().enumerate() {
        if !is_refused(alloc, *text, *place) {
            return i;
        }
    }
    REFUSED.len()
}

/// The first token of a text.
fn first(alloc: Global, text: &[u8]) -> Option<Token> {
    if text.len() >= 1000 {
        return None;
    }
    match lex_front(alloc, text) {
        Ok((tokens, _)) => tokens.get(0).copied(),
        Err(_) => None,
    }
}

/// Whether bytes are made, and are these.
fn are_bytes(found: Result<Bytes, NoMemory>, wanted: &[u8]) -> bool {
    match found {
        Ok(bytes) => bytes.as_slice() == wanted,
        Err(_) => false,
    }
}

/// Whether a literal stands for these bytes.
fn stands_for(alloc: Global, text: &[u8], wanted: &[u8]) -> bool {
    match first(alloc, text) {
        Some(token) => are_bytes(text_of(alloc, text, token), wanted),
        None => false,
    }
}

/// How many literals do so, from the first on.
fn held_literals(alloc: Global) -> usize {
    for (i, (text, wanted)) in LITERALS.iter().enumerate() {
        if !stands_for(alloc, *text, *wanted) {
            return i;
        }
    }
    LITERALS.len()
}

/// Whether a name has this meaning.
fn means(alloc: Global, text: &[u8], wanted: &[u8]) -> bool {
    match first(alloc, text) {
        Some(token) => are_bytes(name_of(alloc, text, token), wanted),
        None => false,
    }
}

/// How many names have their meaning, from the first on.
fn held_names(alloc: Global) -> usize {
    for (i, (text, wanted)) in NAMES.iter().enumerate() {
        if !means(alloc, *text, *wanted) {
            return i;
        }
    }
    NAMES.len()
}

/// Whether a word is a keyword or none, and its bytes are the text.
fn is_word(alloc: Global, text: &[u8], keyword: Option<Keyword>) -> bool {
    match first(alloc, text) {
        Some(token) => keyword_at(text, token) == keyword && bytes_of(text, token) == text,
        None => false,
    }
}

/// How many words are so, from the first on.
fn held_words(alloc: Global) -> usize {
    for (i, (text, keyword)) in WORDS.iter().enumerate() {
        if !is_word(alloc, *text, *keyword) {
            return i;
        }
    }
    WORDS.len()
}

/// Expects of a table that all its cases hold.
fn expect_all(rt: &impl Abort, of: &str, held: usize, cases: usize) {
    assert_eq!(rt; held, cases, "{of}");
}

#[test]
fn texts_and_tokens(rt: HostRuntime) {
    let alloc = rt.alloc();
    expect_all(&rt, "texts read", held_texts(alloc), 31);
    expect_all(&rt, "texts refused at their place", held_refused(alloc), 34);
    expect_all(&rt, "literals", held_literals(alloc), 8);
    expect_all(&rt, "names", held_names(alloc), 5);
    expect_all(&rt, "words", held_words(alloc), 8);
    assert!(rt; Keyword::Select.is_reserved() && !Keyword::Count.is_reserved());
    assert!(rt; Keyword::NameConst.word() == b"name_const".as_slice());
}
