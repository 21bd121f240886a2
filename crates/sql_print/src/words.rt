//! Which names need no backquotes.
ghost use Rattle.std.specs.Prelude.{◌≡◌, map};
ghost use Rattle.std.specs.List.{list_all};
ghost use Rattle.sql_print.specs.Names.{is_among, is_bare, is_name_part, is_name_start, is_reserved, is_word};

/// The words that are no names without backquotes.
const RESERVED_WORDS: [&[u8]; 65] = [
    b"alter",
    b"and",
    b"as",
    b"asc",
    b"before",
    b"between",
    b"bigint",
    b"by",
    b"call",
    b"case",
    b"create",
    b"declare",
    b"default",
    b"delete",
    b"desc",
    b"deterministic",
    b"distinct",
    b"div",
    b"drop",
    b"each",
    b"else",
    b"elseif",
    b"exists",
    b"for",
    b"from",
    b"group",
    b"if",
    b"ignore",
    b"in",
    b"insert",
    b"int",
    b"integer",
    b"into",
    b"is",
    b"join",
    b"key",
    b"limit",
    b"mod",
    b"modifies",
    b"not",
    b"null",
    b"on",
    b"or",
    b"order",
    b"primary",
    b"procedure",
    b"reads",
    b"release",
    b"replace",
    b"return",
    b"select",
    b"set",
    b"sql",
    b"table",
    b"then",
    b"to",
    b"trigger",
    b"union",
    b"unique",
    b"update",
    b"values",
    b"varchar",
    b"when",
    b"where",
    b"while",
];

fn is_name_start(byte: u8) -> bool
    ensures { result ≡ is_name_start byte }
{
    byte.is_ascii_uppercase() || byte.is_ascii_lowercase() || byte == b'_'
}

fn is_name_part(byte: u8) -> bool
    ensures { result ≡ is_name_part byte }
{
    is_name_start(byte) || byte.is_ascii_digit() || byte == b'$'
}

fn are_name_parts(bytes: &[u8]) -> bool
    ensures { result ≡ list_all is_name_part bytes.now }
{
    bytes.iter().all(|byte| is_name_part(*byte))
}

fn is_word(name: &[u8]) -> bool
    ensures { result ≡ is_word name.now }
{
    match name {
        [] => false,
        [first, rest @ ..] => is_name_start(*first) && are_name_parts(rest),
    }
}

fn is_among(words: &[&[u8]], name: &[u8]) -> bool
    ensures { result ≡ is_among (map (λ w. w.now) words.now) name.now }
{
    for word in words {
        if *word == name {
            return true;
        }
    }
    false
}

fn is_reserved(name: &[u8]) -> bool
    ensures { result ≡ is_reserved name.now }
{
    is_among(&RESERVED_WORDS, name)
}

/// Whether a name is read back without backquotes: a letter or `_`, then letters, digits, `_` and `$`, and no reserved word.
pub fn is_bare(name: &[u8]) -> bool
    ensures { result ≡ is_bare name.now }
{
    is_word(name) && !is_reserved(name)
}
