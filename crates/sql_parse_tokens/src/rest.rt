//! The tokens that are left.
ghost use Rattle.std.specs.Prelude.{◌≡◌, ◌∷◌, [], length, Some};
ghost use Rattle.sql_grammar.specs.Sets.{member, next_in, next_two_in};
ghost use Rattle.sql_grammar.specs.Rule.{token, word};
ghost use Rattle.sql_parse_tokens.specs.Gives.{Gives};
ghost use Rattle.sql_parse_tokens.specs.Lexemes.{seen, split_first};
ghost use Rattle.sql_syntax.specs.Tokens.{kind, code, sign_code, names, own_names, first_keyword, keyword, sign};

use crate::fault::Stop;
use crate::kinds::{code, sign_code};
use crate::lexeme::Lexeme;
use crate::word::Word;
use sql_lex::{Keyword, Symbol};
use std::marker::Model;

/// Whether a kind is one of these.
fn has(kinds: &[u8], kind: u8) -> bool
    ensures { result ≡ member kind kinds.now }
{
    kinds.contains(&kind)
}

/// The tokens of a text from some place on.
#[derive(Drop)]
pub struct Rest<'t> {
    text: &'t [u8],
    lexemes: &'t [Lexeme],
}

impl<'t> Model for Rest<'t> {
    ghost use Rattle.std.specs.Prelude.{List};
    ghost use Rattle.sql_syntax.specs.Tokens.{Tok};

    ghost Value = { List Tok };

    ghost use Rattle.sql_parse_tokens.specs.Lexemes.{seen};

    ghost view = { λ r. seen r.text.now r.lexemes.now };
}

impl<'t> Rest<'t> {
    /// All tokens of a text.
    pub fn new(text: &'t [u8], lexemes: &'t [Lexeme]) -> Rest<'t>
        ensures { result ≡ seen text.now lexemes.now }
    {
        Rest { text, lexemes }
    }

    /// How many tokens are left.
    pub fn len(&self) -> usize
        ensures { result ≡ length self.now }
    {
        self.lexemes.len()
    }

    /// The next token with its kind, and those behind it.
    fn split(&self) -> Option<(u8, Word<'t>, Rest<'t>)>
        ensures { result ≡ split_first self.now }
    {
        let (first, lexemes) = self.lexemes.split_first()?;
        let word = Word::new(self.text, first);
        Some((first.sort.kind(), word, Rest::new(self.text, lexemes)))
    }

    /// Whether the next token is of one of these kinds.
    pub fn is_in(&self, kinds: &[u8]) -> bool
        ensures { result ≡ next_in kind kinds.now self.now }
    {
        match self.split() {
            Some((kind, _, _)) => has(kinds, kind),
            None => false,
        }
    }

    /// Whether the next token is of one of some kinds, and the next but one of one of others.
    pub fn are_in(&self, kinds: &[u8], others: &[u8]) -> bool
        ensures { result ≡ next_two_in kind kinds.now others.now self.now }
    {
        match self.split() {
            Some((kind, _, rest)) => has(kinds, kind) && rest.is_in(others),
            None => false,
        }
    }

    /// The next token, where it is of one of these kinds.
    pub fn take(self, kinds: &[u8]) -> Result<(Word<'t>, Rest<'t>), Stop<'t>>
        ensures { Gives (λ t. t) result ((token kind kinds.now (λ t. Some t)).read self.entry) }
    {
        match self.split() {
            Some((kind, word, rest)) if has(kinds, kind) => Ok((word, rest)),
            _ => Err(Stop::Syntax(self)),
        }
    }

    /// Whether the next token may be a name.
    pub fn is_name(&self) -> bool
        ensures { result ≡ next_in kind names self.now }
    {
        match self.split() {
            Some((_, word, _)) => word.is_name(),
            None => false,
        }
    }

    /// The next token, where it may be a name.
    pub fn take_name(self) -> Result<(Word<'t>, Rest<'t>), Stop<'t>>
        ensures { Gives (λ t. t) result ((token kind names (λ t. Some t)).read self.entry) }
    {
        match self.split() {
            Some((_, word, rest)) if word.is_name() => Ok((word, rest)),
            _ => Err(Stop::Syntax(self)),
        }
    }

    /// The next token, where it calls a stored function before a parenthesis.
    pub fn take_own_name(self) -> Result<(Word<'t>, Rest<'t>), Stop<'t>>
        ensures { Gives (λ t. t) result ((token kind own_names (λ t. Some t)).read self.entry) }
    {
        match self.split() {
            Some((_, word, rest)) if word.is_own_name() => Ok((word, rest)),
            _ => Err(Stop::Syntax(self)),
        }
    }

    /// What is left behind a token of this kind.
    pub fn skip(self, k: u8) -> Result<((), Rest<'t>), Stop<'t>>
        ensures { Gives (λ u. u) result ((word kind k).read self.entry) }
    {
        match self.split() {
            Some((kind, _, rest)) if kind == k => Ok(((), rest)),
            _ => Err(Stop::Syntax(self)),
        }
    }

    /// The keyword that the next token is, where it is one.
    pub fn first_key(&self) -> Option<Keyword>
        ensures { result ≡ first_keyword self.now }
    {
        match self.split() {
            Some((_, word, _)) => word.key(),
            None => None,
        }
    }

    /// Whether the next token is this keyword.
    pub fn is_key(&self, word: Keyword) -> bool
        ensures { result ≡ next_in kind (code word ∷ []) self.now }
    {
        self.is_in(&[code(word)])
    }

    /// Whether the next token is this sign.
    pub fn is_mark(&self, mark: Symbol) -> bool
        ensures { result ≡ next_in kind (sign_code mark ∷ []) self.now }
    {
        self.is_in(&[sign_code(mark)])
    }

    /// What is left behind this keyword.
    pub fn skip_key(self, word: Keyword) -> Result<((), Rest<'t>), Stop<'t>>
        ensures { Gives (λ u. u) result ((keyword word).read self.entry) }
    {
        self.skip(code(word))
    }

    /// What is left behind this sign.
    pub fn skip_mark(self, mark: Symbol) -> Result<((), Rest<'t>), Stop<'t>>
        ensures { Gives (λ u. u) result ((sign mark).read self.entry) }
    {
        self.skip(sign_code(mark))
    }
}
