//! A token, and what it says.
ghost use Rattle.std.specs.Prelude.{◌≡◌, IfOk, pos, neg_ℤ};
ghost use Rattle.sql_grammar.specs.Sets.{member};
ghost use Rattle.sql_parse_tokens.specs.Lexemes.{tok_of};
ghost use Rattle.sql_syntax.specs.Tokens as spec;
ghost use Rattle.sql_tree.specs.BuiltIns.{lower_name};

use crate::lexeme::{Lexeme, Sort};
use sql_lex::{Keyword, Symbol, Token, TokenKind, name_of, text_of};
use sql_tree::function_name;
use std::alloc::Global;
use std::marker::Model;
use val_types::{Bytes, Func, Func0, Func1, Func2, Func3, FuncN, List, NoMemory};

/// The name of a built-in function, in lower case.
fn lower_name(alloc: Global, function: Func) -> Result<Bytes, NoMemory>
    ensures { IfOk result (λ name. name ≡ lower_name function) }
{
    let name = function_name(function);
    let bytes: Vec<u8> = name.iter().map(|b| b.to_ascii_lowercase()).collect(alloc)?;
    Ok(List::from_vec(bytes))
}

/// A token of a text.
#[derive(Drop)]
pub struct Word<'t> {
    text: &'t [u8],
    lexeme: &'t Lexeme,
}

impl<'t> Model for Word<'t> {
    ghost use Rattle.sql_syntax.specs.Tokens.{Tok};

    ghost Value = { Tok };

    ghost use Rattle.sql_parse_tokens.specs.Lexemes.{tok_of};

    ghost view = { λ w. tok_of w.text.now w.lexeme.now };
}

impl<'t> Word<'t> {
    /// A token of this text.
    pub fn new(text: &'t [u8], lexeme: &'t Lexeme) -> Word<'t>
        ensures { result ≡ tok_of text.now lexeme.now }
    {
        Word { text, lexeme }
    }

    /// The name that the token may be; empty for a token that is none.
    pub fn name(&self, alloc: Global) -> Result<Bytes, NoMemory>
        ensures { IfOk result (λ name. name ≡ spec.name_said self.now) }
    {
        let Lexeme { sort, at, end } = *self.lexeme;
        match sort {
            Sort::Key(k) => List::from_slice(alloc, k.word()),
            Sort::Function(f) => lower_name(alloc, f),
            Sort::Name => {
                let kind = TokenKind::Word;
                name_of(alloc, self.text, Token { kind, at, end })
            }
            Sort::Quoted => {
                let kind = TokenKind::Quoted;
                name_of(alloc, self.text, Token { kind, at, end })
            }
            _ => Ok(List::new(alloc)),
        }
    }

    /// The bytes of a literal; empty for a token that is none.
    pub fn text(&self, alloc: Global) -> Result<Bytes, NoMemory>
        ensures { IfOk result (λ bytes. bytes ≡ spec.text_said self.now) }
    {
        let Lexeme { sort, at, end } = *self.lexeme;
        let kind = TokenKind::Text;
        match sort {
            Sort::Text => text_of(alloc, self.text, Token { kind, at, end }),
            _ => Ok(List::new(alloc)),
        }
    }

    /// The keyword that the token is, where it is one.
    pub fn key(&self) -> Option<Keyword>
        ensures { result ≡ spec.keyword_said self.now }
    {
        match self.lexeme.sort {
            Sort::Key(k) => Some(k),
            _ => None,
        }
    }

    /// Whether the token may be a name.
    pub fn is_name(&self) -> bool
        ensures { result ≡ member (spec.kind self.now) spec.names }
    {
        self.lexeme.sort.is_name()
    }

    /// Whether the token calls a stored function before a parenthesis.
    pub fn is_own_name(&self) -> bool
        ensures { result ≡ member (spec.kind self.now) spec.own_names }
    {
        self.lexeme.sort.is_own_name()
    }

    /// The built-in function without arguments that the token names; NOW for a token that names none.
    pub fn none(&self) -> Func0
        ensures { result ≡ spec.none_said self.now }
    {
        match self.lexeme.sort {
            Sort::Function(Func::Zero(f)) => f,
            _ => Func0::Now,
        }
    }

    /// The built-in function of one argument that the token names; ABS for a token that names none.
    pub fn one(&self) -> Func1
        ensures { result ≡ spec.one_said self.now }
    {
        match self.lexeme.sort {
            Sort::Function(Func::One(f)) => f,
            _ => Func1::Abs,
        }
    }

    /// The built-in function of two arguments that the token names; IFNULL for a token that names none.
    pub fn two(&self) -> Func2
        ensures { result ≡ spec.two_said self.now }
    {
        match self.lexeme.sort {
            Sort::Function(Func::Two(f)) => f,
            _ => Func2::IfNull,
        }
    }

    /// The built-in function of three arguments that the token names; IF for a token that names none.
    pub fn three(&self) -> Func3
        ensures { result ≡ spec.three_said self.now }
    {
        match self.lexeme.sort {
            Sort::Function(Func::Three(f)) => f,
            _ => Func3::If,
        }
    }

    /// The built-in function of one argument or more that the token names; COALESCE for a token that
    /// names none.
    pub fn many(&self) -> FuncN
        ensures { result ≡ spec.many_said self.now }
    {
        match self.lexeme.sort {
            Sort::Function(Func::Many(f)) => f,
            _ => FuncN::Coalesce,
        }
    }

    /// The sign that the token is, where it is one; a minus directly before digits is none.
    pub fn mark(&self) -> Option<Symbol>
        ensures { result ≡ spec.mark_said self.now }
    {
        match self.lexeme.sort {
            Sort::Mark(s) => Some(s),
            _ => None,
        }
    }

    /// The number that the token says, without a sign; 0 for a token that is none.
    pub fn number(&self) -> u64
        ensures { result ≡ spec.number_said self.now }
    {
        match self.lexeme.sort {
            Sort::Number(n) => n.min(9223372036854775807),
            Sort::Least => 1 << 63,
            _ => 0,
        }
    }

    /// The number that a token says which is no 9223372036854775808.
    pub fn integer(&self) -> i64
        ensures { (self.now ≡ spec.least_digits → ⊥) → result ≡ pos (spec.number_said self.now) }
    {
        match self.lexeme.sort {
            Sort::Number(n) => n.min(9223372036854775807) as i64,
            Sort::Least => i64::MAX,
            _ => 0,
        }
    }

    /// The number that a token says, below 0.
    pub fn negative(&self) -> i64
        ensures { result ≡ neg_ℤ (pos (spec.number_said self.now)) }
    {
        match self.lexeme.sort {
            Sort::Number(n) => -(n.min(9223372036854775807) as i64),
            Sort::Least => i64::MIN,
            _ => 0,
        }
    }
}
