//! The statement that a text is.
ghost use Rattle.std.specs.Prelude.{◌≡◌, ◌≤◌, ℕ, IfErr, IfOk, List as Items, Ok, length};
ghost use Rattle.sql_tree.specs.Statement.{Statement};
ghost use Rattle.sql_tree.specs.StatementView.{view};
ghost use Rattle.sql_parse.specs.Answers.{Answers, IsCause, IsRead, IsRefused, IsSunk, IsWhole, opened, place_left, reading};
ghost use Rattle.sql_parse_nodes.specs.Kept.{IsKept};
ghost use Rattle.sql_syntax.specs.Tokens.{Tok};
ghost use Rattle.sql_tree.specs.Depth.{depth_of};
ghost use Rattle.sql_parse_tokens.specs.Lexemes.{seen};
ghost use Rattle.sql_syntax.specs.Texts.{IsRefusedAt, IsTooDeep, reads};

use crate::statements::statement;
use sql_lex::lex_front;
use sql_parse_nodes::kept::{Kept, Levelled};
use sql_parse_tokens::fault::Stop;
use sql_parse_tokens::lexeme::Lexeme;
use sql_parse_tokens::lexing::lexemes;
use sql_parse_tokens::rest::Rest;
use sql_tree::Stmt;
use std::alloc::{AllocError, Global};
use thiserror::Error;

/// Why a text is no statement: no statement goes on as the text does at this byte, counted from 0;
/// more than 400 constructs are open at once, or the statement has more than 200 levels; or want
/// of memory.
#[derive(Clone, Copy, PartialEq, Eq, Debug, Error)]
pub enum ParseRefusal {
    #[error("no statement goes on so at byte {at}")]
    Syntax { at: u32 },
    #[error("the statement is too deep")]
    Deep,
    #[error("out of memory")]
    NoMemory,
}

impl From<AllocError> for ParseRefusal {
    ghost use Rattle.sql_parse.specs.declared.parsing.ParseRefusal.TheVariants.{NoMemory};

    ghost from_gives = { λ _ e. e ≡ NoMemory };

    fn from(_e: AllocError) -> ParseRefusal {
        ParseRefusal::NoMemory
    }
}

/// So many constructs may be open at once.
const MOST_OPEN: u32 = 400;

/// Where the token stands behind which fewer than so many are left, or where no token begins.
fn place(lexemes: &[Lexeme], left: usize, stop: u32) -> u32
    ensures { result ≡ place_left lexemes.now left stop }
{
    let from = lexemes.len().saturating_sub(left);
    match lexemes.split_at(from).1 {
        [first, ..] => first.at,
        [] => stop,
    }
}

/// The statement, where it is kept.
fn whole(kept: Kept<Stmt>) -> Result<Stmt, ParseRefusal>
    ensures { IsWhole kept result }
{
    match kept {
        Some(Levelled { part, .. }) => Ok(part),
        None => Err(ParseRefusal::Deep),
    }
}

/// The answer to a text with these lexemes up to a place where no token begins, of which this
/// statement was read and these tokens are left.
fn ended(
    text: &[u8],
    lexemes: &[Lexeme],
    stop: u32,
    kept: Kept<Stmt>,
    left: usize,
) -> Result<Stmt, ParseRefusal>
    requires { stop ≤ length text.now }
    ensures { (s : Statement) (us : Items Tok) → length us ≡ left → IsKept view depth_of s kept
        → Answers text.now lexemes.now stop (Ok (s, us)) result }
{
    if left > 0 {
        let at = place(lexemes, left, stop);
        return Err(ParseRefusal::Syntax { at });
    }
    if (stop as usize) < text.len() {
        return Err(ParseRefusal::Syntax { at: stop });
    }
    whole(kept)
}

/// The answer to a text with these lexemes up to a place where no token begins.
fn answer(alloc: Global, text: &[u8], lexemes: &[Lexeme], stop: u32) -> Result<Stmt, ParseRefusal>
    requires { stop ≤ length text.now }
    ensures { Answers text.now lexemes.now stop (reading (seen text.now lexemes.now)) result }
{
    match statement(alloc, MOST_OPEN, Rest::new(text, lexemes)) {
        Ok((kept, rest)) => ended(text, lexemes, stop, kept, rest.len()),
        Err(Stop::Syntax(rest)) => {
            let at = place(lexemes, rest.len(), stop);
            Err(ParseRefusal::Syntax { at })
        }
        Err(Stop::Deep(_)) => Err(ParseRefusal::Deep),
        Err(Stop::NoMemory) => Err(ParseRefusal::NoMemory),
    }
}

/// The statement that a text of at most 4294967295 bytes is.
pub fn parse(alloc: Global, text: &[u8]) -> Result<Stmt, ParseRefusal>
    requires { length text.now ≤ 4294967295 }
    ensures statement { IfOk result (λ s. reads text.now (view s)) }
    ensures cause { IfErr result (IsCause text.now) }

    // Each text gives its one answer, unless memory runs out.
    ensures read { (s : Statement) → reads text.now s → IsRead s result }
    ensures refused { (at : ℕ) → IsRefusedAt text.now at → IsRefused at result }
    ensures deep { IsTooDeep text.now → IsSunk result }
{
    let (tokens, stop) = lex_front(alloc, text)?;
    let lexemes = lexemes(alloc, text, tokens.as_slice())?;
    answer(alloc, text, lexemes.as_slice(), stop as u32)
}

/// A value on the heap. Where there is no memory, it is dropped.
fn boxed<T: Drop>(alloc: Global, value: T) -> Result<Box<T>, AllocError>
    ensures { IfOk result (λ b. b.value ≡ value) }
{
    Ok(Box::new(alloc, value)?)
}

/// A statement that was read, on the heap. It is dropped by this crate: a crate that drops a tree by itself has a function
/// for each type in it.
pub struct Parsed {
    pub statement: Box<Stmt>,
}

impl Drop for Parsed {
    fn drop(self) {
        let Parsed { statement } = self;
        drop(statement);
    }
}

/// The statement that a text of at most 4294967295 bytes is, on the heap.
pub fn parse_boxed(alloc: Global, text: &[u8]) -> Result<Parsed, ParseRefusal>
    requires { length text.now ≤ 4294967295 }
    ensures statement { IfOk result (λ p. reads text.now (view p.statement.value)) }
    ensures cause { IfErr result (IsCause text.now) }

    // Each text gives its one answer, unless memory runs out.
    ensures read { (s : Statement) → reads text.now s → IsRead s (opened result) }
    ensures refused { (at : ℕ) → IsRefusedAt text.now at → IsRefused at (opened result) }
    ensures deep { IsTooDeep text.now → IsSunk (opened result) }
{
    let statement = boxed(alloc, parse(alloc, text)?)?;
    Ok(Parsed { statement })
}
