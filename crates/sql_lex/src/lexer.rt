//! The tokens of a text.
ghost use Rattle.std.specs.Prelude.{◌≡◌, ◌≤◌, ℕ, List as Items, length, IfOk, IfErr};
ghost use Rattle.sql_lex.specs.Lexes.{FrontSays, IsFront, Lexes, LexesOnly, Refuses, RefusesAt, RefusesOnly, Says, SaysOnly};
ghost use Rattle.sql_lex.specs.Lexes as spec;
ghost use Rattle.sql_lex.specs.Plain.{Plain, plain_tokens};
ghost use Rattle.sql_lex.specs.Spans.{Spans};

use crate::pieces::{Piece, first_piece};
use crate::quotes::behind;
use crate::token::{Symbol, Token, TokenKind, Tokens};
use std::alloc::{AllocError, Global};
use val_types::{List, NoMemory};

/// Why a text is no list of tokens: the place of the first byte that begins no token, counted from
/// 0, or want of memory.
#[derive(Clone, Copy, PartialEq, Eq)]
pub enum LexRefusal {
    At(u32),
    NoMemory,
}

impl From<AllocError> for LexRefusal {
    ghost use Rattle.sql_lex.specs.declared.lexer.LexRefusal.TheVariants.{NoMemory};

    ghost from_gives = { λ _ e. e ≡ NoMemory };

    fn from(_e: AllocError) -> LexRefusal {
        LexRefusal::NoMemory
    }
}

/// For how many tokens there is room from the start at most: a text of one token may be long.
const MOST_ROOM: usize = 256;

fn is_minus(kind: TokenKind) -> bool
    ensures { result ≡ spec.is_minus kind }
{
    match kind {
        TokenKind::Symbol(Symbol::Minus) => true,
        _ => false,
    }
}

/// The tokens of a text up to where no token begins, and that place: the text's length where the
/// whole text is tokens.
pub fn lex_front(alloc: Global, text: &[u8]) -> Result<(Tokens, usize), NoMemory>
    requires { length text.now ≤ 4294967295 }
    ensures front { IfOk result (λ r. IsFront text.now r.0 r.1) }
    ensures within { IfOk result (λ r. r.1 ≤ length text.now) }
    ensures spans { IfOk result (λ r. Spans text.now 0 r.0 r.1) }

    // The whole text is read exactly where it says tokens, and they are those that were read.
    ensures says { IfOk result (λ r. r.1 ≡ length text.now → Says text.now (plain_tokens text.now r.0)) }
    ensures said { (ps : Items Plain) → Says text.now ps → IfOk result (FrontSays text.now ps) }
{
    let room = (text.len() / 2).min(MOST_ROOM);
    let mut tokens = List::from_vec(Vec::with_capacity(alloc, room)?);
    let mut at = 0;
    let mut behind_minus = false;
    'pieces: loop {
        match first_piece(behind_minus, behind(text, at)) {
            Piece::Nothing => return Ok((tokens, at)),
            Piece::Blank(count) => {
                at += count;
                behind_minus = false;
            }
            Piece::Token(kind, count) => {
                tokens.push(Token {
                    kind,
                    at: at as u32,
                    end: (at + count) as u32,
                })?;
                at += count;
                behind_minus = is_minus(kind);
            }
        }
    }
}

/// The tokens of a text.
pub fn lex(alloc: Global, text: &[u8]) -> Result<Tokens, LexRefusal>
    requires { length text.now ≤ 4294967295 }
    ensures tokens { IfOk result (λ ts. Lexes text.now ts) }
    ensures spans { IfOk result (λ ts. Spans text.now 0 ts (length text.now)) }
    ensures refused { IfErr result (λ e. RefusesAt text.now e) }

    // Each text that is tokens gives just these, and each that is not gives its place, unless
    // memory runs out.
    ensures only { (ts : Items Token) → Lexes text.now ts → LexesOnly ts result }
    ensures place { (at : ℕ) → Refuses text.now at → RefusesOnly at result }

    ensures says { IfOk result (λ ts. Says text.now (plain_tokens text.now ts)) }
    ensures said { (ps : Items Plain) → Says text.now ps → SaysOnly text.now ps result }
{
    let (tokens, stop) = lex_front(alloc, text)?;
    if stop < text.len() {
        return Err(LexRefusal::At(stop as u32));
    }
    Ok(tokens)
}
