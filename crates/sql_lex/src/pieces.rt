//! What a text begins with.
ghost use Rattle.std.specs.Prelude.{◌≡◌, length};
ghost use Rattle.sql_lex.specs.Pieces.{piece_of, IsWithin};

use crate::blanks::blank_length;
use crate::scan::token;
use crate::token::TokenKind;

/// What a text begins with, and its number of bytes: white space or one comment, a token, or
/// neither, as at its end.
pub enum Piece {
    Blank(usize),
    Token(TokenKind, usize),
    Nothing,
}

/// What a text begins with that stands directly behind a minus or not.
pub fn first_piece(behind_minus: bool, text: &[u8]) -> Piece
    ensures value { result ≡ piece_of behind_minus text.now }
    ensures within { IsWithin (length text.now) result }
{
    let blank = blank_length(text);
    if blank > 0 {
        return Piece::Blank(blank);
    }
    match token(behind_minus, text) {
        Some((kind, count)) => Piece::Token(kind, count),
        None => Piece::Nothing,
    }
}
