//! What holds of the answer to a text.
ghost use Rattle.std.specs.Prelude.{List, ℕ};
ghost use Rattle.text_answers.specs.Answers.{AnswersAreWell, IsAnswered, TokensAreComputed};

use sql_text::readings_are_well;

/// The tokens of a text, with their places, are those that are computed.
pub fn tokens_are_placed()
    ensures { TokensAreComputed }
{}

/// What a text is, is what the grammar says, both ways.
pub fn texts_are_answered()
    ensures { (text : List ℕ) → IsAnswered text }
{}

/// A statement that a text of bytes is, is one that the parser can give.
pub fn answers_are_well()
    ensures { AnswersAreWell }
{
    readings_are_well();
}
