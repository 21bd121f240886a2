//! What a text is.
ghost use Rattle.std.specs.Prelude.{◌≡◌, ◌≤◌, length, IfErr, IfOk};
ghost use Rattle.sql_tree.specs.StatementView.{view};
ghost use Rattle.session_model.specs.text_answers.Answers.{a_statement, text_answer};
ghost use Rattle.answer_making.specs.ReadTexts.{IsRefusedText};

use session_model::text_answers::texts_are_answered;
use sql_parse::{ParseRefusal, Parsed, parse_boxed};
use std::alloc::Global;

/// The statement that a text is, or why it is none.
pub fn statement_of(alloc: Global, text: &[u8]) -> Result<Parsed, ParseRefusal>
    requires { length text.now ≤ 4294967295 }
    ensures statement { IfOk result (λ p. text_answer text.now ≡ a_statement (view p.statement.value)) }
    ensures refused { IfErr result (IsRefusedText (text_answer text.now)) }
{
    texts_are_answered();
    parse_boxed(alloc, text)
}
