//! Texts and what they are, which the checker computes.
ghost use Rattle.sql_tree.specs.Statement.{select};
ghost use Rattle.sql_tree.specs.Tree.{items, literal, no_origin, no_tree, query, tree};
ghost use Rattle.std.specs.Prelude.{◌≡◌, codes, pos};
ghost use Rattle.text_answers.specs.Answers.{a_statement, a_syntax_error, text_answer};
ghost use Rattle.val_types.specs.declared.value.Value.TheVariants.{Int};

/// A statement; a word in the place of another, a second statement, nothing at all, and a number that
/// is too wide, each at its first byte.
pub fn texts_with_their_answers()
    ensures whole { text_answer (codes "select /* one */ 1") ≡ a_statement (select (query (items (tree (literal (Int (pos 1))) no_tree)) no_origin)) }
    ensures form { text_answer (codes "SELECT 1 FORM t") ≡ a_syntax_error 9 }
    ensures second { text_answer (codes "SELECT 1; SELECT 2") ≡ a_syntax_error 8 }
    ensures nothing { text_answer (codes "") ≡ a_syntax_error 0 }
    ensures remark { text_answer (codes " -- none") ≡ a_syntax_error 8 }
    ensures wide { text_answer (codes "SELECT 9223372036854775808") ≡ a_syntax_error 7 }
    ensures behind { text_answer (codes "SELECT 1 #") ≡ a_syntax_error 9 }
{}
