//! Worked texts, as bytes.
ghost use Rattle.sql_grammar.specs.Reader.{Syntax};
ghost use Rattle.sql_grammar.specs.Whole.{read_whole};
ghost use Rattle.sql_syntax.specs.Spoken.{spoken};
ghost use Rattle.sql_syntax.specs.Statements.{statement};
ghost use Rattle.sql_syntax.specs.Texts.{limit_open};
ghost use Rattle.sql_syntax.specs.Tokens.{broken_minus};
ghost use Rattle.sql_tree.specs.BuiltIns.{on_none, on_two};
ghost use Rattle.sql_tree.specs.Statement.{insert_into, rows, select};
ghost use Rattle.sql_tree.specs.Tree.{binary, items, literal, name, no_origin, no_tree, query, tree};
ghost use Rattle.std.specs.Prelude.{◌≡◌, [], ◌∷◌, codes, Err, false, neg_ℤ, None, Ok, pos};
ghost use Rattle.val_types.specs.declared.ops.BinOp.TheVariants as ops;
ghost use Rattle.val_types.specs.declared.ops.Func0.{Func0};
ghost use Rattle.val_types.specs.declared.ops.Func2.{Func2};
ghost use Rattle.val_types.specs.declared.value.Value.TheVariants.{Int, Text};

/// Texts of bytes and the trees that they are, or what is left from a fault on. Where no token
/// begins at the place, nothing is left.
pub fn bytes_are_read()
    ensures names { read_whole (statement limit_open) (spoken (codes "select `A b`, -5 - 5 -- the end")) ≡ Ok (select (query (items (tree (name (codes "a b")) (tree (binary ops.Subtract (literal (Int (neg_ℤ (pos 5)))) (literal (Int (pos 5)))) no_tree))) no_origin)) }
    ensures called { read_whole (statement limit_open) (spoken (codes "SELECT IfNull(now(), NOW)")) ≡ Ok (select (query (items (tree (on_two Func2.IfNull (on_none Func0.Now) (name (codes "now"))) no_tree)) no_origin)) }
    ensures texts { read_whole (statement limit_open) (spoken (codes "INSERT INTO t VALUE ('A', 'it''s') /* end */")) ≡ Ok (insert_into false (codes "t") None (rows (tree (literal (Text (codes "A"))) (tree (literal (Text (codes "it's"))) no_tree) ∷ [])) []) }
    ensures form { read_whole (statement limit_open) (spoken (codes "SELECT 1 FORM t")) ≡ Err (Syntax (spoken (codes "FORM t"))) }
    ensures second { read_whole (statement limit_open) (spoken (codes "SELECT 1; SELECT 2")) ≡ Err (Syntax (spoken (codes "; SELECT 2"))) }
    ensures wide { read_whole (statement limit_open) (spoken (codes "SELECT -9223372036854775809")) ≡ Err (Syntax (broken_minus ∷ [])) }
    ensures wide_behind { read_whole (statement limit_open) (spoken (codes "SELECT 3 -9223372036854775809")) ≡ Err (Syntax []) }
    ensures empty { read_whole (statement limit_open) (spoken (codes " /* nothing */ ")) ≡ Err (Syntax []) }
{}
