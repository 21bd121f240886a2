//! Statements that the parser can give, with their texts.
ghost use Rattle.sql_text.specs.Worked.{IsWellAs};
ghost use Rattle.sql_tree.specs.Statement.{block, branch, commit, create_procedure, create_table, if_steps, no_branch, no_else, no_statement, program, select, set_all, statement};
ghost use Rattle.sql_tree.specs.Tree.{arm, choice, floor_rand, items, literal, name, no_arm, no_origin, no_part, no_tree, query, tree, unary};
ghost use Rattle.sql_tree.specs.declared.statements.SqlType.{SqlType};
ghost use Rattle.sql_tree.specs.declared.statements.Target.{Target};
ghost use Rattle.std.specs.Prelude.{[], ◌∷◌, false, pos, neg_ℤ, codes, Some, None};
ghost use Rattle.val_types.specs.declared.ops.UnOp.TheVariants.{Negate};
ghost use Rattle.val_types.specs.declared.value.Value.TheVariants.{Int, Text};

/// Where reading back is not plain: a minus before the least number, a text with a quote, a column
/// that is named as a format, a CASE behind RAND, a key among the columns, and a body.
pub fn these_are_well()
    ensures minus { IsWellAs (select (query (items (tree (unary Negate (literal (Int (neg_ℤ (pos 9223372036854775808))))) no_tree)) no_origin))
        (codes "SELECT (- -9223372036854775808)") }
    ensures quote { IsWellAs (select (query (items (tree (literal (Text (codes "it's"))) no_tree)) no_origin)) (codes "SELECT X'69742773'") }
    ensures format { IsWellAs (set_all ((Target.Plain (codes "binlog_format"), name (codes "row")) ∷ [])) (codes "SET `binlog_format` = `row`") }
    ensures factor { IsWellAs (select (query (items (tree (floor_rand (choice (arm (name (codes "a")) (literal (Int (pos 1))) no_arm) no_part)) no_tree)) no_origin))
        (codes "SELECT FLOOR(RAND() * (CASE WHEN `a` THEN 1 END))") }
    ensures table { IsWellAs (create_table (record { name = codes "t"; columns = record { name = codes "a"; kind = SqlType.Int; nullable = false; preset = None; auto_increment = false } ∷ []; primary = Some (codes "a" ∷ []); uniques = record { name = codes "u"; columns = codes "a" ∷ [] } ∷ [] }))
        (codes "CREATE TABLE `t` (`a` INT NOT NULL, PRIMARY KEY (`a`), UNIQUE KEY `u` (`a`))") }
    ensures body { IsWellAs (create_procedure (program (codes "p") [] None (block (record { names = codes "x" ∷ []; kind = SqlType.Int; preset = no_part } ∷ []) (statement (if_steps (branch (name (codes "x")) (statement commit no_statement) no_branch) no_else) no_statement))))
        (codes "CREATE PROCEDURE `p`() BEGIN DECLARE `x` INT; IF `x` THEN COMMIT; END IF; END") }
{}
