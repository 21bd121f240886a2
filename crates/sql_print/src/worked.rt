//! Worked examples of the definitions: trees and their texts.
//!
//! In them `one` is the expression `1`, `two` is `- 1`, and `all_of_t` is FROM t alone.
ghost use Rattle.std.specs.Prelude.{◌≡◌, [], ◌∷◌, true, false, pos, neg_ℤ, codes, map, Some, None};
ghost use Rattle.val_types.specs.declared.value.Value.TheVariants.{Null, Int, Text};
ghost use Rattle.val_types.specs.declared.ops.UnOp.TheVariants.{Negate, Not, IsNull, IsNotNull};
ghost use Rattle.val_types.specs.declared.ops.BinOp.TheVariants as ops;
ghost use Rattle.val_types.specs.declared.ops.Agg.TheVariants as aggs;
ghost use Rattle.val_types.specs.declared.ops.Func0.{Func0};
ghost use Rattle.val_types.specs.declared.ops.Func1.{Func1};
ghost use Rattle.val_types.specs.declared.ops.Func2.{Func2};
ghost use Rattle.val_types.specs.declared.ops.Func3.{Func3};
ghost use Rattle.val_types.specs.declared.ops.FuncN.{FuncN};
ghost use Rattle.sql_tree.specs.BuiltIns.{on_none, on_one, on_two, on_three, on_many};
ghost use Rattle.sql_tree.specs.Tree.{literal, name, column, new_column, old_column, user_variable, system_variable, unary, binary, is_in, choice, subquery, exists, call, values_of, name_const, floor_rand, no_tree, no_part, part, query, items, all_columns, aggregates, no_origin, from_table, no_order};
ghost use Rattle.sql_tree.specs.Statement.{rows, rows_of, create_table, create_function, create_procedure, create_trigger, drop_table, drop_function, drop_procedure, drop_trigger, truncate, insert_into, replace_into, update_rows, delete_rows, select, evaluate, set_all, call_procedure, begin, commit, rollback, savepoint, rollback_to, release_savepoint, block, if_steps, while_steps, return_value, no_statement, no_else, else_steps, program, trigger};
ghost use Rattle.sql_tree.specs.View.{trees_of, arms_of, aggregates_of, orders_of};
ghost use Rattle.sql_tree.specs.StatementView.{statements_of, branches_of};
ghost use Rattle.sql_tree.specs.Worked.{one, two, from_t, all_of_t, by, limit_of, only, set_a, assigned, column_of, key_of, parameter_of};
ghost use Rattle.sql_tree.specs.declared.expressions.Count.TheVariants.{Number, Name};
ghost use Rattle.sql_tree.specs.declared.statements.SqlType.{SqlType};
ghost use Rattle.sql_tree.specs.declared.statements.Target.{Target};
ghost use Rattle.sql_tree.specs.declared.statements.Time.{Time};
ghost use Rattle.sql_tree.specs.declared.statements.Cause.{Cause};
ghost use Rattle.sql_print.specs.Names.{quoted_name, bare_name, type_of};
ghost use Rattle.sql_print.specs.Spelling.{tree_text, query_text};
ghost use Rattle.sql_print.specs.StatementSpelling.{spelling};

/// Names, with backquotes but for a system variable's that is a word and not reserved, and types.
pub fn names_are_written()
    ensures quoted { map quoted_name (codes "a" ∷ codes "select" ∷ codes "1 a`b" ∷ codes "``" ∷ []) ≡ codes "`a`" ∷ codes "`select`" ∷ codes "`1 a``b`" ∷ codes "``````" ∷ [] }
    ensures bare { map bare_name (codes "server_id" ∷ codes "_a$1" ∷ codes "end" ∷ codes "alter" ∷ codes "order" ∷ codes "while" ∷ codes "1a" ∷ codes "$a" ∷ codes "a b" ∷ codes "a`b" ∷ []) ≡ codes "server_id" ∷ codes "_a$1" ∷ codes "end" ∷ codes "`alter`" ∷ codes "`order`" ∷ codes "`while`" ∷ codes "`1a`" ∷ codes "`$a`" ∷ codes "`a b`" ∷ codes "`a``b`" ∷ [] }
    ensures types { map type_of (SqlType.Int ∷ SqlType.BigInt ∷ SqlType.Varchar 0 ∷ SqlType.Varchar 9223372036854775807 ∷ []) ≡ codes "INT" ∷ codes "BIGINT" ∷ codes "VARCHAR(0)" ∷ codes "VARCHAR(9223372036854775807)" ∷ [] }
{}

/// Literals, names and variables. A text with a quote, a backslash or a byte outside 20 to 7E is in hexadecimal.
pub fn operands_are_written()
    ensures numbers { map tree_text (literal (Int (pos 0)) ∷ literal (Int (pos 42)) ∷ literal (Int (neg_ℤ (pos 5))) ∷ literal (Int (pos 9223372036854775807)) ∷ literal (Int (neg_ℤ (pos 9223372036854775808))) ∷ []) ≡ codes "0" ∷ codes "42" ∷ codes "-5" ∷ codes "9223372036854775807" ∷ codes "-9223372036854775808" ∷ [] }
    ensures texts { map tree_text (literal Null ∷ literal (Text []) ∷ literal (Text (codes "left ~ 6")) ∷ literal (Text (0 ∷ 0x27 ∷ [])) ∷ literal (Text (0x61 ∷ 0x5c ∷ [])) ∷ literal (Text (0x7f ∷ [])) ∷ literal (Text (0x1f ∷ 0xff ∷ [])) ∷ []) ≡ codes "NULL" ∷ codes "''" ∷ codes "'left ~ 6'" ∷ codes "X'0027'" ∷ codes "X'615C'" ∷ codes "X'7F'" ∷ codes "X'1FFF'" ∷ [] }
    ensures names { map tree_text (name (codes "a") ∷ column (codes "t") (codes "a") ∷ new_column (codes "a") ∷ old_column (codes "a") ∷ user_variable (codes "x") ∷ system_variable (codes "server_id") ∷ system_variable (codes "key") ∷ []) ≡ codes "`a`" ∷ codes "`t`.`a`" ∷ codes "NEW.`a`" ∷ codes "OLD.`a`" ∷ codes "@`x`" ∷ codes "@@server_id" ∷ codes "@@`key`" ∷ [] }
{}

/// Operators stand in parentheses with their operands, whatever stands around them.
pub fn operators_are_written()
    ensures infix { map tree_text (binary ops.Or one (name (codes "a")) ∷ binary ops.And one (name (codes "a")) ∷ binary ops.Equal one (name (codes "a")) ∷ binary ops.NullSafeEqual one (name (codes "a")) ∷ binary ops.NotEqual one (name (codes "a")) ∷ binary ops.Less one (name (codes "a")) ∷ binary ops.LessOrEqual one (name (codes "a")) ∷ binary ops.Greater one (name (codes "a")) ∷ binary ops.GreaterOrEqual one (name (codes "a")) ∷ binary ops.Add one (name (codes "a")) ∷ binary ops.Subtract one (name (codes "a")) ∷ binary ops.Multiply one (name (codes "a")) ∷ binary ops.Divide one (name (codes "a")) ∷ binary ops.Modulo one (name (codes "a")) ∷ []) ≡ codes "(1 OR `a`)" ∷ codes "(1 AND `a`)" ∷ codes "(1 = `a`)" ∷ codes "(1 <=> `a`)" ∷ codes "(1 <> `a`)" ∷ codes "(1 < `a`)" ∷ codes "(1 <= `a`)" ∷ codes "(1 > `a`)" ∷ codes "(1 >= `a`)" ∷ codes "(1 + `a`)" ∷ codes "(1 - `a`)" ∷ codes "(1 * `a`)" ∷ codes "(1 DIV `a`)" ∷ codes "(1 MOD `a`)" ∷ [] }
    ensures prefix { map tree_text (two ∷ unary Negate (literal (Int (neg_ℤ (pos 5)))) ∷ unary Not (name (codes "a")) ∷ unary IsNull (name (codes "a")) ∷ unary IsNotNull (name (codes "a")) ∷ []) ≡ codes "(- 1)" ∷ codes "(- -5)" ∷ codes "(NOT `a`)" ∷ codes "(`a` IS NULL)" ∷ codes "(`a` IS NOT NULL)" ∷ [] }
    ensures nested { map tree_text (binary ops.Add (name_const (codes "v") (Int (neg_ℤ (pos 5)))) one ∷ binary ops.Multiply (binary ops.Add one two) (unary Not (binary ops.Or (name (codes "a")) one)) ∷ binary ops.Subtract (literal (Int (pos 3))) (literal (Int (neg_ℤ (pos 5)))) ∷ []) ≡ codes "(NAME_CONST('v', -5) + 1)" ∷ codes "((1 + (- 1)) * (NOT (`a` OR 1)))" ∷ codes "(3 - -5)" ∷ [] }
    ensures within { map tree_text (is_in false (name (codes "a")) (trees_of (one ∷ two ∷ [])) ∷ is_in true two (trees_of (name (codes "a") ∷ [])) ∷ []) ≡ codes "(`a` IN (1, (- 1)))" ∷ codes "((- 1) NOT IN (`a`))" ∷ [] }
{}

/// CASE, SELECTs as operands, and calls.
pub fn calls_are_written()
    ensures cases { map tree_text (choice (arms_of ((name (codes "a"), one) ∷ [])) (part two) ∷ choice (arms_of ((one, name (codes "a")) ∷ (two, one) ∷ [])) no_part ∷ []) ≡ codes "CASE WHEN `a` THEN 1 ELSE (- 1) END" ∷ codes "CASE WHEN 1 THEN `a` WHEN (- 1) THEN 1 END" ∷ [] }
    ensures selects { map tree_text (subquery (only one) ∷ exists (query all_columns all_of_t) ∷ []) ≡ codes "(SELECT 1)" ∷ codes "EXISTS (SELECT * FROM `t`)" ∷ [] }
    ensures stored { map tree_text (call (codes "f") no_tree ∷ call (codes "abs") (trees_of (one ∷ two ∷ [])) ∷ []) ≡ codes "`f`()" ∷ codes "`abs`(1, (- 1))" ∷ [] }
    ensures constants { map tree_text (values_of (codes "a") ∷ name_const (codes "b") (Text (0 ∷ 0x27 ∷ [])) ∷ name_const (0x27 ∷ []) Null ∷ []) ≡ codes "VALUES(`a`)" ∷ codes "NAME_CONST('b', X'0027')" ∷ codes "NAME_CONST(X'27', NULL)" ∷ [] }
    ensures draws { map tree_text (floor_rand (name (codes "a")) ∷ floor_rand two ∷ floor_rand (literal (Int (neg_ℤ (pos 5)))) ∷ floor_rand (choice (arms_of ((one, one) ∷ [])) no_part) ∷ []) ≡ codes "FLOOR(RAND() * `a`)" ∷ codes "FLOOR(RAND() * (- 1))" ∷ codes "FLOOR(RAND() * -5)" ∷ codes "FLOOR(RAND() * (CASE WHEN 1 THEN 1 END))" ∷ [] }
    ensures built { map tree_text (on_one Func1.Abs two ∷ on_many FuncN.Coalesce (trees_of (one ∷ name (codes "a") ∷ [])) ∷ on_three Func3.If one two (name (codes "a")) ∷ on_two Func2.IfNull one two ∷ on_many FuncN.Concat (trees_of (one ∷ two ∷ name (codes "a") ∷ [])) ∷ on_one Func1.Length one ∷ on_three Func3.Substring (name (codes "a")) one two ∷ []) ≡ codes "ABS((- 1))" ∷ codes "COALESCE(1, `a`)" ∷ codes "IF(1, (- 1), `a`)" ∷ codes "IFNULL(1, (- 1))" ∷ codes "CONCAT(1, (- 1), `a`)" ∷ codes "LENGTH(1)" ∷ codes "SUBSTRING(`a`, 1, (- 1))" ∷ [] }
    ensures without { map tree_text (on_none Func0.Now ∷ on_none Func0.UnixTimestamp ∷ on_none Func0.SysDate ∷ on_none Func0.User ∷ on_none Func0.Uuid ∷ on_none Func0.ConnectionId ∷ on_none Func0.LastInsertId ∷ on_none Func0.RowCount ∷ []) ≡ codes "NOW()" ∷ codes "UNIX_TIMESTAMP()" ∷ codes "SYSDATE()" ∷ codes "USER()" ∷ codes "UUID()" ∷ codes "CONNECTION_ID()" ∷ codes "LAST_INSERT_ID()" ∷ codes "ROW_COUNT()" ∷ [] }
{}

/// SELECTs with each of their parts. Ascending order has no word.
pub fn selects_are_written()
    ensures items { map query_text (query (items (trees_of (one ∷ two ∷ []))) no_origin ∷ query all_columns all_of_t ∷ []) ≡ codes "SELECT 1, (- 1)" ∷ codes "SELECT * FROM `t`" ∷ [] }
    ensures totals { map query_text (query (aggregates (aggregates_of (None ∷ Some (aggs.Count, name (codes "a")) ∷ Some (aggs.Sum, one) ∷ Some (aggs.Min, one) ∷ Some (aggs.Max, one) ∷ []))) (from_t (part (binary ops.Equal (name (codes "a")) one)) no_order None) ∷ query (aggregates (aggregates_of (Some (aggs.Max, name (codes "a")) ∷ None ∷ []))) all_of_t ∷ []) ≡ codes "SELECT COUNT(*), COUNT(`a`), SUM(1), MIN(1), MAX(1) FROM `t` WHERE (`a` = 1)" ∷ codes "SELECT MAX(`a`), COUNT(*) FROM `t`" ∷ [] }
    ensures orders { map query_text (query (items (trees_of (one ∷ []))) (from_t (part (name (codes "a"))) (orders_of ((name (codes "a"), true) ∷ (one, false) ∷ (two, true) ∷ [])) (limit_of (Number 5) None)) ∷ query all_columns (from_t no_part (by one) None) ∷ []) ≡ codes "SELECT 1 FROM `t` WHERE `a` ORDER BY `a` DESC, 1, (- 1) DESC LIMIT 5" ∷ codes "SELECT * FROM `t` ORDER BY 1" ∷ [] }
    ensures limits { map query_text (query all_columns (from_t no_part no_order (limit_of (Name (codes "n")) (Some (Number 10)))) ∷ query all_columns (from_t no_part no_order (limit_of (Number 1) (Some (Name (codes "m"))))) ∷ []) ≡ codes "SELECT * FROM `t` LIMIT `n` OFFSET 10" ∷ codes "SELECT * FROM `t` LIMIT 1 OFFSET `m`" ∷ [] }
{}

/// CREATE TABLE: the columns, then the primary key, then the unique keys.
pub fn tables_are_written()
    ensures shop { spelling (create_table (record { name = codes "item"; columns = (record { name = codes "id"; kind = SqlType.Int; nullable = false; preset = None; auto_increment = true } ∷ column_of (codes "name") (SqlType.Varchar 20) false ∷ column_of (codes "stock") SqlType.Int false ∷ []); primary = Some (codes "id" ∷ []); uniques = (key_of (codes "n") (codes "name" ∷ []) ∷ []) })) ≡ codes "CREATE TABLE `item` (`id` INT NOT NULL AUTO_INCREMENT, `name` VARCHAR(20) NOT NULL, `stock` INT NOT NULL, PRIMARY KEY (`id`), UNIQUE KEY `n` (`name`))" }
    ensures options { spelling (create_table (record { name = codes "t"; columns = (record { name = codes "a"; kind = SqlType.BigInt; nullable = true; preset = Some (Int (neg_ℤ (pos 5))); auto_increment = false } ∷ record { name = codes "b"; kind = SqlType.Varchar 3; nullable = true; preset = Some Null; auto_increment = false } ∷ record { name = codes "c"; kind = SqlType.Int; nullable = false; preset = Some (Text (codes "x")); auto_increment = true } ∷ record { name = codes "d"; kind = SqlType.Int; nullable = true; preset = None; auto_increment = false } ∷ []); primary = None; uniques = ([]) })) ≡ codes "CREATE TABLE `t` (`a` BIGINT NULL DEFAULT -5, `b` VARCHAR(3) NULL DEFAULT NULL, `c` INT NOT NULL DEFAULT 'x' AUTO_INCREMENT, `d` INT NULL)" }
    ensures keys { map spelling (create_table (record { name = codes "t"; columns = (column_of (codes "a") SqlType.Int false ∷ []); primary = Some (codes "a" ∷ codes "b" ∷ []); uniques = (key_of (codes "k") (codes "a" ∷ codes "b" ∷ []) ∷ key_of (codes "b") (codes "b" ∷ []) ∷ []) }) ∷ create_table (record { name = codes "t"; columns = ([]); primary = Some (codes "a" ∷ []); uniques = ([]) }) ∷ create_table (record { name = codes "t"; columns = ([]); primary = None; uniques = (key_of (codes "k") (codes "a" ∷ []) ∷ []) }) ∷ []) ≡ codes "CREATE TABLE `t` (`a` INT NOT NULL, PRIMARY KEY (`a`, `b`), UNIQUE KEY `k` (`a`, `b`), UNIQUE KEY `b` (`b`))" ∷ codes "CREATE TABLE `t` (PRIMARY KEY (`a`))" ∷ codes "CREATE TABLE `t` (UNIQUE KEY `k` (`a`))" ∷ [] }
{}

/// INSERT, REPLACE, UPDATE and DELETE.
pub fn changes_are_written()
    ensures inserts { map spelling (insert_into false (codes "n") None (rows (trees_of (literal (Int (pos 1)) ∷ literal (Int (pos 7)) ∷ name_const (codes "b") (Text (0 ∷ 0x27 ∷ [])) ∷ []) ∷ [])) [] ∷ insert_into true (codes "t") (Some (codes "a" ∷ codes "b" ∷ [])) (rows (trees_of (one ∷ two ∷ []) ∷ trees_of (name (codes "a") ∷ one ∷ []) ∷ trees_of (two ∷ []) ∷ [])) ((codes "b", values_of (codes "b")) ∷ (codes "a", two) ∷ []) ∷ insert_into false (codes "t") None (rows_of (only one)) (set_a one) ∷ []) ≡ codes "INSERT INTO `n` VALUES (1, 7, NAME_CONST('b', X'0027'))" ∷ codes "INSERT IGNORE INTO `t` (`a`, `b`) VALUES (1, (- 1)), (`a`, 1), ((- 1)) ON DUPLICATE KEY UPDATE `b` = VALUES(`b`), `a` = (- 1)" ∷ codes "INSERT INTO `t` SELECT 1 ON DUPLICATE KEY UPDATE `a` = 1" ∷ [] }
    ensures replaces { map spelling (replace_into (codes "t") (Some (codes "a" ∷ [])) (rows (trees_of (one ∷ []) ∷ [])) ∷ replace_into (codes "t") None (rows_of (query all_columns all_of_t)) ∷ []) ≡ codes "REPLACE INTO `t` (`a`) VALUES (1)" ∷ codes "REPLACE INTO `t` SELECT * FROM `t`" ∷ [] }
    ensures updates { map spelling (update_rows (codes "n") ((codes "v", binary ops.Add (name_const (codes "v") (Int (neg_ℤ (pos 5)))) one) ∷ []) (part (binary ops.Equal (name (codes "id")) one)) no_order None ∷ update_rows (codes "t") ((codes "b", one) ∷ (codes "a", two) ∷ []) no_part (orders_of ((name (codes "a"), true) ∷ (one, false) ∷ [])) (Some (Number 3)) ∷ []) ≡ codes "UPDATE `n` SET `v` = (NAME_CONST('v', -5) + 1) WHERE (`id` = 1)" ∷ codes "UPDATE `t` SET `b` = 1, `a` = (- 1) ORDER BY `a` DESC, 1 LIMIT 3" ∷ [] }
    ensures deletes { map spelling (delete_rows (codes "t") no_part no_order None ∷ delete_rows (codes "t") (part (name (codes "a"))) (by one) (Some (Name (codes "n"))) ∷ []) ≡ codes "DELETE FROM `t`" ∷ codes "DELETE FROM `t` WHERE `a` ORDER BY 1 LIMIT `n`" ∷ [] }
{}

/// SET, DO, CALL, SELECT, transactions and what is dropped.
pub fn sessions_are_written()
    ensures sets { spelling (set_all ((Target.User (codes "x"), one) ∷ (Target.Plain (codes "y"), two) ∷ (Target.System (codes "auto_increment_offset"), one) ∷ (Target.System (codes "set"), one) ∷ (Target.New (codes "c"), name (codes "a")) ∷ [])) ≡ codes "SET @`x` = 1, `y` = (- 1), @@auto_increment_offset = 1, @@`set` = 1, NEW.`c` = `a`" }
    ensures evaluates { map spelling (evaluate (trees_of (one ∷ two ∷ [])) ∷ call_procedure (codes "p") no_tree ∷ call_procedure (codes "p") (trees_of (one ∷ two ∷ [])) ∷ select (only one) ∷ []) ≡ codes "DO 1, (- 1)" ∷ codes "CALL `p`()" ∷ codes "CALL `p`(1, (- 1))" ∷ codes "SELECT 1" ∷ [] }
    ensures transactions { map spelling (begin ∷ commit ∷ rollback ∷ savepoint (codes "s") ∷ rollback_to (codes "s") ∷ release_savepoint (codes "s") ∷ []) ≡ codes "BEGIN" ∷ codes "COMMIT" ∷ codes "ROLLBACK" ∷ codes "SAVEPOINT `s`" ∷ codes "ROLLBACK TO `s`" ∷ codes "RELEASE SAVEPOINT `s`" ∷ [] }
    ensures drops { map spelling (drop_table (codes "t") ∷ drop_function (codes "f") ∷ drop_procedure (codes "p") ∷ drop_trigger (codes "g") ∷ truncate (codes "t") ∷ []) ≡ codes "DROP TABLE `t`" ∷ codes "DROP FUNCTION `f`" ∷ codes "DROP PROCEDURE `p`" ∷ codes "DROP TRIGGER `g`" ∷ codes "TRUNCATE `t`" ∷ [] }
{}

/// Stored programs and triggers. Each DECLARE and each step is closed by a semicolon and a space.
pub fn programs_are_written()
    ensures functions { map spelling (create_function (program (codes "left_of") (parameter_of (codes "i") SqlType.Int ∷ []) (Some SqlType.Int) (return_value (subquery (query (items (trees_of (name (codes "stock") ∷ []))) (from_table (codes "item") (part (binary ops.Equal (name (codes "id")) (name (codes "i")))) no_order None))))) ∷ create_function (program (codes "f") [] (Some (SqlType.Varchar 5)) (return_value two)) ∷ []) ≡ codes "CREATE FUNCTION `left_of`(`i` INT) RETURNS INT RETURN (SELECT `stock` FROM `item` WHERE (`id` = `i`))" ∷ codes "CREATE FUNCTION `f`() RETURNS VARCHAR(5) RETURN (- 1)" ∷ [] }
    ensures procedures { map spelling (create_procedure (program (codes "buy") (parameter_of (codes "i") SqlType.Int ∷ parameter_of (codes "q") SqlType.BigInt ∷ []) None (block [] (statements_of (if_steps (branches_of ((binary ops.GreaterOrEqual (call (codes "left_of") (trees_of (name (codes "i") ∷ []))) (name (codes "q")), statements_of (insert_into false (codes "orders") (Some (codes "item" ∷ codes "qty" ∷ codes "at" ∷ [])) (rows (trees_of (name (codes "i") ∷ name (codes "q") ∷ on_none Func0.Now ∷ []) ∷ [])) [] ∷ [])) ∷ [])) no_else ∷ [])))) ∷ create_procedure (program (codes "p") [] None (block [] no_statement)) ∷ []) ≡ codes "CREATE PROCEDURE `buy`(`i` INT, `q` BIGINT) BEGIN IF (`left_of`(`i`) >= `q`) THEN INSERT INTO `orders` (`item`, `qty`, `at`) VALUES (`i`, `q`, NOW()); END IF; END" ∷ codes "CREATE PROCEDURE `p`() BEGIN END" ∷ [] }
    ensures triggers { map spelling (create_trigger (trigger (codes "o_bi") Time.Before Cause.Insert (codes "orders") (update_rows (codes "item") ((codes "stock", binary ops.Subtract (name (codes "stock")) (new_column (codes "qty"))) ∷ []) (part (binary ops.Equal (name (codes "id")) (new_column (codes "item")))) no_order None)) ∷ create_trigger (trigger (codes "g") Time.After Cause.Update (codes "t") (set_all (assigned (Target.User (codes "x")) (old_column (codes "a"))))) ∷ create_trigger (trigger (codes "h") Time.After Cause.Delete (codes "t") (block [] no_statement)) ∷ []) ≡ codes "CREATE TRIGGER `o_bi` BEFORE INSERT ON `orders` FOR EACH ROW UPDATE `item` SET `stock` = (`stock` - NEW.`qty`) WHERE (`id` = NEW.`item`)" ∷ codes "CREATE TRIGGER `g` AFTER UPDATE ON `t` FOR EACH ROW SET @`x` = OLD.`a`" ∷ codes "CREATE TRIGGER `h` AFTER DELETE ON `t` FOR EACH ROW BEGIN END" ∷ [] }
    ensures blocks { spelling (block (record { names = codes "a" ∷ codes "b" ∷ []; kind = SqlType.Varchar 5; preset = part two } ∷ record { names = codes "c" ∷ []; kind = SqlType.BigInt; preset = no_part } ∷ []) (statements_of (commit ∷ block [] no_statement ∷ []))) ≡ codes "BEGIN DECLARE `a`, `b` VARCHAR(5) DEFAULT (- 1); DECLARE `c` BIGINT; COMMIT; BEGIN END; END" }
    ensures branches { map spelling (if_steps (branches_of ((one, statements_of (commit ∷ [])) ∷ (two, statements_of (commit ∷ rollback ∷ [])) ∷ (name (codes "a"), statements_of (rollback ∷ [])) ∷ [])) (else_steps (statements_of (commit ∷ rollback ∷ []))) ∷ if_steps (branches_of ((one, statements_of (commit ∷ [])) ∷ [])) no_else ∷ []) ≡ codes "IF 1 THEN COMMIT; ELSEIF (- 1) THEN COMMIT; ROLLBACK; ELSEIF `a` THEN ROLLBACK; ELSE COMMIT; ROLLBACK; END IF" ∷ codes "IF 1 THEN COMMIT; END IF" ∷ [] }
    ensures loops { spelling (while_steps two (statements_of (commit ∷ return_value one ∷ []))) ≡ codes "WHILE (- 1) DO COMMIT; RETURN 1; END WHILE" }
{}
