//! Worked texts, as lists of tokens.
ghost use Rattle.sql_grammar.specs.Reader.{Deep, Syntax};
ghost use Rattle.sql_grammar.specs.Whole.{read_whole};
ghost use Rattle.sql_lex.specs.Plain.{least};
ghost use Rattle.sql_lex.specs.declared.keyword.Keyword.TheVariants as words;
ghost use Rattle.sql_lex.specs.declared.token.Symbol.TheVariants as signs;
ghost use Rattle.sql_syntax.specs.Statements.{statement};
ghost use Rattle.sql_syntax.specs.Texts.{limit_deep, limit_open};
ghost use Rattle.sql_syntax.specs.Tokens.{broken_minus, least_digits, tight_minus};
ghost use Rattle.sql_syntax.specs.Written.{closes, fw, kw, nm, num, opens, sg, statement_first, txt};
ghost use Rattle.sql_tree.specs.Statement.{begin, block, branch, call_procedure, commit, create_function, create_procedure, create_table, create_trigger, delete_rows, drop_function, drop_procedure, drop_table, drop_trigger, else_steps, evaluate, if_steps, insert_into, no_branch, no_statement, program, release_savepoint, replace_into, return_value, rollback, rollback_to, rows, rows_of, savepoint, select, set_all, trigger, truncate, update_rows, while_steps};
ghost use Rattle.sql_tree.specs.BuiltIns.{on_none, on_one, on_two, on_three, on_many};
ghost use Rattle.sql_tree.specs.Tree.{aggregate, aggregates, all_columns, arm, binary, call, choice, column, count_all, exists, floor_rand, from_table, is_in, items, literal, name, name_const, new_column, no_aggregate, no_arm, no_order, no_origin, no_part, no_tree, old_column, order_by, part, query, subquery, system_variable, tree, unary, user_variable, values_of};
ghost use Rattle.sql_tree.specs.declared.expressions.Count.TheVariants as counts;
ghost use Rattle.sql_tree.specs.declared.statements.Cause.{Cause};
ghost use Rattle.sql_tree.specs.declared.statements.SqlType.{SqlType};
ghost use Rattle.sql_tree.specs.declared.statements.Target.{Target};
ghost use Rattle.sql_tree.specs.declared.statements.Time.{Time};
ghost use Rattle.std.specs.Prelude.{◌≡◌, [], ◌∷◌, true, false, pos, neg_ℤ, codes, Some, None, Ok, Err};
ghost use Rattle.val_types.specs.declared.ops.Agg.TheVariants as aggs;
ghost use Rattle.val_types.specs.declared.ops.BinOp.TheVariants as ops;
ghost use Rattle.val_types.specs.declared.ops.UnOp.TheVariants.{IsNotNull, Negate, Not};
ghost use Rattle.val_types.specs.declared.ops.Func.{Func};
ghost use Rattle.val_types.specs.declared.ops.Func0.{Func0};
ghost use Rattle.val_types.specs.declared.ops.Func1.{Func1};
ghost use Rattle.val_types.specs.declared.ops.Func2.{Func2};
ghost use Rattle.val_types.specs.declared.ops.Func3.{Func3};
ghost use Rattle.val_types.specs.declared.ops.FuncN.{FuncN};
ghost use Rattle.val_types.specs.declared.value.Value.TheVariants.{Int, Null, Text};

/// Worked expressions, each in a SELECT, and the trees that they are.
///
/// - sums: `SELECT 1 + 2 * 3 - 4`
/// - tight: `SELECT -5`
/// - loose: `SELECT - 5`
/// - least: `SELECT -9223372036854775808`
/// - subtracts: `SELECT 3 -5`
/// - tests: `SELECT NOT a IS NOT NULL OR b NOT IN (1, 2) AND c`
/// - left: `SELECT a = b <=> c MOD 2`
/// - cases: `SELECT CASE WHEN a THEN 1 WHEN b THEN 2 ELSE 3 END, IF(a, 1, 2)`
/// - names: `SELECT f(1), g(), t.c, NEW.c, OLD.c, @v, @@SESSION.x, @@session, VALUES(c), new, abs`
/// - literals: `SELECT NULL, 'x', 7`
/// - built: `SELECT IFNULL(a, 1), SUBSTRING(a, 1, 2), COALESCE(a), CONCAT(a, b), ABS(a), LENGTH(a)`
/// - without: `SELECT NOW(), UNIX_TIMESTAMP(), SYSDATE(), USER(), UUID(), CONNECTION_ID(), LAST_INSERT_ID(), ROW_COUNT()`
/// - special: `SELECT NAME_CONST('v', -5), FLOOR(RAND() * -a)`
/// - inner: `SELECT EXISTS (SELECT * FROM t), (SELECT COUNT(*) FROM t), (SELECT a)`
pub fn expressions_are_read()
    ensures sums { read_whole (statement 3) (kw words.Select ∷ num 1 ∷ sg signs.Plus ∷ num 2 ∷ sg signs.Star ∷ num 3 ∷ sg signs.Minus ∷ num 4 ∷ []) ≡ Ok (select (query (items (tree (binary ops.Subtract (binary ops.Add (literal (Int (pos 1))) (binary ops.Multiply (literal (Int (pos 2))) (literal (Int (pos 3))))) (literal (Int (pos 4)))) no_tree)) no_origin)) }
    ensures tight { read_whole (statement 0) (kw words.Select ∷ tight_minus ∷ num 5 ∷ []) ≡ Ok (select (query (items (tree (literal (Int (neg_ℤ (pos 5)))) no_tree)) no_origin)) }
    ensures loose { read_whole (statement 3) (kw words.Select ∷ sg signs.Minus ∷ num 5 ∷ []) ≡ Ok (select (query (items (tree (unary Negate (literal (Int (pos 5)))) no_tree)) no_origin)) }
    ensures least { read_whole (statement 0) (kw words.Select ∷ tight_minus ∷ least_digits ∷ []) ≡ Ok (select (query (items (tree (literal (Int (neg_ℤ (pos 9223372036854775808)))) no_tree)) no_origin)) }
    ensures subtracts { read_whole (statement 0) (kw words.Select ∷ num 3 ∷ tight_minus ∷ num 5 ∷ []) ≡ Ok (select (query (items (tree (binary ops.Subtract (literal (Int (pos 3))) (literal (Int (pos 5)))) no_tree)) no_origin)) }
    ensures tests { read_whole (statement 3) (kw words.Select ∷ kw words.Not ∷ nm (codes "a") ∷ kw words.Is ∷ kw words.Not ∷ kw words.Null ∷ kw words.Or ∷ nm (codes "b") ∷ kw words.Not ∷ kw words.In ∷ sg signs.Open ∷ num 1 ∷ sg signs.Comma ∷ num 2 ∷ sg signs.Close ∷ kw words.And ∷ nm (codes "c") ∷ []) ≡ Ok (select (query (items (tree (binary ops.Or (unary Not (unary IsNotNull (name (codes "a")))) (binary ops.And (is_in true (name (codes "b")) (tree (literal (Int (pos 1))) (tree (literal (Int (pos 2))) no_tree))) (name (codes "c")))) no_tree)) no_origin)) }
    ensures left { read_whole (statement 3) (kw words.Select ∷ nm (codes "a") ∷ sg signs.Equal ∷ nm (codes "b") ∷ sg signs.NullSafeEqual ∷ nm (codes "c") ∷ kw words.Mod ∷ num 2 ∷ []) ≡ Ok (select (query (items (tree (binary ops.NullSafeEqual (binary ops.Equal (name (codes "a")) (name (codes "b"))) (binary ops.Modulo (name (codes "c")) (literal (Int (pos 2))))) no_tree)) no_origin)) }
    ensures cases { read_whole (statement 3) (kw words.Select ∷ kw words.Case ∷ kw words.When ∷ nm (codes "a") ∷ kw words.Then ∷ num 1 ∷ kw words.When ∷ nm (codes "b") ∷ kw words.Then ∷ num 2 ∷ kw words.Else ∷ num 3 ∷ kw words.End ∷ sg signs.Comma ∷ kw words.If ∷ sg signs.Open ∷ nm (codes "a") ∷ sg signs.Comma ∷ num 1 ∷ sg signs.Comma ∷ num 2 ∷ sg signs.Close ∷ []) ≡ Ok (select (query (items (tree (choice (arm (name (codes "a")) (literal (Int (pos 1))) (arm (name (codes "b")) (literal (Int (pos 2))) no_arm)) (part (literal (Int (pos 3))))) (tree (on_three Func3.If (name (codes "a")) (literal (Int (pos 1))) (literal (Int (pos 2)))) no_tree))) no_origin)) }
    ensures names { read_whole (statement 3) (kw words.Select ∷ nm (codes "f") ∷ sg signs.Open ∷ num 1 ∷ sg signs.Close ∷ sg signs.Comma ∷ nm (codes "g") ∷ sg signs.Open ∷ sg signs.Close ∷ sg signs.Comma ∷ nm (codes "t") ∷ sg signs.Dot ∷ nm (codes "c") ∷ sg signs.Comma ∷ kw words.New ∷ sg signs.Dot ∷ nm (codes "c") ∷ sg signs.Comma ∷ kw words.Old ∷ sg signs.Dot ∷ nm (codes "c") ∷ sg signs.Comma ∷ sg signs.At ∷ nm (codes "v") ∷ sg signs.Comma ∷ sg signs.AtAt ∷ kw words.Session ∷ sg signs.Dot ∷ nm (codes "x") ∷ sg signs.Comma ∷ sg signs.AtAt ∷ kw words.Session ∷ sg signs.Comma ∷ kw words.Values ∷ sg signs.Open ∷ nm (codes "c") ∷ sg signs.Close ∷ sg signs.Comma ∷ kw words.New ∷ sg signs.Comma ∷ fw (Func.One Func1.Abs) ∷ []) ≡ Ok (select (query (items (tree (call (codes "f") (tree (literal (Int (pos 1))) no_tree)) (tree (call (codes "g") no_tree) (tree (column (codes "t") (codes "c")) (tree (new_column (codes "c")) (tree (old_column (codes "c")) (tree (user_variable (codes "v")) (tree (system_variable (codes "x")) (tree (system_variable (codes "session")) (tree (values_of (codes "c")) (tree (name (codes "new")) (tree (name (codes "abs")) no_tree)))))))))))) no_origin)) }
    ensures literals { read_whole (statement 3) (kw words.Select ∷ kw words.Null ∷ sg signs.Comma ∷ txt (codes "x") ∷ sg signs.Comma ∷ num 7 ∷ []) ≡ Ok (select (query (items (tree (literal Null) (tree (literal (Text (codes "x"))) (tree (literal (Int (pos 7))) no_tree)))) no_origin)) }
    ensures built { read_whole (statement 3) (kw words.Select ∷ fw (Func.Two Func2.IfNull) ∷ sg signs.Open ∷ nm (codes "a") ∷ sg signs.Comma ∷ num 1 ∷ sg signs.Close ∷ sg signs.Comma ∷ fw (Func.Three Func3.Substring) ∷ sg signs.Open ∷ nm (codes "a") ∷ sg signs.Comma ∷ num 1 ∷ sg signs.Comma ∷ num 2 ∷ sg signs.Close ∷ sg signs.Comma ∷ fw (Func.Many FuncN.Coalesce) ∷ sg signs.Open ∷ nm (codes "a") ∷ sg signs.Close ∷ sg signs.Comma ∷ fw (Func.Many FuncN.Concat) ∷ sg signs.Open ∷ nm (codes "a") ∷ sg signs.Comma ∷ nm (codes "b") ∷ sg signs.Close ∷ sg signs.Comma ∷ fw (Func.One Func1.Abs) ∷ sg signs.Open ∷ nm (codes "a") ∷ sg signs.Close ∷ sg signs.Comma ∷ fw (Func.One Func1.Length) ∷ sg signs.Open ∷ nm (codes "a") ∷ sg signs.Close ∷ []) ≡ Ok (select (query (items (tree (on_two Func2.IfNull (name (codes "a")) (literal (Int (pos 1)))) (tree (on_three Func3.Substring (name (codes "a")) (literal (Int (pos 1))) (literal (Int (pos 2)))) (tree (on_many FuncN.Coalesce (tree (name (codes "a")) no_tree)) (tree (on_many FuncN.Concat (tree (name (codes "a")) (tree (name (codes "b")) no_tree))) (tree (on_one Func1.Abs (name (codes "a"))) (tree (on_one Func1.Length (name (codes "a"))) no_tree))))))) no_origin)) }
    ensures without { read_whole (statement 3) (kw words.Select ∷ fw (Func.Zero Func0.Now) ∷ sg signs.Open ∷ sg signs.Close ∷ sg signs.Comma ∷ fw (Func.Zero Func0.UnixTimestamp) ∷ sg signs.Open ∷ sg signs.Close ∷ sg signs.Comma ∷ fw (Func.Zero Func0.SysDate) ∷ sg signs.Open ∷ sg signs.Close ∷ sg signs.Comma ∷ fw (Func.Zero Func0.User) ∷ sg signs.Open ∷ sg signs.Close ∷ sg signs.Comma ∷ fw (Func.Zero Func0.Uuid) ∷ sg signs.Open ∷ sg signs.Close ∷ sg signs.Comma ∷ fw (Func.Zero Func0.ConnectionId) ∷ sg signs.Open ∷ sg signs.Close ∷ sg signs.Comma ∷ fw (Func.Zero Func0.LastInsertId) ∷ sg signs.Open ∷ sg signs.Close ∷ sg signs.Comma ∷ fw (Func.Zero Func0.RowCount) ∷ sg signs.Open ∷ sg signs.Close ∷ []) ≡ Ok (select (query (items (tree (on_none Func0.Now) (tree (on_none Func0.UnixTimestamp) (tree (on_none Func0.SysDate) (tree (on_none Func0.User) (tree (on_none Func0.Uuid) (tree (on_none Func0.ConnectionId) (tree (on_none Func0.LastInsertId) (tree (on_none Func0.RowCount) no_tree))))))))) no_origin)) }
    ensures special { read_whole (statement 3) (kw words.Select ∷ kw words.NameConst ∷ sg signs.Open ∷ txt (codes "v") ∷ sg signs.Comma ∷ tight_minus ∷ num 5 ∷ sg signs.Close ∷ sg signs.Comma ∷ kw words.Floor ∷ sg signs.Open ∷ kw words.Rand ∷ sg signs.Open ∷ sg signs.Close ∷ sg signs.Star ∷ sg signs.Minus ∷ nm (codes "a") ∷ sg signs.Close ∷ []) ≡ Ok (select (query (items (tree (name_const (codes "v") (Int (neg_ℤ (pos 5)))) (tree (floor_rand (unary Negate (name (codes "a")))) no_tree))) no_origin)) }
    ensures inner { read_whole (statement 3) (kw words.Select ∷ kw words.Exists ∷ sg signs.Open ∷ kw words.Select ∷ sg signs.Star ∷ kw words.From ∷ nm (codes "t") ∷ sg signs.Close ∷ sg signs.Comma ∷ sg signs.Open ∷ kw words.Select ∷ kw words.Count ∷ sg signs.Open ∷ sg signs.Star ∷ sg signs.Close ∷ kw words.From ∷ nm (codes "t") ∷ sg signs.Close ∷ sg signs.Comma ∷ sg signs.Open ∷ kw words.Select ∷ nm (codes "a") ∷ sg signs.Close ∷ []) ≡ Ok (select (query (items (tree (exists (query all_columns (from_table (codes "t") no_part no_order None))) (tree (subquery (query (aggregates (count_all no_aggregate)) (from_table (codes "t") no_part no_order None))) (tree (subquery (query (items (tree (name (codes "a")) no_tree)) no_origin)) no_tree)))) no_origin)) }
{}

/// Worked SELECTs.
///
/// - totals: `SELECT COUNT(*), SUM(a), COUNT(b) FROM t WHERE a = 1`
/// - all: `SELECT * FROM t WHERE a ORDER BY b DESC, c ASC LIMIT 2, n`
/// - columns: `SELECT count, abs FROM t LIMIT 3 OFFSET 4`
/// - shown: `SELECT max.min FROM t LIMIT 1`
pub fn selects_are_read()
    ensures totals { read_whole (statement 3) (kw words.Select ∷ kw words.Count ∷ sg signs.Open ∷ sg signs.Star ∷ sg signs.Close ∷ sg signs.Comma ∷ kw words.Sum ∷ sg signs.Open ∷ nm (codes "a") ∷ sg signs.Close ∷ sg signs.Comma ∷ kw words.Count ∷ sg signs.Open ∷ nm (codes "b") ∷ sg signs.Close ∷ kw words.From ∷ nm (codes "t") ∷ kw words.Where ∷ nm (codes "a") ∷ sg signs.Equal ∷ num 1 ∷ []) ≡ Ok (select (query (aggregates (count_all (aggregate aggs.Sum (name (codes "a")) (aggregate aggs.Count (name (codes "b")) no_aggregate)))) (from_table (codes "t") (part (binary ops.Equal (name (codes "a")) (literal (Int (pos 1))))) no_order None))) }
    ensures all { read_whole (statement 3) (kw words.Select ∷ sg signs.Star ∷ kw words.From ∷ nm (codes "t") ∷ kw words.Where ∷ nm (codes "a") ∷ kw words.Order ∷ kw words.By ∷ nm (codes "b") ∷ kw words.Desc ∷ sg signs.Comma ∷ nm (codes "c") ∷ kw words.Asc ∷ kw words.Limit ∷ num 2 ∷ sg signs.Comma ∷ nm (codes "n") ∷ []) ≡ Ok (select (query all_columns (from_table (codes "t") (part (name (codes "a"))) (order_by (name (codes "b")) true (order_by (name (codes "c")) false no_order)) (Some (record { count = counts.Name (codes "n"); offset = Some (counts.Number 2) }))))) }
    ensures columns { read_whole (statement 3) (kw words.Select ∷ kw words.Count ∷ sg signs.Comma ∷ fw (Func.One Func1.Abs) ∷ kw words.From ∷ nm (codes "t") ∷ kw words.Limit ∷ num 3 ∷ kw words.Offset ∷ num 4 ∷ []) ≡ Ok (select (query (items (tree (name (codes "count")) (tree (name (codes "abs")) no_tree))) (from_table (codes "t") no_part no_order (Some (record { count = counts.Number 3; offset = Some (counts.Number 4) }))))) }
    ensures shown { read_whole (statement 3) (kw words.Select ∷ kw words.Max ∷ sg signs.Dot ∷ kw words.Min ∷ kw words.From ∷ nm (codes "t") ∷ kw words.Limit ∷ num 1 ∷ []) ≡ Ok (select (query (items (tree (column (codes "max") (codes "min")) no_tree)) (from_table (codes "t") no_part no_order (Some (record { count = counts.Number 1; offset = None }))))) }
{}

/// Worked statements that change rows.
///
/// - inserts: `INSERT IGNORE INTO t (a, b) VALUES (1, 2), (3, 4) ON DUPLICATE KEY UPDATE a = VALUES(a), b = 5`
/// - copies: `INSERT t SELECT a FROM u ON DUPLICATE KEY UPDATE a = 1`
/// - replaces: `REPLACE INTO value VALUE (1)`
/// - updates: `UPDATE t SET a = 1, b = 2 WHERE c ORDER BY d LIMIT 3`
/// - deletes: `DELETE FROM t WHERE a LIMIT n`
pub fn changes_are_read()
    ensures inserts { read_whole (statement 3) (kw words.Insert ∷ kw words.Ignore ∷ kw words.Into ∷ nm (codes "t") ∷ sg signs.Open ∷ nm (codes "a") ∷ sg signs.Comma ∷ nm (codes "b") ∷ sg signs.Close ∷ kw words.Values ∷ sg signs.Open ∷ num 1 ∷ sg signs.Comma ∷ num 2 ∷ sg signs.Close ∷ sg signs.Comma ∷ sg signs.Open ∷ num 3 ∷ sg signs.Comma ∷ num 4 ∷ sg signs.Close ∷ kw words.On ∷ kw words.Duplicate ∷ kw words.Key ∷ kw words.Update ∷ nm (codes "a") ∷ sg signs.Equal ∷ kw words.Values ∷ sg signs.Open ∷ nm (codes "a") ∷ sg signs.Close ∷ sg signs.Comma ∷ nm (codes "b") ∷ sg signs.Equal ∷ num 5 ∷ []) ≡ Ok (insert_into true (codes "t") (Some (codes "a" ∷ codes "b" ∷ [])) (rows (tree (literal (Int (pos 1))) (tree (literal (Int (pos 2))) no_tree) ∷ tree (literal (Int (pos 3))) (tree (literal (Int (pos 4))) no_tree) ∷ [])) ((codes "a", values_of (codes "a")) ∷ (codes "b", literal (Int (pos 5))) ∷ [])) }
    ensures copies { read_whole (statement 3) (kw words.Insert ∷ nm (codes "t") ∷ kw words.Select ∷ nm (codes "a") ∷ kw words.From ∷ nm (codes "u") ∷ kw words.On ∷ kw words.Duplicate ∷ kw words.Key ∷ kw words.Update ∷ nm (codes "a") ∷ sg signs.Equal ∷ num 1 ∷ []) ≡ Ok (insert_into false (codes "t") None (rows_of (query (items (tree (name (codes "a")) no_tree)) (from_table (codes "u") no_part no_order None))) ((codes "a", literal (Int (pos 1))) ∷ [])) }
    ensures replaces { read_whole (statement 3) (kw words.Replace ∷ kw words.Into ∷ kw words.Value ∷ kw words.Value ∷ sg signs.Open ∷ num 1 ∷ sg signs.Close ∷ []) ≡ Ok (replace_into (codes "value") None (rows (tree (literal (Int (pos 1))) no_tree ∷ []))) }
    ensures updates { read_whole (statement 3) (kw words.Update ∷ nm (codes "t") ∷ kw words.Set ∷ nm (codes "a") ∷ sg signs.Equal ∷ num 1 ∷ sg signs.Comma ∷ nm (codes "b") ∷ sg signs.Equal ∷ num 2 ∷ kw words.Where ∷ nm (codes "c") ∷ kw words.Order ∷ kw words.By ∷ nm (codes "d") ∷ kw words.Limit ∷ num 3 ∷ []) ≡ Ok (update_rows (codes "t") ((codes "a", literal (Int (pos 1))) ∷ (codes "b", literal (Int (pos 2))) ∷ []) (part (name (codes "c"))) (order_by (name (codes "d")) false no_order) (Some (counts.Number 3))) }
    ensures deletes { read_whole (statement 3) (kw words.Delete ∷ kw words.From ∷ nm (codes "t") ∷ kw words.Where ∷ nm (codes "a") ∷ kw words.Limit ∷ nm (codes "n") ∷ []) ≡ Ok (delete_rows (codes "t") (part (name (codes "a"))) no_order (Some (counts.Name (codes "n")))) }
{}

/// Worked statements of sessions.
///
/// - does: `DO 1, 2`
/// - sets: `SET @a = 1, b := 2, @@c = 3, @@SESSION.d = 4, SESSION e = 5, SESSION = 6, NEW.f = 7, new = 8`
/// - formats: `SET @@SESSION.binlog_format = ROW`
/// - mixed, statement: `SET binlog_format := MIXED`, `SET SESSION binlog_format = STATEMENT`
/// - grouped: `SET binlog_format = (ROW)`
/// - longer: `SET binlog_format = ROW + 1`
/// - others: `SET a = ROW`
/// - calls: `CALL p`
/// - calls_none: `CALL p()`
/// - calls_some: `CALL p(1, 2)`
/// - begins: `BEGIN WORK`
/// - starts: `START TRANSACTION`
/// - commits: `COMMIT`
/// - rolls: `ROLLBACK`
/// - rolls_to: `ROLLBACK TO s`
/// - rolls_point: `ROLLBACK TO SAVEPOINT`
/// - rolls_named: `ROLLBACK TO SAVEPOINT savepoint`
/// - saves: `SAVEPOINT s`
/// - releases: `RELEASE SAVEPOINT s`
/// - drops: `DROP TABLE t`
/// - drops_function: `DROP FUNCTION f`
/// - drops_procedure: `DROP PROCEDURE p`
/// - drops_trigger: `DROP TRIGGER g`
/// - truncates: `TRUNCATE t`
/// - truncates_table: `TRUNCATE TABLE t`
pub fn sessions_are_read()
    ensures does { read_whole (statement 3) (kw words.Do ∷ num 1 ∷ sg signs.Comma ∷ num 2 ∷ []) ≡ Ok (evaluate (tree (literal (Int (pos 1))) (tree (literal (Int (pos 2))) no_tree))) }
    ensures sets { read_whole (statement 3) (kw words.Set ∷ sg signs.At ∷ nm (codes "a") ∷ sg signs.Equal ∷ num 1 ∷ sg signs.Comma ∷ nm (codes "b") ∷ sg signs.Assign ∷ num 2 ∷ sg signs.Comma ∷ sg signs.AtAt ∷ nm (codes "c") ∷ sg signs.Equal ∷ num 3 ∷ sg signs.Comma ∷ sg signs.AtAt ∷ kw words.Session ∷ sg signs.Dot ∷ nm (codes "d") ∷ sg signs.Equal ∷ num 4 ∷ sg signs.Comma ∷ kw words.Session ∷ nm (codes "e") ∷ sg signs.Equal ∷ num 5 ∷ sg signs.Comma ∷ kw words.Session ∷ sg signs.Equal ∷ num 6 ∷ sg signs.Comma ∷ kw words.New ∷ sg signs.Dot ∷ nm (codes "f") ∷ sg signs.Equal ∷ num 7 ∷ sg signs.Comma ∷ kw words.New ∷ sg signs.Equal ∷ num 8 ∷ []) ≡ Ok (set_all ((Target.User (codes "a"), literal (Int (pos 1))) ∷ (Target.Plain (codes "b"), literal (Int (pos 2))) ∷ (Target.System (codes "c"), literal (Int (pos 3))) ∷ (Target.System (codes "d"), literal (Int (pos 4))) ∷ (Target.Plain (codes "e"), literal (Int (pos 5))) ∷ (Target.Plain (codes "session"), literal (Int (pos 6))) ∷ (Target.New (codes "f"), literal (Int (pos 7))) ∷ (Target.Plain (codes "new"), literal (Int (pos 8))) ∷ [])) }
    ensures formats { read_whole (statement 3) (kw words.Set ∷ sg signs.AtAt ∷ kw words.Session ∷ sg signs.Dot ∷ nm (codes "binlog_format") ∷ sg signs.Equal ∷ kw words.Row ∷ []) ≡ Ok (set_all ((Target.System (codes "binlog_format"), literal (Text (codes "ROW"))) ∷ [])) }
    ensures mixed { read_whole (statement 3) (kw words.Set ∷ nm (codes "binlog_format") ∷ sg signs.Assign ∷ kw words.Mixed ∷ []) ≡ Ok (set_all ((Target.Plain (codes "binlog_format"), literal (Text (codes "MIXED"))) ∷ [])) }
    ensures statement { read_whole (statement 3) (kw words.Set ∷ kw words.Session ∷ nm (codes "binlog_format") ∷ sg signs.Equal ∷ kw words.Statement ∷ []) ≡ Ok (set_all ((Target.Plain (codes "binlog_format"), literal (Text (codes "STATEMENT"))) ∷ [])) }
    ensures grouped { read_whole (statement 3) (kw words.Set ∷ nm (codes "binlog_format") ∷ sg signs.Equal ∷ sg signs.Open ∷ kw words.Row ∷ sg signs.Close ∷ []) ≡ Ok (set_all ((Target.Plain (codes "binlog_format"), name (codes "row")) ∷ [])) }
    ensures longer { read_whole (statement 3) (kw words.Set ∷ nm (codes "binlog_format") ∷ sg signs.Equal ∷ kw words.Row ∷ sg signs.Plus ∷ num 1 ∷ []) ≡ Ok (set_all ((Target.Plain (codes "binlog_format"), binary ops.Add (name (codes "row")) (literal (Int (pos 1)))) ∷ [])) }
    ensures others { read_whole (statement 3) (kw words.Set ∷ nm (codes "a") ∷ sg signs.Equal ∷ kw words.Row ∷ []) ≡ Ok (set_all ((Target.Plain (codes "a"), name (codes "row")) ∷ [])) }
    ensures calls { read_whole (statement 3) (kw words.Call ∷ nm (codes "p") ∷ []) ≡ Ok (call_procedure (codes "p") no_tree) }
    ensures calls_none { read_whole (statement 3) (kw words.Call ∷ nm (codes "p") ∷ sg signs.Open ∷ sg signs.Close ∷ []) ≡ Ok (call_procedure (codes "p") no_tree) }
    ensures calls_some { read_whole (statement 3) (kw words.Call ∷ nm (codes "p") ∷ sg signs.Open ∷ num 1 ∷ sg signs.Comma ∷ num 2 ∷ sg signs.Close ∷ []) ≡ Ok (call_procedure (codes "p") (tree (literal (Int (pos 1))) (tree (literal (Int (pos 2))) no_tree))) }
    ensures begins { read_whole (statement 3) (kw words.Begin ∷ kw words.Work ∷ []) ≡ Ok begin }
    ensures starts { read_whole (statement 3) (kw words.Start ∷ kw words.Transaction ∷ []) ≡ Ok begin }
    ensures commits { read_whole (statement 3) (kw words.Commit ∷ []) ≡ Ok commit }
    ensures rolls { read_whole (statement 3) (kw words.Rollback ∷ []) ≡ Ok rollback }
    ensures rolls_to { read_whole (statement 3) (kw words.Rollback ∷ kw words.To ∷ nm (codes "s") ∷ []) ≡ Ok (rollback_to (codes "s")) }
    ensures rolls_point { read_whole (statement 3) (kw words.Rollback ∷ kw words.To ∷ kw words.Savepoint ∷ []) ≡ Ok (rollback_to (codes "savepoint")) }
    ensures rolls_named { read_whole (statement 3) (kw words.Rollback ∷ kw words.To ∷ kw words.Savepoint ∷ kw words.Savepoint ∷ []) ≡ Ok (rollback_to (codes "savepoint")) }
    ensures saves { read_whole (statement 3) (kw words.Savepoint ∷ nm (codes "s") ∷ []) ≡ Ok (savepoint (codes "s")) }
    ensures releases { read_whole (statement 3) (kw words.Release ∷ kw words.Savepoint ∷ nm (codes "s") ∷ []) ≡ Ok (release_savepoint (codes "s")) }
    ensures drops { read_whole (statement 3) (kw words.Drop ∷ kw words.Table ∷ nm (codes "t") ∷ []) ≡ Ok (drop_table (codes "t")) }
    ensures drops_function { read_whole (statement 3) (kw words.Drop ∷ kw words.Function ∷ nm (codes "f") ∷ []) ≡ Ok (drop_function (codes "f")) }
    ensures drops_procedure { read_whole (statement 3) (kw words.Drop ∷ kw words.Procedure ∷ nm (codes "p") ∷ []) ≡ Ok (drop_procedure (codes "p")) }
    ensures drops_trigger { read_whole (statement 3) (kw words.Drop ∷ kw words.Trigger ∷ nm (codes "g") ∷ []) ≡ Ok (drop_trigger (codes "g")) }
    ensures truncates { read_whole (statement 3) (kw words.Truncate ∷ nm (codes "t") ∷ []) ≡ Ok (truncate (codes "t")) }
    ensures truncates_table { read_whole (statement 3) (kw words.Truncate ∷ kw words.Table ∷ nm (codes "t") ∷ []) ≡ Ok (truncate (codes "t")) }
{}

/// Worked tables: columns of the primary key are NOT NULL, and the UNIQUE of a column is a key
/// named as the column.
///
/// - marked: `CREATE TABLE t (a INT(11) NOT NULL AUTO_INCREMENT PRIMARY KEY, b VARCHAR(20) DEFAULT 'x' UNIQUE, c BIGINT NULL, UNIQUE INDEX (b, c), UNIQUE INDEX i (c), UNIQUE k (a)) ENGINE = INNODB`
/// - keyed: `CREATE TABLE t (a INTEGER NULL, PRIMARY KEY (a, b), b BIGINT(20) DEFAULT -5 UNIQUE KEY) ENGINE INNODB`
pub fn tables_are_read()
    ensures marked { read_whole (statement 3) (kw words.Create ∷ kw words.Table ∷ nm (codes "t") ∷ sg signs.Open ∷ nm (codes "a") ∷ kw words.Int ∷ sg signs.Open ∷ num 11 ∷ sg signs.Close ∷ kw words.Not ∷ kw words.Null ∷ kw words.AutoIncrement ∷ kw words.Primary ∷ kw words.Key ∷ sg signs.Comma ∷ nm (codes "b") ∷ kw words.Varchar ∷ sg signs.Open ∷ num 20 ∷ sg signs.Close ∷ kw words.Default ∷ txt (codes "x") ∷ kw words.Unique ∷ sg signs.Comma ∷ nm (codes "c") ∷ kw words.Bigint ∷ kw words.Null ∷ sg signs.Comma ∷ kw words.Unique ∷ kw words.Index ∷ sg signs.Open ∷ nm (codes "b") ∷ sg signs.Comma ∷ nm (codes "c") ∷ sg signs.Close ∷ sg signs.Comma ∷ kw words.Unique ∷ kw words.Index ∷ nm (codes "i") ∷ sg signs.Open ∷ nm (codes "c") ∷ sg signs.Close ∷ sg signs.Comma ∷ kw words.Unique ∷ nm (codes "k") ∷ sg signs.Open ∷ nm (codes "a") ∷ sg signs.Close ∷ sg signs.Close ∷ kw words.Engine ∷ sg signs.Equal ∷ kw words.Innodb ∷ []) ≡ Ok (create_table (record { name = codes "t"; columns = (record { name = codes "a"; kind = SqlType.Int; nullable = false; preset = None; auto_increment = true } ∷ record { name = codes "b"; kind = SqlType.Varchar 20; nullable = true; preset = Some (Text (codes "x")); auto_increment = false } ∷ record { name = codes "c"; kind = SqlType.BigInt; nullable = true; preset = None; auto_increment = false } ∷ []); primary = Some (codes "a" ∷ []); uniques = (record { name = codes "b"; columns = (codes "b" ∷ []) } ∷ record { name = codes "index"; columns = (codes "b" ∷ codes "c" ∷ []) } ∷ record { name = codes "i"; columns = (codes "c" ∷ []) } ∷ record { name = codes "k"; columns = (codes "a" ∷ []) } ∷ []) })) }
    ensures keyed { read_whole (statement 3) (kw words.Create ∷ kw words.Table ∷ nm (codes "t") ∷ sg signs.Open ∷ nm (codes "a") ∷ kw words.Integer ∷ kw words.Null ∷ sg signs.Comma ∷ kw words.Primary ∷ kw words.Key ∷ sg signs.Open ∷ nm (codes "a") ∷ sg signs.Comma ∷ nm (codes "b") ∷ sg signs.Close ∷ sg signs.Comma ∷ nm (codes "b") ∷ kw words.Bigint ∷ sg signs.Open ∷ num 20 ∷ sg signs.Close ∷ kw words.Default ∷ tight_minus ∷ num 5 ∷ kw words.Unique ∷ kw words.Key ∷ sg signs.Close ∷ kw words.Engine ∷ kw words.Innodb ∷ []) ≡ Ok (create_table (record { name = codes "t"; columns = (record { name = codes "a"; kind = SqlType.Int; nullable = false; preset = None; auto_increment = false } ∷ record { name = codes "b"; kind = SqlType.BigInt; nullable = false; preset = Some (Int (neg_ℤ (pos 5))); auto_increment = false } ∷ []); primary = Some (codes "a" ∷ codes "b" ∷ []); uniques = (record { name = codes "b"; columns = (codes "b" ∷ []) } ∷ []) })) }
{}

/// Worked programs.
///
/// - functions: `CREATE FUNCTION f (a INT, b VARCHAR(3)) RETURNS INT NOT DETERMINISTIC READS SQL DATA RETURN a`
/// - procedures: `CREATE PROCEDURE p (IN a INT, b INT) BEGIN DECLARE x, y INT DEFAULT 0; SET x = 1; IF a THEN COMMIT; ELSEIF b THEN SET x = 2; ELSE SET x = 3; END IF; WHILE x DO SET x = 0; END WHILE; END`
/// - triggers: `CREATE TRIGGER g BEFORE INSERT ON t FOR EACH ROW SET NEW.a = 1`
/// - creates: `CREATE PROCEDURE p () CREATE TRIGGER g AFTER DELETE ON t FOR EACH ROW CREATE TABLE u (a INT)`
/// - empty: `CREATE PROCEDURE p () BEGIN END`
pub fn programs_are_read()
    ensures functions { read_whole (statement 3) (kw words.Create ∷ kw words.Function ∷ nm (codes "f") ∷ sg signs.Open ∷ nm (codes "a") ∷ kw words.Int ∷ sg signs.Comma ∷ nm (codes "b") ∷ kw words.Varchar ∷ sg signs.Open ∷ num 3 ∷ sg signs.Close ∷ sg signs.Close ∷ kw words.Returns ∷ kw words.Int ∷ kw words.Not ∷ kw words.Deterministic ∷ kw words.Reads ∷ kw words.Sql ∷ kw words.Data ∷ kw words.Return ∷ nm (codes "a") ∷ []) ≡ Ok (create_function (program (codes "f") (record { name = codes "a"; kind = SqlType.Int } ∷ record { name = codes "b"; kind = SqlType.Varchar 3 } ∷ []) (Some SqlType.Int) (return_value (name (codes "a"))))) }
    ensures procedures { read_whole (statement 3) (kw words.Create ∷ kw words.Procedure ∷ nm (codes "p") ∷ sg signs.Open ∷ kw words.In ∷ nm (codes "a") ∷ kw words.Int ∷ sg signs.Comma ∷ nm (codes "b") ∷ kw words.Int ∷ sg signs.Close ∷ kw words.Begin ∷ kw words.Declare ∷ nm (codes "x") ∷ sg signs.Comma ∷ nm (codes "y") ∷ kw words.Int ∷ kw words.Default ∷ num 0 ∷ sg signs.Semicolon ∷ kw words.Set ∷ nm (codes "x") ∷ sg signs.Equal ∷ num 1 ∷ sg signs.Semicolon ∷ kw words.If ∷ nm (codes "a") ∷ kw words.Then ∷ kw words.Commit ∷ sg signs.Semicolon ∷ kw words.Elseif ∷ nm (codes "b") ∷ kw words.Then ∷ kw words.Set ∷ nm (codes "x") ∷ sg signs.Equal ∷ num 2 ∷ sg signs.Semicolon ∷ kw words.Else ∷ kw words.Set ∷ nm (codes "x") ∷ sg signs.Equal ∷ num 3 ∷ sg signs.Semicolon ∷ kw words.End ∷ kw words.If ∷ sg signs.Semicolon ∷ kw words.While ∷ nm (codes "x") ∷ kw words.Do ∷ kw words.Set ∷ nm (codes "x") ∷ sg signs.Equal ∷ num 0 ∷ sg signs.Semicolon ∷ kw words.End ∷ kw words.While ∷ sg signs.Semicolon ∷ kw words.End ∷ []) ≡ Ok (create_procedure (program (codes "p") (record { name = codes "a"; kind = SqlType.Int } ∷ record { name = codes "b"; kind = SqlType.Int } ∷ []) None (block (record { names = codes "x" ∷ codes "y" ∷ []; kind = SqlType.Int; preset = part (literal (Int (pos 0))) } ∷ []) (statement_first (set_all ((Target.Plain (codes "x"), literal (Int (pos 1))) ∷ [])) (statement_first (if_steps (branch (name (codes "a")) (statement_first commit no_statement) (branch (name (codes "b")) (statement_first (set_all ((Target.Plain (codes "x"), literal (Int (pos 2))) ∷ [])) no_statement) no_branch)) (else_steps (statement_first (set_all ((Target.Plain (codes "x"), literal (Int (pos 3))) ∷ [])) no_statement))) (statement_first (while_steps (name (codes "x")) (statement_first (set_all ((Target.Plain (codes "x"), literal (Int (pos 0))) ∷ [])) no_statement)) no_statement)))))) }
    ensures triggers { read_whole (statement 3) (kw words.Create ∷ kw words.Trigger ∷ nm (codes "g") ∷ kw words.Before ∷ kw words.Insert ∷ kw words.On ∷ nm (codes "t") ∷ kw words.For ∷ kw words.Each ∷ kw words.Row ∷ kw words.Set ∷ kw words.New ∷ sg signs.Dot ∷ nm (codes "a") ∷ sg signs.Equal ∷ num 1 ∷ []) ≡ Ok (create_trigger (trigger (codes "g") Time.Before Cause.Insert (codes "t") (set_all ((Target.New (codes "a"), literal (Int (pos 1))) ∷ [])))) }
    ensures creates { read_whole (statement 3) (kw words.Create ∷ kw words.Procedure ∷ nm (codes "p") ∷ sg signs.Open ∷ sg signs.Close ∷ kw words.Create ∷ kw words.Trigger ∷ nm (codes "g") ∷ kw words.After ∷ kw words.Delete ∷ kw words.On ∷ nm (codes "t") ∷ kw words.For ∷ kw words.Each ∷ kw words.Row ∷ kw words.Create ∷ kw words.Table ∷ nm (codes "u") ∷ sg signs.Open ∷ nm (codes "a") ∷ kw words.Int ∷ sg signs.Close ∷ []) ≡ Ok (create_procedure (program (codes "p") [] None (create_trigger (trigger (codes "g") Time.After Cause.Delete (codes "t") (create_table (record { name = codes "u"; columns = (record { name = codes "a"; kind = SqlType.Int; nullable = true; preset = None; auto_increment = false } ∷ []); primary = None; uniques = ([]) })))))) }
    ensures empty { read_whole (statement 3) (kw words.Create ∷ kw words.Procedure ∷ nm (codes "p") ∷ sg signs.Open ∷ sg signs.Close ∷ kw words.Begin ∷ kw words.End ∷ []) ≡ Ok (create_procedure (program (codes "p") [] None (block [] no_statement))) }
{}

/// Worked faults of grammar: each stands at the first token with which no statement goes on, or at
/// the end.
///
/// - form: `SELECT 1 FORM t`
/// - two: `SELECT 1; SELECT 2`
/// - nothing: no token
/// - doubled: `CREATE TABLE t (a INT NULL NOT NULL)`
/// - unique: `CREATE TABLE t (a INT UNIQUE UNIQUE)`
/// - keys: `CREATE TABLE t (a INT PRIMARY KEY, PRIMARY KEY (a))`
/// - keys_columns: `CREATE TABLE t (a INT PRIMARY KEY, b INT PRIMARY KEY)`
/// - starts: `CREATE PROCEDURE p () BEGIN START TRANSACTION; END`
/// - listed: `SELECT 1, COUNT(*)`
/// - mixed: `SELECT COUNT(*), a FROM t`
/// - ordered: `SELECT COUNT(*) FROM t ORDER BY a`
/// - bare: `SELECT *`
/// - floor: `SELECT FLOOR(1)`
/// - abs: `SELECT ABS()`
/// - abs_two: `SELECT ABS(1, 2)`
/// - now: `SELECT NOW(1)`
/// - rand: `SELECT RAND()`
/// - subquery: `SELECT (SELECT 1, 2)`
/// - subquery_all: `SELECT (SELECT *)`
/// - limit: `SELECT a FROM t LIMIT -1`
/// - preset: `CREATE TABLE t (a INT DEFAULT - 5)`
/// - old: `SET OLD.c = 1`
/// - least: `SELECT 3 -9223372036854775808`
/// - wide: `SELECT -9223372036854775809`
/// - wide_behind: `SELECT 3 -9223372036854775809`
/// - exists: `SELECT EXISTS 1`
/// - body: `CREATE TRIGGER g BEFORE INSERT ON t FOR EACH ROW CREATE TRIGGER`
pub fn faults_are_placed()
    ensures form { read_whole (statement 3) (kw words.Select ∷ num 1 ∷ nm (codes "form") ∷ nm (codes "t") ∷ []) ≡ Err (Syntax (nm (codes "form") ∷ nm (codes "t") ∷ [])) }
    ensures two { read_whole (statement 3) (kw words.Select ∷ num 1 ∷ sg signs.Semicolon ∷ kw words.Select ∷ num 2 ∷ []) ≡ Err (Syntax (sg signs.Semicolon ∷ kw words.Select ∷ num 2 ∷ [])) }
    ensures nothing { read_whole (statement 3) ([]) ≡ Err (Syntax []) }
    ensures doubled { read_whole (statement 3) (kw words.Create ∷ kw words.Table ∷ nm (codes "t") ∷ sg signs.Open ∷ nm (codes "a") ∷ kw words.Int ∷ kw words.Null ∷ kw words.Not ∷ kw words.Null ∷ sg signs.Close ∷ []) ≡ Err (Syntax (kw words.Not ∷ kw words.Null ∷ sg signs.Close ∷ [])) }
    ensures unique { read_whole (statement 3) (kw words.Create ∷ kw words.Table ∷ nm (codes "t") ∷ sg signs.Open ∷ nm (codes "a") ∷ kw words.Int ∷ kw words.Unique ∷ kw words.Unique ∷ sg signs.Close ∷ []) ≡ Err (Syntax (kw words.Unique ∷ sg signs.Close ∷ [])) }
    ensures keys { read_whole (statement 3) (kw words.Create ∷ kw words.Table ∷ nm (codes "t") ∷ sg signs.Open ∷ nm (codes "a") ∷ kw words.Int ∷ kw words.Primary ∷ kw words.Key ∷ sg signs.Comma ∷ kw words.Primary ∷ kw words.Key ∷ sg signs.Open ∷ nm (codes "a") ∷ sg signs.Close ∷ sg signs.Close ∷ []) ≡ Err (Syntax (kw words.Primary ∷ kw words.Key ∷ sg signs.Open ∷ nm (codes "a") ∷ sg signs.Close ∷ sg signs.Close ∷ [])) }
    ensures keys_columns { read_whole (statement 3) (kw words.Create ∷ kw words.Table ∷ nm (codes "t") ∷ sg signs.Open ∷ nm (codes "a") ∷ kw words.Int ∷ kw words.Primary ∷ kw words.Key ∷ sg signs.Comma ∷ nm (codes "b") ∷ kw words.Int ∷ kw words.Primary ∷ kw words.Key ∷ sg signs.Close ∷ []) ≡ Err (Syntax (kw words.Primary ∷ kw words.Key ∷ sg signs.Close ∷ [])) }
    ensures starts { read_whole (statement 3) (kw words.Create ∷ kw words.Procedure ∷ nm (codes "p") ∷ sg signs.Open ∷ sg signs.Close ∷ kw words.Begin ∷ kw words.Start ∷ kw words.Transaction ∷ sg signs.Semicolon ∷ kw words.End ∷ []) ≡ Err (Syntax (kw words.Start ∷ kw words.Transaction ∷ sg signs.Semicolon ∷ kw words.End ∷ [])) }
    ensures listed { read_whole (statement 3) (kw words.Select ∷ num 1 ∷ sg signs.Comma ∷ kw words.Count ∷ sg signs.Open ∷ sg signs.Star ∷ sg signs.Close ∷ []) ≡ Err (Syntax (sg signs.Open ∷ sg signs.Star ∷ sg signs.Close ∷ [])) }
    ensures mixed { read_whole (statement 3) (kw words.Select ∷ kw words.Count ∷ sg signs.Open ∷ sg signs.Star ∷ sg signs.Close ∷ sg signs.Comma ∷ nm (codes "a") ∷ kw words.From ∷ nm (codes "t") ∷ []) ≡ Err (Syntax (nm (codes "a") ∷ kw words.From ∷ nm (codes "t") ∷ [])) }
    ensures ordered { read_whole (statement 3) (kw words.Select ∷ kw words.Count ∷ sg signs.Open ∷ sg signs.Star ∷ sg signs.Close ∷ kw words.From ∷ nm (codes "t") ∷ kw words.Order ∷ kw words.By ∷ nm (codes "a") ∷ []) ≡ Err (Syntax (kw words.Order ∷ kw words.By ∷ nm (codes "a") ∷ [])) }
    ensures bare { read_whole (statement 3) (kw words.Select ∷ sg signs.Star ∷ []) ≡ Err (Syntax []) }
    ensures floor { read_whole (statement 3) (kw words.Select ∷ kw words.Floor ∷ sg signs.Open ∷ num 1 ∷ sg signs.Close ∷ []) ≡ Err (Syntax (num 1 ∷ sg signs.Close ∷ [])) }
    ensures abs { read_whole (statement 3) (kw words.Select ∷ fw (Func.One Func1.Abs) ∷ sg signs.Open ∷ sg signs.Close ∷ []) ≡ Err (Syntax (sg signs.Close ∷ [])) }
    ensures abs_two { read_whole (statement 3) (kw words.Select ∷ fw (Func.One Func1.Abs) ∷ sg signs.Open ∷ num 1 ∷ sg signs.Comma ∷ num 2 ∷ sg signs.Close ∷ []) ≡ Err (Syntax (sg signs.Comma ∷ num 2 ∷ sg signs.Close ∷ [])) }
    ensures now { read_whole (statement 3) (kw words.Select ∷ fw (Func.Zero Func0.Now) ∷ sg signs.Open ∷ num 1 ∷ sg signs.Close ∷ []) ≡ Err (Syntax (num 1 ∷ sg signs.Close ∷ [])) }
    ensures rand { read_whole (statement 3) (kw words.Select ∷ kw words.Rand ∷ sg signs.Open ∷ sg signs.Close ∷ []) ≡ Err (Syntax (sg signs.Open ∷ sg signs.Close ∷ [])) }
    ensures subquery { read_whole (statement 3) (kw words.Select ∷ sg signs.Open ∷ kw words.Select ∷ num 1 ∷ sg signs.Comma ∷ num 2 ∷ sg signs.Close ∷ []) ≡ Err (Syntax (sg signs.Comma ∷ num 2 ∷ sg signs.Close ∷ [])) }
    ensures subquery_all { read_whole (statement 3) (kw words.Select ∷ sg signs.Open ∷ kw words.Select ∷ sg signs.Star ∷ sg signs.Close ∷ []) ≡ Err (Syntax (sg signs.Star ∷ sg signs.Close ∷ [])) }
    ensures limit { read_whole (statement 3) (kw words.Select ∷ nm (codes "a") ∷ kw words.From ∷ nm (codes "t") ∷ kw words.Limit ∷ tight_minus ∷ num 1 ∷ []) ≡ Err (Syntax (tight_minus ∷ num 1 ∷ [])) }
    ensures preset { read_whole (statement 3) (kw words.Create ∷ kw words.Table ∷ nm (codes "t") ∷ sg signs.Open ∷ nm (codes "a") ∷ kw words.Int ∷ kw words.Default ∷ sg signs.Minus ∷ num 5 ∷ sg signs.Close ∷ []) ≡ Err (Syntax (sg signs.Minus ∷ num 5 ∷ sg signs.Close ∷ [])) }
    ensures old { read_whole (statement 3) (kw words.Set ∷ kw words.Old ∷ sg signs.Dot ∷ nm (codes "c") ∷ sg signs.Equal ∷ num 1 ∷ []) ≡ Err (Syntax (sg signs.Dot ∷ nm (codes "c") ∷ sg signs.Equal ∷ num 1 ∷ [])) }
    ensures least { read_whole (statement 3) (kw words.Select ∷ num 3 ∷ tight_minus ∷ least_digits ∷ []) ≡ Err (Syntax (least_digits ∷ [])) }
    ensures wide { read_whole (statement 3) (kw words.Select ∷ broken_minus ∷ []) ≡ Err (Syntax (broken_minus ∷ [])) }
    ensures wide_behind { read_whole (statement 3) (kw words.Select ∷ num 3 ∷ broken_minus ∷ []) ≡ Err (Syntax []) }
    ensures exists { read_whole (statement 0) (kw words.Select ∷ kw words.Exists ∷ num 1 ∷ []) ≡ Err (Syntax (num 1 ∷ [])) }
    ensures body { read_whole (statement 3) (kw words.Create ∷ kw words.Trigger ∷ nm (codes "g") ∷ kw words.Before ∷ kw words.Insert ∷ kw words.On ∷ nm (codes "t") ∷ kw words.For ∷ kw words.Each ∷ kw words.Row ∷ kw words.Create ∷ kw words.Trigger ∷ []) ≡ Err (Syntax []) }
{}

/// Worked constructs too many: with none to be opened a minus of its own is one too many, and one
/// before digits is none; so is the second of two parentheses where one may be opened.
///
/// - minus: `SELECT - 5`
/// - nested: `SELECT ((1`
/// - floors: `SELECT FLOOR(RAND() * 1)`
/// - types: `CREATE TABLE t (a INT(11))`
/// - blocks: `CREATE PROCEDURE p () BEGIN BEGIN END; END`
/// - limits: how many constructs may be open, and how deep a statement may be
/// - fits, too_many: 400 and 401 parentheses
pub fn depths_are_placed()
    ensures minus { read_whole (statement 0) (kw words.Select ∷ sg signs.Minus ∷ num 5 ∷ []) ≡ Err (Deep (sg signs.Minus ∷ num 5 ∷ [])) }
    ensures nested { read_whole (statement 1) (kw words.Select ∷ sg signs.Open ∷ sg signs.Open ∷ num 1 ∷ []) ≡ Err (Deep (sg signs.Open ∷ num 1 ∷ [])) }
    ensures floors { read_whole (statement 1) (kw words.Select ∷ kw words.Floor ∷ sg signs.Open ∷ kw words.Rand ∷ sg signs.Open ∷ sg signs.Close ∷ sg signs.Star ∷ num 1 ∷ sg signs.Close ∷ []) ≡ Err (Deep (sg signs.Open ∷ sg signs.Close ∷ sg signs.Star ∷ num 1 ∷ sg signs.Close ∷ [])) }
    ensures types { read_whole (statement 1) (kw words.Create ∷ kw words.Table ∷ nm (codes "t") ∷ sg signs.Open ∷ nm (codes "a") ∷ kw words.Int ∷ sg signs.Open ∷ num 11 ∷ sg signs.Close ∷ sg signs.Close ∷ []) ≡ Err (Deep (sg signs.Open ∷ num 11 ∷ sg signs.Close ∷ sg signs.Close ∷ [])) }
    ensures blocks { read_whole (statement 1) (kw words.Create ∷ kw words.Procedure ∷ nm (codes "p") ∷ sg signs.Open ∷ sg signs.Close ∷ kw words.Begin ∷ kw words.Begin ∷ kw words.End ∷ sg signs.Semicolon ∷ kw words.End ∷ []) ≡ Err (Deep (kw words.Begin ∷ kw words.End ∷ sg signs.Semicolon ∷ kw words.End ∷ [])) }
    ensures limits { (limit_open ≡ 400) × (limit_deep ≡ 200) }
    ensures fits { read_whole (statement limit_open) (kw words.Select ∷ opens 400 (num 1 ∷ closes 400)) ≡ Ok (select (query (items (tree (literal (Int (pos 1))) no_tree)) no_origin)) }
    ensures too_many { read_whole (statement limit_open) (kw words.Select ∷ opens 401 (num 1 ∷ closes 401)) ≡ Err (Deep (sg signs.Open ∷ num 1 ∷ closes 401)) }
{}
