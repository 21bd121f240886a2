//! Worked examples of the definitions: how deep trees are, and which of them a text gives.
//!
//! In them `one` is the expression `1`, `two` is `- 1`, and `ill` is one that no text gives.
ghost use Rattle.std.specs.Prelude.{◌≡◌, ◌==◌, [], ◌∷◌, true, false, not, pos, neg_ℤ, codes, replicate, map, Some, None};
ghost use Rattle.std.specs.List.{list_all, list_any};
ghost use Rattle.val_types.specs.declared.value.Value.TheVariants.{Null, Int, Text};
ghost use Rattle.val_types.specs.declared.ops.UnOp.TheVariants.{Not};
ghost use Rattle.val_types.specs.declared.ops.BinOp.TheVariants.{Or};
ghost use Rattle.val_types.specs.declared.ops.Agg.TheVariants.{Sum};
ghost use Rattle.val_types.specs.declared.ops.Func0.{Func0};
ghost use Rattle.val_types.specs.declared.ops.Func1.{Func1};
ghost use Rattle.val_types.specs.declared.ops.Func2.{Func2};
ghost use Rattle.val_types.specs.declared.ops.Func3.{Func3};
ghost use Rattle.val_types.specs.declared.ops.FuncN.{FuncN};
ghost use Rattle.sql_tree.specs.Tree.{literal, name, column, new_column, old_column, user_variable, system_variable, unary, binary, is_in, choice, subquery, exists, call, values_of, name_const, floor_rand, no_tree, no_arm, no_part, part, query, items, all_columns, aggregates, no_origin, from_table, no_order};
ghost use Rattle.sql_tree.specs.Statement.{rows, rows_of, create_table, create_function, create_procedure, create_trigger, drop_table, drop_function, drop_procedure, drop_trigger, truncate, insert_into, replace_into, update_rows, delete_rows, select, evaluate, set_all, call_procedure, begin, commit, rollback, savepoint, rollback_to, release_savepoint, block, if_steps, while_steps, return_value, no_statement, no_branch, no_else, else_steps, program, trigger};
ghost use Rattle.sql_tree.specs.BuiltIns.{on_none, on_one, on_two, on_three, on_many};
ghost use Rattle.sql_tree.specs.View.{trees_of, arms_of, aggregates_of};
ghost use Rattle.sql_tree.specs.StatementView.{statements_of, branches_of};
ghost use Rattle.sql_tree.specs.Depth.{depth_of_tree, depth_of_query, depth_of};
ghost use Rattle.sql_tree.specs.Well.{is_name, is_number, is_literal, is_type, is_well_tree, is_well_query, is_well_step, is_whole, is_well};
ghost use Rattle.sql_tree.specs.Worked.{one, two, ill, sum, from_t, all_of_t, by, limit_of, only, row_of, set_a, assigned, declared_as, column_of, key_of, table_of, parameter_of};
ghost use Rattle.sql_tree.specs.declared.expressions.Count.TheVariants.{Number, Name};
ghost use Rattle.sql_tree.specs.declared.statements.SqlType.{SqlType};
ghost use Rattle.sql_tree.specs.declared.statements.Target.{Target};
ghost use Rattle.sql_tree.specs.declared.statements.Time.{Time};
ghost use Rattle.sql_tree.specs.declared.statements.Cause.{Cause};

/// Depths of expressions.
///
/// - leaves: each is one deep, calls without arguments too
/// - first, later: of several operands each is the deepest in one row
/// - selects: `(SELECT 1, - 1)`, `EXISTS (SELECT 1)`, `EXISTS (SELECT * FROM t)`
pub fn depths_of_expressions()
    ensures leaves { list_all (λ t. depth_of_tree t == 1) (literal Null ∷ literal (Text (codes "it's")) ∷ name (codes "a") ∷ column (codes "t") (codes "a") ∷ new_column (codes "a") ∷ old_column (codes "a") ∷ user_variable (codes "a") ∷ system_variable (codes "a") ∷ values_of (codes "a") ∷ name_const (codes "a") (Int (neg_ℤ (pos 5))) ∷ call (codes "f") no_tree ∷ on_none Func0.Now ∷ on_none Func0.UnixTimestamp ∷ on_none Func0.SysDate ∷ on_none Func0.User ∷ on_none Func0.Uuid ∷ on_none Func0.ConnectionId ∷ on_none Func0.LastInsertId ∷ on_none Func0.RowCount ∷ []) ≡ true }
    ensures first { list_all (λ t. depth_of_tree t == 3) (unary Not two ∷ binary Or two one ∷ is_in false two (trees_of (one ∷ [])) ∷ choice (arms_of ((two, one) ∷ [])) (part one) ∷ call (codes "f") (trees_of (two ∷ one ∷ [])) ∷ floor_rand two ∷ on_one Func1.Abs two ∷ on_many FuncN.Coalesce (trees_of (two ∷ one ∷ [])) ∷ on_three Func3.If two one one ∷ on_two Func2.IfNull two one ∷ on_many FuncN.Concat (trees_of (two ∷ one ∷ [])) ∷ on_one Func1.Length two ∷ on_three Func3.Substring two one one ∷ []) ≡ true }
    ensures later { list_all (λ t. depth_of_tree t == 3) (binary Or one two ∷ is_in true one (trees_of (one ∷ two ∷ [])) ∷ choice (arms_of ((one, two) ∷ [])) no_part ∷ choice (arms_of ((one, one) ∷ (two, one) ∷ [])) (part one) ∷ choice (arms_of ((one, one) ∷ [])) (part two) ∷ call (codes "f") (trees_of (one ∷ two ∷ [])) ∷ on_many FuncN.Coalesce (trees_of (one ∷ two ∷ [])) ∷ on_three Func3.If one two one ∷ on_three Func3.If one one two ∷ on_two Func2.IfNull one two ∷ on_many FuncN.Concat (trees_of (one ∷ two ∷ [])) ∷ on_three Func3.Substring one two one ∷ on_three Func3.Substring one one two ∷ []) ≡ true }
    ensures selects { map depth_of_tree (subquery (query (items (trees_of (one ∷ two ∷ []))) no_origin) ∷ exists (only one) ∷ exists (query all_columns all_of_t) ∷ []) ≡ 3 ∷ 3 ∷ 2 ∷ [] }
{}

/// Depths of SELECTs and statements.
///
/// - selects: `SELECT COUNT(*) FROM t`, `SELECT SUM(1) FROM t`, `SELECT 1, 1 FROM t WHERE - 1`, `.. ORDER BY - 1`, `.. LIMIT 5 OFFSET n`
/// - plain: statements without an expression, an empty block among them
/// - changes: INSERT with a value that is two deep among its rows, behind ON DUPLICATE KEY UPDATE and in
///   its SELECT, REPLACE, UPDATE with it in SET, WHERE and ORDER BY, DELETE, DO, SET, CALL
/// - programs: a block, with a DECLARE, IF with such a condition, step and ELSE, WHILE, RETURN
/// - created: a function, a procedure and a trigger over `RETURN - 1`
pub fn depths_of_statements()
    ensures selects { map depth_of_query (query (aggregates (aggregates_of (None ∷ []))) all_of_t ∷ query (aggregates (aggregates_of (None ∷ Some (Sum, one) ∷ []))) all_of_t ∷ query (items (trees_of (one ∷ one ∷ []))) (from_t (part two) no_order None) ∷ query (items (trees_of (one ∷ []))) (from_t no_part (by two) None) ∷ query (items (trees_of (one ∷ []))) (from_t no_part no_order (limit_of (Number 5) (Some (Name (codes "n"))))) ∷ []) ≡ 2 ∷ 3 ∷ 3 ∷ 3 ∷ 2 ∷ [] }
    ensures plain { list_all (λ s. depth_of s == 1) (create_table (table_of (column_of (codes "a") SqlType.Int true ∷ []) None []) ∷ drop_table (codes "a") ∷ drop_function (codes "a") ∷ drop_procedure (codes "a") ∷ drop_trigger (codes "a") ∷ truncate (codes "a") ∷ delete_rows (codes "a") no_part no_order (Some (Number 1)) ∷ call_procedure (codes "a") no_tree ∷ begin ∷ commit ∷ rollback ∷ savepoint (codes "a") ∷ rollback_to (codes "a") ∷ release_savepoint (codes "a") ∷ block [] no_statement ∷ []) ≡ true }
    ensures changes { list_all (λ s. depth_of s == 3) (insert_into true (codes "t") None (rows (trees_of (one ∷ []) ∷ row_of (one ∷ two ∷ []))) (set_a one) ∷ insert_into false (codes "t") None (rows (row_of (one ∷ []))) ((codes "b", one) ∷ set_a two) ∷ insert_into false (codes "t") None (rows_of (only one)) [] ∷ replace_into (codes "t") None (rows (row_of (two ∷ []))) ∷ update_rows (codes "t") (set_a two) no_part no_order None ∷ update_rows (codes "t") (set_a one) (part two) no_order None ∷ update_rows (codes "t") (set_a one) no_part (by two) None ∷ delete_rows (codes "t") (part two) (by one) None ∷ delete_rows (codes "t") (part one) (by two) None ∷ evaluate (trees_of (one ∷ two ∷ [])) ∷ set_all (assigned (Target.User (codes "a")) two) ∷ call_procedure (codes "p") (trees_of (one ∷ two ∷ [])) ∷ []) ≡ true }
    ensures programs { list_all (λ s. depth_of s == 3) (block [] (statements_of (commit ∷ return_value one ∷ [])) ∷ block (declared_as (codes "a" ∷ []) SqlType.Int (part two) ∷ []) no_statement ∷ if_steps (branches_of ((one, statements_of (commit ∷ [])) ∷ (two, statements_of (commit ∷ [])) ∷ [])) no_else ∷ if_steps (branches_of ((one, statements_of (return_value one ∷ [])) ∷ [])) no_else ∷ if_steps (branches_of ((one, statements_of (commit ∷ [])) ∷ [])) (else_steps (statements_of (return_value one ∷ []))) ∷ while_steps two (statements_of (commit ∷ [])) ∷ while_steps one (statements_of (return_value one ∷ [])) ∷ return_value two ∷ []) ≡ true }
    ensures created { list_all (λ s. depth_of s == 4) (create_function (program (codes "f") [] (Some SqlType.Int) (return_value two)) ∷ create_procedure (program (codes "p") [] None (return_value two)) ∷ create_trigger (trigger (codes "g") Time.Before Cause.Insert (codes "t") (return_value two)) ∷ []) ≡ true }
{}

/// The deepest statement that a text gives is 200 deep: SELECT of a sum of 199 terms. With 200 terms
/// it could stand in a text but for its depth.
pub fn deepest_statements()
    ensures deepest { depth_of (select (only (sum 198))) ≡ 200 }
    ensures given { is_well (select (only (sum 198))) ≡ true }
    ensures too_deep { depth_of (select (only (sum 199))) ≡ 201 }
    ensures refused { is_well (select (only (sum 199))) ≡ false }
    ensures whole { is_whole (select (only (sum 199))) ≡ true }
{}

/// Names, numbers and literals: names of 1 and of 64 bytes are given, of none and of 65 refused;
/// numbers are given up to 9223372036854775807, and as literals from -9223372036854775808.
pub fn names_and_numbers()
    ensures names { list_all is_name (codes "a" ∷ codes "select" ∷ codes "1 a`b" ∷ codes " " ∷ codes "~" ∷ codes "@[" ∷ replicate 64 97 ∷ []) ≡ true }
    ensures no_names { list_any is_name ([] ∷ codes "A" ∷ codes "aZ" ∷ (0x1f ∷ []) ∷ (0x7f ∷ []) ∷ (0xe9 ∷ []) ∷ replicate 65 97 ∷ []) ≡ false }
    ensures numbers { map is_number (0 ∷ 9223372036854775807 ∷ 9223372036854775808 ∷ []) ≡ true ∷ true ∷ false ∷ [] }
    ensures literals { list_all is_literal (Null ∷ Int (pos 9223372036854775807) ∷ Int (neg_ℤ (pos 9223372036854775808)) ∷ Text (0 ∷ 255 ∷ []) ∷ Text [] ∷ []) ≡ true }
    ensures no_literals { list_any is_literal (Int (pos 9223372036854775808) ∷ Int (neg_ℤ (pos 9223372036854775809)) ∷ Text (256 ∷ []) ∷ []) ≡ false }
    ensures types { map is_type (SqlType.Varchar 0 ∷ SqlType.Varchar 9223372036854775807 ∷ SqlType.Varchar 9223372036854775808 ∷ []) ≡ true ∷ true ∷ false ∷ [] }
{}

/// Expressions that a text gives, and such as none does: a name of no bytes, a list that may not be
/// empty, a subquery of two items, and each with a part that none gives.
pub fn expressions_that_are_given()
    ensures given { list_all is_well_tree (name (codes "a") ∷ column (codes "t") (codes "a") ∷ new_column (codes "a") ∷ old_column (codes "a") ∷ user_variable (codes "a") ∷ system_variable (codes "a") ∷ values_of (codes "a") ∷ name_const [] (Int (neg_ℤ (pos 5))) ∷ unary Not two ∷ binary Or two one ∷ is_in true two (trees_of (one ∷ [])) ∷ choice (arms_of ((two, one) ∷ [])) no_part ∷ choice (arms_of ((two, one) ∷ [])) (part one) ∷ subquery (only two) ∷ subquery (query (aggregates (aggregates_of (None ∷ []))) all_of_t) ∷ exists (query all_columns all_of_t) ∷ exists (query (items (trees_of (one ∷ two ∷ []))) no_origin) ∷ call (codes "f") no_tree ∷ call (codes "now") (trees_of (one ∷ two ∷ [])) ∷ floor_rand two ∷ on_one Func1.Abs two ∷ on_many FuncN.Coalesce (trees_of (one ∷ [])) ∷ on_three Func3.If one two one ∷ on_two Func2.IfNull one two ∷ on_many FuncN.Concat (trees_of (one ∷ [])) ∷ on_one Func1.Length one ∷ on_three Func3.Substring one two one ∷ on_none Func0.Now ∷ on_none Func0.RowCount ∷ []) ≡ true }
    ensures no_names { list_any is_well_tree (ill ∷ column [] (codes "a") ∷ column (codes "t") [] ∷ new_column [] ∷ old_column [] ∷ user_variable [] ∷ system_variable [] ∷ values_of [] ∷ call [] no_tree ∷ []) ≡ false }
    ensures no_items { list_any is_well_tree (is_in false one no_tree ∷ choice no_arm (part one) ∷ on_many FuncN.Coalesce no_tree ∷ on_many FuncN.Concat no_tree ∷ subquery (query (items no_tree) no_origin) ∷ exists (query (items no_tree) no_origin) ∷ subquery (query (items (trees_of (one ∷ one ∷ []))) no_origin) ∷ subquery (query all_columns all_of_t) ∷ subquery (query (aggregates (aggregates_of (None ∷ None ∷ []))) all_of_t) ∷ []) ≡ false }
    ensures ill_parts { list_any is_well_tree (unary Not ill ∷ binary Or ill one ∷ binary Or one ill ∷ is_in false ill (trees_of (one ∷ [])) ∷ is_in false one (trees_of (one ∷ ill ∷ [])) ∷ choice (arms_of ((ill, one) ∷ [])) no_part ∷ choice (arms_of ((one, ill) ∷ [])) no_part ∷ choice (arms_of ((one, one) ∷ [])) (part ill) ∷ subquery (only ill) ∷ exists (only ill) ∷ call (codes "f") (trees_of (one ∷ ill ∷ [])) ∷ floor_rand ill ∷ on_one Func1.Abs ill ∷ on_many FuncN.Coalesce (trees_of (one ∷ ill ∷ [])) ∷ on_three Func3.If ill one one ∷ on_three Func3.If one ill one ∷ on_three Func3.If one one ill ∷ on_two Func2.IfNull ill one ∷ on_two Func2.IfNull one ill ∷ on_many FuncN.Concat (trees_of (one ∷ ill ∷ [])) ∷ on_one Func1.Length ill ∷ on_three Func3.Substring ill one one ∷ on_three Func3.Substring one ill one ∷ on_three Func3.Substring one one ill ∷ name_const (codes "a") (Int (pos 9223372036854775808)) ∷ []) ≡ false }
{}

/// SELECTs that a text gives, and such as none does: `*` and aggregates without a table, aggregates
/// with ORDER BY or LIMIT, nothing to give, and parts that none gives.
pub fn selects_that_are_given()
    ensures given { list_all is_well_query (only one ∷ query (items (trees_of (one ∷ two ∷ []))) (from_t (part one) (by one) (limit_of (Number 0) None)) ∷ query all_columns (from_t no_part no_order (limit_of (Number 9223372036854775807) (Some (Name (codes "n"))))) ∷ query all_columns (from_t no_part (by two) (limit_of (Name (codes "n")) (Some (Number 5)))) ∷ query (aggregates (aggregates_of (None ∷ Some (Sum, one) ∷ []))) (from_t (part one) no_order None) ∷ []) ≡ true }
    ensures without_table { list_any is_well_query (query all_columns no_origin ∷ query (aggregates (aggregates_of (None ∷ []))) no_origin ∷ []) ≡ false }
    ensures aggregates_apart { list_any is_well_query (query (aggregates (aggregates_of (None ∷ []))) (from_t no_part (by one) None) ∷ query (aggregates (aggregates_of (None ∷ []))) (from_t no_part no_order (limit_of (Number 1) None)) ∷ []) ≡ false }
    ensures nothing { list_any is_well_query (query (items no_tree) all_of_t ∷ query (aggregates (aggregates_of [])) all_of_t ∷ []) ≡ false }
    ensures ill_parts { list_any is_well_query (only ill ∷ query (aggregates (aggregates_of (Some (Sum, ill) ∷ []))) all_of_t ∷ query all_columns (from_table [] no_part no_order None) ∷ query all_columns (from_t (part ill) no_order None) ∷ query all_columns (from_t no_part (by ill) None) ∷ query all_columns (from_t no_part no_order (limit_of (Number 9223372036854775808) None)) ∷ query all_columns (from_t no_part no_order (limit_of (Name []) None)) ∷ query all_columns (from_t no_part no_order (limit_of (Number 1) (Some (Name (codes "N"))))) ∷ []) ≡ false }
{}

/// Tables that a text gives: with columns, with a primary key of two columns that are NOT NULL, with a
/// unique key, with one column named twice in a key, and with keys alone. None gives a table without
/// parts, one whose primary key has a column that may be NULL, or a key without columns.
pub fn tables_that_are_given()
    ensures given { list_all (λ t. is_whole (create_table t)) (table_of (column_of (codes "a") SqlType.Int true ∷ column_of (codes "b") (SqlType.Varchar 5) false ∷ []) None [] ∷ table_of (column_of (codes "a") SqlType.Int false ∷ column_of (codes "b") SqlType.BigInt false ∷ column_of (codes "c") SqlType.Int true ∷ []) (Some (codes "a" ∷ codes "b" ∷ [])) (key_of (codes "k") (codes "c" ∷ codes "b" ∷ []) ∷ []) ∷ table_of (column_of (codes "a") SqlType.Int false ∷ []) (Some (codes "a" ∷ codes "a" ∷ [])) (key_of (codes "k") (codes "a" ∷ codes "a" ∷ []) ∷ key_of (codes "k") (codes "z" ∷ []) ∷ []) ∷ table_of [] (Some (codes "a" ∷ [])) [] ∷ table_of [] None (key_of (codes "k") (codes "a" ∷ []) ∷ []) ∷ []) ≡ true }
    ensures refused { list_any (λ t. is_whole (create_table t)) (table_of [] None [] ∷ table_of (column_of (codes "a") SqlType.Int true ∷ []) (Some (codes "a" ∷ [])) [] ∷ table_of (column_of (codes "a") SqlType.Int false ∷ column_of (codes "b") SqlType.Int true ∷ []) (Some (codes "a" ∷ codes "b" ∷ [])) [] ∷ table_of (column_of (codes "a") SqlType.Int false ∷ []) (Some []) [] ∷ table_of [] None (key_of (codes "k") [] ∷ []) ∷ table_of [] None (key_of [] (codes "a" ∷ []) ∷ []) ∷ table_of (column_of [] SqlType.Int false ∷ []) None [] ∷ table_of (column_of (codes "a") (SqlType.Varchar 9223372036854775808) false ∷ []) None [] ∷ []) ≡ false }
{}

/// Statements that a text gives. None gives rows, SET, DO or names in parentheses without an item.
pub fn statements_that_are_given()
    ensures given { list_all is_whole (begin ∷ commit ∷ rollback ∷ savepoint (codes "a") ∷ rollback_to (codes "a") ∷ release_savepoint (codes "a") ∷ drop_table (codes "a") ∷ drop_function (codes "a") ∷ drop_procedure (codes "a") ∷ drop_trigger (codes "a") ∷ truncate (codes "a") ∷ insert_into true (codes "t") (Some (codes "a" ∷ [])) (rows (trees_of (one ∷ []) ∷ row_of (one ∷ two ∷ []))) (set_a one) ∷ insert_into false (codes "t") None (rows_of (only one)) [] ∷ replace_into (codes "t") None (rows (row_of (one ∷ []))) ∷ update_rows (codes "t") (set_a one) (part one) (by one) (Some (Name (codes "n"))) ∷ delete_rows (codes "t") (part one) (by one) (Some (Number 1)) ∷ evaluate (trees_of (one ∷ [])) ∷ set_all (assigned (Target.New (codes "a")) one) ∷ call_procedure (codes "p") no_tree ∷ select (only one) ∷ []) ≡ true }
    ensures without_items { list_any is_whole (insert_into false (codes "t") (Some []) (rows_of (only one)) [] ∷ insert_into false (codes "t") None (rows []) [] ∷ replace_into (codes "t") None (rows (row_of [])) ∷ update_rows (codes "t") [] no_part no_order None ∷ evaluate no_tree ∷ set_all [] ∷ []) ≡ false }
    ensures ill_parts { list_any is_whole (drop_table [] ∷ drop_function [] ∷ drop_procedure [] ∷ drop_trigger [] ∷ truncate [] ∷ savepoint [] ∷ rollback_to [] ∷ release_savepoint [] ∷ insert_into false [] None (rows_of (only one)) [] ∷ insert_into false (codes "t") None (rows_of (only ill)) [] ∷ insert_into false (codes "t") None (rows_of (only one)) (set_a ill) ∷ insert_into false (codes "t") None (rows (row_of (ill ∷ []))) [] ∷ update_rows (codes "t") (([], one) ∷ []) no_part no_order None ∷ update_rows (codes "t") (set_a one) (part ill) no_order None ∷ update_rows (codes "t") (set_a one) no_part (by ill) None ∷ update_rows (codes "t") (set_a one) no_part no_order (Some (Number 9223372036854775808)) ∷ delete_rows [] no_part no_order None ∷ delete_rows (codes "t") (part ill) no_order None ∷ evaluate (trees_of (ill ∷ [])) ∷ set_all (assigned (Target.User []) one) ∷ set_all (assigned (Target.Plain []) one) ∷ set_all (assigned (Target.System []) one) ∷ set_all (assigned (Target.New []) one) ∷ set_all (assigned (Target.New (codes "a")) ill) ∷ call_procedure [] no_tree ∷ call_procedure (codes "p") (trees_of (ill ∷ [])) ∷ []) ≡ false }
{}

/// Stored programs. A block, IF, WHILE and RETURN are steps of a program and no whole statements;
/// BEGIN is a whole statement and no step, since its text begins a block there.
pub fn programs_that_are_given()
    ensures steps { list_all is_well_step (block [] no_statement ∷ block (declared_as (codes "a" ∷ codes "b" ∷ []) SqlType.Int (part one) ∷ declared_as (codes "c" ∷ []) SqlType.BigInt no_part ∷ []) (statements_of (commit ∷ block [] no_statement ∷ [])) ∷ if_steps (branches_of ((one, statements_of (commit ∷ [])) ∷ (two, statements_of (commit ∷ rollback ∷ [])) ∷ [])) (else_steps (statements_of (commit ∷ []))) ∷ if_steps (branches_of ((one, statements_of (commit ∷ [])) ∷ [])) no_else ∷ while_steps one (statements_of (commit ∷ [])) ∷ return_value one ∷ select (only one) ∷ []) ≡ true }
    ensures no_wholes { list_any is_whole (block [] no_statement ∷ if_steps (branches_of ((one, statements_of (commit ∷ [])) ∷ [])) no_else ∷ while_steps one (statements_of (commit ∷ [])) ∷ return_value one ∷ []) ≡ false }
    ensures no_steps { list_any is_well_step (begin ∷ block [] (statements_of (begin ∷ [])) ∷ block (declared_as [] SqlType.Int no_part ∷ []) no_statement ∷ block (declared_as (codes "a" ∷ []) SqlType.Int (part ill) ∷ []) no_statement ∷ if_steps no_branch no_else ∷ if_steps (branches_of ((one, no_statement) ∷ [])) no_else ∷ if_steps (branches_of ((ill, statements_of (commit ∷ [])) ∷ [])) no_else ∷ if_steps (branches_of ((one, statements_of (begin ∷ [])) ∷ [])) no_else ∷ if_steps (branches_of ((one, statements_of (commit ∷ [])) ∷ [])) (else_steps no_statement) ∷ while_steps one no_statement ∷ while_steps ill (statements_of (commit ∷ [])) ∷ while_steps one (statements_of (begin ∷ [])) ∷ return_value ill ∷ []) ≡ false }
    ensures created { list_all is_whole (create_function (program (codes "f") (parameter_of (codes "a") SqlType.Int ∷ []) (Some SqlType.Int) (return_value one)) ∷ create_procedure (program (codes "p") [] None (block [] no_statement)) ∷ create_trigger (trigger (codes "g") Time.After Cause.Delete (codes "t") (set_all (assigned (Target.New (codes "a")) one))) ∷ []) ≡ true }
    ensures not_created { list_any is_whole (create_function (program (codes "f") [] None (return_value one)) ∷ create_procedure (program (codes "p") [] (Some SqlType.Int) (return_value one)) ∷ create_procedure (program (codes "p") [] None begin) ∷ create_procedure (program [] [] None commit) ∷ create_procedure (program (codes "p") (parameter_of [] SqlType.Int ∷ []) None commit) ∷ create_function (program (codes "f") [] (Some (SqlType.Varchar 9223372036854775808)) (return_value one)) ∷ create_trigger (trigger [] Time.Before Cause.Update (codes "t") commit) ∷ create_trigger (trigger (codes "g") Time.Before Cause.Update [] commit) ∷ create_trigger (trigger (codes "g") Time.Before Cause.Update (codes "t") begin) ∷ []) ≡ false }
{}
