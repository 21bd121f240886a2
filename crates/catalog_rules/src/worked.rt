//! Worked examples: which statements the checks let through, and which error comes first.
//!
//! The catalog has the tables `t` (id, v) and `a` (id AUTO_INCREMENT, k), the function `f` of one
//! parameter, the procedure `p` and the trigger `r` before INSERT on `t`.
ghost use Rattle.std.specs.Prelude.{◌≡◌, [], ◌∷◌, codes, false, map, option_and_then, option_map, pos, true, None, Some};
ghost use Rattle.val_types.specs.declared.value.Value.TheVariants.{Int, Null, Text};
ghost use Rattle.val_types.specs.declared.ops.Agg.TheVariants as aggs;
ghost use Rattle.sql_tree.specs.Tree.{aggregates, all_columns, call, column, count_all, from_table, items, literal, name, new_column, no_aggregate, no_order, no_origin, no_part, no_tree, part, query, subquery, system_variable, values_of};
ghost use Rattle.sql_tree.specs.Statement.{block, call_procedure, commit, create_function, create_procedure, create_table, create_trigger, delete_rows, drop_function, drop_procedure, drop_table, drop_trigger, evaluate, insert_into, replace_into, return_value, rows, rows_of, select, set_all, trigger, truncate, update_rows};
ghost use Rattle.sql_tree.specs.View.{trees_of};
ghost use Rattle.sql_tree.specs.StatementView.{statements_of};
ghost use Rattle.sql_tree.specs.Worked.{column_of, declared_as, key_of, one, row_of};
ghost use Rattle.sql_tree.specs.declared.expressions.Count.TheVariants as counts;
ghost use Rattle.sql_tree.specs.declared.statements.Cause.TheVariants as causes;
ghost use Rattle.sql_tree.specs.declared.statements.SqlType.{SqlType};
ghost use Rattle.sql_tree.specs.declared.statements.Target.{Target};
ghost use Rattle.sql_tree.specs.declared.statements.Time.TheVariants as times;
ghost use Rattle.catalog_rules.specs.Bases.{CanBeMade, defined, empty_base, table_without_rows};
ghost use Rattle.catalog_rules.specs.Checks.{session_scope, statement_refusal};
ghost use Rattle.catalog_rules.specs.Creating.{catalog_after, ddl_refusal};
ghost use Rattle.catalog_rules.specs.Defined.{definition_of, written_table};
ghost use Rattle.catalog_rules.specs.Objects.{function, procedure, table};
ghost use Rattle.catalog_rules.specs.Worked.{catalog, counted, create_a, create_t, doing, f, giving, id, int_column, of_columns, p, preset_to, v};

/// CREATE TABLE, each check where those before it pass.
///
/// - taken: 1050; twice: 1060; key_twice: 1060 for `PRIMARY KEY (id, id)`; key_name: 1061; key_column: 1072;
///   no_key: 30001; preset: 1067 for a text, for NULL and on AUTO_INCREMENT; counted_text: 1063; two_counted and
///   not_first: 1075; wide: 30009
pub fn tables_created()
    ensures made { ddl_refusal [] (create_table create_t) ≡ None }
    ensures beside { ddl_refusal (table (definition_of create_t) ∷ []) (create_table create_a) ≡ None }
    ensures taken { ddl_refusal catalog (create_table create_t) ≡ Some 1050 }
    ensures twice { ddl_refusal [] (create_table (of_columns (int_column id ∷ int_column id ∷ []) (id ∷ []))) ≡ Some 1060 }
    ensures key_twice { ddl_refusal [] (create_table (of_columns (int_column id ∷ []) (id ∷ id ∷ []))) ≡ Some 1060 }
    ensures key_name { ddl_refusal [] (create_table (record create_a { uniques = key_of (codes "u") (id ∷ []) ∷ key_of (codes "u") (codes "k" ∷ []) ∷ [] })) ≡ Some 1061 }
    ensures key_column { ddl_refusal [] (create_table (of_columns (int_column id ∷ []) (v ∷ []))) ≡ Some 1072 }
    ensures no_key { ddl_refusal [] (create_table (record create_t { primary = None })) ≡ Some 30001 }
    ensures preset_text { ddl_refusal [] (create_table (of_columns (preset_to (Text (codes "a")) (int_column id) ∷ []) (id ∷ []))) ≡ Some 1067 }
    ensures preset_null { ddl_refusal [] (create_table (of_columns (preset_to Null (int_column id) ∷ []) (id ∷ []))) ≡ Some 1067 }
    ensures preset_counted { ddl_refusal [] (create_table (of_columns (preset_to (Int (pos 1)) (counted (int_column id)) ∷ []) (id ∷ []))) ≡ Some 1067 }
    ensures counted_text { ddl_refusal [] (create_table (of_columns (counted (column_of id (SqlType.Varchar 9) false) ∷ []) (id ∷ []))) ≡ Some 1063 }
    ensures two_counted { ddl_refusal [] (create_table (of_columns (counted (int_column id) ∷ counted (int_column v) ∷ []) (id ∷ []))) ≡ Some 1075 }
    ensures not_first { ddl_refusal [] (create_table (of_columns (int_column id ∷ counted (int_column v) ∷ []) (id ∷ v ∷ []))) ≡ Some 1075 }
    ensures wide { ddl_refusal [] (create_table (of_columns (int_column id ∷ column_of v (SqlType.Varchar 65535) true ∷ []) (id ∷ []))) ≡ Some 30009 }
    ensures just_wide { ddl_refusal [] (create_table (of_columns (int_column id ∷ column_of v (SqlType.Varchar 65528) true ∷ []) (id ∷ []))) ≡ None }
    ensures nothing_wide { ddl_refusal [] (create_table (of_columns (int_column id ∷ column_of v (SqlType.Varchar 0) true ∷ []) (id ∷ []))) ≡ Some 30009 }
{}

/// What is made of CREATE TABLE, and back.
pub fn tables_defined()
    ensures keys { (definition_of create_a).primary ≡ 0 ∷ [] }
    ensures counted { (definition_of create_a).auto ≡ Some 0 }
    ensures uncounted { (definition_of create_t).auto ≡ None }
    ensures back_t { written_table (definition_of create_t) ≡ create_t }
    ensures back_a { written_table (definition_of create_a) ≡ create_a }
{}

/// CREATE FUNCTION, PROCEDURE and TRIGGER: 1304, 1146, 1359; in a body SET of an unknown name is 1193 wherever 30005 stands, and
/// what may not stand there 30005; a VARCHAR of 0 is 30009.
pub fn programs_created()
    ensures taken { ddl_refusal catalog (create_function f) ≡ Some 1304 }
    ensures other_kind { ddl_refusal (procedure f ∷ []) (create_function f) ≡ None }
    ensures commits { ddl_refusal [] (create_procedure (doing commit)) ≡ Some 30005 }
    ensures unknown_first { ddl_refusal [] (create_procedure (doing (block [] (statements_of (commit ∷ set_all ((Target.Plain (codes "x"), one) ∷ []) ∷ []))))) ≡ Some 1193 }
    ensures declared { ddl_refusal [] (create_procedure (doing (block (declared_as (codes "x" ∷ []) SqlType.Int no_part ∷ []) (statements_of (set_all ((Target.Plain (codes "x"), one) ∷ []) ∷ []))))) ≡ None }
    ensures session_variable { ddl_refusal [] (create_procedure (doing (set_all ((Target.Plain (codes "timestamp"), one) ∷ [])))) ≡ Some 30005 }
    ensures user_variable { ddl_refusal [] (create_function (giving (set_all ((Target.User (codes "x"), one) ∷ [])))) ≡ Some 30005 }
    ensures selects { map (λ s. ddl_refusal [] s) (create_function (giving (select (query (items (trees_of (one ∷ []))) no_origin))) ∷ create_procedure (doing (select (query (items (trees_of (one ∷ []))) no_origin))) ∷ []) ≡ Some 30005 ∷ None ∷ [] }
    ensures returns { ddl_refusal [] (create_procedure (doing (return_value one))) ≡ Some 30005 }
    ensures narrow { ddl_refusal [] (create_procedure (doing (block (declared_as (codes "x" ∷ []) (SqlType.Varchar 0) no_part ∷ []) (statements_of [])))) ≡ Some 30009 }
    ensures no_table { ddl_refusal [] (create_trigger (trigger (codes "g") times.Before causes.Insert (codes "t") (evaluate (trees_of (one ∷ []))))) ≡ Some 1146 }
    ensures trigger_taken { ddl_refusal catalog (create_trigger (trigger (codes "r") times.After causes.Insert (codes "t") (evaluate (trees_of (one ∷ []))))) ≡ Some 1359 }
    ensures second_trigger { ddl_refusal catalog (create_trigger (trigger (codes "g") times.Before causes.Insert (codes "t") (evaluate (trees_of (one ∷ []))))) ≡ Some 30005 }
    ensures writes_new { map (λ s. ddl_refusal catalog s) (create_trigger (trigger (codes "g") times.Before causes.Update (codes "t") (set_all ((Target.New v, one) ∷ []))) ∷ create_trigger (trigger (codes "g") times.After causes.Update (codes "t") (set_all ((Target.New v, one) ∷ []))) ∷ []) ≡ None ∷ Some 30005 ∷ [] }
{}

/// DROP and TRUNCATE; DROP TABLE takes its triggers along.
pub fn objects_dropped()
    ensures absent { map (λ s. ddl_refusal catalog s) (drop_table (codes "f") ∷ drop_function (codes "p") ∷ drop_procedure (codes "f") ∷ drop_trigger (codes "t") ∷ truncate (codes "f") ∷ []) ≡ Some 1051 ∷ Some 1305 ∷ Some 1305 ∷ Some 1360 ∷ Some 1146 ∷ [] }
    ensures there { map (λ s. ddl_refusal catalog s) (drop_table (codes "t") ∷ drop_function (codes "f") ∷ drop_procedure (codes "p") ∷ drop_trigger (codes "r") ∷ truncate (codes "a") ∷ []) ≡ None ∷ None ∷ None ∷ None ∷ None ∷ [] }
    ensures with_triggers { catalog_after (drop_table (codes "t")) catalog ≡ table (definition_of create_a) ∷ function f ∷ procedure p ∷ [] }
{}

/// Names: 1146, 1054, 1305, 1318, 1193, 1327, 1110, 1136, 1093 and 1364, each where those before it pass.
///
/// - columns: a column of `t` is known in its SELECT, and not outside; a column of `a` is not
/// - in_values: VALUES sees no column, ON DUPLICATE KEY UPDATE the row of `t` and, by VALUES(v), the one to be inserted
/// - calls: 1305, 1318
/// - together: an unknown table comes before an unknown column, wherever they stand
pub fn names_checked()
    ensures no_table { statement_refusal catalog session_scope (select (query all_columns (from_table (codes "n") no_part no_order None))) ≡ Some 1146 }
    ensures columns { map (λ s. statement_refusal catalog session_scope s) (select (query (items (trees_of (name v ∷ []))) (from_table (codes "t") no_part no_order None)) ∷ evaluate (trees_of (name v ∷ [])) ∷ select (query (items (trees_of (column (codes "t") (codes "k") ∷ []))) (from_table (codes "t") no_part no_order None)) ∷ []) ≡ None ∷ Some 1054 ∷ Some 1054 ∷ [] }
    ensures outer { statement_refusal catalog session_scope (select (query (items (trees_of (subquery (query (items (trees_of (name v ∷ []))) (from_table (codes "a") no_part no_order None)) ∷ []))) (from_table (codes "t") no_part no_order None))) ≡ None }
    ensures in_values { map (λ s. statement_refusal catalog session_scope s) (insert_into false (codes "t") None (rows (row_of (one ∷ name v ∷ []))) [] ∷ insert_into false (codes "t") None (rows (row_of (one ∷ values_of v ∷ []))) [] ∷ insert_into false (codes "t") None (rows (row_of (one ∷ one ∷ []))) ((v, name v) ∷ (v, values_of v) ∷ []) ∷ []) ≡ Some 1054 ∷ Some 1054 ∷ None ∷ [] }
    ensures new_row { statement_refusal catalog session_scope (evaluate (trees_of (new_column v ∷ []))) ≡ Some 1054 }
    ensures calls { map (λ s. statement_refusal catalog session_scope s) (evaluate (trees_of (call (codes "p") no_tree ∷ [])) ∷ evaluate (trees_of (call (codes "f") no_tree ∷ [])) ∷ evaluate (trees_of (call (codes "f") (trees_of (one ∷ [])) ∷ [])) ∷ call_procedure (codes "f") no_tree ∷ call_procedure (codes "p") (trees_of (one ∷ [])) ∷ call_procedure (codes "p") no_tree ∷ []) ≡ Some 1305 ∷ Some 1318 ∷ None ∷ Some 1305 ∷ Some 1318 ∷ None ∷ [] }
    ensures variables { map (λ s. statement_refusal catalog session_scope s) (evaluate (trees_of (system_variable (codes "server_id") ∷ [])) ∷ evaluate (trees_of (system_variable (codes "insert_id") ∷ [])) ∷ set_all ((Target.Plain (codes "insert_id"), one) ∷ []) ∷ set_all ((Target.System (codes "server_id"), one) ∷ []) ∷ set_all ((Target.New v, one) ∷ []) ∷ []) ≡ None ∷ Some 1193 ∷ None ∷ Some 1193 ∷ Some 1193 ∷ [] }
    ensures limit { statement_refusal catalog session_scope (delete_rows (codes "t") no_part no_order (Some (counts.Name v))) ≡ Some 1327 }
    ensures twice { statement_refusal catalog session_scope (replace_into (codes "t") (Some (id ∷ id ∷ [])) (rows (row_of (one ∷ [])))) ≡ Some 1110 }
    ensures widths { map (λ s. statement_refusal catalog session_scope s) (replace_into (codes "t") None (rows (row_of (one ∷ []))) ∷ replace_into (codes "t") None (rows_of (query all_columns (from_table (codes "a") no_part no_order None))) ∷ replace_into (codes "t") None (rows_of (query (aggregates (count_all no_aggregate)) (from_table (codes "a") no_part no_order None))) ∷ []) ≡ Some 1136 ∷ None ∷ Some 1136 ∷ [] }
    ensures own_table { map (λ s. statement_refusal catalog session_scope s) (update_rows (codes "t") ((v, subquery (query (aggregates (count_all no_aggregate)) (from_table (codes "t") no_part no_order None))) ∷ []) no_part no_order None ∷ insert_into false (codes "t") None (rows_of (query all_columns (from_table (codes "t") no_part no_order None))) [] ∷ []) ≡ Some 1093 ∷ None ∷ [] }
    ensures left_out { map (λ s. statement_refusal catalog session_scope s) (insert_into true (codes "a") (Some (id ∷ [])) (rows (row_of (one ∷ []))) [] ∷ insert_into false (codes "a") (Some (codes "k" ∷ [])) (rows (row_of (one ∷ []))) [] ∷ insert_into false (codes "t") (Some (id ∷ [])) (rows (row_of (one ∷ []))) [] ∷ []) ≡ Some 1364 ∷ None ∷ None ∷ [] }
    ensures together { statement_refusal catalog session_scope (select (query (items (trees_of (name (codes "x") ∷ []))) (from_table (codes "n") (part (call (codes "g") no_tree)) no_order None))) ≡ Some 1146 }
{}

/// A base: what its statements make, what DROP TABLE leaves, and what a statement that is refused does not make.
pub fn bases_made()
    ensures made { option_and_then (defined (create_table create_a)) (defined (create_table create_t) empty_base) ≡ Some (record { catalog = table (definition_of create_t) ∷ table (definition_of create_a) ∷ []; tables = table_without_rows (definition_of create_t) ∷ table_without_rows (definition_of create_a) ∷ [] }) }
    ensures dropped { option_and_then (defined (drop_table (codes "t"))) (defined (create_table create_t) empty_base) ≡ Some empty_base }
    ensures refused { option_and_then (defined (create_table create_t)) (defined (create_table create_t) empty_base) ≡ None }
    ensures cleared { option_map (λ base. base.tables) (defined (truncate (codes "t")) (record { catalog = table (definition_of create_t) ∷ []; tables = record { definition = definition_of create_t; rows = (Int (pos 1) ∷ Null ∷ []) ∷ [] } ∷ [] })) ≡ Some (table_without_rows (definition_of create_t) ∷ []) }
    ensures in_order { CanBeMade [] catalog }
{}
