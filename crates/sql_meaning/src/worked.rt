//! Worked statements, which the checker computes: values, rows with their counters and keys, programs.
ghost use Rattle.std.specs.Prelude.{◌≡◌, [], ◌∷◌, codes, false, map, neg_ℤ, pos, true, None, Some};
ghost use Rattle.val_types.specs.declared.change.Change.TheVariants.{Insert};
ghost use Rattle.val_types.specs.declared.ops.Agg.TheVariants as aggs;
ghost use Rattle.val_types.specs.declared.ops.BinOp.TheVariants as ops;
ghost use Rattle.val_types.specs.declared.ops.Func0.{Func0};
ghost use Rattle.val_types.specs.declared.ops.Func3.{Func3};
ghost use Rattle.val_types.specs.declared.ops.FuncN.{FuncN};
ghost use Rattle.val_types.specs.declared.value.Value.TheVariants.{Int, Null, Text};
ghost use Rattle.sql_tree.specs.BuiltIns.{on_many, on_none, on_three};
ghost use Rattle.sql_tree.specs.Tree.{aggregate, aggregates, all_columns, binary, call, choice, count_all, exists, floor_rand, from_table, is_in, items, literal, name, new_column, no_aggregate, no_order, no_origin, no_part, old_column, order_by, part, query, subquery, user_variable, values_of};
ghost use Rattle.sql_tree.specs.Statement.{block, delete_rows, evaluate, if_steps, insert_into, no_else, program, replace_into, return_value, rows, rows_of, select, set_all, trigger, update_rows, while_steps};
ghost use Rattle.sql_tree.specs.View.{arms_of, trees_of};
ghost use Rattle.sql_tree.specs.StatementView.{statements_of};
ghost use Rattle.sql_tree.specs.Worked.{declared_as, limit_of, one, parameter_of};
ghost use Rattle.sql_tree.specs.declared.expressions.Count.TheVariants as counts;
ghost use Rattle.sql_tree.specs.declared.statements.Cause.TheVariants as causes;
ghost use Rattle.sql_tree.specs.declared.statements.SqlType.{SqlType};
ghost use Rattle.sql_tree.specs.declared.statements.Target.{Target};
ghost use Rattle.sql_tree.specs.declared.statements.Time.TheVariants as times;
ghost use Rattle.log_entries.specs.catalog_rules.Objects.{function, reaction, table};
ghost use Rattle.log_entries.specs.catalog_rules.Worked.{id, v};
ghost use Rattle.sql_meaning.specs.Changing.{affected_rows};
ghost use Rattle.sql_meaning.specs.Running.{effect};
ghost use Rattle.sql_meaning.specs.Scenes.{done, failed};
ghost use Rattle.sql_meaning.specs.Worked.{a_alone, a_def, a_of, after, code_of, context, counter_of, giving, holding, inserting, n, nothing, r, rows_after, run_in, scene_of, selecting, setting_in, shown, t_alone, t_def, t_of};

/// Expressions: sums past 64 bits, a divisor of 0, mixed kinds; IN stops at the first equal item, and an
/// unknown one goes on to a later equal one; CASE and IF leave out what is not chosen.
pub fn expressions()
    ensures too_large { code_of (run_in [] (selecting (binary ops.Add (n 9223372036854775807) (n 1) ∷ [])) (t_of [])) ≡ 1690 }
    ensures zero_divisor { code_of (run_in [] (selecting (binary ops.Divide (n 1) (n 0) ∷ [])) (t_of [])) ≡ 1365 }
    ensures mixed { code_of (run_in [] (selecting (binary ops.Add (literal (Text (codes "a"))) (n 1) ∷ [])) (t_of [])) ≡ 30002 }
    ensures stops { shown (run_in [] (selecting (is_in false (n 1) (trees_of (n 1 ∷ literal (Text (codes "a")) ∷ [])) ∷ [])) (t_of [])) ≡ Some (r (1 ∷ []) ∷ []) }
    ensures goes_on { shown (run_in [] (selecting (is_in false (n 1) (trees_of (nothing ∷ n 1 ∷ [])) ∷ is_in true (n 1) (trees_of (nothing ∷ n 2 ∷ [])) ∷ is_in true (n 1) (trees_of (n 2 ∷ [])) ∷ [])) (t_of [])) ≡ Some ((Int (pos 1) ∷ Null ∷ Int (pos 1) ∷ []) ∷ []) }
    ensures left_out { shown (run_in [] (selecting (choice (arms_of ((n 0, binary ops.Divide (n 1) (n 0)) ∷ (n 1, n 7) ∷ [])) (part (binary ops.Divide (n 1) (n 0))) ∷ on_three Func3.If nothing (binary ops.Divide (n 1) (n 0)) (n 8) ∷ on_many FuncN.Coalesce (trees_of (nothing ∷ n 9 ∷ binary ops.Divide (n 1) (n 0) ∷ [])) ∷ [])) (t_of [])) ≡ Some (r (7 ∷ 8 ∷ 9 ∷ []) ∷ []) }
    ensures drawn { shown (run_in [] (selecting (floor_rand (n 1073741823) ∷ floor_rand (n 1073741823) ∷ [])) (t_of [])) ≡ Some (r (5 ∷ 55 ∷ []) ∷ []) }
    ensures session { shown (run_in [] (selecting (on_none Func0.UnixTimestamp ∷ on_none Func0.ConnectionId ∷ on_none Func0.LastInsertId ∷ user_variable (codes "x") ∷ [])) (t_of [])) ≡ Some ((Int (pos 1700000000) ∷ Int (pos 1) ∷ Int (pos 0) ∷ Null ∷ []) ∷ []) }
{}

/// SELECT over `t` with the rows (1, 30), (2, 10), (3, 20).
pub fn selected_rows()
    ensures sorted { shown (run_in t_alone (select (query (items (trees_of (name id ∷ []))) (from_table (codes "t") no_part (order_by (name v) false no_order) None))) (t_of (r (1 ∷ 30 ∷ []) ∷ r (2 ∷ 10 ∷ []) ∷ r (3 ∷ 20 ∷ []) ∷ []))) ≡ Some (r (2 ∷ []) ∷ r (3 ∷ []) ∷ r (1 ∷ []) ∷ []) }
    ensures cut_behind { shown (run_in t_alone (select (query all_columns (from_table (codes "t") no_part (order_by (name v) true no_order) (limit_of (counts.Number 1) (Some (counts.Number 1)))))) (t_of (r (1 ∷ 30 ∷ []) ∷ r (2 ∷ 10 ∷ []) ∷ r (3 ∷ 20 ∷ []) ∷ []))) ≡ Some (r (3 ∷ 20 ∷ []) ∷ []) }
    ensures aggregated { shown (run_in t_alone (select (query (aggregates (count_all (aggregate aggs.Sum (name v) no_aggregate))) (from_table (codes "t") (part (binary ops.Less (n 1) (name id))) no_order None))) (t_of (r (1 ∷ 30 ∷ []) ∷ r (2 ∷ 10 ∷ []) ∷ r (3 ∷ 20 ∷ []) ∷ []))) ≡ Some (r (2 ∷ 30 ∷ []) ∷ []) }
    ensures sum_of_none { shown (run_in t_alone (select (query (aggregates (aggregate aggs.Sum (name id) no_aggregate)) (from_table (codes "t") no_part no_order None))) (t_of [])) ≡ Some ((Null ∷ []) ∷ []) }
    ensures two_rows { code_of (run_in t_alone (selecting (subquery (query (items (trees_of (name id ∷ []))) (from_table (codes "t") no_part no_order None)) ∷ [])) (t_of (r (1 ∷ 30 ∷ []) ∷ r (2 ∷ 10 ∷ []) ∷ []))) ≡ 1242 }
    ensures correlated { shown (run_in t_alone (select (query (items (trees_of (exists (query all_columns (from_table (codes "t") (part (binary ops.Equal (name v) (n 10))) no_order None)) ∷ []))) (from_table (codes "t") no_part no_order (limit_of (counts.Number 1) None)))) (t_of (r (1 ∷ 30 ∷ []) ∷ r (2 ∷ 10 ∷ []) ∷ []))) ≡ Some (r (1 ∷ []) ∷ []) }
{}

/// Values generated for `a`: a row whose key is there undoes the statement and leaves the counter; explicit
/// values move it; increment and offset; past the type it is 1467; a forced first value.
pub fn values_generated()
    ensures undone { run_in a_alone (inserting (codes "a") (Some (codes "k" ∷ [])) ((n 1 ∷ []) ∷ (n 1 ∷ []) ∷ (n 2 ∷ []) ∷ [])) (a_of [] 1) ≡ failed 1062 (a_of [] 3) }
    ensures behind_it { run_in a_alone (inserting (codes "a") (Some (codes "k" ∷ [])) ((n 5 ∷ []) ∷ [])) (a_of [] 3) ≡ done (record { affected = 1; shown = None; first = Some (pos 3); last_id = Some (pos 3) }) (record (a_of (r (3 ∷ 5 ∷ []) ∷ []) 4) { changes = Insert (codes "a") (r (3 ∷ 5 ∷ [])) ∷ [] }) }
    ensures explicit { rows_after (run_in a_alone (inserting (codes "a") None ((nothing ∷ n 2 ∷ []) ∷ (n 300 ∷ n 3 ∷ []) ∷ (nothing ∷ n 4 ∷ []) ∷ [])) (a_of (r (149 ∷ 1 ∷ []) ∷ []) 150)) ≡ (r (149 ∷ 1 ∷ []) ∷ r (150 ∷ 2 ∷ []) ∷ r (300 ∷ 3 ∷ []) ∷ r (301 ∷ 4 ∷ []) ∷ []) ∷ [] }
    ensures by_ten { rows_after (effect (setting_in (record context { increment = 10; offset = 3 }) a_alone) 16 [] (inserting (codes "a") (Some (codes "k" ∷ [])) ((n 2 ∷ []) ∷ [])) (a_of [] 4)) ≡ (r (13 ∷ 2 ∷ []) ∷ []) ∷ [] }
    ensures offset_above { rows_after (effect (setting_in (record context { increment = 10; offset = 20 }) a_alone) 16 [] (inserting (codes "a") (Some (codes "k" ∷ [])) ((n 3 ∷ []) ∷ [])) (a_of [] 14)) ≡ (r (20 ∷ 3 ∷ []) ∷ []) ∷ [] }
    ensures past { run_in a_alone (inserting (codes "a") (Some (codes "k" ∷ [])) ((n 2 ∷ []) ∷ [])) (a_of [] 2147483648) ≡ failed 1467 (a_of [] 2147483648) }
    ensures forced { rows_after (effect (setting_in (record context { forced = Some (pos 7) }) a_alone) 16 [] (inserting (codes "a") (Some (codes "k" ∷ [])) ((n 1 ∷ []) ∷ (n 2 ∷ []) ∷ [])) (a_of [] 100)) ≡ (r (7 ∷ 1 ∷ []) ∷ r (8 ∷ 2 ∷ []) ∷ []) ∷ [] }
{}

/// Keys in the way in `t` with the row (1, 10): INSERT, IGNORE, REPLACE and ON DUPLICATE KEY UPDATE with their
/// affected rows; REPLACE of two rows in the way in `a`.
pub fn keys_in_way()
    ensures refused { run_in t_alone (inserting (codes "t") None ((n 2 ∷ n 20 ∷ []) ∷ (n 1 ∷ n 11 ∷ []) ∷ [])) (t_of (r (1 ∷ 10 ∷ []) ∷ [])) ≡ failed 1062 (t_of (r (1 ∷ 10 ∷ []) ∷ [])) }
    ensures ignored { rows_after (run_in t_alone (insert_into true (codes "t") None (rows (trees_of (n 1 ∷ n 11 ∷ []) ∷ trees_of (n 2 ∷ n 20 ∷ []) ∷ [])) []) (t_of (r (1 ∷ 10 ∷ []) ∷ []))) ≡ (r (1 ∷ 10 ∷ []) ∷ r (2 ∷ 20 ∷ []) ∷ []) ∷ [] }
    ensures unchanged { run_in t_alone (insert_into false (codes "t") None (rows (trees_of (n 1 ∷ n 10 ∷ []) ∷ [])) ((v, n 10) ∷ [])) (t_of (r (1 ∷ 10 ∷ []) ∷ [])) ≡ done (affected_rows 0) (t_of (r (1 ∷ 10 ∷ []) ∷ [])) }
    ensures updated { rows_after (run_in t_alone (insert_into false (codes "t") None (rows (trees_of (n 1 ∷ n 20 ∷ []) ∷ [])) ((v, binary ops.Add (values_of v) (n 1)) ∷ [])) (t_of (r (1 ∷ 10 ∷ []) ∷ []))) ≡ (r (1 ∷ 21 ∷ []) ∷ []) ∷ [] }
    ensures replaced { rows_after (run_in t_alone (replace_into (codes "t") None (rows (trees_of (n 1 ∷ n 5 ∷ []) ∷ []))) (t_of (r (1 ∷ 10 ∷ []) ∷ []))) ≡ (r (1 ∷ 5 ∷ []) ∷ []) ∷ [] }
    ensures both_replaced { rows_after (run_in a_alone (replace_into (codes "a") None (rows (trees_of (n 1 ∷ n 8 ∷ []) ∷ []))) (a_of (r (1 ∷ 7 ∷ []) ∷ r (2 ∷ 8 ∷ []) ∷ r (3 ∷ 9 ∷ []) ∷ []) 4)) ≡ (r (1 ∷ 8 ∷ []) ∷ r (3 ∷ 9 ∷ []) ∷ []) ∷ [] }
    ensures not_null { code_of (run_in a_alone (inserting (codes "a") None ((nothing ∷ nothing ∷ []) ∷ [])) (a_of [] 1)) ≡ 1048 }
{}

/// UPDATE and DELETE: later assignments see earlier ones, rows are chosen before the first is changed.
pub fn rows_changed()
    ensures in_turn { rows_after (run_in t_alone (update_rows (codes "t") ((id, binary ops.Add (name id) (n 1)) ∷ (v, name id) ∷ []) no_part (order_by (name id) true no_order) None) (t_of (r (1 ∷ 10 ∷ []) ∷ r (2 ∷ 20 ∷ []) ∷ []))) ≡ (r (2 ∷ 2 ∷ []) ∷ r (3 ∷ 3 ∷ []) ∷ []) ∷ [] }
    ensures taken { run_in t_alone (update_rows (codes "t") ((id, binary ops.Add (name id) (n 1)) ∷ []) no_part no_order None) (t_of (r (1 ∷ 10 ∷ []) ∷ r (2 ∷ 20 ∷ []) ∷ [])) ≡ failed 1062 (t_of (r (1 ∷ 10 ∷ []) ∷ r (2 ∷ 20 ∷ []) ∷ [])) }
    ensures deleted { rows_after (run_in t_alone (delete_rows (codes "t") (part (binary ops.Less (name v) (n 25))) (order_by (name v) true no_order) (Some (counts.Number 1))) (t_of (r (1 ∷ 10 ∷ []) ∷ r (2 ∷ 20 ∷ []) ∷ r (3 ∷ 30 ∷ []) ∷ []))) ≡ (r (1 ∷ 10 ∷ []) ∷ r (3 ∷ 30 ∷ []) ∷ []) ∷ [] }
{}
