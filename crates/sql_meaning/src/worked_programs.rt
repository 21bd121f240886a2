//! Worked statements that call functions and fire triggers, which the checker computes.
//!
//! In them `t` has the columns id and v, `l` the columns id AUTO_INCREMENT and w, `u` the columns id and a BIGINT v.
ghost use Rattle.std.specs.Prelude.{◌≡◌, [], ◌∷◌, codes, false, map, pos, true, None, Some};
ghost use Rattle.val_types.specs.declared.ops.BinOp.TheVariants as ops;
ghost use Rattle.val_types.specs.declared.ops.FuncN.{FuncN};
ghost use Rattle.val_types.specs.declared.value.Value.TheVariants.{Int, Null, Text};
ghost use Rattle.sql_tree.specs.BuiltIns.{on_many};
ghost use Rattle.sql_tree.specs.Tree.{all_columns, binary, call, from_table, items, literal, name, new_column, no_order, no_origin, no_part, no_tree, old_column, part, query, user_variable};
ghost use Rattle.sql_tree.specs.Statement.{block, delete_rows, evaluate, if_steps, no_else, program, return_value, set_all, trigger, update_rows, while_steps};
ghost use Rattle.sql_tree.specs.View.{trees_of};
ghost use Rattle.sql_tree.specs.StatementView.{branches_of, statements_of};
ghost use Rattle.sql_tree.specs.Worked.{declared_as, parameter_of};
ghost use Rattle.sql_tree.specs.declared.statements.Cause.TheVariants as causes;
ghost use Rattle.sql_tree.specs.declared.statements.SqlType.{SqlType};
ghost use Rattle.sql_tree.specs.declared.statements.Target.{Target};
ghost use Rattle.sql_tree.specs.declared.statements.Time.TheVariants as times;
ghost use Rattle.log_entries.specs.catalog_rules.Objects.{function, reaction, table};
ghost use Rattle.log_entries.specs.catalog_rules.Worked.{id, v};
ghost use Rattle.sql_meaning.specs.Running.{effect};
ghost use Rattle.sql_meaning.specs.Scenes.{failed};
ghost use Rattle.sql_meaning.specs.Worked.{adding_nine, after, code_of, context, counter_of, counting_to, giving, h, holding, inserting, l_def, n, nothing, r, rows_after, run_in, scene_of, selecting, setting_in, setting_of, shown, t_def, t_of, two_tables, u_def};

/// Functions: one that inserts changes the table that a SELECT calls it over none of; a user variable is read
/// where it is reached; a parameter hides a column; 1442, 1321, 1424, and the result is fitted.
pub fn functions_called()
    ensures inserts { shown (run_in (table t_def ∷ function adding_nine ∷ []) (selecting (call (codes "f") no_tree ∷ [])) (t_of [])) ≡ Some (r (1 ∷ []) ∷ []) }
    ensures row_stays { rows_after (run_in (table t_def ∷ function adding_nine ∷ []) (selecting (call (codes "f") no_tree ∷ [])) (t_of [])) ≡ (r (9 ∷ 9 ∷ []) ∷ []) ∷ [] }
    ensures own_table { code_of (run_in (table t_def ∷ function adding_nine ∷ []) (update_rows (codes "t") ((v, call (codes "f") no_tree) ∷ []) no_part no_order None) (t_of (r (1 ∷ 1 ∷ []) ∷ []))) ≡ 1442 }
    ensures read_below { code_of (run_in (table t_def ∷ function adding_nine ∷ []) (inserting (codes "t") None ((n 1 ∷ call (codes "f") no_tree ∷ []) ∷ [])) (t_of [])) ≡ 1442 }
    ensures variable { rows_after (effect (setting_in (record context { variables = (codes "x", Int (pos 3)) ∷ [] }) (table t_def ∷ function (giving (codes "g") (return_value (on_many FuncN.Coalesce (trees_of (user_variable (codes "x") ∷ n 7 ∷ []))))) ∷ [])) 16 [] (inserting (codes "t") None ((n 2 ∷ call (codes "g") no_tree ∷ []) ∷ [])) (t_of [])) ≡ (r (2 ∷ 3 ∷ []) ∷ []) ∷ [] }
    ensures without_return { code_of (run_in (function (giving (codes "g") (evaluate (trees_of (n 1 ∷ [])))) ∷ []) (selecting (call (codes "g") no_tree ∷ [])) (t_of [])) ≡ 1321 }
    ensures running { code_of (run_in (function (giving (codes "g") (return_value (call (codes "g") no_tree))) ∷ []) (selecting (call (codes "g") no_tree ∷ [])) (t_of [])) ≡ 1424 }
    ensures too_large { code_of (run_in (function (giving (codes "g") (return_value (n 2147483648))) ∷ []) (selecting (call (codes "g") no_tree ∷ [])) (t_of [])) ≡ 1264 }
    ensures unknown_inside { code_of (run_in (function (giving (codes "g") (return_value (name v))) ∷ []) (selecting (call (codes "g") no_tree ∷ [])) (t_of [])) ≡ 1054 }
{}

/// Nesting: with one level left a function runs and the one that it calls does not; loops spend turns, the last one is
/// refused, and turns that were spent stay so.
pub fn nesting_and_turns()
    ensures one_level { code_of (effect (setting_of (function (giving (codes "g") (return_value (n 1))) ∷ [])) 1 [] (selecting (call (codes "g") no_tree ∷ [])) (t_of [])) ≡ 0 }
    ensures too_deep { code_of (effect (setting_of (function (giving (codes "g") (return_value (call (codes "f") no_tree))) ∷ function (giving (codes "f") (return_value (n 1))) ∷ [])) 1 [] (selecting (call (codes "g") no_tree ∷ [])) (t_of [])) ≡ 30003 }
    ensures counted { shown (run_in (function (counting_to 3) ∷ []) (selecting (call (codes "c") no_tree ∷ [])) (t_of [])) ≡ Some (r (3 ∷ []) ∷ []) }
    ensures spent { (after (run_in (function (counting_to 3) ∷ []) (selecting (call (codes "c") no_tree ∷ call (codes "c") no_tree ∷ [])) (t_of []))).turns ≡ 999994 }
    ensures last_turn { code_of (run_in (function (counting_to 3) ∷ []) (selecting (call (codes "c") no_tree ∷ [])) (record (t_of []) { turns = 3 })) ≡ 0 }
    ensures one_more { run_in (function (counting_to 3) ∷ []) (selecting (call (codes "c") no_tree ∷ [])) (record (t_of []) { turns = 2 }) ≡ failed 30004 (record (t_of []) { turns = 0 }) }
{}

/// Triggers: the row of AFTER INSERT goes to `l`; an error in a function that a trigger calls takes the rows of all back; a
/// BEFORE trigger writes NEW before NOT NULL and the keys; a trigger may not change the table of its statement.
pub fn triggers_fired()
    ensures noted { rows_after (run_in (table t_def ∷ table l_def ∷ reaction (trigger (codes "tr") times.After causes.Insert (codes "t") (inserting (codes "l") (Some (codes "w" ∷ [])) ((new_column id ∷ []) ∷ []))) ∷ []) (inserting (codes "t") None ((n 7 ∷ n 1 ∷ []) ∷ [])) (scene_of (holding t_def [] ∷ holding l_def [] ∷ []) (counter_of (codes "t") 1 ∷ counter_of (codes "l") 1 ∷ []))) ≡ (r (7 ∷ 1 ∷ []) ∷ []) ∷ (r (1 ∷ 7 ∷ []) ∷ []) ∷ [] }
    ensures all_back { run_in (table t_def ∷ table u_def ∷ function h ∷ reaction (trigger (codes "b") times.Before causes.Update (codes "t") (inserting (codes "u") None ((old_column id ∷ call (codes "h") (trees_of (old_column id ∷ [])) ∷ []) ∷ []))) ∷ []) (update_rows (codes "t") ((v, n 1) ∷ []) no_part no_order None) (two_tables (r (1 ∷ 0 ∷ []) ∷ r (2 ∷ 0 ∷ []) ∷ r (3 ∷ 0 ∷ []) ∷ r (4 ∷ 0 ∷ []) ∷ r (5 ∷ 0 ∷ []) ∷ [])) ≡ failed 1690 (two_tables (r (1 ∷ 0 ∷ []) ∷ r (2 ∷ 0 ∷ []) ∷ r (3 ∷ 0 ∷ []) ∷ r (4 ∷ 0 ∷ []) ∷ r (5 ∷ 0 ∷ []) ∷ [])) }
    ensures new_written { rows_after (run_in (table t_def ∷ reaction (trigger (codes "b") times.Before causes.Insert (codes "t") (set_all ((Target.New v, binary ops.Add (new_column id) (n 10)) ∷ []))) ∷ []) (inserting (codes "t") None ((n 1 ∷ nothing ∷ []) ∷ [])) (t_of [])) ≡ (r (1 ∷ 11 ∷ []) ∷ []) ∷ [] }
    ensures own_table { code_of (run_in (table t_def ∷ reaction (trigger (codes "b") times.Before causes.Insert (codes "t") (delete_rows (codes "t") no_part no_order None)) ∷ []) (inserting (codes "t") None ((n 1 ∷ n 1 ∷ []) ∷ [])) (t_of [])) ≡ 1442 }
    ensures misfit { code_of (run_in (table t_def ∷ reaction (trigger (codes "b") times.Before causes.Insert (codes "t") (set_all ((Target.New v, literal (Text (codes "x"))) ∷ []))) ∷ []) (inserting (codes "t") None ((n 1 ∷ n 1 ∷ []) ∷ [])) (t_of [])) ≡ 30002 }
{}
