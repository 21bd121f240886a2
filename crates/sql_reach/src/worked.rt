//! Worked examples: what is reached, unsafe, carried and closed, which the checker computes.
ghost use Rattle.std.specs.Prelude.{◌≡◌, [], ◌∷◌, codes, false, map, neg_ℤ, pos, true, None, Some};
ghost use Rattle.val_types.specs.declared.ops.BinOp.TheVariants as ops;
ghost use Rattle.val_types.specs.declared.ops.Func0.{Func0};
ghost use Rattle.val_types.specs.declared.value.Value.TheVariants.{Int, Null, Text};
ghost use Rattle.sql_tree.specs.BuiltIns.{on_none};
ghost use Rattle.sql_tree.specs.Tree.{all_columns, binary, call, floor_rand, from_table, items, name, name_const, no_order, no_origin, no_part, no_tree, part, query, system_variable, user_variable};
ghost use Rattle.sql_tree.specs.Statement.{delete_rows, drop_table, insert_into, replace_into, rows, rows_of, select, update_rows};
ghost use Rattle.sql_tree.specs.View.{trees_of};
ghost use Rattle.sql_tree.specs.Worked.{row_of};
ghost use Rattle.sql_tree.specs.declared.expressions.Count.TheVariants as counts;
ghost use Rattle.sql_meaning.specs.catalog_rules.Objects.{function, table};
ghost use Rattle.sql_meaning.specs.catalog_rules.Worked.{id, v};
ghost use Rattle.sql_meaning.specs.Worked.{a_def, adding_nine, context, inserting, n, selecting, t_def};
ghost use Rattle.sql_reach.specs.Carrying.{carried};
ghost use Rattle.sql_reach.specs.Closing.{closed};
ghost use Rattle.sql_reach.specs.Reach.{writes};
ghost use Rattle.sql_reach.specs.Reasons.{a_counted_program, a_counted_select, a_function, a_limited, a_variable, ignored_select, reasons, replaced_select, two_keys, updated_select};
ghost use Rattle.sql_reach.specs.Worked.{local_of, two_locals, u_and_w, with_trigger};

/// Which statements need the writer's lock: changes, definitions, and those that reach a function with a change in it.
pub fn writing_statements()
    ensures changes { map (λ s. writes (table t_def ∷ function adding_nine ∷ []) s) (delete_rows (codes "t") no_part no_order None ∷ drop_table (codes "t") ∷ selecting (n 1 ∷ []) ∷ []) ≡ true ∷ true ∷ false ∷ [] }
    ensures calls { map (λ s. writes (table t_def ∷ function adding_nine ∷ []) s) (selecting (call (codes "f") no_tree ∷ []) ∷ selecting (call (codes "g") no_tree ∷ []) ∷ []) ≡ true ∷ false ∷ [] }
{}

/// Reasons: those of the statement itself, of a function behind a function, of a trigger; a trigger for another event
/// is none.
pub fn unsafe_statements()
    ensures safe { reasons (table t_def ∷ []) (inserting (codes "t") None ((on_none Func0.Now ∷ on_none Func0.LastInsertId ∷ user_variable (codes "x") ∷ []) ∷ [])) ≡ [] }
    ensures reached { reasons u_and_w (selecting (call (codes "w") no_tree ∷ [])) ≡ a_function ∷ [] }
    ensures drawn { reasons [] (selecting (floor_rand (n 2) ∷ system_variable (codes "server_id") ∷ [])) ≡ a_function ∷ a_variable ∷ [] }
    ensures by_trigger { reasons with_trigger (inserting (codes "t") None ((n 1 ∷ n 1 ∷ []) ∷ [])) ≡ a_counted_program ∷ [] }
    ensures other_event { reasons with_trigger (delete_rows (codes "t") no_part no_order None) ≡ [] }
    ensures limit { reasons with_trigger (delete_rows (codes "t") no_part no_order (Some (counts.Number 1))) ≡ a_limited ∷ [] }
    ensures own_counter { reasons (table a_def ∷ []) (inserting (codes "a") (Some (codes "k" ∷ [])) ((n 1 ∷ []) ∷ [])) ≡ [] }
    ensures selected { reasons (table a_def ∷ []) (insert_into true (codes "a") None (rows_of (query all_columns (from_table (codes "a") no_part no_order None))) ((codes "k", n 1) ∷ [])) ≡ a_counted_select ∷ two_keys ∷ ignored_select ∷ updated_select ∷ [] }
    ensures replaced { reasons (table t_def ∷ []) (replace_into (codes "t") None (rows_of (query all_columns (from_table (codes "t") no_part no_order None)))) ≡ replaced_select ∷ [] }
{}

/// What is carried: nothing that is not reached; the variables in the order of their bytes, each once, NULL where it was
/// never set.
pub fn carried_parts()
    ensures nothing { carried [] (selecting (n 1 ∷ [])) context None ≡ record { stamp = 1700000000; connection = 1; inc = 1; off = 1; last_id = None; first = None; seeds = None; vars = [] } }
    ensures all { carried [] (selecting (user_variable (codes "y") ∷ user_variable (codes "b") ∷ user_variable (codes "y") ∷ on_none Func0.LastInsertId ∷ floor_rand (n 2) ∷ [])) (record context { variables = (codes "b", Int (pos 3)) ∷ [] }) (Some (pos 7)) ≡ record { stamp = 1700000000; connection = 1; inc = 1; off = 1; last_id = Some (pos 0); first = Some (pos 7); seeds = Some (1, 2); vars = (codes "b", Int (pos 3)) ∷ (codes "y", Null) ∷ [] } }
{}

/// Locals closed in: `INSERT INTO n VALUES (1, 7, b)`, `UPDATE n SET v = v + 1 WHERE id = 1 LIMIT v` with v = -5 and b = X'0027';
/// a LIMIT that is no number from 0 stays a name, and one that is becomes it.
pub fn closed_statements()
    ensures inserted { closed (inserting (codes "n") None ((n 1 ∷ n 7 ∷ name (codes "b") ∷ []) ∷ [])) two_locals ≡ inserting (codes "n") None ((n 1 ∷ n 7 ∷ name_const (codes "b") (Text (0 ∷ 39 ∷ [])) ∷ []) ∷ []) }
    ensures updated { closed (update_rows (codes "n") ((v, binary ops.Add (name v) (n 1)) ∷ []) (part (binary ops.Equal (name id) (n 1))) no_order (Some (counts.Name v))) two_locals ≡ update_rows (codes "n") ((v, binary ops.Add (name_const v (Int (neg_ℤ (pos 5)))) (n 1)) ∷ []) (part (binary ops.Equal (name id) (n 1))) no_order (Some (counts.Name v)) }
    ensures limited { closed (delete_rows (codes "n") no_part no_order (Some (counts.Name v))) (local_of v (Int (pos 3)) ∷ []) ≡ delete_rows (codes "n") no_part no_order (Some (counts.Number 3)) }
    ensures last_counts { closed (selecting (name v ∷ [])) (local_of v (Int (pos 1)) ∷ local_of v (Int (pos 2)) ∷ []) ≡ selecting (name_const v (Int (pos 2)) ∷ []) }
{}
