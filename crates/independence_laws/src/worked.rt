//! Worked examples: which statements are followed, which the checker computes.
ghost use Rattle.std.specs.Prelude.{◌≡◌, [], ◌∷◌, codes, false, map, true, None, Some};
ghost use Rattle.val_types.specs.declared.ops.Func0.{Func0};
ghost use Rattle.sql_tree.specs.BuiltIns.{on_none};
ghost use Rattle.sql_tree.specs.Tree.{call, floor_rand, no_order, no_part, no_tree, part, system_variable};
ghost use Rattle.sql_tree.specs.Statement.{delete_rows};
ghost use Rattle.sql_tree.specs.declared.expressions.Count.TheVariants as counts;
ghost use Rattle.session_ctx.specs.catalog_rules.Objects.{table};
ghost use Rattle.session_ctx.specs.sql_meaning.Worked.{a_def, inserting, n, selecting};
ghost use Rattle.reach_laws.specs.sql_reach.Worked.{u_and_w, with_trigger};
ghost use Rattle.independence_laws.specs.Followed.{is_followed, is_unsafe_by_rand_alone};

/// RAND() alone; beside it USER(), @@server_id or a LIMIT. UUID() behind a function behind a function, NOW(); a trigger that
/// inserts into a table with AUTO_INCREMENT, the same trigger where it waits for another event, also with a LIMIT; an INSERT
/// that itself generates a value.
pub fn followed_statements()
    ensures rand { map (is_unsafe_by_rand_alone []) (selecting (floor_rand (n 2) ∷ []) ∷ selecting (floor_rand (n 2) ∷ on_none Func0.User ∷ []) ∷ selecting (floor_rand (n 2) ∷ system_variable (codes "server_id") ∷ []) ∷ []) ≡ true ∷ false ∷ false ∷ [] }
    ensures limit { is_unsafe_by_rand_alone with_trigger (delete_rows (codes "t") (part (floor_rand (n 2))) no_order (Some (counts.Number 1))) ≡ false }
    ensures functions { map (is_followed u_and_w) (selecting (call (codes "w") no_tree ∷ []) ∷ selecting (floor_rand (n 2) ∷ on_none Func0.Now ∷ []) ∷ []) ≡ false ∷ true ∷ [] }
    ensures triggers { map (is_followed with_trigger) (inserting (codes "t") None ((n 1 ∷ n 1 ∷ []) ∷ []) ∷ delete_rows (codes "t") no_part no_order None ∷ delete_rows (codes "t") no_part no_order (Some (counts.Number 1)) ∷ []) ≡ false ∷ true ∷ true ∷ [] }
    ensures generated { is_followed (table a_def ∷ []) (inserting (codes "a") (Some (codes "k" ∷ [])) ((n 1 ∷ []) ∷ [])) ≡ true }
{}
