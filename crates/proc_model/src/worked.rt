//! Worked procedures, which the checker computes with a runner that tells what stands in a list.
ghost use Rattle.std.specs.Prelude.{◌≡◌, [], ◌∷◌, codes, pos, None, Some, false};
ghost use Rattle.val_types.specs.declared.value.Value.TheVariants.{Int, Text};
ghost use Rattle.val_types.specs.declared.ops.BinOp.TheVariants as ops;
ghost use Rattle.sql_tree.specs.Tree.{binary, items, literal, name, name_const, no_origin, no_part, no_tree, part, query};
ghost use Rattle.sql_tree.specs.Statement.{block, call_procedure, evaluate, if_steps, no_else, select, set_all, while_steps};
ghost use Rattle.sql_tree.specs.StatementView.{branches_of, statements_of};
ghost use Rattle.sql_tree.specs.View.{trees_of};
ghost use Rattle.sql_tree.specs.Worked.{declared_as};
ghost use Rattle.sql_tree.specs.declared.statements.SqlType.{SqlType};
ghost use Rattle.sql_tree.specs.declared.statements.Target.{Target};
ghost use Rattle.sql_reach.specs.sql_meaning.Worked.{inserting, n, r, selecting};
ghost use Rattle.proc_model.specs.Worked.{asked_of, call_with, counting, did, doing, end_of, error, gives, int_local, null_local, ok, refuses, sets_of, shows, to_come_of};
ghost use Rattle.proc_model.specs.Worked as worked;

/// A loop of three turns spends them, and evaluates its condition once more; the local of the innermost block is closed
/// in, and that of a block that ended is not.
pub fn loops_and_locals()
    ensures three_turns { end_of (call_with (counting ∷ []) (codes "w") (3 ∷ []) (gives (0 ∷ []) ∷ gives (1 ∷ []) ∷ gives (1 ∷ []) ∷ gives (1 ∷ []) ∷ gives (2 ∷ []) ∷ gives (1 ∷ []) ∷ gives (3 ∷ []) ∷ gives (0 ∷ []) ∷ [])) ≡ ok 0 }
    ensures spent { (call_with (counting ∷ []) (codes "w") (1 ∷ []) (gives (0 ∷ []) ∷ gives (1 ∷ []) ∷ gives (1 ∷ []) ∷ gives (0 ∷ []) ∷ [])).0.turns ≡ 999999 }
    ensures asked { asked_of (call_with (counting ∷ []) (codes "w") (1 ∷ []) (gives (0 ∷ []) ∷ gives (1 ∷ []) ∷ gives (1 ∷ []) ∷ gives (0 ∷ []) ∷ [])) ≡ worked.evaluate (int_local (codes "n") 1 ∷ []) (trees_of (n 0 ∷ [])) ∷ worked.evaluate (int_local (codes "n") 1 ∷ int_local (codes "i") 0 ∷ []) (trees_of (binary ops.Less (name (codes "i")) (name (codes "n")) ∷ [])) ∷ worked.evaluate (int_local (codes "n") 1 ∷ int_local (codes "i") 0 ∷ []) (trees_of (binary ops.Add (name (codes "i")) (n 1) ∷ [])) ∷ worked.evaluate (int_local (codes "n") 1 ∷ int_local (codes "i") 1 ∷ []) (trees_of (binary ops.Less (name (codes "i")) (name (codes "n")) ∷ [])) ∷ [] }
    ensures closed_in { asked_of (call_with (doing (codes "p") (block (declared_as (codes "a" ∷ codes "b" ∷ []) SqlType.Int (part (n 5)) ∷ []) (statements_of (selecting (name (codes "a") ∷ name (codes "b") ∷ []) ∷ [])) ∷ evaluate (trees_of (name (codes "a") ∷ [])) ∷ []) ∷ []) (codes "p") [] (gives (7 ∷ []) ∷ shows (r (7 ∷ 7 ∷ []) ∷ []) ∷ refuses 1054 ∷ [])) ≡ worked.evaluate [] (trees_of (n 5 ∷ [])) ∷ worked.run (selecting (name_const (codes "a") (Int (pos 7)) ∷ name_const (codes "b") (Int (pos 7)) ∷ [])) ∷ worked.run (evaluate (trees_of (name (codes "a") ∷ []))) ∷ [] }
    ensures sets_stay { sets_of (call_with (doing (codes "p") (block (declared_as (codes "a" ∷ codes "b" ∷ []) SqlType.Int (part (n 5)) ∷ []) (statements_of (selecting (name (codes "a") ∷ name (codes "b") ∷ []) ∷ [])) ∷ evaluate (trees_of (name (codes "a") ∷ [])) ∷ []) ∷ []) (codes "p") [] (gives (7 ∷ []) ∷ shows (r (7 ∷ 7 ∷ []) ∷ []) ∷ refuses 1054 ∷ [])) ≡ (r (7 ∷ 7 ∷ []) ∷ []) ∷ [] }
    ensures no_turn_left { end_of (call_with (counting ∷ []) (codes "w") (3 ∷ []) (gives (0 ∷ []) ∷ refuses 30004 ∷ [])) ≡ error 30004 }
{}

/// An error in the third statement ends a CALL; a SET of which one value does not fit assigns none; a user variable is
/// assigned by itself.
pub fn errors_end_a_call()
    ensures counted { end_of (call_with (doing (codes "q") (inserting (codes "t") None ((n 1 ∷ n 1 ∷ []) ∷ []) ∷ inserting (codes "t") None ((n 2 ∷ n 2 ∷ []) ∷ []) ∷ []) ∷ []) (codes "q") [] (did 1 ∷ did 1 ∷ [])) ≡ ok 2 }
    ensures third { end_of (call_with (doing (codes "q") (inserting (codes "t") None ((n 1 ∷ n 1 ∷ []) ∷ []) ∷ inserting (codes "t") None ((n 2 ∷ n 2 ∷ []) ∷ []) ∷ inserting (codes "t") None ((n 1 ∷ n 3 ∷ []) ∷ []) ∷ selecting (n 1 ∷ []) ∷ []) ∷ []) (codes "q") [] (did 1 ∷ did 1 ∷ refuses 1062 ∷ did 9 ∷ [])) ≡ error 1062 }
    ensures no_fourth { to_come_of (call_with (doing (codes "q") (inserting (codes "t") None ((n 1 ∷ n 1 ∷ []) ∷ []) ∷ inserting (codes "t") None ((n 2 ∷ n 2 ∷ []) ∷ []) ∷ inserting (codes "t") None ((n 1 ∷ n 3 ∷ []) ∷ []) ∷ selecting (n 1 ∷ []) ∷ []) ∷ []) (codes "q") [] (did 1 ∷ did 1 ∷ refuses 1062 ∷ did 9 ∷ [])) ≡ did 9 ∷ [] }
    ensures none_assigned { asked_of (call_with (doing (codes "s") (block (declared_as (codes "a" ∷ []) SqlType.Int no_part ∷ []) (statements_of (set_all ((Target.User (codes "x"), n 1) ∷ (Target.Plain (codes "a"), n 2147483648) ∷ []) ∷ [])) ∷ []) ∷ []) (codes "s") [] (gives (1 ∷ 2147483648 ∷ []) ∷ [])) ≡ worked.evaluate (null_local (codes "a") ∷ []) (trees_of (n 1 ∷ n 2147483648 ∷ [])) ∷ [] }
    ensures misfit { end_of (call_with (doing (codes "s") (block (declared_as (codes "a" ∷ []) SqlType.Int no_part ∷ []) (statements_of (set_all ((Target.User (codes "x"), n 1) ∷ (Target.Plain (codes "a"), n 2147483648) ∷ []) ∷ [])) ∷ []) ∷ []) (codes "s") [] (gives (1 ∷ 2147483648 ∷ []) ∷ [])) ≡ error 1264 }
    ensures assigned { asked_of (call_with (doing (codes "s") (set_all ((Target.User (codes "x"), n 1) ∷ []) ∷ []) ∷ []) (codes "s") [] (gives (1 ∷ []) ∷ [])) ≡ worked.evaluate [] (trees_of (n 1 ∷ [])) ∷ worked.assign (codes "x") (Int (pos 1)) ∷ [] }
{}

/// A CALL inside: its arguments are evaluated before 1456 is seen, and nothing is where there is no such procedure; a
/// procedure that calls others shows their sets and counts their rows.
pub fn calls_inside()
    ensures running { end_of (call_with (doing (codes "p") (call_procedure (codes "p") no_tree ∷ []) ∷ []) (codes "p") [] []) ≡ error 1456 }
    ensures unknown { end_of (call_with (doing (codes "p") (call_procedure (codes "q") (trees_of (n 1 ∷ [])) ∷ []) ∷ []) (codes "p") [] []) ≡ error 1305 }
    ensures unasked { asked_of (call_with (doing (codes "p") (call_procedure (codes "q") (trees_of (n 1 ∷ [])) ∷ []) ∷ []) (codes "p") [] []) ≡ [] }
    ensures miscounted { end_of (call_with (doing (codes "p") (call_procedure (codes "w") no_tree ∷ []) ∷ counting ∷ []) (codes "p") [] []) ≡ error 1318 }
    ensures fitted { end_of (call_with (doing (codes "p") (call_procedure (codes "w") (trees_of (n 2147483648 ∷ [])) ∷ []) ∷ counting ∷ []) (codes "p") [] (gives (2147483648 ∷ []) ∷ [])) ≡ error 1264 }
    ensures summed { end_of (call_with (doing (codes "p") (inserting (codes "t") None ((n 1 ∷ n 1 ∷ []) ∷ []) ∷ call_procedure (codes "q") no_tree ∷ []) ∷ doing (codes "q") (inserting (codes "t") None ((n 2 ∷ n 2 ∷ []) ∷ []) ∷ []) ∷ []) (codes "p") [] (did 1 ∷ did 2 ∷ [])) ≡ ok 3 }
{}
