//! Conditions by hand over the table `t` (id, v) with the key id, of which the checker computes what is known before a row is looked at.
ghost use Rattle.std.specs.Prelude.{◌≡◌, [], ◌∷◌, codes, false, neg_ℤ, pos, true, None, Some};
ghost use Rattle.val_types.specs.declared.ops.BinOp.TheVariants as ops;
ghost use Rattle.val_types.specs.declared.ops.UnOp.TheVariants as signs;
ghost use Rattle.val_types.specs.declared.value.Value.TheVariants.{Int, Null, Text};
ghost use Rattle.sql_meaning.specs.catalog_rules.Worked.{id, v};
ghost use Rattle.sql_meaning.specs.Worked.{a_def, n, nothing, r, t_def};
ghost use Rattle.sql_tree.specs.Tree.{binary, column, floor_rand, literal, name, name_const, new_column, part, unary, user_variable};
ghost use Rattle.where_laws.specs.Facts.{above, at_most};
ghost use Rattle.where_laws.specs.Keys.{key_named};
ghost use Rattle.where_laws.specs.Known.{facts_of, known};
ghost use Rattle.where_laws.specs.Worked.{and_also, equals, inside_a, is_number, key_of_t, plain, with_local, with_new, world};

/// Equalities that name the key, either way round, with `<=>`, a sign, a local, NAME_CONST and NEW; what stands behind may draw.
pub fn keys_named()
    ensures column_first { key_of_t plain (equals (name id) (n 7)) ≡ Some (r (7 ∷ [])) }
    ensures column_last { key_of_t plain (equals (n 7) (name id)) ≡ Some (r (7 ∷ [])) }
    ensures of_table { key_of_t plain (binary ops.NullSafeEqual (column (codes "t") id) (n 7)) ≡ Some (r (7 ∷ [])) }
    ensures below_zero { key_of_t plain (equals (name id) (unary signs.Negate (n 7))) ≡ Some (Int (neg_ℤ (pos 7)) ∷ []) }
    ensures with_more { key_of_t plain (and_also (equals (name id) (n 7)) (binary ops.Greater (name v) (floor_rand (n 9)))) ≡ Some (r (7 ∷ [])) }
    ensures of_local { key_of_t (with_local (codes "x") (Int (pos 7))) (equals (name id) (name (codes "x"))) ≡ Some (r (7 ∷ [])) }
    ensures of_constant { key_of_t plain (equals (name id) (name_const (codes "x") (Int (pos 7)))) ≡ Some (r (7 ∷ [])) }
    ensures of_new_row { key_of_t (with_new (r (3 ∷ 4 ∷ []))) (equals (name id) (new_column (codes "k"))) ≡ Some (r (4 ∷ [])) }
{}

/// A name is a local first, then a column of the table, then one of a row in view outside.
pub fn names_hidden()
    ensures local_hides { key_of_t (with_local id (Int (pos 7))) (equals (name id) (n 7)) ≡ None }
    ensures not_with_table { key_of_t (with_local id (Int (pos 7))) (equals (column (codes "t") id) (name id)) ≡ Some (r (7 ∷ [])) }
    ensures column_hides { key_of_t (inside_a (r (3 ∷ 4 ∷ []))) (equals (name id) (name id)) ≡ None }
    ensures of_outer_row { key_of_t (inside_a (r (3 ∷ 4 ∷ []))) (equals (name id) (column (codes "a") id)) ≡ Some (r (3 ∷ [])) }
    ensures outer_name { key_of_t (inside_a (r (3 ∷ 4 ∷ []))) (equals (name id) (name (codes "k"))) ≡ Some (r (4 ∷ [])) }
{}

/// Conditions that name no key: another operator above, NULL, a value of another kind, another column, one that may fail first.
pub fn no_key_named()
    ensures either { key_of_t plain (binary ops.Or (equals (name id) (n 7)) (equals (name v) (n 1))) ≡ None }
    ensures negated { key_of_t plain (unary signs.Not (equals (name id) (n 7))) ≡ None }
    ensures null { key_of_t plain (equals (name id) nothing) ≡ None }
    ensures a_text { key_of_t plain (equals (name id) (literal (Text (codes "7")))) ≡ None }
    ensures not_set { key_of_t plain (equals (name id) (user_variable (codes "x"))) ≡ None }
    ensures other_column { key_of_t plain (equals (name v) (n 7)) ≡ None }
    ensures draws_first { key_of_t plain (and_also (binary ops.Greater (name v) (floor_rand (n 9))) (equals (name id) (n 7))) ≡ None }
    ensures fails_first { key_of_t plain (and_also (equals (name v) (literal (Text (codes "a")))) (equals (name id) (n 7))) ≡ None }
{}

/// What is known of the parts of an AND: a range; what stands before an equality, where it is quiet, or leaves it out, where it may
/// be unknown and more stands behind; the unique key of the table `a` (id, k).
pub fn facts_known()
    ensures range { facts_of world plain t_def (part (and_also (binary ops.Less (n 5) (name id)) (binary ops.LessOrEqual (name id) (n 9)))) ≡ record { place = 0; way = above; value = Int (pos 5) } ∷ record { place = 0; way = at_most; value = Int (pos 9) } ∷ [] }
    ensures quiet_first { key_of_t plain (and_also (unary signs.IsNull (name v)) (equals (name id) (n 7))) ≡ Some (r (7 ∷ [])) }
    ensures nullable_first { facts_of world plain t_def (part (and_also (equals (name v) (n 1)) (equals (name id) (n 7)))) ≡ is_number 1 1 ∷ is_number 0 7 ∷ [] }
    ensures nullable_before { facts_of world plain t_def (part (and_also (equals (name v) (n 1)) (equals (floor_rand (n 9)) (n 7)))) ≡ [] }
    ensures whole { (known world plain t_def (equals (name id) (n 7))).whole ≡ true }
    ensures unique { key_named (facts_of world plain a_def (part (equals (name (codes "k")) (n 5)))) (1 ∷ []) ≡ Some (r (5 ∷ [])) }
    ensures not_whole { (known world plain t_def (equals (name v) (n 7))).whole ≡ false }
{}
