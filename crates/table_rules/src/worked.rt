//! Keys in the way and changes by hand, which the checker computes from the definitions.
//!
//! The table `pens` has a number as its primary key, a unique key of a text and one of two numbers, and
//! the rows `red` (1, 'red', 5, NULL) and `blue` (2, NULL, 5, 7).
ghost use Rattle.std.specs.Prelude.{◌≡◌, [], ◌∷◌, codes, pos, Err, None, Ok, Some};
ghost use Rattle.val_types.specs.declared.change.Change.TheVariants.{Delete, Insert, Update};
ghost use Rattle.val_types.specs.declared.value.Value.TheVariants.{Int, Null, Text};
ghost use Rattle.table_rules.specs.Changes.{applied};
ghost use Rattle.table_rules.specs.Stored.{deletion, insertion, key_in_way, key_taken, keys_at, replacement, row_absent};
ghost use Rattle.table_rules.specs.Worked.{blue, pens, red, some_pens};

/// The first key that a row has in common with one that is there: the primary key comes first, and a
/// key with a NULL part agrees with none.
pub fn keys_in_the_way()
    ensures primary_first { key_in_way pens (Int (pos 2) ∷ Text (codes "red") ∷ Int (pos 5) ∷ Int (pos 7) ∷ []) (red ∷ blue ∷ []) ≡ Some 0 }
    ensures first_unique_key { key_in_way pens (Int (pos 3) ∷ Text (codes "red") ∷ Int (pos 5) ∷ Int (pos 7) ∷ []) (red ∷ blue ∷ []) ≡ Some 1 }
    ensures second_unique_key { key_in_way pens (Int (pos 3) ∷ Null ∷ Int (pos 5) ∷ Int (pos 7) ∷ []) (red ∷ blue ∷ []) ≡ Some 2 }
    ensures unknown_part { key_in_way pens (Int (pos 3) ∷ Null ∷ Int (pos 5) ∷ Null ∷ []) (red ∷ blue ∷ []) ≡ None }
{}

/// What storing a row comes to, and what a change makes of the tables.
#[tactic(auto, unfolding(crate::specs::Stored::insertion, crate::specs::Stored::replacement, crate::specs::Stored::deletion))]
pub fn changes_of_pens()
    ensures its_own_keys { replacement (codes "pens") (Int (pos 2) ∷ []) blue some_pens ≡ Ok (Update (codes "pens") blue blue) }
    ensures key_of_another { replacement (codes "pens") (Int (pos 2) ∷ []) red some_pens ≡ Err (key_taken 0) }
    ensures no_such_pen { deletion (codes "pens") (Int (pos 3) ∷ []) some_pens ≡ Err row_absent }
    ensures no_such_table { insertion (codes "ink") red some_pens ≡ Err row_absent }
    ensures not_that_row { applied (Delete (codes "pens") (Int (pos 1) ∷ [])) some_pens ≡ None }
    ensures taken_out { keys_at (codes "pens") some_pens ≡ (Int (pos 1) ∷ []) ∷ (Int (pos 2) ∷ []) ∷ [] }
{}
