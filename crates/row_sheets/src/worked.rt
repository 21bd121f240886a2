//! Transactions on a small table by hand, which the checker computes from the definitions.
//!
//! The table is `pens` of `table_rules`, with the committed pens `red` (1, 'red', 5, NULL) and `blue` (2, NULL, 5, 7).
ghost use Rattle.std.specs.Prelude.{◌≡◌, [], ◌∷◌, codes, pos, reverse, true, None, Some};
ghost use Rattle.val_types.specs.declared.value.Value.TheVariants.{Int, Null};
ghost use Rattle.table_rules.specs.Worked.{blue, pens, red};
ghost use Rattle.row_sheets.specs.Slots.{fill, held, row_slots, rows_in};
ghost use Rattle.row_sheets.specs.Over.{settled};
ghost use Rattle.row_sheets.specs.Claims.{claimed_by, found_by, holder_of, is_claimed, released};
ghost use Rattle.row_sheets.specs.Sheets.{entry_slots, shown, shown_slots};
ghost use Rattle.row_sheets.specs.Worked.{by_text, committed, pink, red_for_third, red_has_pink, red_made_pink, text, third, third_has_red};

/// What is shown: of each key what its entry has, else the committed row; and settled in any order it is committed.
pub fn pens_shown()
    ensures hidden_and_new { shown pens committed red_for_third ≡ blue ∷ third ∷ [] }
    ensures changed { shown pens committed red_made_pink ≡ pink ∷ blue ∷ [] }
    ensures by_key { held (Int (pos 1) ∷ []) (shown_slots pens committed red_for_third) ≡ Some None }
    ensures in_order_of_keys { rows_in (settled (entry_slots pens red_for_third) (row_slots pens committed)) ≡ blue ∷ third ∷ [] }
    ensures in_another_order { rows_in (settled (reverse (entry_slots pens red_for_third)) (row_slots pens committed)) ≡ blue ∷ third ∷ [] }
{}

/// Found by a unique key: a text of which the transaction made another's, one that it gave up, and one that it never touched.
pub fn pens_found()
    ensures claimed { found_by pens by_text (text (codes "red")) third_has_red (entry_slots pens red_for_third) (row_slots pens committed) ≡ Some third }
    ensures new_text { found_by pens by_text (text (codes "pink")) red_has_pink (entry_slots pens red_made_pink) (row_slots pens committed) ≡ Some pink }
    ensures given_up { found_by pens by_text (text (codes "red")) red_has_pink (entry_slots pens red_made_pink) (row_slots pens committed) ≡ None }
    ensures untouched { found_by pens by_text (text (codes "red")) [] [] (row_slots pens committed) ≡ Some red }
    ensures never_null { found_by pens by_text (Null ∷ []) [] [] (row_slots pens committed) ≡ None }
{}

/// Claims: a text that its own committed row has needs none; one that was put and taken back stays claimed, by nobody.
pub fn pens_claimed()
    ensures its_own { claimed_by by_text (Int (pos 1) ∷ []) red (row_slots pens committed) [] ≡ [] }
    ensures of_another { claimed_by by_text (Int (pos 3) ∷ []) third (row_slots pens committed) [] ≡ third_has_red }
    ensures null_text { claimed_by by_text (Int (pos 2) ∷ []) blue (row_slots pens committed) [] ≡ [] }
    ensures nobody { holder_of (text (codes "red")) (released by_text (Int (pos 3) ∷ []) third third_has_red) ≡ None }
    ensures still_claimed { is_claimed (text (codes "red")) (released by_text (Int (pos 3) ∷ []) third third_has_red) ≡ true }
    ensures not_by_others { released by_text (Int (pos 1) ∷ []) red third_has_red ≡ third_has_red }
{}
