//! Texts, orders, fitting and keys by hand, which the checker computes from the definitions.
//!
//! The table `small` has the columns INT NOT NULL, INT and VARCHAR(2), the primary key (third, first)
//! and a unique key on the second.
ghost use Rattle.std.specs.Prelude.{◌≡◌, [], ◌∷◌, codes, false, neg_ℤ, pos, true, Err, Ok};
ghost use Rattle.std.specs.declared.cmp.Ordering.TheVariants.{Equal, Greater, Less};
ghost use Rattle.val_types.specs.declared.value.Value.TheVariants.{Int, Null, Text};
ghost use Rattle.val_types.specs.declared.definitions.ColType.TheVariants.{BigInt, Int as IntType, Varchar};
ghost use Rattle.val_types.specs.Fitting.{fitting, row_fits};
ghost use Rattle.val_types.specs.Keys.{collide, primary_key};
ghost use Rattle.val_types.specs.Order.{key_order};
ghost use Rattle.val_types.specs.Text.{row_text_of, text_of};
ghost use Rattle.val_types.specs.Worked.{small};

/// Values as text: a quote, a backslash and each byte outside 20 to 7E make it hexadecimal.
pub fn texts_of_values()
    ensures null { text_of Null ≡ codes "NULL" }
    ensures empty { text_of (Text []) ≡ codes "''" }
    ensures plain { text_of (Text (codes " pen~")) ≡ codes "' pen~'" }
    ensures quote { text_of (Text (codes "it's")) ≡ codes "X'69742773'" }
    ensures backslash { text_of (Text (97 ∷ 92 ∷ [])) ≡ codes "X'615C'" }
    ensures low { text_of (Text (31 ∷ [])) ≡ codes "X'1F'" }
    ensures high { text_of (Text (127 ∷ 255 ∷ [])) ≡ codes "X'7FFF'" }
    ensures row { row_text_of (Text [] ∷ Null ∷ Text (codes "a") ∷ []) ≡ codes "'', NULL, 'a'" }
    ensures no_values { row_text_of [] ≡ [] }
{}

/// Keys in order: NULL, then numbers, then texts by their bytes; the front of a key comes before it.
pub fn orders_of_keys()
    ensures null_first { key_order (Null ∷ []) (Int (neg_ℤ (pos 9223372036854775808)) ∷ []) ≡ Less }
    ensures numbers { key_order (Int (neg_ℤ (pos 2)) ∷ []) (Int (pos 1) ∷ []) ≡ Less }
    ensures texts_last { key_order (Text [] ∷ []) (Int (pos 9223372036854775807) ∷ []) ≡ Greater }
    ensures bytes { key_order (Text (codes "B") ∷ []) (Text (codes "a") ∷ []) ≡ Less }
    ensures front { key_order (Int (pos 1) ∷ []) (Int (pos 1) ∷ Null ∷ []) ≡ Less }
    ensures first_counts { key_order (Int (pos 1) ∷ Int (pos 9) ∷ []) (Int (pos 2) ∷ Int (pos 0) ∷ []) ≡ Less }
    ensures both_null { key_order (Null ∷ []) (Null ∷ []) ≡ Equal }
{}

/// Values in columns: 1264 past the range, 1406 for a text too long, 30002 where the kinds differ.
pub fn values_that_fit()
    ensures null { fitting IntType Null ≡ Ok tt }
    ensures greatest { fitting IntType (Int (pos 2147483647)) ≡ Ok tt }
    ensures past { fitting IntType (Int (pos 2147483648)) ≡ Err 1264 }
    ensures least { fitting IntType (Int (neg_ℤ (pos 2147483648))) ≡ Ok tt }
    ensures below { fitting IntType (Int (neg_ℤ (pos 2147483649))) ≡ Err 1264 }
    ensures wide { fitting BigInt (Int (pos 2147483648)) ≡ Ok tt }
    ensures text_of_digits { fitting BigInt (Text (codes "1")) ≡ Err 30002 }
    ensures whole_text { fitting (Varchar 3) (Text (codes "abc")) ≡ Ok tt }
    ensures long_text { fitting (Varchar 3) (Text (codes "abcd")) ≡ Err 1406 }
    ensures no_bytes { fitting (Varchar 0) (Text []) ≡ Ok tt }
    ensures number_in_text { fitting (Varchar 3) (Int (pos 1)) ≡ Err 30002 }
{}

/// Rows in the table: one value a column, NULL only where the column allows it.
pub fn rows_that_fit()
    ensures whole { row_fits small.columns (Int (pos 1) ∷ Null ∷ Text (codes "ab") ∷ []) ≡ true }
    ensures null_in_the_key { row_fits small.columns (Null ∷ Int (pos 2) ∷ Null ∷ []) ≡ false }
    ensures short { row_fits small.columns (Int (pos 1) ∷ Int (pos 2) ∷ []) ≡ false }
    ensures long { row_fits small.columns (Int (pos 1) ∷ Int (pos 2) ∷ Null ∷ Null ∷ []) ≡ false }
    ensures long_text { row_fits small.columns (Int (pos 1) ∷ Int (pos 2) ∷ Text (codes "abc") ∷ []) ≡ false }
    ensures mixed { row_fits small.columns (Int (pos 1) ∷ Text (codes "2") ∷ Null ∷ []) ≡ false }
{}

/// Keys of rows, in the key's own order; two rows collide by the primary key or by a unique key
/// without a NULL part.
pub fn keys_of_rows()
    ensures in_order { primary_key small (Int (pos 1) ∷ Null ∷ Text (codes "ab") ∷ []) ≡ Text (codes "ab") ∷ Int (pos 1) ∷ [] }
    ensures missing { primary_key small (Int (pos 1) ∷ Int (pos 2) ∷ []) ≡ Null ∷ Int (pos 1) ∷ [] }
    ensures by_primary { collide small (Int (pos 1) ∷ Null ∷ Null ∷ []) (Int (pos 1) ∷ Int (pos 5) ∷ Null ∷ []) ≡ true }
    ensures by_unique { collide small (Int (pos 1) ∷ Int (pos 5) ∷ Null ∷ []) (Int (pos 2) ∷ Int (pos 5) ∷ Null ∷ []) ≡ true }
    ensures by_unknown { collide small (Int (pos 1) ∷ Null ∷ Null ∷ []) (Int (pos 2) ∷ Null ∷ Null ∷ []) ≡ false }
{}
