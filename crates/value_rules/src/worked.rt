//! Values by hand, which the checker computes from the definitions.
ghost use Rattle.std.specs.Prelude.{◌≡◌, [], ◌∷◌, codes, false, map, neg_ℤ, pos, true, Err, List, Ok, ℕ};
ghost use Rattle.std.specs.Ordering.{is_lt};
ghost use Rattle.val_types.specs.declared.value.Value.{Value};
ghost use Rattle.val_types.specs.declared.value.Value.TheVariants.{Int, Null, Text};
ghost use Rattle.val_types.specs.declared.ops.Agg.TheVariants.{Count, Max, Min, Sum};
ghost use Rattle.val_types.specs.declared.ops.BinOp.TheVariants.{Add, And, Divide, Equal, Less, Modulo, Multiply, NullSafeEqual, Or, Subtract};
ghost use Rattle.val_types.specs.declared.ops.Func.{Func};
ghost use Rattle.val_types.specs.declared.ops.Func1.{Func1};
ghost use Rattle.val_types.specs.declared.ops.Func2.{Func2};
ghost use Rattle.val_types.specs.declared.ops.Func3.{Func3};
ghost use Rattle.val_types.specs.declared.ops.FuncN.{FuncN};
ghost use Rattle.val_types.specs.declared.ops.UnOp.TheVariants.{IsNotNull, IsNull, Negate, Not};
ghost use Rattle.value_rules.specs.Functions.{builtin_value, takes};
ghost use Rattle.value_rules.specs.Identifiers.{uuid_text};
ghost use Rattle.value_rules.specs.Moments.{moment_text};
ghost use Rattle.value_rules.specs.Operators.{binary_value, unary_value};
ghost use Rattle.value_rules.specs.Random.{scaled, seeds_after};
ghost use Rattle.value_rules.specs.Selecting.{aggregate_value, by_items, cut, in_order};

/// Arithmetic: the ends of 64 bits, DIV toward zero, MOD with the sign of the dividend; kinds come
/// before NULL, and NULL before the divisor 0.
pub fn sums_and_quotients()
    ensures most { binary_value Add (Int (pos 9223372036854775807)) (Int (pos 1)) ≡ Err 1690 }
    ensures least { binary_value Subtract (Int (neg_ℤ (pos 9223372036854775808))) (Int (pos 1)) ≡ Err 1690 }
    ensures product { binary_value Multiply (Int (neg_ℤ (pos 3))) (Int (pos 5)) ≡ Ok (Int (neg_ℤ (pos 15))) }
    ensures zero_divisor { binary_value Divide (Int (pos 1)) (Int (pos 0)) ≡ Err 1365 }
    ensures text_in_arithmetic { binary_value Add (Text (codes "a")) Null ≡ Err 30002 }
    ensures unknown_before_zero { binary_value Divide Null (Int (pos 0)) ≡ Ok Null }
    ensures toward_zero { binary_value Divide (Int (neg_ℤ (pos 7))) (Int (pos 2)) ≡ Ok (Int (neg_ℤ (pos 3))) }
    ensures sign_of_dividend { binary_value Modulo (Int (neg_ℤ (pos 7))) (Int (pos 2)) ≡ Ok (Int (neg_ℤ (pos 1))) }
    ensures least_by_minus_one { binary_value Modulo (Int (neg_ℤ (pos 9223372036854775808))) (Int (neg_ℤ (pos 1))) ≡ Ok (Int (pos 0)) }
    ensures least_negated { unary_value Negate (Int (neg_ℤ (pos 9223372036854775808))) ≡ Err 1690 }
{}

/// Comparisons and conditions: NULL comes before kinds, but not for `<=>`; what is decided on the left
/// leaves the right operand out.
pub fn comparisons_and_conditions()
    ensures unknown_comparison { binary_value Equal Null (Text (codes "a")) ≡ Ok Null }
    ensures mixed_comparison { binary_value NullSafeEqual (Int (pos 1)) (Text (codes "1")) ≡ Err 30002 }
    ensures both_unknown { binary_value NullSafeEqual Null Null ≡ Ok (Int (pos 1)) }
    ensures front_is_less { binary_value Less (Text (codes "a")) (Text (codes "ab")) ≡ Ok (Int (pos 1)) }
    ensures left_out { binary_value And (Int (pos 0)) (Text (codes "a")) ≡ Ok (Int (pos 0)) }
    ensures unknown_or_true { binary_value Or Null (Int (pos 7)) ≡ Ok (Int (pos 1)) }
    ensures text_is_no_condition { unary_value Not (Text (codes "1")) ≡ Err 30002 }
    ensures known { unary_value IsNotNull (Text []) ≡ Ok (Int (pos 1)) }
    ensures unknown { unary_value IsNull (Int (pos 0)) ≡ Ok (Int (pos 0)) }
{}

/// Built-in functions: NULL comes before kinds, places count from 1 and from the end.
pub fn built_in_functions()
    ensures joined_texts { builtin_value (Func.Many FuncN.Concat) (Text (codes "left ") ∷ Text [] ∷ Text (codes "over") ∷ []) ≡ Ok (Text (codes "left over")) }
    ensures joined_with_null { builtin_value (Func.Many FuncN.Concat) (Text (codes "a") ∷ Null ∷ []) ≡ Ok Null }
    ensures from_the_end { builtin_value (Func.Three Func3.Substring) (Text (codes "journal") ∷ Int (neg_ℤ (pos 3)) ∷ Int (pos 2) ∷ []) ≡ Ok (Text (codes "na")) }
    ensures from_zero { builtin_value (Func.Three Func3.Substring) (Text (codes "journal") ∷ Int (pos 0) ∷ Int (pos 2) ∷ []) ≡ Ok (Text []) }
    ensures from_nothing { builtin_value (Func.Three Func3.Substring) (Null ∷ Text (codes "x") ∷ Int (pos 1) ∷ []) ≡ Ok Null }
    ensures of_a_number { builtin_value (Func.One Func1.Length) (Int (pos 5) ∷ []) ≡ Err 30002 }
    ensures absolute_least { builtin_value (Func.One Func1.Abs) (Int (neg_ℤ (pos 9223372036854775808)) ∷ []) ≡ Err 1690 }
    ensures chosen_by_null { builtin_value (Func.Three Func3.If) (Null ∷ Int (pos 1) ∷ Int (pos 2) ∷ []) ≡ Ok (Int (pos 2)) }
    ensures first_known { builtin_value (Func.Many FuncN.Coalesce) (Null ∷ Int (pos 3) ∷ Null ∷ []) ≡ Ok (Int (pos 3)) }
    ensures known_first { builtin_value (Func.Two Func2.IfNull) (Null ∷ Null ∷ []) ≡ Ok Null }
    ensures none_at_all { takes (Func.Many FuncN.Coalesce) 0 ≡ false }
    ensures two_of_three { takes (Func.Three Func3.Substring) 2 ≡ false }
{}

/// RAND(): with the seeds 1 and 2 the draws for n = 1073741823 give 5 and 55; the floor of a negative
/// product is the number below it.
pub fn draws()
    ensures first { seeds_after 1 2 ≡ (5, 40) }
    ensures second { seeds_after 5 40 ≡ (55, 128) }
    ensures whole { scaled 55 (Int (pos 1073741823)) ≡ Ok (Int (pos 55)) }
    ensures below_zero { scaled 55 (Int (neg_ℤ (pos 1))) ≡ Ok (Int (neg_ℤ (pos 1))) }
    ensures unknown { scaled 55 Null ≡ Ok Null }
{}

/// Moments: the last one of 32 bits, a leap day, and 2100, which has none.
pub fn moments()
    ensures first_second { moment_text 0 ≡ codes "1970-01-01 00:00:00" }
    ensures last_second { moment_text 4294967295 ≡ codes "2106-02-07 06:28:15" }
    ensures leap_day { moment_text 951782400 ≡ codes "2000-02-29 00:00:00" }
    ensures day_before_no_leap_day { moment_text 4107542399 ≡ codes "2100-02-28 23:59:59" }
    ensures no_leap_day { moment_text 4107542400 ≡ codes "2100-03-01 00:00:00" }
{}

/// UUIDs: the most significant byte comes first.
pub fn uuids()
    ensures sixteen { uuid_text 16 ≡ codes "00000000-0000-0000-0000-000000000010" }
    ensures highest { uuid_text 0xfedcba98765432100123456789abcdef ≡ codes "fedcba98-7654-3210-0123-456789abcdef" }
{}

/// Rows numbered from 0 with two items each, the first rising, the second falling: NULL first, and
/// those that are alike as they stood; then the two behind the first.
pub fn rows_in_order()
    ensures ordered { map (λ row. row.1) (in_order {X = List Value × ℕ} (λ a b. is_lt (by_items (false ∷ true ∷ []) a.0 b.0)) ((Int (pos 2) ∷ Text (codes "x") ∷ [], 0) ∷ (Int (pos 1) ∷ Text (codes "y") ∷ [], 1) ∷ (Int (pos 2) ∷ Text (codes "y") ∷ [], 2) ∷ (Null ∷ Int (pos 9) ∷ [], 3) ∷ (Int (pos 1) ∷ Text (codes "y") ∷ [], 4) ∷ [])) ≡ 3 ∷ 1 ∷ 4 ∷ 2 ∷ 0 ∷ [] }
    ensures part { cut {X = ℕ} 1 2 (3 ∷ 1 ∷ 4 ∷ 2 ∷ 0 ∷ []) ≡ 1 ∷ 4 ∷ [] }
    ensures past { cut {X = ℕ} 4 2 (3 ∷ 1 ∷ 4 ∷ 2 ∷ 0 ∷ []) ≡ 0 ∷ [] }
{}

/// Aggregates: NULLs are passed over, of nothing SUM, MIN and MAX are NULL, a sum is exact before it is
/// too large, numbers and texts do not mix but for COUNT.
pub fn aggregates_of_values()
    ensures counted { aggregate_value Count (Int (pos 1) ∷ Null ∷ Text (codes "a") ∷ []) ≡ Ok (Int (pos 2)) }
    ensures summed { aggregate_value Sum (Int (pos 1) ∷ Null ∷ Int (pos 2) ∷ []) ≡ Ok (Int (pos 3)) }
    ensures sum_of_none { aggregate_value Sum (Null ∷ []) ≡ Ok Null }
    ensures too_large { aggregate_value Sum (Int (pos 9223372036854775807) ∷ Int (pos 1) ∷ []) ≡ Err 1690 }
    ensures exact { aggregate_value Sum (Int (pos 9223372036854775807) ∷ Int (pos 1) ∷ Int (neg_ℤ (pos 1)) ∷ []) ≡ Ok (Int (pos 9223372036854775807)) }
    ensures texts { aggregate_value Sum (Text (codes "1") ∷ []) ≡ Err 30002 }
    ensures lowest { aggregate_value Min (Null ∷ Int (pos 3) ∷ Int (pos 1) ∷ []) ≡ Ok (Int (pos 1)) }
    ensures highest { aggregate_value Max (Text (codes "a") ∷ Text (codes "b") ∷ []) ≡ Ok (Text (codes "b")) }
    ensures highest_of_none { aggregate_value Max [] ≡ Ok Null }
    ensures mixed { aggregate_value Min (Int (pos 1) ∷ Text (codes "a") ∷ []) ≡ Err 30002 }
{}
