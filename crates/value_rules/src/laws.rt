//! Laws of the definitions: what follows from them, for all values.
ghost use Rattle.std.specs.Prelude.{List};
ghost use Rattle.val_types.specs.declared.value.Value.{Value};
ghost use Rattle.value_rules.specs.Operators.{ComparesAsKeys, LeftDecides, NullSafeIsEquality};
ghost use Rattle.value_rules.specs.Selecting.{ExtremesAreBest, OrderSorts};

/// A law: where `=`, `<` and the like have an order of two values to test, it is the order in which
/// keys stand.
pub fn comparisons_follow_keys()
    ensures { ComparesAsKeys }
{}

/// A law: `<=>` gives 1 just for equal values, two NULLs among them.
pub fn null_safe_equality_is_equality()
    ensures { NullSafeIsEquality }
{}

/// A law: where the left operand of AND or OR decides, or is an error, the operator gives just that,
/// so that the right operand may be left out.
pub fn left_operands_decide()
    ensures { LeftDecides }
{}

/// A law: ORDER BY gives the same rows, none of which comes before one that stands before it, and those that are alike as
/// they came. A row may be anything that has values to be ordered by.
pub fn order_by_sorts<X>()
    ensures { (key : X → List Value) → OrderSorts key }
{}

/// A law: MIN is one of the values that are not NULL, below which none of these is, and MAX one above which none is; NULL
/// just where all are.
pub fn extremes_are_best()
    ensures { ExtremesAreBest }
{}
