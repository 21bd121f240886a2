//! Every operator on values.
ghost use Rattle.std.specs.Prelude.{◌≡◌};
ghost use Rattle.value_rules.specs.Operators.{binary_value, null_safe_equal, unary_value};

use crate::arithmetic::{difference, negated, product, quotient, remainder, sum};
use crate::comparing::compare;
use crate::truths::{conjunction, disjunction, negation, truth_value, value_of_truth};
use std::cmp::Ordering;
use val_types::{BinOp, SqlError, UnOp, Value};

/// `<=>`: 1 where both operands are NULL or both are equal values, else 0.
fn null_safe_equal(a: &Value, b: &Value) -> Result<Value, SqlError>
    ensures { result ≡ null_safe_equal a.now b.now }
{
    match compare(a, b)? {
        Some(order) => Ok(truth_value(order.is_eq())),
        None => Ok(truth_value(a.is_null() && b.is_null())),
    }
}

/// An operator on the values of its two operands.
///
/// - Comparisons give 1 or 0, or NULL where an operand is NULL; a text and a number are 30002. Texts
///   compare byte by byte.
/// - `+`, `-`, `*`, DIV and MOD: a text among the operands is 30002, then NULL among them gives NULL,
///   then a divisor 0 is 1365, then a result past 64 bits is 1690.
/// - AND and OR: a left operand that decides is the value, whatever stands on the right; a text that
///   counts as a condition is 30002.
pub fn binary(op: BinOp, a: &Value, b: &Value) -> Result<Value, SqlError>
    ensures { result ≡ binary_value op a.now b.now }
{
    match op {
        BinOp::Or => disjunction(a, b),
        BinOp::And => conjunction(a, b),
        BinOp::Equal => Ok(value_of_truth(compare(a, b)?.map(|order| order.is_eq()))),
        BinOp::NullSafeEqual => null_safe_equal(a, b),
        BinOp::NotEqual => Ok(value_of_truth(compare(a, b)?.map(|order| order.is_ne()))),
        BinOp::Less => Ok(value_of_truth(compare(a, b)?.map(|order| order.is_lt()))),
        BinOp::LessOrEqual => Ok(value_of_truth(compare(a, b)?.map(|order| order.is_le()))),
        BinOp::Greater => Ok(value_of_truth(compare(a, b)?.map(|order| order.is_gt()))),
        BinOp::GreaterOrEqual => Ok(value_of_truth(compare(a, b)?.map(|order| order.is_ge()))),
        BinOp::Add => sum(a, b),
        BinOp::Subtract => difference(a, b),
        BinOp::Multiply => product(a, b),
        BinOp::Divide => quotient(a, b),
        BinOp::Modulo => remainder(a, b),
    }
}

/// An operator on the value of its one operand. Prefix `-` is NULL for NULL, 30002 for a text and 1690
/// for the least number of 64 bits; NOT is NULL for NULL and 30002 for a text.
pub fn unary(op: UnOp, a: &Value) -> Result<Value, SqlError>
    ensures { result ≡ unary_value op a.now }
{
    match op {
        UnOp::Negate => negated(a),
        UnOp::Not => negation(a),
        UnOp::IsNull => Ok(truth_value(a.is_null())),
        UnOp::IsNotNull => Ok(truth_value(!a.is_null())),
    }
}
