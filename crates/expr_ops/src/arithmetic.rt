//! Arithmetic on numbers of 64 bits.
ghost use Rattle.std.specs.Prelude.{◌≡◌, ◌+ℤ◌, ◌-ℤ◌, ◌*ℤ◌};
ghost use Rattle.std.specs.Option.{ok_or, option_map};
ghost use Rattle.val_types.specs.declared.value.Value.TheVariants.{Int};
ghost use Rattle.val_types.specs.Errors.{number_overflow};
ghost use Rattle.value_rules.specs.Functions.{absolute};
ghost use Rattle.value_rules.specs.Operators.{arithmetic, negated, number, operands, quotient, remainder};

use val_types::{DIVISION_BY_ZERO, KINDS_MIXED, NUMBER_OVERFLOW, SqlError, Value};

/// The two numbers of an operation, None where one operand is NULL. A text is refused first.
fn operands(a: &Value, b: &Value) -> Result<Option<(i64, i64)>, SqlError>
    ensures { result ≡ operands a.now b.now }
{
    match (a, b) {
        (Value::Text(_), _) | (_, Value::Text(_)) => Err(KINDS_MIXED),
        (Value::Null, _) | (_, Value::Null) => Ok(None),
        (Value::Int(m), Value::Int(n)) => Ok(Some((*m, *n))),
    }
}

/// A number that was formed within 64 bits, or its overflow.
fn number_or_overflow(formed: Option<i64>) -> Result<Value, SqlError>
    ensures { result ≡ ok_or (option_map Int formed) number_overflow }
{
    match formed {
        Some(number) => Ok(Value::Int(number)),
        None => Err(NUMBER_OVERFLOW),
    }
}

/// The sum of two operands.
pub fn sum(a: &Value, b: &Value) -> Result<Value, SqlError>
    ensures { result ≡ arithmetic (λ m n. number (m +ℤ n)) a.now b.now }
{
    match operands(a, b)? {
        Some((m, n)) => number_or_overflow(m.checked_add(n)),
        None => Ok(Value::Null),
    }
}

/// The difference of two operands.
pub fn difference(a: &Value, b: &Value) -> Result<Value, SqlError>
    ensures { result ≡ arithmetic (λ m n. number (m -ℤ n)) a.now b.now }
{
    match operands(a, b)? {
        Some((m, n)) => number_or_overflow(m.checked_sub(n)),
        None => Ok(Value::Null),
    }
}

/// The product of two operands.
pub fn product(a: &Value, b: &Value) -> Result<Value, SqlError>
    ensures { result ≡ arithmetic (λ m n. number (m *ℤ n)) a.now b.now }
{
    match operands(a, b)? {
        Some((m, n)) => number_or_overflow(m.checked_mul(n)),
        None => Ok(Value::Null),
    }
}

/// DIV, which cuts toward zero. Only the least number by -1 is past 64 bits.
pub fn quotient(a: &Value, b: &Value) -> Result<Value, SqlError>
    ensures { result ≡ arithmetic quotient a.now b.now }
{
    match operands(a, b)? {
        Some((_, 0)) => Err(DIVISION_BY_ZERO),
        Some((m, n)) => number_or_overflow(m.checked_div(n)),
        None => Ok(Value::Null),
    }
}

/// MOD, which has the sign of the dividend. The least number by -1 leaves 0.
pub fn remainder(a: &Value, b: &Value) -> Result<Value, SqlError>
    ensures { result ≡ arithmetic remainder a.now b.now }
{
    match operands(a, b)? {
        Some((_, 0)) => Err(DIVISION_BY_ZERO),
        Some((m, n)) => Ok(Value::Int(m.wrapping_rem(n))),
        None => Ok(Value::Null),
    }
}

/// Prefix `-`.
pub fn negated(a: &Value) -> Result<Value, SqlError>
    ensures { result ≡ negated a.now }
{
    match a {
        Value::Null => Ok(Value::Null),
        Value::Int(n) => number_or_overflow(n.checked_neg()),
        Value::Text(_) => Err(KINDS_MIXED),
    }
}

/// ABS.
pub fn absolute(a: &Value) -> Result<Value, SqlError>
    ensures { result ≡ absolute a.now }
{
    match a {
        Value::Null => Ok(Value::Null),
        Value::Int(n) => number_or_overflow(n.checked_abs()),
        Value::Text(_) => Err(KINDS_MIXED),
    }
}
