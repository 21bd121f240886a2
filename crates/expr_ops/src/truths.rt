//! Conditions, and logic with three values: true, false and unknown.
ghost use Rattle.std.specs.Prelude.{◌≡◌};
ghost use Rattle.std.specs.Option.{option_map};
ghost use Rattle.value_rules.specs.Functions.{is_known_true};
ghost use Rattle.value_rules.specs.Operators.{binary_value, both, decided, either, negation, truth_of, truth_value, value_of_truth, with_value};

use val_types::{BinOp, KINDS_MIXED, SqlError, Value};

/// True as 1 and false as 0, as EXISTS gives it.
pub fn truth_value(truth: bool) -> Value
    ensures { result ≡ truth_value truth }
{
    Value::Int(i64::from(truth))
}

/// A truth as a value, NULL where it is unknown, as IN gives it.
pub fn value_of_truth(truth: Option<bool>) -> Value
    ensures { result ≡ value_of_truth truth }
{
    match truth {
        None => Value::Null,
        Some(truth) => truth_value(truth),
    }
}

/// What a value is as a condition: true where it is a number other than 0, None where it is NULL, and
/// 30002 where it is a text. WHERE, IF, WHILE and CASE go by it, and take what is unknown as false.
pub fn truth(value: &Value) -> Result<Option<bool>, SqlError>
    ensures { result ≡ truth_of value.now }
{
    match value {
        Value::Null => Ok(None),
        Value::Int(number) => Ok(Some(*number != 0)),
        Value::Text(_) => Err(KINDS_MIXED),
    }
}

/// Whether a condition is true: WHERE keeps a row, and IF, WHILE and CASE go on, just where it is. What is unknown is not
/// true, and a text is 30002.
pub fn holds(value: &Value) -> Result<bool, SqlError>
    ensures { result ≡ with_value is_known_true (truth_of value.now) }
{
    match truth(value)? {
        Some(truth) => Ok(truth),
        None => Ok(false),
    }
}

/// AND of three values.
fn both(left: Option<bool>, right: Option<bool>) -> Option<bool>
    ensures { result ≡ both left right }
{
    match (left, right) {
        (Some(false), _) | (_, Some(false)) => Some(false),
        (Some(true), Some(true)) => Some(true),
        (None, _) | (_, None) => None,
    }
}

/// OR of three values.
fn either(left: Option<bool>, right: Option<bool>) -> Option<bool>
    ensures { result ≡ either left right }
{
    match (left, right) {
        (Some(true), _) | (_, Some(true)) => Some(true),
        (Some(false), Some(false)) => Some(false),
        (None, _) | (_, None) => None,
    }
}

/// The value of an operator that its left operand decides: 0 of AND behind a false one, 1 of OR
/// behind a true one. None where the right operand counts and has to be evaluated; a left operand
/// of AND or OR that is a text is 30002 already.
pub fn decided(op: BinOp, left: &Value) -> Result<Option<Value>, SqlError>
    ensures { result ≡ decided op left.now }
{
    let deciding = match op {
        BinOp::And => false,
        BinOp::Or => true,
        _ => return Ok(None),
    };
    match truth(left)? {
        Some(truth) if truth == deciding => Ok(Some(truth_value(truth))),
        Some(_) | None => Ok(None),
    }
}

/// AND. A false left operand decides, whatever the right one is.
pub fn conjunction(a: &Value, b: &Value) -> Result<Value, SqlError>
    ensures { result ≡ binary_value BinOp.And a.now b.now }
{
    match truth(a)? {
        Some(false) => Ok(truth_value(false)),
        left => Ok(value_of_truth(both(left, truth(b)?))),
    }
}

/// OR. A true left operand decides, whatever the right one is.
pub fn disjunction(a: &Value, b: &Value) -> Result<Value, SqlError>
    ensures { result ≡ binary_value BinOp.Or a.now b.now }
{
    match truth(a)? {
        Some(true) => Ok(truth_value(true)),
        left => Ok(value_of_truth(either(left, truth(b)?))),
    }
}

/// NOT.
pub fn negation(a: &Value) -> Result<Value, SqlError>
    ensures { result ≡ negation a.now }
{
    match truth(a)? {
        None => Ok(Value::Null),
        Some(truth) => Ok(truth_value(!truth)),
    }
}
