//! COUNT, SUM, MIN and MAX.
ghost use Rattle.std.specs.Prelude.{◌≡◌, ◌+ℤ◌, if◌then◌else◌, pos, FitsSigned, IfOk};
ghost use Rattle.std.specs.Int.{w128};
ghost use Rattle.std.specs.List.{list_any};
ghost use Rattle.val_types.specs.Answers.{Gives};
ghost use Rattle.value_rules.specs.Selecting.{addend, aggregate_value, better, comes_first, extreme, extreme_of, is_number, is_text, known_count, sum_of, total};
ghost use Rattle.val_types.specs.declared.value.Value.TheVariants.{Int, Null};

use std::alloc::Global;
use val_types::{Agg, Duplicate, KINDS_MIXED, List, NUMBER_OVERFLOW, SqlError, SqlRefusal, Value};

fn has_text(values: &[Value]) -> bool
    ensures { result ≡ list_any is_text values.now }
{
    values.iter().any(|value| matches!(value, Value::Text(_)))
}

fn has_number(values: &[Value]) -> bool
    ensures { result ≡ list_any is_number values.now }
{
    values.iter().any(|value| matches!(value, Value::Int(_)))
}

/// How many values are not NULL.
fn known_count(values: &[Value]) -> usize
    ensures { result ≡ known_count values.now }
{
    values.iter().filter(|value| !value.is_null()).count()
}

/// COUNT. A slice has fewer than 2^63 values.
#[tactic(auto, using(crate::proofs::Sums::known_at_most))]
fn count(values: &[Value]) -> Value
    ensures { result ≡ Int (pos (known_count values.now)) }
{
    let count = known_count(values);
    let _most = values.len();
    Value::Int(count as i64)
}

/// The number that a value adds to a sum.
fn addend(value: &Value) -> i64
    ensures { result ≡ addend value.now }
{
    match value {
        Value::Int(number) => *number,
        Value::Null | Value::Text(_) => 0,
    }
}

/// A sum with one more number.
fn plus(sum: i128, number: i64) -> i128
    requires { FitsSigned w128 (sum +ℤ number) }
    ensures { result ≡ sum +ℤ number }
{
    sum + i128::from(number)
}

/// The exact sum of the numbers among some values.
#[tactic(auto, using(crate::proofs::Sums::total_step))]
fn total(values: &[Value]) -> i128
    ensures { result ≡ total values.now }
{
    let mut sum = 0i128;
    for value in values {
        sum = plus(sum, addend(value));
    }
    sum
}

/// SUM.
fn sum(values: &[Value]) -> Result<Value, SqlError>
    ensures { result ≡ sum_of values.now }
{
    if has_text(values) {
        return Err(KINDS_MIXED);
    }
    if !has_number(values) {
        return Ok(Value::Null);
    }
    match i64::try_from(total(values)) {
        Ok(number) => Ok(Value::Int(number)),
        Err(_) => Err(NUMBER_OVERFLOW),
    }
}

/// Whether a value comes before another: the lower one for MIN, the higher one for MAX.
fn comes_first(highest: bool, a: &Value, b: &Value) -> bool
    ensures { result ≡ comes_first highest a.now b.now }
{
    if highest {
        b.cmp(a).is_lt()
    } else {
        a.cmp(b).is_lt()
    }
}

/// Whether a value is better than the best so far, which is NULL at first.
fn is_better(highest: bool, best: &Value, value: &Value) -> bool
    ensures { better (comes_first highest) best.now value.now
        ≡ (if result then value.now else best.now) }
{
    if value.is_null() {
        false
    } else {
        best.is_null() || comes_first(highest, value, best)
    }
}

/// The lowest or the highest value, NULL where there is none but NULL.
fn extreme<'a>(highest: bool, none: &'a Value, values: &'a [Value]) -> &'a Value
    ensures { result.now ≡ extreme (comes_first highest) none.now values.now }
{
    let mut best = none;
    for value in values {
        if is_better(highest, best, value) {
            best = value;
        }
    }
    best
}

/// MIN and MAX.
fn extreme_of(alloc: Global, highest: bool, values: &[Value]) -> Result<Value, SqlRefusal>
    ensures { Gives result (extreme_of (comes_first highest) values.now) }
{
    if has_text(values) && has_number(values) {
        return Err(SqlRefusal::Sql(KINDS_MIXED));
    }
    Ok(extreme(highest, &Value::Null, values).duplicate(alloc)?)
}

/// An aggregate of the values that its argument has in the rows; NULL is passed over. SUM of a text is
/// 30002, and past 64 bits 1690, where only the whole sum counts. MIN and MAX of numbers and texts
/// among each other are 30002. SUM, MIN and MAX of nothing are NULL.
pub fn aggregate(alloc: Global, f: Agg, values: &List<Value>) -> Result<Value, SqlRefusal>
    ensures { Gives result (aggregate_value f values.now) }
{
    match f {
        Agg::Count => Ok(count(values.as_slice())),
        Agg::Sum => Ok(sum(values.as_slice())?),
        Agg::Min => extreme_of(alloc, false, values.as_slice()),
        Agg::Max => extreme_of(alloc, true, values.as_slice()),
    }
}
