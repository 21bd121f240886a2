//! What RAND() draws.
ghost use Rattle.std.specs.Prelude.{◌≡◌, ◌*ℤ◌, pos};
ghost use Rattle.std.specs.Int.{int_div_euclid};
ghost use Rattle.value_rules.specs.Random.{scaled, seed_bound, seeds_after};

use val_types::{KINDS_MIXED, NUMBER_OVERFLOW, SqlError, Value};

/// The seeds of RAND() are taken modulo this number.
const SEED_BOUND: u64 = 1_073_741_823;

/// The seeds after one evaluation of RAND(): the first is `3 * s1 + s2`, the second the sum of the new
/// first one, `s2` and 33, each modulo 1,073,741,823. Seeds may be any numbers; no step overflows.
pub fn rand_step(s1: u64, s2: u64) -> (u64, u64)
    ensures { result ≡ seeds_after s1 s2 }
{
    let bound = u128::from(SEED_BOUND);
    let first = (3 * u128::from(s1) + u128::from(s2)) % bound;
    let second = (first + u128::from(s2) + 33) % bound;
    (first as u64, second as u64)
}

/// `FLOOR(RAND() * n)`, where `s1` is the first seed that the evaluation of RAND() has set: the floor of
/// `s1 * n / 1073741823`. NULL for NULL, 30002 for a text. 1690, a value past 64 bits, comes only for a
/// seed that is no seed after a step.
pub fn floor_rand(s1: u64, n: &Value) -> Result<Value, SqlError>
    ensures { result ≡ scaled s1 n.now }
{
    match n {
        Value::Null => Ok(Value::Null),
        Value::Text(_) => Err(KINDS_MIXED),
        Value::Int(n) => {
            match i64::try_from(scaled_floor(s1, *n)) {
                Ok(number) => Ok(Value::Int(number)),
                Err(_) => Err(NUMBER_OVERFLOW),
            }
        }
    }
}

/// The floor of `s1 * n / 1073741823`.
fn scaled_floor(s1: u64, n: i64) -> i128
    ensures { result ≡ int_div_euclid (pos s1 *ℤ n) (pos seed_bound) }
{
    (i128::from(s1) * i128::from(n)).div_euclid(i128::from(SEED_BOUND))
}
