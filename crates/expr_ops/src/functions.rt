//! The built-in functions that depend on their arguments alone.
ghost use Rattle.std.specs.Prelude.{◌≡◌, ◌<◌, length, IfOk, IsTrue, Ok};
ghost use Rattle.val_types.specs.Answers.{Gives};
ghost use Rattle.value_rules.specs.Functions.{argument, builtin_value, chosen, first_known, takes, value_of_many, value_of_one, value_of_three, value_of_two};

use crate::arithmetic::absolute;
use crate::texts::{concat, length, substring};
use crate::truths::truth;
use std::alloc::Global;
use val_types::{
    Duplicate, Func, Func1, Func2, Func3, FuncN, List, NoMemory, SqlError, SqlRefusal, Value,
};

/// The argument at a place, counted from 0.
fn argument(values: &List<Value>, place: usize) -> &Value
    requires { place < length values.now }
    ensures { result.now ≡ argument values.now place }
{
    &values[place]
}

/// COALESCE: a copy of the first value that is not NULL.
fn first_known(alloc: Global, values: &List<Value>) -> Result<Value, NoMemory>
    ensures { IfOk result (λ value. value ≡ first_known values.now) }
{
    for value in values.as_slice() {
        if !value.is_null() {
            return value.duplicate(alloc);
        }
    }
    Ok(Value::Null)
}

/// IF: a copy of the second argument where the first is true, else of the third.
fn chosen(
    alloc: Global,
    condition: &Value,
    then_value: &Value,
    else_value: &Value,
) -> Result<Value, SqlRefusal>
    ensures { Gives result (chosen condition.now then_value.now else_value.now) }
{
    match truth(condition)? {
        Some(true) => Ok(then_value.duplicate(alloc)?),
        Some(false) | None => Ok(else_value.duplicate(alloc)?),
    }
}

/// A built-in function of one argument on its value.
///
/// ABS and LENGTH of a NULL are NULL. ABS of a text and LENGTH of a number are 30002, ABS of the least
/// number of 64 bits is 1690.
pub fn value_of_one(f: Func1, a: &Value) -> Result<Value, SqlError>
    ensures { result ≡ value_of_one f a.now }
{
    match f {
        Func1::Abs => absolute(a),
        Func1::Length => length(a),
    }
}

/// A built-in function of two arguments on their values.
pub fn value_of_two(alloc: Global, f: Func2, a: &Value, b: &Value) -> Result<Value, NoMemory>
    ensures { IfOk result (λ value. Ok value ≡ value_of_two f a.now b.now) }
{
    match f {
        Func2::IfNull => {
            if a.is_null() {
                b.duplicate(alloc)
            } else {
                a.duplicate(alloc)
            }
        }
    }
}

/// A built-in function of three arguments on their values.
///
/// IF takes a condition that is NULL as false, and one that is a text as 30002. SUBSTRING of a NULL is
/// NULL, and after that of other kinds than a text and two numbers 30002.
pub fn value_of_three(
    alloc: Global,
    f: Func3,
    a: &Value,
    b: &Value,
    c: &Value,
) -> Result<Value, SqlRefusal>
    ensures { Gives result (value_of_three f a.now b.now c.now) }
{
    match f {
        Func3::If => chosen(alloc, a, b, c),
        Func3::Substring => substring(alloc, a, b, c),
    }
}

/// A built-in function of one argument or more on their values.
///
/// CONCAT with a NULL is NULL, and one of more than 65,535 bytes is 1153.
pub fn value_of_many(alloc: Global, f: FuncN, arguments: &List<Value>) -> Result<Value, SqlRefusal>
    ensures { Gives result (value_of_many f arguments.now) }
{
    match f {
        FuncN::Coalesce => Ok(first_known(alloc, arguments)?),
        FuncN::Concat => concat(alloc, arguments),
    }
}

/// A built-in function on the values of its arguments. It has to be one that depends on them alone,
/// with just its number of arguments.
pub fn builtin(alloc: Global, f: Func, arguments: &List<Value>) -> Result<Value, SqlRefusal>
    requires { IsTrue (takes f (length arguments.now)) }
    ensures { Gives result (builtin_value f arguments.now) }
{
    match f {
        Func::Zero(_) => Ok(Value::Null),
        Func::One(f) => Ok(value_of_one(f, argument(arguments, 0))?),
        Func::Two(f) => Ok(value_of_two(alloc, f, argument(arguments, 0), argument(arguments, 1))?),
        Func::Three(f) => value_of_three(
            alloc,
            f,
            argument(arguments, 0),
            argument(arguments, 1),
            argument(arguments, 2),
        ),
        Func::Many(f) => value_of_many(alloc, f, arguments),
    }
}
