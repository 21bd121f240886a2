//! Which local variable a name means, and assignments to it.
use sql_locals::{Local, Locals};
use std::alloc::Global;
use std::test::Fail;
use val_types::{Bytes, ColType, List, NoMemory, Value};

fn name(alloc: Global, bytes: &[u8]) -> Result<Bytes, NoMemory> {
    List::from_slice(alloc, bytes)
}

fn declare(alloc: Global, locals: &mut Locals, number: i64) -> Result<(), NoMemory> {
    locals.push(Local {
        name: name(alloc, b"a")?,
        kind: ColType::Int,
        value: Value::Int(number),
    })
}

fn number_of(locals: &Locals, name: &Bytes) -> Option<i64> {
    match locals.find(name) {
        Some(local) => match &local.value {
            Value::Int(number) => Some(*number),
            _ => None,
        },
        None => None,
    }
}

/// `a` as 1, and in an inner block as 2.
fn two(alloc: Global) -> Result<Locals, NoMemory> {
    let mut locals = Locals::new(alloc);
    declare(alloc, &mut locals, 1)?;
    declare(alloc, &mut locals, 2)?;
    Ok(locals)
}

/// What `a` means at first, after an assignment, and when the inner block has ended.
fn meanings(alloc: Global) -> Result<(Option<i64>, bool, Option<i64>, Option<i64>), NoMemory> {
    let a = name(alloc, b"a")?;
    let mut locals = two(alloc)?;
    let first = number_of(&locals, &a);
    let found = locals.assign(&a, Value::Int(5));
    let second = number_of(&locals, &a);
    locals.cut(1);
    Ok((first, found, second, number_of(&locals, &a)))
}

#[test]
fn the_last_of_a_name_counts(rt: HostRuntime) -> Result<(), Fail> {
    assert!(rt; meanings(rt.alloc())? == (Some(2), true, Some(5), Some(1)));
    Ok(())
}
