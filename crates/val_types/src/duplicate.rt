//! Copies that are equal to what they copy.
ghost use Rattle.std.specs.Prelude.{◌≡◌, IfOk};

use crate::list::{Bytes, List, NoMemory};
use crate::value::Value;
use std::alloc::Global;

/// A type whose values can be copied, where a copy equals the original.
///
/// `Clone` promises less: what a clone has in common with the original is up to each type. A type
/// that contains itself has a function of its own, since the recursion cannot go through a trait.
pub trait Duplicate: Drop {
    /// An equal value with memory of its own.
    fn duplicate(&self, alloc: Global) -> Result<Self, NoMemory>
        ensures { IfOk result (λ copy. copy ≡ self.now) };

    /// Equal values for those of a slice, in their order. Bytes are copied at once.
    fn duplicate_all(alloc: Global, items: &[Self]) -> Result<List<Self>, NoMemory>
        ensures { IfOk result (λ copies. copies ≡ items.now) }
    {
        let mut copies = List::with_capacity(alloc, items.len())?;
        for item in items {
            copies.push(item.duplicate(alloc)?)?;
        }
        Ok(copies)
    }
}

impl Duplicate for bool {
    fn duplicate(&self, alloc: Global) -> Result<bool, NoMemory> {
        let _ = alloc;
        Ok(*self)
    }
}

impl Duplicate for u8 {
    fn duplicate(&self, alloc: Global) -> Result<u8, NoMemory> {
        let _ = alloc;
        Ok(*self)
    }

    fn duplicate_all(alloc: Global, items: &[u8]) -> Result<Bytes, NoMemory> {
        List::from_slice(alloc, items)
    }
}

impl Duplicate for u16 {
    fn duplicate(&self, alloc: Global) -> Result<u16, NoMemory> {
        let _ = alloc;
        Ok(*self)
    }
}

impl Duplicate for u32 {
    fn duplicate(&self, alloc: Global) -> Result<u32, NoMemory> {
        let _ = alloc;
        Ok(*self)
    }
}

impl Duplicate for u64 {
    fn duplicate(&self, alloc: Global) -> Result<u64, NoMemory> {
        let _ = alloc;
        Ok(*self)
    }
}

impl Duplicate for i64 {
    fn duplicate(&self, alloc: Global) -> Result<i64, NoMemory> {
        let _ = alloc;
        Ok(*self)
    }
}

impl Duplicate for Value {
    fn duplicate(&self, alloc: Global) -> Result<Value, NoMemory> {
        match self {
            Value::Null => Ok(Value::Null),
            Value::Int(n) => Ok(Value::Int(*n)),
            Value::Text(text) => Ok(Value::Text(text.duplicate(alloc)?)),
        }
    }
}

impl<T: Duplicate> Duplicate for List<T> {
    fn duplicate(&self, alloc: Global) -> Result<List<T>, NoMemory> {
        T::duplicate_all(alloc, self.as_slice())
    }
}

impl<T: Duplicate> Duplicate for Option<T> {
    fn duplicate(&self, alloc: Global) -> Result<Option<T>, NoMemory> {
        match self {
            None => Ok(None),
            Some(item) => Ok(Some(item.duplicate(alloc)?)),
        }
    }
}
