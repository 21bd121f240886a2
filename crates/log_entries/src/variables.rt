//! User variables.
ghost use Rattle.std.specs.Prelude.{◌≡◌, [], length, nat_eq, slice_get, IfOk, OnErr, OnOk, option_copied};
ghost use Rattle.std.specs.Option.{option_map};
ghost use Rattle.std.specs.Map.Iter.{deref_pair};
ghost use Rattle.std.specs.Cmp.Lexicographic.{pointwise};
ghost use Rattle.std.specs.Map.{lookup};
ghost use Rattle.log_entries.specs.Variables.{variable_set};

use indexmap::IndexMap;
use std::alloc::Global;
use std::marker::Model;
use val_types::{Bytes, Duplicate, NoMemory, Value};

/// The user variables of a session by their names, in the order in which they were first set. Contracts see them as the
/// list of names with their values.
#[derive(Drop)]
pub struct Vars {
    alloc: Global,
    map: IndexMap<Bytes, Value>,
}

impl Model for Vars {
    ghost use Rattle.std.specs.Prelude.{List, ℕ};
    ghost use Rattle.val_types.specs.declared.value.Value.{Value as SqlValue};

    ghost Value = { List (List ℕ × SqlValue) };

    ghost view = { λ v. v.map.entries };
}

impl Vars {
    /// No variable.
    pub fn new(alloc: Global) -> Vars
        ensures { result ≡ [] }
    {
        Vars {
            alloc,
            map: IndexMap::new(alloc),
        }
    }

    /// The value of a variable, None where it was never set.
    pub fn get(&self, name: &Bytes) -> Option<&Value>
        ensures { option_copied result ≡ lookup (pointwise nat_eq name.now) self.now }
    {
        self.map.get(name)
    }

    /// How many variables there are.
    pub fn len(&self) -> usize
        ensures { result ≡ length self.now }
    {
        self.map.len()
    }

    /// The name and the value of the variable at a place counted from 0, None past the end.
    pub fn at(&self, place: usize) -> Option<(&Bytes, &Value)>
        ensures { option_map deref_pair result ≡ slice_get self.now place }
    {
        self.map.get_index(place)
    }

    /// Sets a variable; one that is there keeps its place.
    pub fn set(&mut self, name: &Bytes, value: Value) -> Result<(), NoMemory>
        ensures ok { OnOk result (self.new ≡ variable_set self.old name.now value) }
        ensures err { OnErr result (self.new ≡ self.old) }
    {
        let name = name.duplicate(self.alloc)?;
        self.map.insert(name, value)?;
        Ok(())
    }
}

impl Duplicate for Vars {
    fn duplicate(&self, alloc: Global) -> Result<Vars, NoMemory> {
        let mut copy = Vars::new(alloc);
        for (name, value) in self.map.iter() {
            let value = value.duplicate(alloc)?;
            copy.set(name, value)?;
        }
        Ok(copy)
    }
}
