//! Names to be looked up, as those of the columns of a primary key are for each column.
ghost use Rattle.std.specs.Prelude.{◌≡◌, IfOk, List as Items, ℕ};
ghost use Rattle.sql_parse_definitions.specs.NameSets.{Holds};
ghost use Rattle.sql_syntax.specs.Tables.{is_one_of};

use std::alloc::Global;
use std::collections::BTreeSet;
use val_types::{Bytes, Duplicate, NoMemory};

/// Names, each of which is found in a number of steps that grows as the logarithm of theirs.
#[derive(Drop)]
pub struct NameSet {
    names: BTreeSet<Bytes>,
}

impl NameSet {
    /// The set of these names.
    pub fn of(alloc: Global, names: &[Bytes]) -> Result<NameSet, NoMemory>
        ensures { IfOk result (λ set. Holds set.names names.now) }
    {
        let mut set = BTreeSet::new(alloc);
        for name in names {
            set.insert(name.duplicate(alloc)?)?;
        }
        Ok(NameSet { names: set })
    }

    /// Whether this is one of the names.
    pub fn contains(&self, name: &Bytes) -> bool
        ensures { (names : Items (Items ℕ)) → Holds self.now.names names → result ≡ is_one_of names name.now }
    {
        self.names.contains(name)
    }
}
