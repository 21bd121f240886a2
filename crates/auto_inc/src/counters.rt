//! The counters of tables.
ghost use Rattle.std.specs.Prelude.{◌≡◌, ◌++◌, ◌∷◌, ◌<◌, [], length, max, position, unwrap_or, IfNone, IfSome, List, None, OnErr, OnOk, Some, ℕ};
ghost use Rattle.auto_inc.specs.Counting.{behind, changed_for, counters_beside, counts_for, place_for, tables_of, value_for, HaveOneEach};

use std::alloc::Global;
use std::marker::Model;
use val_types::{Bytes, Duplicate, NoMemory};

/// The counter of a table: the least number that its column may be given next.
#[derive(Debug, Drop)]
pub struct Counter {
    pub table: Bytes,
    pub value: u64,
}

/// The counters of tables, one of each.
#[derive(Debug, Drop)]
pub struct Counters {
    alloc: Global,
    counters: Vec<Counter>,
}

impl Model for Counters {
    ghost use Rattle.std.specs.Prelude.{List as Items};
    ghost use Rattle.auto_inc.specs.declared.counters.Counter.{Counter as OneCounter};

    ghost Value = { Items OneCounter };

    ghost view = { λ c. c.counters.items };

    ghost use Rattle.auto_inc.specs.Counting.{HaveOneEach};

    ghost invariant = { λ c. HaveOneEach c.counters.items };
}

impl Counters {
    /// No counter, which takes no memory.
    pub fn new(alloc: Global) -> Counters
        ensures { result ≡ [] }
    {
        Counters {
            alloc,
            counters: Vec::new(alloc),
        }
    }

    /// No table has two counters.
    pub fn one_each(&self)
        ensures { HaveOneEach self.now }
    {
        let _ = &self.counters;
    }

    /// The place of the counter of a table.
    pub fn place(&self, table: &Bytes) -> Option<usize>
        ensures place { result ≡ place_for table.now self.now }
        ensures within { IfSome result (λ at. at < length self.now) }
        ensures absent { IfNone result (value_for table.now self.now ≡ None) }
    {
        counter_of(&self.counters, table)
    }

    /// The counter at a place.
    pub fn value_at(&self, at: usize) -> u64
        requires { at < length self.now }
        ensures { (table : List ℕ) → place_for table self.now ≡ Some at
            → result ≡ unwrap_or (value_for table self.now) 0 }
    {
        self.counters[at].value
    }

    /// Moves the counter at a place behind a value, where it is not there yet.
    pub fn raise_at(&mut self, at: usize, value: i64)
        requires { at < length self.old }
        ensures raised { (table : List ℕ) → place_for table self.old ≡ Some at
            → self.new ≡ changed_for table (max (behind value)) self.old }
        ensures tables { tables_of self.new ≡ tables_of self.old }
    {
        let counter = &mut self.counters[at];
        counter.value = behind(value).max(counter.value);
    }

    /// The counter of a table, 0 where it has none.
    pub fn value(&self, table: &Bytes) -> u64
        ensures { result ≡ unwrap_or (value_for table.now self.now) 0 }
    {
        match counter_of(&self.counters, table) {
            Some(at) => self.counters[at].value,
            None => 0,
        }
    }

    /// Moves the counter of a table behind a value, where it is not there yet.
    pub fn raise(&mut self, table: &Bytes, value: i64)
        ensures raised { self.new ≡ changed_for table.now (max (behind value)) self.old }
        ensures tables { tables_of self.new ≡ tables_of self.old }
    {
        if let Some(at) = counter_of(&self.counters, table) {
            let counter = &mut self.counters[at];
            counter.value = behind(value).max(counter.value);
        }
    }

    /// Sets the counter of a table to 1.
    pub fn reset(&mut self, table: &Bytes)
        ensures reset { self.new ≡ changed_for table.now (λ _. 1) self.old }
        ensures tables { tables_of self.new ≡ tables_of self.old }
    {
        if let Some(at) = counter_of(&self.counters, table) {
            self.counters[at].value = 1;
        }
    }

    /// Adds the counter of a table, which has none yet.
    pub fn add(&mut self, table: &Bytes, value: u64) -> Result<(), NoMemory>
        requires { value_for table.now self.old ≡ None }
        ensures ok { OnOk result (self.new
            ≡ self.old ++ record { table = table.now; value = value } ∷ []) }
        ensures err { OnErr result (self.new ≡ self.old) }
    {
        let table = table.duplicate(self.alloc)?;
        self.counters.push(Counter { table, value })?;
        Ok(())
    }

    /// Takes the counter of a table out.
    pub fn remove(&mut self, table: &Bytes)
        ensures removed { self.new ≡ counters_beside table.now self.old }
        ensures gone { value_for table.now self.new ≡ None }
    {
        if let Some(at) = counter_of(&self.counters, table) {
            self.counters.remove(at);
        }
    }
}

impl Duplicate for Counter {
    fn duplicate(&self, alloc: Global) -> Result<Counter, NoMemory> {
        Ok(Counter {
            table: self.table.duplicate(alloc)?,
            value: self.value,
        })
    }
}

impl Duplicate for Counters {
    fn duplicate(&self, alloc: Global) -> Result<Counters, NoMemory> {
        let counters = Counter::duplicate_all(alloc, self.counters.as_slice())?;
        Ok(Counters {
            alloc,
            counters: counters.into_vec(),
        })
    }
}

/// The place of a table's counter.
fn counter_of(counters: &[Counter], table: &Bytes) -> Option<usize>
    ensures place { result ≡ position (counts_for table.now) counters.now }
    ensures within { IfSome result (λ at. at < length counters.now) }
{
    counters.iter().position(|counter| *table == counter.table)
}

/// The number behind a value, 0 behind one below 0.
pub(crate) fn behind(value: i64) -> u64
    ensures { result ≡ behind value }
{
    if value < 0 { 0 } else { value as u64 + 1 }
}
