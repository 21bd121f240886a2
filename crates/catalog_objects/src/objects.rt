//! The objects of a catalog in order of creation.
ghost use Rattle.std.specs.Prelude.{◌≡◌, ◌++◌, ◌∷◌, [], true, false, if◌then◌else◌, None, map, IfOk, OnOk, OnErr, slice_get};
ghost use Rattle.std.specs.Option.{option_copied, option_map, option_map_or};
ghost use Rattle.sql_tree.specs.StatementView.{view, view_program, view_trigger};
ghost use Rattle.catalog_rules.specs.Objects.{count_of_programs, count_of_tables, table_in, function_in, procedure_in, trigger_in, trigger_for};
ghost use Rattle.catalog_rules.specs.Creating.{catalog_after};
ghost use Rattle.catalog_objects.specs.Keys.{objects_of};
ghost use Rattle.catalog_objects.specs.Lookups.{object_of, waiting_for, is_drop, is_free, is_event_free};

use crate::counting::{count_programs, count_tables};
use crate::going::{keep_objects, keep_triggers};
use crate::looking::{
    all_shared, all_waiting, object_of, place_of, place_waiting, put_last, put_named, put_waiting,
    trigger_for,
};
use crate::object::{
    FUNCTION, Object, PROCEDURE, TABLE, TRIGGER, routine_if, table_if, trigger_if,
};
use sharing::Shared;
use sql_tree::{Cause, Routine, Stmt, Time, TriggerDef};
use std::alloc::Global;
use std::marker::Model;
use val_types::{Boxed, Bytes, NoMemory, TableDef};

/// Objects in the order of their creation, which contracts see as their list. Beside it stand the same objects in the order of
/// their kinds and names, and the triggers in the order of what they wait for.
#[derive(Drop)]
pub struct Objects {
    alloc: Global,
    made: Vec<Object>,
    named: Vec<Object>,
    waiting: Vec<Shared<Boxed<TriggerDef>>>,
}

impl Model for Objects {
    ghost use Rattle.std.specs.Prelude.{List};
    ghost use Rattle.catalog_objects.specs.declared.object.Object.{Object};
    ghost use Rattle.catalog_objects.specs.Lookups.{AreFound};

    ghost Value = { List Object };

    ghost use Rattle.sql_tree.specs.contracts.statements.Stmt as stmt;
    ghost use Rattle.std.specs.Coded.{codes};

    ghost coded = { Prim.hlevel (codes, stmt.the_row.coded) };

    ghost view = { λ o. o.made.items };

    ghost invariant = { λ o. AreFound o.made.items o.named.items o.waiting.items };
}

impl Objects {
    /// No object, which takes no memory.
    pub fn new(alloc: Global) -> Objects
        ensures { result ≡ [] }
    {
        Objects {
            alloc,
            made: Vec::new(alloc),
            named: Vec::new(alloc),
            waiting: Vec::new(alloc),
        }
    }

    /// The object of a kind and name.
    fn find(&self, kind: u8, name: &Bytes) -> Option<&Object>
        ensures { option_copied result ≡ object_of self.now kind name.now }
    {
        object_of(&self.named, kind, name)
    }

    /// The table of a name.
    pub fn table(&self, name: &Bytes) -> Option<&TableDef>
        ensures { option_copied result ≡ table_in (objects_of self.now) name.now }
    {
        table_if(self.find(TABLE, name))
    }

    /// The function of a name.
    pub fn function(&self, name: &Bytes) -> Option<&Routine>
        ensures { option_map view_program (option_copied result) ≡ function_in (objects_of self.now) name.now }
    {
        routine_if(self.find(FUNCTION, name))
    }

    /// The procedure of a name.
    pub fn procedure(&self, name: &Bytes) -> Option<&Routine>
        ensures { option_map view_program (option_copied result) ≡ procedure_in (objects_of self.now) name.now }
    {
        routine_if(self.find(PROCEDURE, name))
    }

    /// The trigger of a name.
    pub fn trigger_named(&self, name: &Bytes) -> Option<&TriggerDef>
        ensures { option_map view_trigger (option_copied result) ≡ trigger_in (objects_of self.now) name.now }
    {
        trigger_if(self.find(TRIGGER, name))
    }

    /// The trigger for an event of a table.
    pub fn trigger(&self, table: &Bytes, time: Time, event: Cause) -> Option<&TriggerDef>
        ensures { option_map view_trigger (option_copied result) ≡ trigger_for (objects_of self.now) table.now time event }
    {
        trigger_for(&self.waiting, table, time, event)
    }

    /// The object at a place in the order of creation, None past the last.
    pub fn object(&self, at: usize) -> Option<&Object>
        ensures { option_copied result ≡ slice_get self.now at }
    {
        self.made.get(at)
    }

    /// All objects, in the order of creation.
    pub fn all(&self) -> &[Object]
        ensures { result.now ≡ self.now }
    {
        self.made.as_slice()
    }

    /// How many tables there are, by a walk.
    pub fn count_tables(&self) -> usize
        ensures { result ≡ count_of_tables (objects_of self.now) }
    {
        count_tables(&self.made)
    }

    /// How many functions, procedures and triggers there are, by a walk.
    pub fn count_programs(&self) -> usize
        ensures { result ≡ count_of_programs (objects_of self.now) }
    {
        count_programs(&self.made)
    }

    /// The same objects. None of them is copied.
    pub fn copy(&self) -> Result<Objects, NoMemory>
        ensures { IfOk result (λ copy. copy ≡ self.now) }
    {
        let made = all_shared(self.alloc, &self.made)?;
        let named = all_shared(self.alloc, &self.named)?;
        let waiting = all_waiting(self.alloc, &self.waiting)?;
        Ok(Objects {
            alloc: self.alloc,
            made,
            named,
            waiting,
        })
    }

    /// Puts an object behind the others.
    pub fn add(&mut self, object: Object) -> Result<(), NoMemory>
        requires name { is_free object self.old }
        requires event { is_event_free object self.old }
        ensures ok { OnOk result (self.new ≡ self.old ++ object ∷ []) }
        ensures err { OnErr result (self.new ≡ self.old) }
    {
        self.made.reserve(1)?;
        self.named.reserve(1)?;
        self.waiting.reserve(1)?;
        let trigger = object.share_trigger()?;
        let other = object.share()?;
        put_waiting(&mut self.waiting, trigger);
        put_named(&mut self.named, other);
        put_last(&mut self.made, object);
        Ok(())
    }

    /// Takes out what a DROP drops: the object of that kind and name, with a table its triggers. The others keep their order.
    pub fn remove(&mut self, s: &Stmt)
        requires { is_drop (view s.now) ≡ true }
        ensures { objects_of self.new ≡ catalog_after (view s.now) (objects_of self.old) }
    {
        keep_objects(s, &mut self.made);
        keep_objects(s, &mut self.named);
        keep_triggers(s, &mut self.waiting);
    }
}
