//! The committed rows of a table.
ghost use Rattle.std.specs.Prelude.{IsTrue};
ghost use Rattle.row_index.specs.block_list.Layouts.{flat};
ghost use Rattle.table_sheet.specs.Numbered.{are_numbered};

use crate::comparing::{nothing_row_cmp, rows_cmp};
use row_index::block_list::{Blocks, Spot};
use row_index::row_arena::RowArena;
use row_index::{columns_cmp, make_hold, no_columns_cmp};
use sharing::Shared;
use std::alloc::{AllocError, Global};
use std::cmp::Ordering;
use val_types::{NoMemory, Row, TableDef};

/// Rows by their numbers, the numbers in the order of the rows' primary keys, those by the rows' values in each unique key, and how many
/// numbers each of the latter lists was made to hold.
#[derive(Drop)]
pub struct Committed {
    pub rows: RowArena,
    pub order: Blocks,
    pub indexes: Vec<Blocks>,
    pub hold: usize,
    pub ghost numbered: { IsTrue (are_numbered rows.rows (flat order.blocks)) },
}

impl Committed {
    ghost use Rattle.std.specs.Prelude.{◌≡◌, ◌+◌, ◌^◌, ◌<◌, ◌≤◌, [], true, List, length, option_copied, slice_get, Some, IsSome, MatchResult, OnOk};
    ghost use Rattle.std.specs.Option.{option_and_then, option_map};
    ghost use Rattle.val_types.specs.Keys.{primary_key};
    ghost use Rattle.row_index.specs.block_list.Spots.{place, IsAt, IsFound, IsSpot};
    ghost use Rattle.row_index.specs.row_sheets.Slots.{held, keys_in, keys_rise};
    ghost use Rattle.row_index.specs.row_sheets.Orders.{by_key};
    ghost use Rattle.row_index.specs.row_sheets.Over.{settled_by};
    ghost use Rattle.val_types.specs.declared.value.Value.{Value};
    ghost use Rattle.val_types.specs.declared.definitions.TableDef.{TableDef as Definition};
    ghost use Rattle.table_sheet.specs.Numbered.{row_of, row_slot};
    ghost use Rattle.table_sheet.specs.Parts.{committed_slots, room_of};
    ghost use Rattle.table_sheet.specs.Indexed.{AreKept, IsBelow};

    /// No rows.
    pub(crate) fn new(alloc: Global) -> Committed
        ensures order { flat result.order.blocks ≡ [] }
        ensures below { (definition : Definition) → IsBelow definition result [] }
    {
        Committed {
            rows: RowArena::new(alloc),
            order: Blocks::new(alloc),
            indexes: Vec::new(alloc),
            hold: 0,
        }
    }

    /// How the key of a number's row stands to a key.
    pub(crate) fn key_cmp(&self, definition: &Shared<TableDef>, key: &Row, number: u32) -> Ordering
        ensures { result ≡ by_key (row_slot definition.now self.now.rows.rows) key.now number }
    {
        let table = definition.get();
        match self.rows.get(number) {
            Some(row) => columns_cmp(row, &table.primary, key),
            None => no_columns_cmp(key),
        }
    }

    /// Where the number of a key stands, or belongs.
    fn find(&self, definition: &Shared<TableDef>, key: &Row) -> Result<Spot, Spot>
        requires { keys_rise (keys_in (committed_slots definition.now self.now)) ≡ true }
        ensures found { IsFound (by_key (row_slot definition.now self.now.rows.rows) key.now) self.now.order.blocks result }
        ensures spot { MatchResult result (λ spot. IsAt self.now.order.blocks spot) (λ spot. IsSpot self.now.order.blocks spot) }
    {
        let compare = |number: u32| -> Ordering
            ensures { result ≡ by_key (row_slot definition.entry.now self.entry.now.rows.rows) key.entry.now number }
        { self.key_cmp(definition, key, number) };
        self.order.find(&compare)
    }

    /// The same for the primary key of a row, of which no copy is made.
    pub(crate) fn find_row(&self, definition: &Shared<TableDef>, row: &Row) -> Result<Spot, Spot>
        requires { keys_rise (keys_in (committed_slots definition.now self.now)) ≡ true }
        ensures found { IsFound (by_key (row_slot definition.now self.now.rows.rows) (primary_key definition.now row.now)) self.now.order.blocks result }
        ensures spot { MatchResult result (λ spot. IsAt self.now.order.blocks spot) (λ spot. IsSpot self.now.order.blocks spot) }
    {
        let compare = |number: u32| -> Ordering
            ensures { result ≡ by_key (row_slot definition.entry.now self.entry.now.rows.rows) (primary_key definition.entry.now row.entry.now) number }
        {
            let table = definition.get();
            match self.rows.get(number) {
                Some(other) => rows_cmp(table, other, row),
                None => nothing_row_cmp(table, row),
            }
        };
        self.order.find(&compare)
    }

    /// The row of the number at a spot, None behind the last one.
    pub(crate) fn at(&self, spot: Spot) -> Option<&Shared<Row>>
        requires { IsSpot self.now.order.blocks spot }
        ensures { option_copied result ≡ option_and_then (row_of self.now.rows.rows) (slice_get (flat self.now.order.blocks) (place self.now.order.blocks spot)) }
    {
        self.rows.shared(self.order.get(spot)?)
    }

    /// The row of a key.
    pub(crate) fn get(&self, definition: &Shared<TableDef>, key: &Row) -> Option<&Shared<Row>>
        requires { keys_rise (keys_in (committed_slots definition.now self.now)) ≡ true }
        ensures { held key.now (committed_slots definition.now self.now) ≡ option_map (λ row. Some row) (option_copied result) }
    {
        match self.find(definition, key) {
            Ok(spot) => self.at(spot),
            Err(_) => None,
        }
    }

    /// The row of the primary key of a row.
    pub(crate) fn get_same(&self, definition: &Shared<TableDef>, row: &Row) -> Option<&Shared<Row>>
        requires { keys_rise (keys_in (committed_slots definition.now self.now)) ≡ true }
        ensures { held (primary_key definition.now row.now) (committed_slots definition.now self.now) ≡ option_map (λ row. Some row) (option_copied result) }
    {
        match self.find_row(definition, row) {
            Ok(spot) => self.at(spot),
            Err(_) => None,
        }
    }

    /// Makes room for so many more rows, in the indexes of so many unique keys, too.
    pub(crate) fn make_room(
        &mut self,
        alloc: Global,
        keys: usize,
        more: usize,
    ) -> Result<(), NoMemory>
        requires { more ≤ 2 ^ 33 }
        ensures made { OnOk result (more ≤ room_of self.new) }
        ensures few { OnOk result (length (flat self.old.order.blocks) + more ≤ 2 ^ 32) }
        ensures rows { self.new.rows.rows ≡ self.old.rows.rows }
        ensures order { self.new.order.blocks ≡ self.old.order.blocks }
        ensures room { room_of self.old ≤ room_of self.new }
        ensures kept { (definition : Definition) (rows : List (List Value)) → length definition.uniques ≤ keys
            → AreKept definition.uniques (row_of self.old.rows.rows) self.old.indexes.items rows self.old.hold
            → AreKept definition.uniques (row_of self.new.rows.rows) self.new.indexes.items rows self.new.hold }
        ensures no_less { self.old.hold ≤ self.new.hold }
        ensures fits { OnOk result (length (flat self.new.order.blocks) ≤ self.new.hold) }
    {
        const MOST: usize = 1 << 32;
        let count = self.order.len();
        if self.rows.len() + more > MOST || count + more > MOST {
            return Err(AllocError);
        }
        if self.hold < count + more {
            make_hold(&mut self.indexes, alloc, keys, count + more)?;
            self.hold = count + more;
        }
        self.order.make_room(alloc, more)?;
        self.rows.make_room(more)
    }
}
