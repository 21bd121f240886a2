//! What a transaction shows of a table.
ghost use Rattle.std.specs.Prelude.{IsTrue};
ghost use Rattle.row_index.specs.block_list.Layouts.{flat};
ghost use Rattle.table_sheet.specs.Ranked.{are_ranked};

use crate::comparing::{nothing_row_cmp, rows_cmp};
use crate::entry::Entry;
use crate::indexing::{enter, leave};
use row_index::block_list::{Blocks, Spot};
use row_index::{clear_lists, columns_cmp, make_hold, no_columns_cmp};
use sharing::Shared;
use std::alloc::{AllocError, Global};
use std::cmp::Ordering;
use val_types::{NoMemory, Row, TableDef, key_cmp};

/// Entries in the order of first touch, their numbers in the order of keys, how many are of keys that no committed row has, and the
/// numbers of those that show a row by its values in each unique key.
#[derive(Drop)]
pub struct Overlay {
    pub entries: Vec<Entry>,
    pub ranks: Blocks,
    pub fresh: usize,
    pub indexes: Vec<Blocks>,
    pub ghost ranked: { IsTrue (are_ranked entries.items (flat ranks.blocks)) },
}

impl Overlay {
    ghost use Rattle.std.specs.Prelude.{◌≡◌, ◌+◌, ◌^◌, ◌<◌, ◌≤◌, ◌≢◌, ℕ, [], ◌∷◌, true, false, length, option_copied, slice_get, slice_index, Some, None, Ok, Err, List, MatchResult, OnOk, OnErr};
    ghost use Rattle.std.specs.Option.{option_and_then, option_map_or};
    ghost use Rattle.val_types.specs.declared.value.Value.{Value};
    ghost use Rattle.val_types.specs.declared.definitions.TableDef.{TableDef as Definition};
    ghost use Rattle.val_types.specs.Keys.{primary_key, same_values};
    ghost use Rattle.row_index.specs.block_list.Spots.{place, IsAt, IsFound, IsSpot};
    ghost use Rattle.row_index.specs.row_sheets.Slots.{fill, keys_in, keys_rise};
    ghost use Rattle.row_index.specs.row_sheets.Orders.{by_key};
    ghost use Rattle.row_index.specs.row_sheets.Over.{over};
    ghost use Rattle.table_sheet.specs.Ranked.{entry_slot, shown_by};
    ghost use Rattle.table_sheet.specs.Parts.{entry_slots};
    ghost use Rattle.table_sheet.specs.Indexed.{AreAllApart, IsAbove};

    /// No entries, which take no memory until there is to be one.
    pub(crate) fn new(alloc: Global) -> Overlay
        ensures entries { flat result.ranks.blocks ≡ [] }
        ensures fresh { result.fresh ≡ 0 }
        ensures above { (definition : Definition) → IsAbove definition result }
    {
        Overlay {
            entries: Vec::new(alloc),
            ranks: Blocks::new(alloc),
            fresh: 0,
            indexes: Vec::new(alloc),
        }
    }

    /// The entry of a number.
    pub(crate) fn entry(&self, number: u32) -> Option<&Entry>
        ensures { option_copied result ≡ slice_get self.now.entries.items number }
    {
        self.entries.get(number as usize)
    }

    /// How the key of a number's entry stands to a key.
    pub(crate) fn key_cmp(&self, definition: &Shared<TableDef>, key: &Row, number: u32) -> Ordering
        ensures { result ≡ by_key (entry_slot definition.now self.now.entries.items) key.now number }
    {
        let table = definition.get();
        match self.entry(number) {
            Some(entry) => {
                let bearer = entry.bearer.get();
                columns_cmp(bearer, &table.primary, key)
            }
            None => no_columns_cmp(key),
        }
    }

    /// How the key of a number's entry stands to the primary key of a row.
    pub(crate) fn row_cmp(&self, definition: &Shared<TableDef>, row: &Row, number: u32) -> Ordering
        ensures { result ≡ by_key (entry_slot definition.now self.now.entries.items) (primary_key definition.now row.now) number }
    {
        let table = definition.get();
        match self.entry(number) {
            Some(entry) => {
                let bearer = entry.bearer.get();
                rows_cmp(table, bearer, row)
            }
            None => nothing_row_cmp(table, row),
        }
    }

    /// Where the number of the entry of a key stands, or belongs.
    pub(crate) fn find(&self, definition: &Shared<TableDef>, key: &Row) -> Result<Spot, Spot>
        requires { keys_rise (keys_in (entry_slots definition.now self.now)) ≡ true }
        ensures found { IsFound (by_key (entry_slot definition.now self.now.entries.items) key.now) self.now.ranks.blocks result }
        ensures spot { MatchResult result (λ spot. IsAt self.now.ranks.blocks spot) (λ spot. IsSpot self.now.ranks.blocks spot) }
    {
        let compare = |number: u32| -> Ordering
            ensures { result ≡ by_key (entry_slot definition.entry.now self.entry.now.entries.items) key.entry.now number }
        { self.key_cmp(definition, key, number) };
        self.ranks.find(&compare)
    }

    /// The same for the primary key of a row, of which no copy is made.
    pub(crate) fn find_row(&self, definition: &Shared<TableDef>, row: &Row) -> Result<Spot, Spot>
        requires { keys_rise (keys_in (entry_slots definition.now self.now)) ≡ true }
        ensures found { IsFound (by_key (entry_slot definition.now self.now.entries.items) (primary_key definition.now row.now)) self.now.ranks.blocks result }
        ensures spot { MatchResult result (λ spot. IsAt self.now.ranks.blocks spot) (λ spot. IsSpot self.now.ranks.blocks spot) }
    {
        let compare = |number: u32| -> Ordering
            ensures { result ≡ by_key (entry_slot definition.entry.now self.entry.now.entries.items) (primary_key definition.entry.now row.entry.now) number }
        { self.row_cmp(definition, row, number) };
        self.ranks.find(&compare)
    }

    /// The entry of the number at a spot, None behind the last one.
    pub(crate) fn at(&self, spot: Spot) -> Option<&Entry>
        requires { IsSpot self.now.ranks.blocks spot }
        ensures { option_copied result ≡ option_and_then (slice_get self.now.entries.items) (slice_get (flat self.now.ranks.blocks) (place self.now.ranks.blocks spot)) }
    {
        self.entry(self.ranks.get(spot)?)
    }

    /// Whether the entry at a spot shows just this row.
    pub(crate) fn shows(&self, spot: Spot, row: &Row) -> bool
        requires { IsSpot self.now.ranks.blocks spot }
        ensures { result ≡ option_map_or (λ shown. same_values shown row.now)
            (option_and_then (λ entry. entry.present) (option_and_then (slice_get self.now.entries.items) (slice_get (flat self.now.ranks.blocks) (place self.now.ranks.blocks spot)))) false }
    {
        match self.at(spot) {
            Some(entry) => match entry.shown() {
                Some(shown) => key_cmp(shown.get(), row).is_eq(),
                None => false,
            },
            None => false,
        }
    }

    /// Gives the entry at a spot another row or none, and answers with what it had; the indexes stay as they are.
    fn fill_entry(&mut self, spot: Spot, present: Option<Shared<Row>>) -> Option<Shared<Row>>
        requires { IsAt self.old.ranks.blocks spot }
        ensures before { (definition : Definition)
            → result ≡ (entry_slot definition self.old.entries.items (slice_index (flat self.old.ranks.blocks) (place self.old.ranks.blocks spot))).row }
        ensures slots { (definition : Definition) (key : List Value)
            → keys_rise (keys_in (entry_slots definition self.old)) ≡ true
            → IsFound (by_key (entry_slot definition self.old.entries.items) key) self.old.ranks.blocks (Ok spot)
            → entry_slots definition self.new ≡ fill key present (entry_slots definition self.old) }
        ensures fresh { self.new.fresh ≡ self.old.fresh }
        ensures ranks { self.new.ranks.blocks ≡ self.old.ranks.blocks }
        ensures indexes { self.new.indexes.items ≡ self.old.indexes.items }
        ensures there { shown_by self.new.entries.items (slice_index (flat self.old.ranks.blocks) (place self.old.ranks.blocks spot)) ≡ present }
        ensures others { (number : ℕ) → number ≢ slice_index (flat self.old.ranks.blocks) (place self.old.ranks.blocks spot)
            → shown_by self.new.entries.items number ≡ shown_by self.old.entries.items number }
    {
        match self.ranks.get(spot) {
            Some(number) => {
                let entry = &mut self.entries[number as usize];
                let before = entry.present.take();
                entry.present = present;
                before
            }
            None => None,
        }
    }

    /// Gives the entry at a spot another row or none, and answers with what it had. It takes no memory.
    pub(crate) fn fill(
        &mut self,
        definition: &Shared<TableDef>,
        spot: Spot,
        present: Option<Shared<Row>>,
    ) -> Option<Shared<Row>>
        requires spot { IsAt self.old.ranks.blocks spot }
        requires rises { keys_rise (keys_in (entry_slots definition.now self.old)) ≡ true }
        requires apart { AreAllApart definition.now.uniques (entry_slots definition.now self.old) }
        requires above { IsAbove definition.now self.old }
        ensures before { (definition : Definition)
            → result ≡ (entry_slot definition self.old.entries.items (slice_index (flat self.old.ranks.blocks) (place self.old.ranks.blocks spot))).row }
        ensures slots { (definition : Definition) (key : List Value)
            → keys_rise (keys_in (entry_slots definition self.old)) ≡ true
            → IsFound (by_key (entry_slot definition self.old.entries.items) key) self.old.ranks.blocks (Ok spot)
            → entry_slots definition self.new ≡ fill key present (entry_slots definition self.old) }
        ensures fresh { self.new.fresh ≡ self.old.fresh }
        ensures above { AreAllApart definition.now.uniques (entry_slots definition.now self.new) → IsAbove definition.now self.new }
    {
        match self.ranks.get(spot) {
            Some(number) => {
                // there are at most 2 ^ 32 entries
                let _ = self.ranks.len();
                let table = definition.get();
                leave(table, &self.entries, &mut self.indexes, number);
                let before = self.fill_entry(spot, present);
                enter(table, &self.entries, &mut self.indexes, number);
                before
            }
            None => None,
        }
    }

    /// Makes an entry of a row's key at the spot where it belongs, of a key that no committed row has where `fresh` is 1.
    pub(crate) fn add(
        &mut self,
        alloc: Global,
        definition: &Shared<TableDef>,
        spot: Spot,
        bearer: Shared<Row>,
        present: Option<Shared<Row>>,
        fresh: usize,
    ) -> Result<(), NoMemory>
        requires spot { IsSpot self.old.ranks.blocks spot }
        requires few { self.old.fresh + fresh < 2 ^ 64 }
        requires rises { keys_rise (keys_in (entry_slots definition.now self.old)) ≡ true }
        requires above { IsAbove definition.now self.old }
        ensures slots { OnOk result ((definition : Definition)
            → IsFound (by_key (entry_slot definition self.old.entries.items) (primary_key definition bearer)) self.old.ranks.blocks (Err spot)
            → entry_slots definition self.new
            ≡ over (record { key = primary_key definition bearer; row = present } ∷ []) (entry_slots definition self.old)) }
        ensures fresh { OnOk result (self.new.fresh ≡ self.old.fresh + fresh) }
        ensures same { OnErr result ((definition : Definition) → entry_slots definition self.new ≡ entry_slots definition self.old) }
        ensures same_fresh { OnErr result (self.new.fresh ≡ self.old.fresh) }
        ensures above { OnOk result (IsFound (by_key (entry_slot definition.now self.old.entries.items) (primary_key definition.now bearer)) self.old.ranks.blocks (Err spot)
            → AreAllApart definition.now.uniques (entry_slots definition.now self.new) → IsAbove definition.now self.new) }
        ensures same_above { OnErr result (IsAbove definition.now self.new) }
    {
        const MOST: usize = (1 << 32) - 1;
        let count = self.ranks.len();
        if self.entries.len() >= MOST || count >= MOST {
            return Err(AllocError);
        }
        let table = definition.get();
        let keys = table.uniques.len();
        make_hold(&mut self.indexes, alloc, keys, count + 1)?;
        self.ranks.make_room(alloc, 1)?;
        let number = self.entries.len() as u32;
        self.entries.push(Entry { bearer, present })?;
        self.ranks.put(spot, number);
        self.fresh += fresh;
        enter(table, &self.entries, &mut self.indexes, number);
        Ok(())
    }

    /// Drops all entries, and keeps the room.
    pub(crate) fn clear(&mut self)
        ensures entries { flat self.new.ranks.blocks ≡ [] }
        ensures fresh { self.new.fresh ≡ 0 }
        ensures above { (definition : Definition) → IsAbove definition self.new }
    {
        self.entries.clear();
        self.ranks.clear();
        self.fresh = 0;
        clear_lists(&mut self.indexes);
    }
}
