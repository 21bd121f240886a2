//! Entries settled, the first one first: what they show becomes the committed rows.
ghost use Rattle.std.specs.Prelude.{◌≡◌, ◌≢◌, ◌∷◌, ◌+◌, ◌^◌, ◌<◌, ◌≤◌, ℕ, [], true, false, length, remove, slice_index, IfNone, IfSome, IsSome, IsTrue, List, Some, Ok, Err};
ghost use Rattle.val_types.specs.declared.value.Value.{Value};
ghost use Rattle.val_types.specs.declared.definitions.TableDef.{TableDef as Definition};
ghost use Rattle.val_types.specs.Keys.{primary_key, same_values};
ghost use Rattle.row_index.specs.block_list.Layouts.{flat};
ghost use Rattle.row_index.specs.block_list.Spots.{place, IsAt, IsFound, IsSpot};
ghost use Rattle.row_index.specs.row_arena.Arenas.{IsNotAmong};
ghost use Rattle.row_index.specs.row_sheets.Slots.{drop_slot, fill, has_own_key, keys_in, keys_rise, row_slots, rows_in};
ghost use Rattle.row_index.specs.row_sheets.Over.{over, settled_by};
ghost use Rattle.row_index.specs.row_sheets.Orders.{by_key, NumbersRise};
ghost use Rattle.row_index.specs.row_sheets.Claims.{row_under};
ghost use Rattle.row_index.specs.Numbers.{number_slot};
ghost use Rattle.row_index.specs.Lists.{numbers_at, CanPutInAll, OfEach};
ghost use Rattle.table_sheet.specs.Numbered.{row_of, row_slot};
ghost use Rattle.table_sheet.specs.Indexed.{AreAllApart, AreEntered, AreLeft, IsBelow};
ghost use Rattle.table_sheet.specs.Pages.{rows_on};
ghost use Rattle.table_sheet.specs.Parts.{committed_slots, entry_slots, room_of};
ghost use Rattle.table_sheet.specs.Settling.{hiding, taken_by, HidesEntries, IsTakenFirst, SettlesParts};

use crate::committed::Committed;
use crate::overlay::Overlay;
use crate::sheet::Sheet;
use row_index::block_list::Spot;
use row_index::{put_row, take_row};
use sharing::Shared;
use std::alloc::Global;
use val_types::{Row, TableDef};

impl Overlay {
    /// Takes the first entry out of the order, with the row that it shows; None where there is no entry.
    fn take_first(&mut self) -> Option<(u32, Option<Shared<Row>>)>
        ensures some { IfSome result (λ first. IsTakenFirst self.old self.new first.0 first.1) }
        ensures same { IfNone result (self.new ≡ self.old) }
        ensures none { IfNone result (flat self.old.ranks.blocks ≡ []) }
    {
        let spot = self.ranks.standing(self.ranks.first())?;
        let number = self.ranks.take(spot);
        let entry = &mut self.entries[number as usize];
        Some((number, entry.present.take()))
    }
}

impl Committed {
    /// Puts another row of the same key in the place of the one at a spot.
    fn replace_at(&mut self, spot: Spot, row: Shared<Row>)
        requires { IsAt self.old.order.blocks spot }
        ensures slots { (definition : Definition)
            → keys_rise (keys_in (committed_slots definition self.old)) ≡ true
            → IsFound (by_key (row_slot definition self.old.rows.rows) (primary_key definition row)) self.old.order.blocks (Ok spot)
            → committed_slots definition self.new ≡ fill (primary_key definition row) (Some row) (committed_slots definition self.old) }
        ensures room { room_of self.old ≤ room_of self.new }
        ensures others { (number : ℕ) → number ≢ slice_index (flat self.old.order.blocks) (place self.old.order.blocks spot) → row_of self.new.rows.rows number ≡ row_of self.old.rows.rows number }
        ensures indexes { self.new.indexes.items ≡ self.old.indexes.items }
        ensures hold { self.new.hold ≡ self.old.hold }
    {
        match self.order.get(spot) {
            Some(number) => {
                let _ = self.rows.replace(number, row);
            }
            None => {}
        }
    }

    /// Takes the row at a spot out, and its number out of the order, in which it stands once.
    fn take_at(&mut self, spot: Spot)
        requires spot { IsAt self.old.order.blocks spot }
        requires once { IsNotAmong (slice_index (flat self.old.order.blocks) (place self.old.order.blocks spot)) (remove (flat self.old.order.blocks) (place self.old.order.blocks spot)) }
        ensures slots { (definition : Definition) (key : List Value)
            → keys_rise (keys_in (committed_slots definition self.old)) ≡ true
            → IsFound (by_key (row_slot definition self.old.rows.rows) key) self.old.order.blocks (Ok spot)
            → committed_slots definition self.new ≡ drop_slot key (committed_slots definition self.old) }
        ensures room { room_of self.old ≤ room_of self.new }
        ensures others { (number : ℕ) → number ≢ slice_index (flat self.old.order.blocks) (place self.old.order.blocks spot) → row_of self.new.rows.rows number ≡ row_of self.old.rows.rows number }
        ensures indexes { self.new.indexes.items ≡ self.old.indexes.items }
        ensures hold { self.new.hold ≡ self.old.hold }
    {
        let number = self.order.take(spot);
        let _ = self.rows.take(number);
    }

    /// Puts a row at the spot where its key belongs, under a number that is free.
    fn put_at(&mut self, spot: Spot, row: Shared<Row>)
        requires spot { IsSpot self.old.order.blocks spot }
        requires room { 0 < room_of self.old }
        requires few { length (flat self.old.order.blocks) < 2 ^ 32 }
        ensures slots { (definition : Definition)
            → IsFound (by_key (row_slot definition self.old.rows.rows) (primary_key definition row)) self.old.order.blocks (Err spot)
            → committed_slots definition self.new ≡ over (record { key = primary_key definition row; row = Some row } ∷ []) (committed_slots definition self.old) }
        ensures room { room_of self.old ≤ room_of self.new + 1 }
        ensures others { (number : ℕ) (other : List Value) → row_of self.old.rows.rows number ≡ Some other → row_of self.new.rows.rows number ≡ Some other }
        ensures indexes { self.new.indexes.items ≡ self.old.indexes.items }
        ensures hold { self.new.hold ≡ self.old.hold }
    {
        let number = self.rows.put(row);
        self.order.put(spot, number);
    }

    /// Makes what an entry of the key of a row shows the committed row of that key.
    fn settle(&mut self, definition: &Shared<TableDef>, bearer: &Row, present: Option<Shared<Row>>)
        requires rises { keys_rise (keys_in (committed_slots definition.now self.old)) ≡ true }
        requires own { has_own_key definition.now (record { key = primary_key definition.now bearer.now; row = present }) ≡ true }
        requires room { taken_by (primary_key definition.now bearer.now) (committed_slots definition.now self.old) ≤ room_of self.old }
        requires few { length (committed_slots definition.now self.old) + taken_by (primary_key definition.now bearer.now) (committed_slots definition.now self.old) ≤ 2 ^ 32 }
        ensures slots { committed_slots definition.now self.new ≡ settled_by (primary_key definition.now bearer.now) present (committed_slots definition.now self.old) }
        ensures room { room_of self.old ≤ room_of self.new + taken_by (primary_key definition.now bearer.now) (committed_slots definition.now self.old) }
        ensures others { (number : ℕ) (row : List Value) → row_of self.old.rows.rows number ≡ Some row
            → same_values (primary_key definition.now row) (primary_key definition.now bearer.now) ≡ false → row_of self.new.rows.rows number ≡ Some row }
        ensures indexes { self.new.indexes.items ≡ self.old.indexes.items }
        ensures hold { self.new.hold ≡ self.old.hold }
    {
        match self.find_row(definition, bearer) {
            Ok(spot) => match present {
                Some(row) => self.replace_at(spot, row),
                None => self.take_at(spot),
            },
            Err(spot) => match present {
                Some(row) => self.put_at(spot, row),
                None => {}
            },
        }
    }

    /// Takes the number of the row of a key out of all indexes, where there is one.
    fn leave(&mut self, definition: &Shared<TableDef>, bearer: &Row)
        requires rises { keys_rise (keys_in (committed_slots definition.now self.old)) ≡ true }
        requires rise { OfEach definition.now.uniques (λ which key. NumbersRise (number_slot key (row_of self.old.rows.rows)) (numbers_at self.old.indexes.items which)) }
        ensures rows { self.new.rows ≡ self.old.rows }
        ensures order { self.new.order ≡ self.old.order }
        ensures hold { self.new.hold ≡ self.old.hold }
        ensures left { AreLeft definition.now.uniques (row_of self.old.rows.rows) (row_under (primary_key definition.now bearer.now) (committed_slots definition.now self.old)) self.old.indexes.items self.new.indexes.items }
    {
        let table = definition.get();
        if table.uniques.is_empty() {
            return;
        }
        let Ok(spot) = self.find_row(definition, bearer) else {
            return;
        };
        let Some(number) = self.order.get(spot) else {
            return;
        };
        match self.rows.get(number) {
            Some(row) => take_row(&mut self.indexes, table, &self.rows, row),
            None => {}
        }
    }

    /// Puts the number of the row of a key into all indexes, where there is one.
    fn enter(&mut self, definition: &Shared<TableDef>, bearer: &Row)
        requires rises { keys_rise (keys_in (committed_slots definition.now self.old)) ≡ true }
        requires can { IsSome (row_under (primary_key definition.now bearer.now) (committed_slots definition.now self.old)) → CanPutInAll definition.now.uniques (row_of self.old.rows.rows) self.old.indexes.items }
        ensures rows { self.new.rows ≡ self.old.rows }
        ensures order { self.new.order ≡ self.old.order }
        ensures hold { self.new.hold ≡ self.old.hold }
        ensures entered { AreEntered definition.now.uniques (row_of self.old.rows.rows) (row_under (primary_key definition.now bearer.now) (committed_slots definition.now self.old)) self.old.indexes.items self.new.indexes.items }
    {
        let table = definition.get();
        if table.uniques.is_empty() {
            return;
        }
        let Ok(spot) = self.find_row(definition, bearer) else {
            return;
        };
        let Some(number) = self.order.get(spot) else {
            return;
        };
        match self.rows.get(number) {
            Some(row) => put_row(&mut self.indexes, table, &self.rows, row, number),
            None => {}
        }
    }
}

/// Takes the committed rows of all keys that have an entry out of all indexes.
fn hide_all(definition: &Shared<TableDef>, committed: &mut Committed, overlay: &Overlay)
    requires rises { keys_rise (keys_in (entry_slots definition.now overlay.now)) ≡ true }
    requires rising { keys_rise (keys_in (committed_slots definition.now committed.old)) ≡ true }
    requires apart { AreAllApart definition.now.uniques (committed_slots definition.now committed.old) }
    requires below { IsBelow definition.now committed.old (rows_in (committed_slots definition.now committed.old)) }
    ensures rows { committed.new.rows ≡ committed.old.rows }
    ensures order { committed.new.order ≡ committed.old.order }
    ensures hold { committed.new.hold ≡ committed.old.hold }
    ensures below { IsBelow definition.now committed.new (rows_in (over (hiding (entry_slots definition.now overlay.now)) (committed_slots definition.now committed.old))) }
{
    let mut at = overlay.ranks.first();
    while let Some(entry) = overlay.at(at) {
        committed.leave(definition, entry.bearer.get());
        at = overlay.ranks.after(at);
    }
}

/// Settles the first entry, and takes it out of the order; false where there is none.
fn settle_first(
    definition: &Shared<TableDef>,
    committed: &mut Committed,
    overlay: &mut Overlay,
) -> bool
    requires settles { SettlesParts definition.now committed.old overlay.old }
    requires hides { HidesEntries definition.now committed.old overlay.old }
    ensures settles { SettlesParts definition.now committed.new overlay.new }
    ensures hides { HidesEntries definition.now committed.new overlay.new }
    ensures rows { rows_in (over (entry_slots definition.now overlay.new) (committed_slots definition.now committed.new)) ≡ rows_in (over (entry_slots definition.now overlay.old) (committed_slots definition.now committed.old)) }
    ensures fewer { IsTrue result → length (entry_slots definition.now overlay.new) < length (entry_slots definition.now overlay.old) }
    ensures none { result ≡ false → entry_slots definition.now overlay.new ≡ [] }
{
    let Some(first) = overlay.take_first() else {
        return false;
    };
    match overlay.entry(first.0) {
        Some(entry) => {
            let bearer = entry.bearer.get();
            committed.settle(definition, bearer, first.1);
            committed.enter(definition, bearer);
        }
        None => {}
    }
    true
}

/// Settles all entries.
fn settle_all(definition: &Shared<TableDef>, committed: &mut Committed, overlay: &mut Overlay)
    requires settles { SettlesParts definition.now committed.old overlay.old }
    requires hides { HidesEntries definition.now committed.old overlay.old }
    ensures settles { SettlesParts definition.now committed.new overlay.new }
    ensures below { IsBelow definition.now committed.new (rows_in (committed_slots definition.now committed.new)) }
    ensures rows { rows_in (committed_slots definition.now committed.new) ≡ rows_in (over (entry_slots definition.now overlay.old) (committed_slots definition.now committed.old)) }
{
    while settle_first(definition, committed, overlay) {}
}

impl Sheet {
    /// Makes the rows that are shown the committed ones. It takes no memory.
    pub fn settle(&mut self, alloc: Global)
        ensures definition { self.new.definition ≡ self.old.definition }
        ensures entries { self.new.entries ≡ [] }
        ensures committed { self.new.committed ≡ row_slots self.old.definition (rows_on self.old) }
        ensures settled { rows_in self.new.committed ≡ rows_on self.old }
        ensures rows { rows_on self.new ≡ rows_on self.old }
    {
        hide_all(&self.definition, &mut self.committed, &self.overlay);
        settle_all(&self.definition, &mut self.committed, &mut self.overlay);
        self.overlay.clear();
    }
}
