//! The rows that are shown of which the primary keys begin in a range, found where they begin.
ghost use Rattle.std.specs.Prelude.{◌≡◌, [], true, filter, option_copied, take, drop, if◌then◌else◌, IfNone, IfOk, IfSome};
ghost use Rattle.row_index.specs.block_list.Spots.{place, IsSpot};
ghost use Rattle.row_index.specs.row_sheets.Slots.{keys_in, keys_rise, rows_in};
ghost use Rattle.value_ranges.specs.Keys.{row_is_in};
ghost use Rattle.value_ranges.specs.Ranges.{range_of};
ghost use Rattle.table_sheet.specs.Ranges.{by_low, AreBehind, AreOrdered, AreOutside};
ghost use Rattle.table_sheet.specs.Numbered.{row_slot};
ghost use Rattle.table_sheet.specs.Pages.{rows_on};
ghost use Rattle.table_sheet.specs.Parts.{committed_slots, entry_slots};
ghost use Rattle.table_sheet.specs.Ranked.{entry_slot};
ghost use Rattle.table_sheet.specs.Walks.{left, AreNext, IsPlace};

use crate::committed::Committed;
use crate::overlay::Overlay;
use crate::place::Place;
use crate::sheet::Sheet;
use crate::walking::step;
use row_index::block_list::Spot;
use sharing::Shared;
use std::alloc::Global;
use std::cmp::Ordering;
use val_types::{List, NoMemory, Row, TableDef, Value};
use value_ranges::{ValueRange, is_from, row_is_from, row_is_in, row_is_to};

/// How a key that begins before a range, or does not, stands to its lower end.
fn order_of(inside: bool) -> Ordering
    ensures { result ≡ (if inside then Ordering.Greater else Ordering.Less) }
{
    if inside {
        Ordering::Greater
    } else {
        Ordering::Less
    }
}

impl Overlay {
    /// How the key of a number's entry stands to a lower end.
    fn low_cmp(&self, definition: &Shared<TableDef>, range: ValueRange<'_>, number: u32) -> Ordering
        ensures { result ≡ by_low (entry_slot definition.now self.now.entries.items) (range_of range.entry).low number }
    {
        let table = definition.get();
        match self.entry(number) {
            Some(entry) => {
                let bearer = entry.bearer.get();
                order_of(row_is_from(table, range, bearer))
            }
            None => order_of(is_from(range.low, &Value::Null)),
        }
    }

    /// Before the first entry that is not before a range.
    fn begin(&self, definition: &Shared<TableDef>, range: ValueRange<'_>) -> Spot
        requires { keys_rise (keys_in (entry_slots definition.now self.now)) ≡ true }
        ensures spot { IsSpot self.now.ranks.blocks result }
        ensures outside { AreOutside (range_of range.entry) (take (place self.now.ranks.blocks result) (entry_slots definition.now self.now)) }
    {
        let compare = |number: u32| -> Ordering
            ensures { result ≡ by_low (entry_slot definition.entry.now self.entry.now.entries.items) (range_of range.entry).low number }
        { self.low_cmp(definition, range, number) };
        match self.ranks.find(&compare) {
            Ok(_) => self.ranks.first(),
            Err(spot) => spot,
        }
    }

    /// Whether no entry from a spot on is in a range.
    fn is_over(&self, definition: &Shared<TableDef>, range: ValueRange<'_>, at: Spot) -> bool
        requires { IsSpot self.now.ranks.blocks at }
        ensures { result ≡ true → AreBehind (range_of range.entry) (drop (place self.now.ranks.blocks at) (entry_slots definition.now self.now)) }
    {
        let table = definition.get();
        match self.at(at) {
            Some(entry) => {
                let bearer = entry.bearer.get();
                !row_is_to(table, range, bearer)
            }
            None => true,
        }
    }
}

impl Committed {
    /// How the key of a number's row stands to a lower end.
    fn low_cmp(&self, definition: &Shared<TableDef>, range: ValueRange<'_>, number: u32) -> Ordering
        ensures { result ≡ by_low (row_slot definition.now self.now.rows.rows) (range_of range.entry).low number }
    {
        let table = definition.get();
        match self.rows.get(number) {
            Some(row) => order_of(row_is_from(table, range, row)),
            None => order_of(is_from(range.low, &Value::Null)),
        }
    }

    /// Before the first row that is not before a range.
    fn begin(&self, definition: &Shared<TableDef>, range: ValueRange<'_>) -> Spot
        requires { keys_rise (keys_in (committed_slots definition.now self.now)) ≡ true }
        ensures spot { IsSpot self.now.order.blocks result }
        ensures outside { AreOutside (range_of range.entry) (take (place self.now.order.blocks result) (committed_slots definition.now self.now)) }
    {
        let compare = |number: u32| -> Ordering
            ensures { result ≡ by_low (row_slot definition.entry.now self.entry.now.rows.rows) (range_of range.entry).low number }
        { self.low_cmp(definition, range, number) };
        match self.order.find(&compare) {
            Ok(_) => self.order.first(),
            Err(spot) => spot,
        }
    }

    /// Whether no row from a spot on is in a range.
    fn is_over(&self, definition: &Shared<TableDef>, range: ValueRange<'_>, at: Spot) -> bool
        requires { IsSpot self.now.order.blocks at }
        ensures { result ≡ true → AreBehind (range_of range.entry) (drop (place self.now.order.blocks at) (committed_slots definition.now self.now)) }
    {
        let table = definition.get();
        match self.at(at) {
            Some(shared) => {
                let row = shared.get();
                !row_is_to(table, range, row)
            }
            None => true,
        }
    }
}

/// Whether no slot from a place on is in a range.
fn is_over(
    definition: &Shared<TableDef>,
    committed: &Committed,
    overlay: &Overlay,
    range: ValueRange<'_>,
    at: Place,
) -> bool
    requires { IsPlace committed.now overlay.now at }
    ensures entries { result ≡ true → AreBehind (range_of range.entry) (drop (place overlay.now.ranks.blocks at.entry) (entry_slots definition.now overlay.now)) }
    ensures rows { result ≡ true → AreBehind (range_of range.entry) (drop (place committed.now.order.blocks at.row) (committed_slots definition.now committed.now)) }
{
    if !overlay.is_over(definition, range, at.entry) {
        return false;
    }
    committed.is_over(definition, range, at.row)
}

/// What the next slot shows, None where nothing that is in a range is left.
fn step_within<'a>(
    definition: &Shared<TableDef>,
    committed: &'a Committed,
    overlay: &'a Overlay,
    range: ValueRange<'_>,
    at: &mut Place,
) -> Option<Option<&'a Shared<Row>>>
    requires place { IsPlace committed.now overlay.now at.old }
    requires entries { AreOrdered definition.now (entry_slots definition.now overlay.now) }
    requires rows { AreOrdered definition.now (committed_slots definition.now committed.now) }
    ensures place { IsPlace committed.now overlay.now at.new }
    ensures some { IfSome result (λ row. AreNext (option_copied row) (left definition.now committed.now overlay.now at.old) (left definition.now committed.now overlay.now at.new)) }
    ensures none { IfNone result (filter (row_is_in definition.now (range_of range.entry)) (rows_in (left definition.now committed.now overlay.now at.old)) ≡ []) }
{
    if is_over(definition, committed, overlay, range, *at) {
        return None;
    }
    step(definition, committed, overlay, at)
}

/// The rows that are shown from a place on and are in a range, each shared.
fn rows_within(
    alloc: Global,
    definition: &Shared<TableDef>,
    committed: &Committed,
    overlay: &Overlay,
    range: ValueRange<'_>,
    from: Place,
) -> Result<List<Shared<Row>>, NoMemory>
    requires place { IsPlace committed.now overlay.now from }
    requires entries { AreOrdered definition.now (entry_slots definition.now overlay.now) }
    requires rows { AreOrdered definition.now (committed_slots definition.now committed.now) }
    ensures { IfOk result (λ rows. rows ≡ filter (row_is_in definition.now (range_of range.entry)) (rows_in (left definition.now committed.now overlay.now from))) }
{
    let table = definition.get();
    let mut at = from;
    let mut rows = List::new(alloc);
    while let Some(shown) = step_within(definition, committed, overlay, range, &mut at) {
        if let Some(row) = shown {
            let seen = row.get();
            if row_is_in(table, range, seen) {
                rows.push(row.share()?)?;
            }
        }
    }
    Ok(rows)
}

impl Sheet {
    /// The rows that are shown of which the primary keys begin in a range, in their order, each shared with the table: found by one search
    /// among the entries and one among the committed rows, and walked from there to the end of the range.
    pub fn rows_between(
        &self,
        alloc: Global,
        range: ValueRange<'_>,
    ) -> Result<List<Shared<Row>>, NoMemory>
        ensures { IfOk result (λ rows. rows ≡ filter (row_is_in self.now.definition (range_of range.entry)) (rows_on self.now)) }
    {
        let entry = self.overlay.begin(&self.definition, range);
        let row = self.committed.begin(&self.definition, range);
        let from = Place { entry, row };
        rows_within(
            alloc,
            &self.definition,
            &self.committed,
            &self.overlay,
            range,
            from,
        )
    }
}
