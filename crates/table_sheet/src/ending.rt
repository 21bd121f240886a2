//! The last row that is shown, found from the end.
ghost use Rattle.std.specs.Prelude.{◌≡◌, ◌+◌, ◌-◌, ◌<◌, [], ◌∷◌, ◌++◌, true, length, option_copied, option_to_list, slice_get, IfNone, IfSome, Some};
ghost use Rattle.std.specs.Option.{option_and_then};
ghost use Rattle.val_types.specs.declared.definitions.TableDef.{TableDef as Definition};
ghost use Rattle.row_index.specs.block_list.Layouts.{flat};
ghost use Rattle.row_index.specs.block_list.Spots.{place, IsSpot};
ghost use Rattle.row_index.specs.row_sheets.Slots.{keys_in, keys_rise, rows_in};
ghost use Rattle.row_index.specs.row_sheets.Over.{over};
ghost use Rattle.table_sheet.specs.Numbered.{row_of};
ghost use Rattle.table_sheet.specs.Pages.{rows_on};
ghost use Rattle.table_sheet.specs.Parts.{committed_slots, entry_slots};
ghost use Rattle.table_sheet.specs.Walks.{depth, passed, IsPlace};

use crate::committed::Committed;
use crate::comparing::rows_cmp;
use crate::entry::Entry;
use crate::overlay::Overlay;
use crate::place::Place;
use crate::sheet::Sheet;
use row_index::block_list::Spot;
use sharing::Shared;
use std::cmp::Ordering;
use val_types::{Row, TableDef};

/// Behind all that is shown.
fn finish(committed: &Committed, overlay: &Overlay) -> Place
    ensures place { IsPlace committed.now overlay.now result }
    ensures all { (definition : Definition) → passed definition committed.now overlay.now result ≡ over (entry_slots definition overlay.now) (committed_slots definition committed.now) }
{
    Place {
        entry: overlay.ranks.end(),
        row: committed.order.end(),
    }
}

/// The entry before a spot, and where it stands.
fn entry_before(overlay: &Overlay, spot: Spot) -> Option<(Spot, &Entry)>
    requires { IsSpot overlay.now.ranks.blocks spot }
    ensures spot { IfSome result (λ found. IsSpot overlay.now.ranks.blocks found.0) }
    ensures place { IfSome result (λ found. place overlay.now.ranks.blocks found.0 + 1 ≡ place overlay.now.ranks.blocks spot) }
    ensures there { IfSome result (λ found. Some found.1.now ≡ option_and_then (slice_get overlay.now.entries.items) (slice_get (flat overlay.now.ranks.blocks) (place overlay.now.ranks.blocks found.0))) }
    ensures none { IfNone result (place overlay.now.ranks.blocks spot ≡ 0) }
{
    let back = overlay.ranks.before(spot)?;
    match overlay.at(back) {
        Some(entry) => Some((back, entry)),
        None => None,
    }
}

/// The committed row before a spot, and where it stands.
fn row_before(committed: &Committed, spot: Spot) -> Option<(Spot, &Shared<Row>)>
    requires { IsSpot committed.now.order.blocks spot }
    ensures spot { IfSome result (λ found. IsSpot committed.now.order.blocks found.0) }
    ensures place { IfSome result (λ found. place committed.now.order.blocks found.0 + 1 ≡ place committed.now.order.blocks spot) }
    ensures there { IfSome result (λ found. Some found.1.now ≡ option_and_then (row_of committed.now.rows.rows) (slice_get (flat committed.now.order.blocks) (place committed.now.order.blocks found.0))) }
    ensures none { IfNone result (place committed.now.order.blocks spot ≡ 0) }
{
    let back = committed.order.before(spot)?;
    match committed.at(back) {
        Some(row) => Some((back, row)),
        None => None,
    }
}

/// What the slot before a place shows, None before the first one.
fn step_back<'a>(
    definition: &Shared<TableDef>,
    committed: &'a Committed,
    overlay: &'a Overlay,
    at: &mut Place,
) -> Option<Option<&'a Shared<Row>>>
    requires place { IsPlace committed.now overlay.now at.old }
    requires rising { keys_rise (keys_in (entry_slots definition.now overlay.now)) ≡ true }
    requires below { keys_rise (keys_in (committed_slots definition.now committed.now)) ≡ true }
    ensures place { IsPlace committed.now overlay.now at.new }
    ensures some { IfSome result (λ row. rows_in (passed definition.now committed.now overlay.now at.old) ≡ rows_in (passed definition.now committed.now overlay.now at.new) ++ option_to_list (option_copied row)) }
    ensures fewer { IfSome result (λ row. depth committed.now overlay.now at.new < depth committed.now overlay.now at.old) }
    ensures none { IfNone result (rows_in (passed definition.now committed.now overlay.now at.old) ≡ []) }
{
    let first = entry_before(overlay, at.entry);
    let other = row_before(committed, at.row);
    let Some(entry) = first else {
        let row = other?;
        at.row = row.0;
        return Some(Some(row.1));
    };
    let Some(row) = other else {
        at.entry = entry.0;
        return Some(entry.1.shown());
    };
    match rows_cmp(definition.get(), entry.1.bearer.get(), row.1.get()) {
        Ordering::Less => {
            at.row = row.0;
            Some(Some(row.1))
        }
        Ordering::Equal => {
            at.entry = entry.0;
            at.row = row.0;
            Some(entry.1.shown())
        }
        Ordering::Greater => {
            at.entry = entry.0;
            Some(entry.1.shown())
        }
    }
}

/// The row that is shown before a place, None before the first one.
fn previous<'a>(
    definition: &Shared<TableDef>,
    committed: &'a Committed,
    overlay: &'a Overlay,
    at: &mut Place,
) -> Option<&'a Shared<Row>>
    requires place { IsPlace committed.now overlay.now at.old }
    requires rising { keys_rise (keys_in (entry_slots definition.now overlay.now)) ≡ true }
    requires below { keys_rise (keys_in (committed_slots definition.now committed.now)) ≡ true }
    ensures some { IfSome (option_copied result) (λ row. rows_in (passed definition.now committed.now overlay.now at.old) ≡ rows_in (passed definition.now committed.now overlay.now at.new) ++ row ∷ []) }
    ensures none { IfNone (option_copied result) (rows_in (passed definition.now committed.now overlay.now at.old) ≡ []) }
{
    while let Some(shown) = step_back(definition, committed, overlay, at) {
        if let Some(row) = shown {
            return Some(row);
        }
    }
    None
}

impl Sheet {
    /// The last row that is shown.
    pub fn last(&self) -> Option<&Shared<Row>>
        ensures { option_copied result ≡ slice_get (rows_on self.now) (length (rows_on self.now) - 1) }
    {
        let mut at = finish(&self.committed, &self.overlay);
        previous(&self.definition, &self.committed, &self.overlay, &mut at)
    }
}
