//! Entries and committed rows walked side by side, in the order of keys.
ghost use Rattle.std.specs.Prelude.{◌≡◌, [], map, option_copied, IfNone, IfSome, IfOk, List};
ghost use Rattle.val_types.specs.Keys.{primary_key};
ghost use Rattle.row_index.specs.row_sheets.Slots.{rows_in};
ghost use Rattle.val_types.specs.declared.definitions.TableDef.{TableDef as Definition};
ghost use Rattle.row_index.specs.row_sheets.Over.{over};
ghost use Rattle.table_sheet.specs.Parts.{committed_slots, entry_slots};
ghost use Rattle.table_sheet.specs.Walks.{left, AreNext, IsFirst, IsPlace};

use crate::committed::Committed;
use crate::comparing::rows_cmp;
use crate::overlay::Overlay;
use crate::place::Place;
use sharing::Shared;
use std::alloc::Global;
use std::cmp::Ordering;
use val_types::{List, NoMemory, Row, TableDef, key_of};

/// Before all that is shown.
pub(crate) fn start(committed: &Committed, overlay: &Overlay) -> Place
    ensures place { IsPlace committed.now overlay.now result }
    ensures all { (definition : Definition) → left definition committed.now overlay.now result ≡ over (entry_slots definition overlay.now) (committed_slots definition committed.now) }
{
    Place {
        entry: overlay.ranks.first(),
        row: committed.order.first(),
    }
}

/// Behind all entries, before all committed rows.
pub(crate) fn start_below(committed: &Committed, overlay: &Overlay) -> Place
    ensures place { IsPlace committed.now overlay.now result }
    ensures all { (definition : Definition) → left definition committed.now overlay.now result ≡ committed_slots definition committed.now }
{
    Place {
        entry: overlay.ranks.end(),
        row: committed.order.first(),
    }
}

/// What the next slot shows, None behind the last one.
pub(crate) fn step<'a>(
    definition: &Shared<TableDef>,
    committed: &'a Committed,
    overlay: &'a Overlay,
    at: &mut Place,
) -> Option<Option<&'a Shared<Row>>>
    requires { IsPlace committed.now overlay.now at.old }
    ensures place { IsPlace committed.now overlay.now at.new }
    ensures some { IfSome result (λ row. AreNext (option_copied row) (left definition.now committed.now overlay.now at.old) (left definition.now committed.now overlay.now at.new)) }
    ensures none { IfNone result (rows_in (left definition.now committed.now overlay.now at.old) ≡ []) }
{
    let first = overlay.at(at.entry);
    let other = committed.at(at.row);
    let Some(entry) = first else {
        let row = other?;
        at.row = committed.order.after(at.row);
        return Some(Some(row));
    };
    let Some(row) = other else {
        at.entry = overlay.ranks.after(at.entry);
        return Some(entry.shown());
    };
    match rows_cmp(definition.get(), entry.bearer.get(), row.get()) {
        Ordering::Less => {
            at.entry = overlay.ranks.after(at.entry);
            Some(entry.shown())
        }
        Ordering::Equal => {
            at.entry = overlay.ranks.after(at.entry);
            at.row = committed.order.after(at.row);
            Some(entry.shown())
        }
        Ordering::Greater => {
            at.row = committed.order.after(at.row);
            Some(Some(row))
        }
    }
}

/// The next row that is shown, None behind the last one.
pub(crate) fn next<'a>(
    definition: &Shared<TableDef>,
    committed: &'a Committed,
    overlay: &'a Overlay,
    at: &mut Place,
) -> Option<&'a Shared<Row>>
    requires { IsPlace committed.now overlay.now at.old }
    ensures place { IsPlace committed.now overlay.now at.new }
    ensures some { IfSome (option_copied result) (λ row. IsFirst row (left definition.now committed.now overlay.now at.old) (left definition.now committed.now overlay.now at.new)) }
    ensures none { IfNone (option_copied result) (rows_in (left definition.now committed.now overlay.now at.old) ≡ []) }
{
    while let Some(shown) = step(definition, committed, overlay, at) {
        if let Some(row) = shown {
            return Some(row);
        }
    }
    None
}

/// The rows that are shown from a place on, each shared.
pub(crate) fn rows_from(
    alloc: Global,
    definition: &Shared<TableDef>,
    committed: &Committed,
    overlay: &Overlay,
    from: Place,
) -> Result<List<Shared<Row>>, NoMemory>
    requires { IsPlace committed.now overlay.now from }
    ensures { IfOk result (λ rows. rows ≡ rows_in (left definition.now committed.now overlay.now from)) }
{
    let mut at = from;
    let mut rows = List::new(alloc);
    while let Some(row) = next(definition, committed, overlay, &mut at) {
        rows.push(row.share()?)?;
    }
    Ok(rows)
}

/// The primary keys of the rows that are shown from a place on.
pub(crate) fn keys_from(
    alloc: Global,
    definition: &Shared<TableDef>,
    committed: &Committed,
    overlay: &Overlay,
    from: Place,
) -> Result<List<Row>, NoMemory>
    requires { IsPlace committed.now overlay.now from }
    ensures { IfOk result (λ keys. keys ≡ map (primary_key definition.now) (rows_in (left definition.now committed.now overlay.now from))) }
{
    let mut at = from;
    let mut keys = List::new(alloc);
    while let Some(row) = next(definition, committed, overlay, &mut at) {
        keys.push(key_of(alloc, definition.get(), row.get())?)?;
    }
    Ok(keys)
}
