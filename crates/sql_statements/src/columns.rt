//! The columns that an INSERT or REPLACE names, as places.
ghost use Rattle.std.specs.Prelude.{◌≡◌, IfOk};
ghost use Rattle.changed_rows.specs.catalog_rules.Checks.{given_columns};
ghost use Rattle.changed_rows.specs.catalog_rules.Defined.{places_of};
ghost use Rattle.changed_rows.specs.catalog_rules.Objects.{columns_of};

use changed_rows::sql_evaluation::place_of;
use std::alloc::Global;
use val_types::{Bytes, List, NoMemory, TableDef};

/// The places of the columns of some names; a name that no column has gives none.
fn named_places(
    alloc: Global,
    definition: &TableDef,
    names: &[Bytes],
) -> Result<List<usize>, NoMemory>
    ensures { IfOk result (λ places. places ≡ places_of (columns_of definition.now) names.now) }
{
    let mut places = List::with_capacity(alloc, names.len())?;
    for name in names {
        if let Some(place) = place_of(definition, name) {
            places.push(place)?;
        }
    }
    Ok(places)
}

/// The places of all columns; of two of one name that of the first.
fn all_places(alloc: Global, definition: &TableDef) -> Result<List<usize>, NoMemory>
    ensures { IfOk result (λ places. places ≡ places_of (columns_of definition.now) (columns_of definition.now)) }
{
    let mut places = List::with_capacity(alloc, definition.columns.len())?;
    for column in definition.columns.as_slice() {
        if let Some(place) = place_of(definition, &column.name) {
            places.push(place)?;
        }
    }
    Ok(places)
}

/// The places of the columns that are named, of all where none are.
pub(crate) fn given_places(
    alloc: Global,
    definition: &TableDef,
    names: &Option<List<Bytes>>,
) -> Result<List<usize>, NoMemory>
    ensures { IfOk result (λ places. places ≡ places_of (columns_of definition.now) (given_columns definition.now names.now)) }
{
    match names {
        Some(names) => named_places(alloc, definition, names.as_slice()),
        None => all_places(alloc, definition),
    }
}
