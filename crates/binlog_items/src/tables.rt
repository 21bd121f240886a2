//! The definitions of the tables that changes change.
ghost use Rattle.std.specs.Prelude.{◌≡◌, ◌++◌, ◌∷◌, ℕ, [], List as Items, map, IfOk, OnOk};
ghost use Rattle.catalog_checks.specs.catalog_objects.Keys.{objects_of};
ghost use Rattle.catalog_checks.specs.catalog_rules.Bases.{definitions_in};
ghost use Rattle.catalog_checks.specs.catalog_rules.Names.{is_among};
ghost use Rattle.binlog_items.specs.Items.{among, definitions_changed};
ghost use Rattle.val_types.specs.Changes.{table_of};

use catalog_checks::catalog_objects::{Object, Objects};
use catalog_checks::is_among;
use sharing::Shared;
use statement_names::Names;
use std::alloc::Global;
use val_types::{Bytes, Change, List, NoMemory, TableDef};

/// Puts one more holder of a definition at the end, where its table is among some names.
fn put_among(
    names: &[Bytes],
    definition: &Shared<TableDef>,
    defs: &mut List<Shared<TableDef>>,
) -> Result<(), NoMemory>
    ensures { OnOk result (defs.new ≡ defs.old ++ among names.now (definition.now ∷ [])) }
{
    if is_among(names, &definition.get().name) {
        defs.push(definition.share()?)?;
    }
    Ok(())
}

/// The definitions of the tables that are among some names, in the order of the catalog.
fn definitions_among(
    alloc: Global,
    objects: &[Object],
    names: &[Bytes],
) -> Result<List<Shared<TableDef>>, NoMemory>
    ensures { IfOk result (λ defs. defs ≡ among names.now (definitions_in (objects_of objects.now))) }
{
    let mut defs = List::new(alloc);
    for object in objects {
        if let Object::Table(definition) = object {
            put_among(names, definition, &mut defs)?;
        }
    }
    Ok(defs)
}

/// The names of the tables that changes change, in the order of their bytes, each once.
fn names_in(alloc: Global, changes: &[Change]) -> Result<Names, NoMemory>
    ensures { IfOk result (λ names. (name : Items ℕ) → is_among names name ≡ is_among (map table_of changes.now) name) }
{
    let mut names = Names::new(alloc);
    for change in changes {
        names.put(change.table())?;
    }
    Ok(names)
}

/// The definitions of the tables that changes change, shared with the catalog, in its order. The names of these tables are
/// gathered first, so that many changes of few tables cost little.
pub fn definitions_changed(
    alloc: Global,
    objects: &Objects,
    changes: &[Change],
) -> Result<List<Shared<TableDef>>, NoMemory>
    ensures { IfOk result (λ defs. defs ≡ definitions_changed (objects_of objects.now) changes.now) }
{
    let names = names_in(alloc, changes)?;
    definitions_among(alloc, objects.all(), names.all())
}
