//! The tables of changes.
ghost use Rattle.std.specs.Prelude.{◌≡◌, map, IfOk};
ghost use Rattle.val_types.specs.Changes.{table_of};
ghost use Rattle.log_model.specs.Items.{columns_in, id_from, tables_of};
ghost use Rattle.row_events.specs.Tables.{columns_seen, has};

use sharing::Shared;
use std::alloc::Global;
use val_types::{Bytes, Change, ColumnDef, Duplicate, List, NoMemory, TableDef};

/// Whether some changes have one of a table. Looked for from the last one on, since neighbouring
/// changes often are of one table.
pub fn have_table(changes: &[Change], name: &Bytes) -> bool
    ensures { result ≡ has (map table_of changes.now) name.now }
{
    let mut left = changes.len();
    while left > 0 {
        left -= 1;
        if *changes[left].table() == *name {
            return true;
        }
    }
    false
}

/// The tables of changes, in the order of their first changes.
pub fn tables_of(alloc: Global, changes: &[Change]) -> Result<List<Bytes>, NoMemory>
    ensures { IfOk result (λ names. names ≡ tables_of changes.now) }
{
    let mut names = List::new(alloc);
    for place in 0..changes.len() {
        let name = changes[place].table();
        if !have_table(&changes[..place], name) {
            names.push(name.duplicate(alloc)?)?;
        }
    }
    Ok(names)
}

/// The columns of a table by its definition.
pub fn columns_of<'a>(defs: &'a List<Shared<TableDef>>, name: &Bytes) -> Option<&'a List<ColumnDef>>
    ensures { columns_seen result ≡ columns_in defs.now name.now }
{
    for def in defs.as_slice() {
        let table = def.get();
        if table.name == *name {
            return Some(&table.columns);
        }
    }
    None
}

/// The id of a table: its place among names, counted from 1.
pub fn id_of(names: &List<Bytes>, name: &Bytes) -> u64
    ensures { result ≡ id_from 1 names.now name.now }
{
    let mut id = 1;
    for other in names.as_slice() {
        if *other == *name {
            return id;
        }
        id += 1;
    }
    id
}
