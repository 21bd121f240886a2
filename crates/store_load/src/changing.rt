//! Changes of rows, made again as a record has them.
ghost use Rattle.std.specs.Prelude.{◌≡◌, List as Items, Some, IfOk, option_copied, MatchOption, reverse};
ghost use Rattle.std.specs.Option.{option_map};
ghost use Rattle.table_rules.specs.Changes.{applied};
ghost use Rattle.table_rules.specs.Stored.{all_applied, row_at, table_named};
ghost use Rattle.store_load.specs.Loading.{ChangesTables, TablesAre};
ghost use Rattle.store_load.specs.Rows.{IsNowhere, definition_of, is_row};

use prog_work::Work;
use row_store::{RowRefusal, Tables};
use sharing::Shared;
use std::alloc::{AllocError, Global};
use val_types::{Bytes, Change, List, NoMemory, Row, TableDef, key_cmp, key_of};

/// The definition of the table of a name.
#[tactic(auto, using(crate::proofs::RowsMade::definition_there, crate::proofs::RowsMade::no_definition))]
fn definition_named<'a>(tables: &'a Tables, name: &Bytes) -> Option<&'a TableDef>
    ensures { option_copied result ≡ option_map definition_of (table_named name.now tables.now.tables) }
{
    match tables.place(name) {
        Some(at) => tables.definition(at),
        None => None,
    }
}

/// Whether the row of a key is there with just these values.
fn is_there(tables: &Tables, name: &Bytes, key: &Row, row: &Row) -> bool
    ensures { result ≡ is_row (row_at name.now key.now tables.now.tables) row.now }
{
    match tables.get(name, key) {
        Some(found) => key_cmp(row, found).is_eq(),
        None => false,
    }
}

/// The key of a row that is there with just these values.
#[tactic(auto, using(crate::proofs::RowsMade::nowhere_without, crate::proofs::RowsMade::nowhere, crate::proofs::RowsMade::row_found))]
fn key_there(alloc: Global, work: &Work, name: &Bytes, row: &Row) -> Result<Option<Row>, NoMemory>
    ensures { IfOk result (λ there. MatchOption there (IsNowhere name.now row.now work.now.tables) (λ key. row_at name.now key work.now.tables ≡ Some row.now)) }
{
    work.together();
    let tables = work.tables();
    let Some(definition) = definition_named(tables, name) else {
        return Ok(None);
    };
    let key = key_of(alloc, definition, row)?;
    if is_there(tables, name, &key, row) {
        Ok(Some(key))
    } else {
        Ok(None)
    }
}

/// A row put into a table.
#[tactic(auto, using(crate::proofs::RowsMade::unfit_insert, crate::proofs::RowsMade::refused_insert, crate::proofs::RowsMade::made_insert))]
pub fn insert_row(work: &mut Work, table: &Bytes, row: Shared<Row>) -> Result<bool, NoMemory>
    ensures made { IfOk result (λ made. TablesAre made (applied (Change.Insert table.now row) work.old.tables) work.new.tables) }
    ensures rest { ChangesTables work.old work.new }
{
    if !work.tables().fits(table, row.get()) {
        return Ok(false);
    }
    match work.insert_row(table, row) {
        Ok(()) => Ok(true),
        Err(RowRefusal::Taken { .. }) => Ok(false),
        Err(RowRefusal::Absent) => Ok(false),
        Err(RowRefusal::NoMemory) => Err(AllocError),
    }
}

/// A row that is there replaced by another.
#[tactic(auto, using(crate::proofs::RowsMade::unfit_update, crate::proofs::RowsMade::refused_update, crate::proofs::RowsMade::made_update))]
fn replace(
    alloc: Global,
    work: &mut Work,
    table: &Bytes,
    before: &Row,
    after: Shared<Row>,
) -> Result<bool, NoMemory>
    ensures made { IfOk result (λ made. TablesAre made (applied (Change.Update table.now before.now after) work.old.tables) work.new.tables) }
    ensures rest { ChangesTables work.old work.new }
{
    let Some(key) = key_there(alloc, work, table, before)? else {
        return Ok(false);
    };
    if !work.tables().fits(table, after.get()) {
        return Ok(false);
    }
    work.together();
    match work.update_row(table, &key, after) {
        Ok(()) => Ok(true),
        Err(RowRefusal::Taken { .. }) => Ok(false),
        Err(RowRefusal::Absent) => Ok(false),
        Err(RowRefusal::NoMemory) => Err(AllocError),
    }
}

/// A row taken out of a table.
#[tactic(auto, using(crate::proofs::RowsMade::refused_delete, crate::proofs::RowsMade::made_delete))]
fn delete(alloc: Global, work: &mut Work, table: &Bytes, row: &Row) -> Result<bool, NoMemory>
    ensures made { IfOk result (λ made. TablesAre made (applied (Change.Delete table.now row.now) work.old.tables) work.new.tables) }
    ensures rest { ChangesTables work.old work.new }
{
    let Some(key) = key_there(alloc, work, table, row)? else {
        return Ok(false);
    };
    match work.delete_row(table, &key) {
        Ok(()) => Ok(true),
        Err(RowRefusal::Taken { .. }) => Ok(false),
        Err(RowRefusal::Absent) => Ok(false),
        Err(RowRefusal::NoMemory) => Err(AllocError),
    }
}

/// A change made to the rows, where it can be.
fn make(alloc: Global, work: &mut Work, change: Change) -> Result<bool, NoMemory>
    ensures made { IfOk result (λ made. TablesAre made (applied change work.old.tables) work.new.tables) }
    ensures rest { ChangesTables work.old work.new }
{
    match change {
        Change::Insert { table, row } => insert_row(work, table.get(), row),
        Change::Update {
            table,
            before,
            after,
        } => replace(alloc, work, table.get(), before.get(), after),
        Change::Delete { table, row } => delete(alloc, work, table.get(), row.get()),
    }
}

/// Changes from the last one on.
fn backwards(changes: List<Change>) -> List<Change>
    ensures { result ≡ reverse changes }
{
    let mut changes = changes.into_vec();
    changes.reverse();
    List::from_vec(changes)
}

/// Changes made one after the other, where all can be.
#[tactic(auto, using(crate::proofs::RowsMade::none_left, crate::proofs::RowsMade::none_made, crate::proofs::RowsMade::one_made))]
pub(crate) fn make_all(
    alloc: Global,
    work: &mut Work,
    changes: List<Change>,
) -> Result<bool, NoMemory>
    ensures made { IfOk result (λ made. TablesAre made (all_applied changes work.old.tables) work.new.tables) }
    ensures rest { ChangesTables work.old work.new }
{
    let mut left = backwards(changes);
    while let Some(change) = left.pop() {
        if !make(alloc, work, change)? {
            return Ok(false);
        }
    }
    Ok(true)
}
