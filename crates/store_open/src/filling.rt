//! The rows of a table, as a snapshot has them behind the table.
ghost use Rattle.std.specs.Prelude.{◌≡◌, List as Items, IfOk, length, true, false};
ghost use Rattle.val_types.specs.declared.definitions.TableDef.{TableDef};
ghost use Rattle.table_rules.specs.Tables.{Table};
ghost use Rattle.table_rules.specs.Stored.{rows_of};
ghost use Rattle.prog_work.specs.Contents.{base_of};
ghost use Rattle.store_load.specs.Loading.{ChangesTables};
ghost use Rattle.store_open.specs.Filling.{AreSame, FillsOn, IsEmpty, IsFilled};
ghost use Rattle.store_open.specs.Objects.{BaseRead, Fills, filled_by};

use prog_work::Work;
use row_store::Tables;
use sharing::Shared;
use std::alloc::Global;
use store_bodies::take_rows;
use store_load::insert_row;
use val_types::{Bytes, NoMemory, Row, key_cmp};

/// Whether rows are others, in the same order.
fn are_same(rows: &[Shared<Row>], others: &[Shared<Row>]) -> bool
    ensures { AreSame result rows.now others.now }
{
    let mut left = rows;
    let mut right = others;
    while let [row, behind @ ..] = left {
        let [other, later @ ..] = right else {
            return false;
        };
        if !key_cmp(row.get(), other.get()).is_eq() {
            return false;
        }
        left = behind;
        right = later;
    }
    right.is_empty()
}

/// Whether the table of a name has just these rows.
fn has_rows(tables: &Tables, name: &Bytes, rows: &[Shared<Row>]) -> Result<bool, NoMemory>
    ensures { IfOk result (λ has. AreSame has (rows_of name.now tables.now.tables) rows.now) }
{
    let there = match tables.place(name) {
        Some(at) => tables.rows(at)?,
        None => return Ok(rows.is_empty()),
    };
    Ok(are_same(there.as_slice(), rows))
}

/// Rows put into the last table, one by one.
fn insert_all(work: &mut Work, name: &Bytes, rows: &[Shared<Row>]) -> Result<bool, NoMemory>
    ensures fills { (before : Items Table) (d : TableDef) → IsEmpty before d name.now work.old.tables
        → IfOk result (λ made. FillsOn made before d rows.now (length rows.now) work.new.tables) }
    ensures rest { ChangesTables work.old work.new }
{
    for row in rows {
        if !insert_row(work, name, row.share()?)? {
            return Ok(false);
        }
    }
    Ok(true)
}

/// The last table filled with rows, to stay, where they may be its rows.
fn fill(work: &mut Work, name: &Bytes, rows: &[Shared<Row>]) -> Result<bool, NoMemory>
    ensures filled { (before : Items Table) (d : TableDef) → IsEmpty before d name.now work.old.tables
        → IfOk result (λ made. IsFilled made before d rows.now work.new.tables) }
    ensures rest { IfOk result (λ made. made ≡ true → Fills work.old work.new) }
{
    if !insert_all(work, name, rows)? {
        return Ok(false);
    }
    if !has_rows(work.tables(), name, rows)? {
        return Ok(false);
    }
    work.together();
    work.commit();
    Ok(true)
}

/// The last table filled with the rows that stand at the front of some bytes; what is behind them.
pub(crate) fn take_filled<'a>(
    alloc: Global,
    work: &mut Work,
    name: &Bytes,
    bytes: &'a [u8],
) -> Result<Option<&'a [u8]>, NoMemory>
    ensures { (before : Items Table) (d : TableDef) → IsEmpty before d name.now work.old.tables
        → IfOk result (λ o. BaseRead o (filled_by d before (base_of work.old) bytes.now) work.new) }
{
    let Some((rows, rest)) = take_rows(alloc, bytes)? else {
        return Ok(None);
    };
    if fill(work, name, rows.as_slice())? {
        Ok(Some(rest))
    } else {
        Ok(None)
    }
}
