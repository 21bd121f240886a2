//! Changes as a map and rows events: a row that is put in, changed and taken out. The bytes are those
//! of the small log that `test_log` has.
ghost use Rattle.std.specs.Prelude.{◌≡◌, ◌∷◌, [], codes, false, pos, true, IfOk};
ghost use Rattle.val_types.specs.declared.change.Change.TheVariants.{Delete, Insert, Update};
ghost use Rattle.log_model.specs.Worked.{column, table_named};
ghost use Rattle.test_items.specs.Small.{row, small_changes, small_tables};

use event_codec::Header;
use row_events::{encode_rows, rows_size};
use sharing::Shared;
use std::alloc::Global;
use std::test::Fail;
use val_types::{Bytes, Change, ColType, ColumnDef, List, NoMemory, Row, TableDef, Value};

/// TABLE_MAP of `t` at 402, and WRITE, UPDATE and DELETE_ROWS behind it, all of server 1.
pub static EVENTS: [u8; 169] = [
    // TABLE_MAP 1 of `t`, from 402
    0x02, 0xf1, 0x53, 0x65, 0x13, 0x01, 0x00, 0x00, 0x00, 0x27, 0x00, 0x00, 0x00, 0xb9, 0x01, 0x00,
    0x00, 0x00, 0x00, 0x01, 0x00, 0x00, 0x00, 0x00, 0x00, 0x00, 0x00, 0x02, 0x64, 0x62, 0x00, 0x01,
    0x74, 0x00, 0x02, 0x03, 0x03, 0x00, 0x02,
    // WRITE_ROWS 1, from 441
    0x02, 0xf1, 0x53, 0x65, 0x1e, 0x01, 0x00, 0x00, 0x00, 0x28, 0x00, 0x00, 0x00, 0xe1, 0x01, 0x00,
    0x00, 0x00, 0x00, 0x01, 0x00, 0x00, 0x00, 0x00, 0x00, 0x00, 0x00, 0x02, 0x00, 0x02, 0x03, 0x00,
    0x01, 0x00, 0x00, 0x00, 0x01, 0x00, 0x00, 0x00,
    // UPDATE_ROWS 1, from 481
    0x02, 0xf1, 0x53, 0x65, 0x1f, 0x01, 0x00, 0x00, 0x00, 0x32, 0x00, 0x00, 0x00, 0x13, 0x02, 0x00,
    0x00, 0x00, 0x00, 0x01, 0x00, 0x00, 0x00, 0x00, 0x00, 0x00, 0x00, 0x02, 0x00, 0x02, 0x03, 0x03,
    0x00, 0x01, 0x00, 0x00, 0x00, 0x01, 0x00, 0x00, 0x00, 0x00, 0x01, 0x00, 0x00, 0x00, 0x02, 0x00,
    0x00, 0x00,
    // DELETE_ROWS 1 at the end of its statement, from 531
    0x02, 0xf1, 0x53, 0x65, 0x20, 0x01, 0x00, 0x00, 0x00, 0x28, 0x00, 0x00, 0x00, 0x3b, 0x02, 0x00,
    0x00, 0x00, 0x00, 0x01, 0x00, 0x00, 0x00, 0x00, 0x00, 0x01, 0x00, 0x02, 0x00, 0x02, 0x03, 0x00,
    0x01, 0x00, 0x00, 0x00, 0x02, 0x00, 0x00, 0x00,
];

fn column(alloc: Global, name: &[u8], nullable: bool) -> Result<ColumnDef, NoMemory>
    ensures { IfOk result (λ c. c ≡ column name.now nullable) }
{
    Ok(ColumnDef {
        name: Bytes::from_slice(alloc, name)?,
        kind: ColType::Int,
        nullable,
        preset: None,
    })
}

fn columns(alloc: Global) -> Result<List<ColumnDef>, NoMemory>
    ensures { IfOk result (λ cs. cs ≡ column (codes "id") false ∷ column (codes "v") true ∷ []) }
{
    let mut columns = List::new(alloc);
    columns.push(column(alloc, b"id", false)?)?;
    columns.push(column(alloc, b"v", true)?)?;
    Ok(columns)
}

/// A table `t` of two numbers, of which the second may be NULL.
fn table(alloc: Global) -> Result<TableDef, NoMemory>
    ensures { IfOk result (λ d. d ≡ table_named (codes "t") (codes "v") true) }
{
    let columns = columns(alloc)?;
    let primary = List::from_slice(alloc, &[0])?;
    Ok(TableDef {
        name: Bytes::from_slice(alloc, b"t")?,
        columns,
        primary,
        uniques: List::new(alloc),
        auto: None,
    })
}

fn row(alloc: Global, first: i64, second: i64) -> Result<Shared<Row>, NoMemory>
    ensures { IfOk result (λ r. r ≡ row first second) }
{
    let mut row = Row::new(alloc);
    row.push(Value::Int(first))?;
    row.push(Value::Int(second))?;
    Shared::new(alloc, row)
}

/// The name of the table.
fn name(alloc: Global) -> Result<Shared<Bytes>, NoMemory>
    ensures { IfOk result (λ n. n ≡ codes "t") }
{
    Shared::new(alloc, Bytes::from_slice(alloc, b"t")?)
}

fn put_in(alloc: Global) -> Result<Change, NoMemory>
    ensures { IfOk result (λ c. c ≡ Insert (codes "t") (row (pos 1) (pos 1))) }
{
    let row = row(alloc, 1, 1)?;
    let table = name(alloc)?;
    Ok(Change::Insert { table, row })
}

fn changed(alloc: Global) -> Result<Change, NoMemory>
    ensures { IfOk result (λ c. c ≡ Update (codes "t") (row (pos 1) (pos 1)) (row (pos 1) (pos 2))) }
{
    let before = row(alloc, 1, 1)?;
    let after = row(alloc, 1, 2)?;
    let table = name(alloc)?;
    Ok(Change::Update {
        table,
        before,
        after,
    })
}

fn taken_out(alloc: Global) -> Result<Change, NoMemory>
    ensures { IfOk result (λ c. c ≡ Delete (codes "t") (row (pos 1) (pos 2))) }
{
    let row = row(alloc, 1, 2)?;
    let table = name(alloc)?;
    Ok(Change::Delete { table, row })
}

/// The three changes.
pub fn changes(alloc: Global) -> Result<List<Change>, NoMemory>
    ensures { IfOk result (λ cs. cs ≡ small_changes) }
{
    let mut changes = List::new(alloc);
    changes.push(put_in(alloc)?)?;
    changes.push(changed(alloc)?)?;
    changes.push(taken_out(alloc)?)?;
    Ok(changes)
}

/// Their table.
pub fn tables(alloc: Global) -> Result<List<Shared<TableDef>>, NoMemory>
    ensures { IfOk result (λ ds. ds ≡ small_tables) }
{
    let mut tables = List::new(alloc);
    tables.push(Shared::new(alloc, table(alloc)?)?)?;
    Ok(tables)
}

/// Their events at 402.
fn written(
    alloc: Global,
    defs: &List<Shared<TableDef>>,
    changes: &List<Change>,
) -> Result<Bytes, NoMemory>
    requires tables { defs.now ≡ small_tables }
    requires changes { changes.now ≡ small_changes }
{
    let header = Header {
        stamp: 1_700_000_002,
        server_id: 1,
        pos: 402,
    };
    let mut out = Bytes::new(alloc);
    encode_rows(alloc, defs, changes, &header, &mut out)?;
    Ok(out)
}

#[test]
fn changes_are_a_map_and_rows(rt: HostRuntime) -> Result<(), Fail> {
    let defs = tables(rt.alloc())?;
    let changes = changes(rt.alloc())?;
    let out = written(rt.alloc(), &defs, &changes)?;
    assert_eq!(rt; out.as_slice(), EVENTS.as_slice());
    assert_eq!(rt; rows_size(&defs, changes.as_slice()), 169);
    Ok(())
}
