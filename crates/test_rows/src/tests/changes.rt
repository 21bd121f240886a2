//! Rows stored, taken back and set aside, by hand.
ghost use Rattle.std.specs.Prelude.{◌≡◌, []};
ghost use Rattle.table_rules.specs.Leads.{Leads};
ghost use Rattle.table_rules.specs.Stores.{Still};

use super::storing::definition;
use super::{bytes, number};
use dml_rows::{delete_row, insert_row, take_back_to, update_row};
use row_store::{RowRefusal, Tables};
use sharing::Shared;
use std::alloc::Global;
use undo_log::Undo;
use val_types::{Bytes, Row, Value};

/// What is done to the rows of the table, of which the first and the third column have numbers, and what it answers.
enum Step {
    Insert(i64, i64, Result<(), RowRefusal>),
    Update(i64, i64, i64, Result<(), RowRefusal>),
    Delete(i64, Result<(), RowRefusal>),
}

static STEPS: [Step; 9] = [
    Step::Insert(1, 10, Ok(())),
    Step::Insert(2, 20, Ok(())),
    Step::Insert(1, 30, Err(RowRefusal::Taken { which: 0 })),
    Step::Update(1, 1, 11, Ok(())),
    Step::Update(1, 2, 11, Err(RowRefusal::Taken { which: 0 })),
    Step::Update(2, 5, 20, Ok(())),
    Step::Delete(2, Err(RowRefusal::Absent)),
    Step::Delete(1, Ok(())),
    Step::Insert(1, 12, Ok(())),
];

fn row(alloc: Global, id: i64, a: i64) -> Row {
    let mut row = number(alloc, id);
    let _ = row.push(Value::Null);
    let _ = row.push(Value::Int(a));
    let _ = row.push(Value::Null);
    row
}

/// Inserts a row that fits; absent where it does not.
#[tactic(auto, using(table_rules::proofs::Leading::leading))]
fn insert(
    alloc: Global,
    tables: &mut Tables,
    undo: &mut Undo,
    table: &Bytes,
    row: Row,
) -> Result<(), RowRefusal>
    ensures { Leads tables.old undo.old tables.new undo.new }
{
    if !tables.fits(table, &row) {
        return Err(RowRefusal::Absent);
    }
    insert_row(tables, undo, table, Shared::new(alloc, row)?)
}

/// Replaces a row by one that fits; absent where it does not.
#[tactic(auto, using(table_rules::proofs::Leading::leading))]
fn update(
    alloc: Global,
    tables: &mut Tables,
    undo: &mut Undo,
    table: &Bytes,
    id: i64,
    row: Row,
) -> Result<(), RowRefusal>
    ensures { Leads tables.old undo.old tables.new undo.new }
{
    let key = number(alloc, id);
    if !tables.fits(table, &row) {
        return Err(RowRefusal::Absent);
    }
    update_row(tables, undo, table, &key, Shared::new(alloc, row)?)
}

/// Deletes a row.
#[tactic(auto, using(table_rules::proofs::Leading::leading))]
fn delete(
    alloc: Global,
    tables: &mut Tables,
    undo: &mut Undo,
    table: &Bytes,
    id: i64,
) -> Result<(), RowRefusal>
    ensures { Leads tables.old undo.old tables.new undo.new }
{
    let key = number(alloc, id);
    delete_row(tables, undo, table, &key)
}

/// Whether a step answers as it should.
#[tactic(auto, using(table_rules::proofs::Leading::leading))]
fn answers(alloc: Global, tables: &mut Tables, undo: &mut Undo, table: &Bytes, step: &Step) -> bool
    ensures { Leads tables.old undo.old tables.new undo.new }
{
    match step {
        Step::Insert(id, a, wanted) => {
            insert(alloc, tables, undo, table, row(alloc, *id, *a)) == *wanted
        }
        Step::Update(of, id, a, wanted) => {
            update(alloc, tables, undo, table, *of, row(alloc, *id, *a)) == *wanted
        }
        Step::Delete(id, wanted) => delete(alloc, tables, undo, table, *id) == *wanted,
    }
}

/// Whether a row has these numbers.
fn is_row(row: &[Value], id: i64, a: i64) -> bool {
    match row {
        [
            Value::Int(first),
            Value::Null,
            Value::Int(third),
            Value::Null,
        ] => { *first == id && *third == a }
        _ => false,
    }
}

/// Whether the table has this row.
fn has_row(alloc: Global, tables: &Tables, table: &Bytes, id: i64, a: i64) -> bool {
    let key = number(alloc, id);
    match tables.get(table, &key) {
        Some(row) => is_row(row.as_slice(), id, a),
        None => false,
    }
}

/// How many rows the table has.
fn count(tables: &Tables, table: &Bytes) -> Option<usize> {
    match tables.keys(table) {
        Ok(keys) => Some(keys.len()),
        Err(_) => None,
    }
}

/// Whether the table has just these rows.
fn has_rows(alloc: Global, tables: &Tables, table: &Bytes, rows: &[(i64, i64)]) -> bool {
    let mut same = count(tables, table) == Some(rows.len());
    for (id, a) in rows {
        same = same && has_row(alloc, tables, table, *id, *a);
    }
    same
}

/// Whether the steps answer as they should, and what they changed is taken back, from a mark on and then all of it.
fn goes_back(alloc: Global, tables: &mut Tables, undo: &mut Undo, table: &Bytes) -> bool
    requires { undo.old ≡ [] }
{
    let mut answered = true;
    for step in &STEPS {
        answered = answers(alloc, tables, undo, table, step) && answered;
    }
    let changed = undo.mark() == 6 && has_rows(alloc, tables, table, &[(1, 12), (5, 20)]);
    take_back_to(tables, undo, 3);
    let half = undo.mark() == 3 && has_rows(alloc, tables, table, &[(1, 11), (2, 20)]);
    take_back_to(tables, undo, 0);
    answered && changed && half && has_rows(alloc, tables, table, &[])
}

/// The same in a new table.
fn goes_back_in_table(alloc: Global, tables: &mut Tables, undo: &mut Undo) -> bool
    requires tables { tables.old.tables ≡ [] }
    requires changes { undo.old ≡ [] }
{
    let created = tables.create(&definition(alloc, &[0])).is_ok();
    created && goes_back(alloc, tables, undo, &bytes(alloc, b"t"))
}

/// Whether a row that another puts over the rows that are there to stay is beside these alone.
fn is_put_beside(alloc: Global, tables: &mut Tables, table: &Bytes) -> bool
    ensures { Still tables.old tables.new }
{
    let mut undo = Undo::new(alloc);
    let alone = has_rows(alloc, tables, table, &[(1, 11), (2, 20)]);
    let put = insert(alloc, tables, &mut undo, table, row(alloc, 7, 70)).is_ok();
    alone && put && has_rows(alloc, tables, table, &[(1, 11), (2, 20), (7, 70)])
}

/// Whether what is shown is shown again behind that, and is gone once it is forgotten.
fn is_shown_again(alloc: Global, tables: &mut Tables, table: &Bytes) -> bool {
    let Ok(aside) = tables.set_aside() else {
        return false;
    };
    let beside = is_put_beside(alloc, tables, table);
    tables.put_back(aside);
    let again = has_rows(alloc, tables, table, &[(1, 12), (5, 20)]);
    tables.forget();
    beside && again && has_rows(alloc, tables, table, &[(1, 11), (2, 20)])
}

/// Steps of which the first four are there to stay.
fn stand_aside(alloc: Global, tables: &mut Tables) -> bool
    requires { tables.old.tables ≡ [] }
{
    let mut answered = tables.create(&definition(alloc, &[0])).is_ok();
    let mut undo = Undo::new(alloc);
    let table = bytes(alloc, b"t");
    for (i, step) in STEPS.iter().enumerate() {
        if i == 4 {
            tables.tidy();
        }
        answered = answers(alloc, tables, &mut undo, &table, step) && answered;
    }
    answered && is_shown_again(alloc, tables, &table)
}

#[test]
fn rows_set_aside(rt: HostRuntime) {
    let mut tables = Tables::new(rt.alloc());
    assert!(rt; stand_aside(rt.alloc(), &mut tables));
}

#[test]
fn changes_taken_back(rt: HostRuntime) {
    let mut tables = Tables::new(rt.alloc());
    let mut undo = Undo::new(rt.alloc());
    assert!(rt; goes_back_in_table(rt.alloc(), &mut tables, &mut undo));
}
