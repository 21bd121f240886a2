//! One change of a row, made to the tables as it is.
ghost use Rattle.std.specs.Prelude.{◌≡◌, List as Items, [], Err, false, IfSome, IsSome, None, Some};
ghost use Rattle.val_types.specs.declared.change.Change.TheVariants.{Delete, Insert, Update};
ghost use Rattle.val_types.specs.declared.value.Value.{Value as Content};
ghost use Rattle.val_types.specs.Changes.{table_of};
ghost use Rattle.auto_inc.specs.Counting.{tables_of};
ghost use Rattle.table_rules.specs.Stored.{fits_table, row_at, table_named};
ghost use Rattle.event_codec.specs.Event.{map_of, Map};
ghost use Rattle.row_apply.specs.Changes.{change_carried, is_row, raised_to, table_code, IsKey};
ghost use Rattle.row_apply.specs.Ends.{Ends, Stays, progress_in};
ghost use Rattle.row_apply.specs.declared.stop.Stop.TheVariants.{Differs};

use crate::stop::{Stop, TableName};
use crate::table::{auto_value, is_there, key_in, table_refusal};
use event_codec::MapView;
use prog_work::Work;
use row_store::RowRefusal;
use sharing::Shared;
use std::alloc::Global;
use val_types::{Bytes, Change, Row, SqlError};

/// No row with just these values is there (ER_KEY_NOT_FOUND).
const ROW_ABSENT: SqlError = 1032;

/// A row does not fit, or has a key of another one (ER_DUP_ENTRY).
const KEY_TAKEN: SqlError = 1062;

/// An error of a table that names a key.
fn differs(pos: u64, code: SqlError, table: Shared<Bytes>, key: Row) -> Stop
    ensures { result ≡ Differs pos code table key }
{
    Stop::Differs {
        pos,
        code,
        table: TableName::of(table),
        key,
    }
}

/// The name of a change's table.
fn name_of(change: Change) -> Shared<Bytes>
    ensures { result ≡ table_of change }
{
    match change {
        Change::Insert { table, .. } => table,
        Change::Update { table, .. } => table,
        Change::Delete { table, .. } => table,
    }
}

/// Moves a counter behind a value, if there is one.
fn raise(work: &mut Work, table: &Bytes, value: Option<i64>)
    ensures counters { work.new ≡ record work.old { counters = raised_to table.now value work.old.counters } }
    ensures tables { tables_of work.new.counters ≡ tables_of work.old.counters }
{
    if let Some(value) = value {
        work.raise_counter(table, value);
    }
}

/// A row of a key put into a table that takes it, with the counter that it raises: 1062.
#[tactic(auto, using(crate::proofs::Staying::staying))]
fn put_in(
    work: &mut Work,
    pos: u64,
    table: Shared<Bytes>,
    key: Row,
    row: Shared<Row>,
) -> Result<(), Stop>
    requires there { IsSome (table_named table work.old.tables) }
    requires key { IsKey table work.old.tables row key }
    ensures ends { (m : Map) → table_code m work.old.tables (Insert table row) ≡ None → Ends result (progress_in work.new) (change_carried pos m (Insert table row) (progress_in work.old)) }
    ensures unfit { fits_table table row work.old.tables ≡ false → result ≡ Err (Differs pos 1062 table key) }
    ensures rest { Stays work.old work.new }
{
    if !work.tables().fits(table.get(), row.get()) {
        return Err(differs(pos, KEY_TAKEN, table, key));
    }
    let value = auto_value(work.tables(), table.get(), row.get());
    match work.insert_row(table.get(), row) {
        Ok(()) => {
            raise(work, table.get(), value);
            Ok(())
        }
        Err(RowRefusal::Taken { .. }) => Err(differs(pos, KEY_TAKEN, table, key)),
        Err(RowRefusal::Absent) => unreachable!(),
        Err(RowRefusal::NoMemory) => Err(Stop::NoMemory),
    }
}

/// A row put into a table that takes it.
#[tactic(auto, using(crate::proofs::Staying::staying))]
fn insert(
    alloc: Global,
    work: &mut Work,
    pos: u64,
    table: Shared<Bytes>,
    row: Shared<Row>,
) -> Result<(), Stop>
    requires { IsSome (table_named table work.old.tables) }
    ensures ends { (m : Map) → table_code m work.old.tables (Insert table row) ≡ None → Ends result (progress_in work.new) (change_carried pos m (Insert table row) (progress_in work.old)) }
    ensures rest { Stays work.old work.new }
{
    let key = key_in(alloc, work.tables(), table.get(), row.get())?;
    put_in(work, pos, table, key, row)
}

/// A row that is there replaced by another, which has the key to put: 1062.
#[tactic(auto, using(crate::proofs::Staying::staying))]
fn replace(
    work: &mut Work,
    pos: u64,
    table: Shared<Bytes>,
    key: Row,
    put: Row,
    after: Shared<Row>,
) -> Result<(), Stop>
    requires there { IsSome (row_at table key work.old.tables) }
    requires put { IsKey table work.old.tables after put }
    ensures ends { (m : Map) → (before : Items Content) → table_code m work.old.tables (Update table before after) ≡ None → row_at table key work.old.tables ≡ Some before
        → Ends result (progress_in work.new) (change_carried pos m (Update table before after) (progress_in work.old)) }
    ensures unfit { fits_table table after work.old.tables ≡ false → result ≡ Err (Differs pos 1062 table put) }
    ensures rest { Stays work.old work.new }
{
    work.together();
    if !work.tables().fits(table.get(), after.get()) {
        return Err(differs(pos, KEY_TAKEN, table, put));
    }
    match work.update_row(table.get(), &key, after) {
        Ok(()) => Ok(()),
        Err(RowRefusal::Taken { .. }) => Err(differs(pos, KEY_TAKEN, table, put)),
        Err(RowRefusal::Absent) => unreachable!(),
        Err(RowRefusal::NoMemory) => Err(Stop::NoMemory),
    }
}

/// A row of a key changed, once it is there: 1032.
#[tactic(auto, using(crate::proofs::Staying::staying))]
fn replace_there(
    alloc: Global,
    work: &mut Work,
    pos: u64,
    table: Shared<Bytes>,
    key: Row,
    before: &Row,
    after: Shared<Row>,
) -> Result<(), Stop>
    requires { IsKey table work.old.tables before.now key }
    ensures ends { (m : Map) → table_code m work.old.tables (Update table before.now after) ≡ None → Ends result (progress_in work.new) (change_carried pos m (Update table before.now after) (progress_in work.old)) }
    ensures absent { is_row (row_at table key work.old.tables) before.now ≡ false → result ≡ Err (Differs pos 1032 table key) }
    ensures rest { Stays work.old work.new }
{
    work.together();
    if !is_there(work.tables(), table.get(), &key, before) {
        return Err(differs(pos, ROW_ABSENT, table, key));
    }
    let put = key_in(alloc, work.tables(), table.get(), after.get())?;
    replace(work, pos, table, key, put, after)
}

/// A row of a table changed.
#[tactic(auto, using(crate::proofs::Staying::staying))]
fn update(
    alloc: Global,
    work: &mut Work,
    pos: u64,
    table: Shared<Bytes>,
    before: Shared<Row>,
    after: Shared<Row>,
) -> Result<(), Stop>
    ensures ends { (m : Map) → table_code m work.old.tables (Update table before after) ≡ None → Ends result (progress_in work.new) (change_carried pos m (Update table before after) (progress_in work.old)) }
    ensures rest { Stays work.old work.new }
{
    let key = key_in(alloc, work.tables(), table.get(), before.get())?;
    replace_there(alloc, work, pos, table, key, before.get(), after)
}

/// A row of a key taken out of a table, once it is there: 1032.
#[tactic(auto, using(crate::proofs::Staying::staying))]
fn take_out(
    work: &mut Work,
    pos: u64,
    table: Shared<Bytes>,
    key: Row,
    row: &Row,
) -> Result<(), Stop>
    requires { IsKey table work.old.tables row.now key }
    ensures ends { (m : Map) → table_code m work.old.tables (Delete table row.now) ≡ None → Ends result (progress_in work.new) (change_carried pos m (Delete table row.now) (progress_in work.old)) }
    ensures absent { is_row (row_at table key work.old.tables) row.now ≡ false → result ≡ Err (Differs pos 1032 table key) }
    ensures rest { Stays work.old work.new }
{
    work.together();
    if !is_there(work.tables(), table.get(), &key, row) {
        return Err(differs(pos, ROW_ABSENT, table, key));
    }
    match work.delete_row(table.get(), &key) {
        Ok(()) => Ok(()),
        Err(RowRefusal::NoMemory) => Err(Stop::NoMemory),
        Err(RowRefusal::Absent) => unreachable!(),
        Err(RowRefusal::Taken { .. }) => unreachable!(),
    }
}

/// A row taken out of a table.
#[tactic(auto, using(crate::proofs::Staying::staying))]
fn delete(
    alloc: Global,
    work: &mut Work,
    pos: u64,
    table: Shared<Bytes>,
    row: Shared<Row>,
) -> Result<(), Stop>
    ensures ends { (m : Map) → table_code m work.old.tables (Delete table row) ≡ None → Ends result (progress_in work.new) (change_carried pos m (Delete table row) (progress_in work.old)) }
    ensures rest { Stays work.old work.new }
{
    let key = key_in(alloc, work.tables(), table.get(), row.get())?;
    take_out(work, pos, table, key, row.get())
}

/// A change that its table takes, which is there.
fn make(alloc: Global, work: &mut Work, pos: u64, change: Change) -> Result<(), Stop>
    requires { IsSome (table_named (table_of change) work.old.tables) }
    ensures ends { (m : Map) → table_code m work.old.tables change ≡ None → Ends result (progress_in work.new) (change_carried pos m change (progress_in work.old)) }
    ensures rest { Stays work.old work.new }
{
    match change {
        Change::Insert { table, row } => insert(alloc, work, pos, table, row),
        Change::Update {
            table,
            before,
            after,
        } => update(alloc, work, pos, table, before, after),
        Change::Delete { table, row } => delete(alloc, work, pos, table, row),
    }
}

/// A change of an event at a place, by the map of its table. It takes what a transaction so far has made, and the change as the
/// log has it. It leaves the change made and noted, with the counter that it raises, or gives the stop at this place. What the
/// table itself refuses is told without memory.
#[tactic(auto, using(crate::proofs::Staying::staying))]
pub fn carry_change(
    alloc: Global,
    work: &mut Work,
    pos: u64,
    map: &MapView,
    change: Change,
) -> Result<(), Stop>
    ensures ends { Ends result (progress_in work.new) (change_carried pos (map_of map.now) change (progress_in work.old)) }
    ensures told { IfSome (table_code (map_of map.now) work.old.tables change) (λ code. result ≡ Err (Differs pos code (table_of change) [])) }
    ensures rest { Stays work.old work.new }
{
    match table_refusal(work.tables(), map, &change) {
        Some(code) => Err(differs(pos, code, name_of(change), Row::new(alloc))),
        None => make(alloc, work, pos, change),
    }
}
