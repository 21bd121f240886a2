//! The AUTO_INCREMENT counters of tables, as a store that is opened starts them.
ghost use Rattle.std.specs.Prelude.{◌≡◌, ◌+◌, ◌<◌, ◌≤◌, ◌^◌, Some, length, slice_get, take, IfOk, OnOk};
ghost use Rattle.auto_inc.specs.Counting.{greatest_held, number_held};
ghost use Rattle.table_rules.specs.Stores.{definitions_of, place_of};
ghost use Rattle.prog_work.specs.Contents.{base_of};
ghost use Rattle.store_model.specs.sql_reach.Defining.{counters_begun};
ghost use Rattle.store_load.specs.Counters.{started_all};

use auto_inc::Counters;
use prog_work::Work;
use row_store::Tables;
use sharing::Shared;
use std::alloc::Global;
use val_types::{NoMemory, Row, TableDef, Value, value_at};

/// The number that a value is, 0 where it is none above 0.
fn number_held(value: &Value) -> u64
    ensures value { result ≡ number_held value.now }
    ensures fits { result < 2 ^ 63 }
{
    match value {
        Value::Int(number) if 0 <= *number => *number as u64,
        _ => 0,
    }
}

/// The greatest number that a column holds.
fn greatest_held(column: u16, rows: &[Shared<Row>]) -> u64
    ensures value { result ≡ greatest_held column rows.now }
    ensures fits { result < 2 ^ 63 }
{
    let mut greatest = 0;
    for row in rows {
        greatest = number_held(value_at(row.get(), column, &Value::Null)).max(greatest);
    }
    greatest
}

/// Adds the counter of the table at a place, where it has an AUTO_INCREMENT column.
#[tactic(auto, using(crate::proofs::Counted::not_yet))]
fn start(
    counters: &mut Counters,
    tables: &Tables,
    at: usize,
    definition: &TableDef,
) -> Result<(), NoMemory>
    requires there { slice_get (definitions_of tables.now.tables) at ≡ Some definition.now }
    requires place { place_of definition.now.name tables.now.tables ≡ Some at }
    requires so_far { counters.old ≡ started_all (take at tables.now.tables) }
    ensures { OnOk result (counters.new ≡ started_all (take (at + 1) tables.now.tables)) }
{
    match definition.auto {
        None => Ok(()),
        Some(column) => {
            let rows = tables.rows(at)?;
            let greatest = greatest_held(column, rows.as_slice());
            counters.add(&definition.name, greatest + 1)
        }
    }
}

/// The counters of tables, of which there are so many.
fn start_all(alloc: Global, tables: &Tables, count: usize) -> Result<Counters, NoMemory>
    requires { length tables.now.tables ≤ count }
    ensures { IfOk result (λ counters. counters ≡ started_all tables.now.tables) }
{
    let mut counters = Counters::new(alloc);
    for at in 0..count {
        let Some(definition) = tables.definition(at) else {
            return Ok(counters);
        };
        start(&mut counters, tables, at, definition)?;
    }
    Ok(counters)
}

/// Starts the counters anew, behind the greatest numbers that are held.
pub fn start_counters(alloc: Global, work: &mut Work) -> Result<(), NoMemory>
    ensures { OnOk result (work.new ≡ record work.old { counters = counters_begun (base_of work.old) }) }
{
    work.together();
    let count = work.catalog().objects().count_tables();
    let counters = start_all(alloc, work.tables(), count)?;
    let mut apart = work.take_apart();
    apart.stage.counters = counters;
    work.put_together(apart);
    Ok(())
}
