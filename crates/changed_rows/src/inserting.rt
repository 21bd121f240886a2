//! One row inserted.
ghost use Rattle.std.specs.Prelude.{◌≡◌, reverse};
ghost use Rattle.sql_evaluation.specs.exec_state.Stage.{EndsAsBy, LeadsOn, scene_of};
ghost use Rattle.changed_rows.specs.Changed.{StandsAt, inserted_in, inserting_of, manner_of};
ghost use Rattle.changed_rows.specs.Inserted.{entered_in, filled_in};
ghost use Rattle.sql_evaluation.specs.Seen.{Anywhere, world_of};

use crate::columns::{asked_place, left_out_row, none_missing, put_at};
use crate::counting::count_row;
use crate::executor::Executor;
use crate::firing::before_insert;
use crate::placing::place_row;
use crate::table::ChangedTable;
use auto_inc::StmtSeq;
use sql_evaluation::exec_state::Stage;
use sql_tree::ColumnSet;
use std::alloc::Global;
use val_types::{List, Row, SqlRefusal, TableDef, Value};

/// What an INSERT or REPLACE does with a row whose key is there.
#[derive(Clone, Copy)]
pub enum Manner<'a> {
    /// INSERT: 1062.
    Refusing,
    /// INSERT IGNORE passes over the row.
    Ignoring,
    /// REPLACE deletes the rows in its way.
    Replacing,
    /// ON DUPLICATE KEY UPDATE updates the first row in its way.
    Updating(&'a List<ColumnSet>),
}

/// What an INSERT or REPLACE says of each of its rows.
#[derive(Clone, Copy)]
pub struct Insertion<'a> {
    /// The value that it generates first, if one is forced.
    pub forced: Option<i64>,
    /// The places of the columns that it names, in their order.
    pub places: &'a [usize],
    pub manner: Manner<'a>,
}

/// What an INSERT or REPLACE has come to.
#[derive(Drop)]
pub struct Inserting {
    /// The values that it has generated.
    pub sequence: StmtSeq,
    /// The affected rows.
    pub affected: u64,
    /// What LAST_INSERT_ID() becomes, None where it stays.
    pub last_id: Option<i64>,
}

/// Inserts a row into a table: its values in the columns at the places that are named, in their order, the other columns
/// as they are left out; BEFORE INSERT, NOT NULL, the value of the AUTO_INCREMENT column, the row or what the manner says
/// of one in its way, AFTER INSERT.
///
/// 1054 for a place without a column; 30002, 1264 or 1406 for a value that does not fit; 1048 for a NULL in a NOT NULL
/// column; 1467 where no value can be generated; 1062 for a key that is there; and what `update_row`, evaluation and
/// the triggers refuse. A count of rows past 64 bits is want of memory.
#[tactic(auto, using(crate::proofs::Places::standing, crate::proofs::Inserts::inserting))]
pub fn insert_row<E: Executor>(
    table: &ChangedTable<'_, E>,
    insertion: &Insertion<'_>,
    stage: &mut Stage,
    so_far: Inserting,
    values: List<Value>,
) -> Result<Inserting, SqlRefusal>
    requires serves { E.serves table.now.executor.now (world_of table.now.around.now).below }
    requires stands { StandsAt table.now.at table.now.definition.now stage.old }
    ensures gives { EndsAsBy inserting_of result (scene_of stage.new) (inserted_in table.now.around.now insertion.now.forced table.now.definition.now insertion.now.places.now (manner_of insertion.now.manner) (inserting_of so_far) values (scene_of stage.old)) }
    ensures leads { LeadsOn stage.old stage.new }
{
    let filled = filled_row(
        table.alloc,
        table.definition.get(),
        insertion.places,
        values,
    )?;
    let left = before_insert(table, stage, filled)?;
    enter(table, insertion, stage, so_far, left)
}

/// Values from the last one on.
fn backwards(values: List<Value>) -> List<Value>
    ensures { result ≡ reverse values }
{
    let mut values = values.into_vec();
    values.reverse();
    List::from_vec(values)
}

/// The row of some values in the columns at some places, the others left out: 1054 for a place without a column, or why a
/// value does not fit.
#[tactic(auto, using(crate::proofs::Inserts::filling))]
fn filled_row(
    alloc: Global,
    definition: &TableDef,
    places: &[usize],
    values: List<Value>,
) -> Result<Row, SqlRefusal>
    ensures { Anywhere result (filled_in definition.now places.now values) }
{
    let mut row = left_out_row(alloc, definition)?;
    let mut rest = backwards(values);
    for place in places {
        let Some(value) = rest.pop() else {
            return Ok(row);
        };
        row = put_at(definition, row, *place, value)?;
    }
    Ok(row)
}

/// NOT NULL, the AUTO_INCREMENT value, and the row put in its place.
#[tactic(auto, using(crate::proofs::Places::standing, crate::proofs::Inserts::entering))]
fn enter<E: Executor>(
    table: &ChangedTable<'_, E>,
    insertion: &Insertion<'_>,
    stage: &mut Stage,
    so_far: Inserting,
    left: Row,
) -> Result<Inserting, SqlRefusal>
    requires serves { E.serves table.now.executor.now (world_of table.now.around.now).below }
    requires stands { StandsAt table.now.at table.now.definition.now stage.old }
    ensures gives { EndsAsBy inserting_of result (scene_of stage.new) (entered_in table.now.around.now insertion.now.forced table.now.definition.now (manner_of insertion.now.manner) (inserting_of so_far) left (scene_of stage.old)) }
    ensures leads { LeadsOn stage.old stage.new }
{
    let Inserting {
        sequence,
        affected,
        last_id,
    } = so_far;
    let definition = table.definition.get();
    let asked = asked_place(definition, &left);
    none_missing(definition, &left, asked)?;
    let counted = count_row(
        table.around,
        insertion.forced,
        stage,
        definition,
        left,
        sequence,
    )?;
    place_row(table, insertion.manner, stage, counted, affected, last_id)
}
