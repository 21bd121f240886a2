//! The AUTO_INCREMENT value of a row.
ghost use Rattle.std.specs.Prelude.{◌≡◌, IfSome, Some, slice_index_or};
ghost use Rattle.val_types.specs.declared.value.Value.TheVariants.{Null};
ghost use Rattle.auto_inc.specs.Generating.{after_generated, next_value};
ghost use Rattle.sql_evaluation.specs.sql_meaning.Changing.{count_row, generate_at, generated_next, given_value};
ghost use Rattle.sql_evaluation.specs.sql_meaning.Scenes.{done};
ghost use Rattle.sql_evaluation.specs.exec_state.Stage.{EndsAsBy, LeadsOn, scene_of};
ghost use Rattle.sql_evaluation.specs.Seen.{world_of};
ghost use Rattle.changed_rows.specs.Inserted.{counted_of};

use crate::columns::{NO_SUCH_COLUMN, asks, with_value};
use auto_inc::StmtSeq;
use sql_evaluation::Around;
use sql_evaluation::exec_state::Stage;
use val_types::{Row, SqlError, SqlRefusal, TableDef, Value, greatest, value_at};

/// No value can be generated that the column's type holds.
const NO_VALUE_LEFT: SqlError = 1467;

/// A row with its AUTO_INCREMENT value decided: the row, the sequence behind it, and the value where it was generated.
#[derive(Drop)]
pub struct Counted {
    pub row: Row,
    pub sequence: StmtSeq,
    pub generated: Option<i64>,
}

/// The next value of a sequence by the session's increment and offset.
#[tactic(auto, using(crate::proofs::Numbering::generating), unfolding(sql_evaluation::specs::Seen::world_of))]
fn next_of(around: &Around<'_>, top: i64, counter: u64, sequence: &mut StmtSeq) -> Option<i64>
    ensures value { result ≡ next_value counter (world_of around.now).setting.context.increment (world_of around.now).setting.context.offset top sequence.old }
    ensures sequence { IfSome result (λ v. sequence.new ≡ after_generated v sequence.old) }
{
    let increment = around.context.increment();
    let offset = around.context.offset();
    sequence.next(counter, increment, offset, top)
}

/// The first value of a sequence, which is forced; None where it is past the greatest of the type.
#[tactic(auto, using(crate::proofs::Numbering::generating))]
fn first_of(
    around: &Around<'_>,
    forced: i64,
    top: i64,
    counter: u64,
    sequence: &mut StmtSeq,
) -> Option<i64>
    ensures value { result ≡ generated_next (world_of around.now) (Some forced) top counter sequence.old }
    ensures sequence { IfSome result (λ v. sequence.new ≡ after_generated v sequence.old) }
{
    if sequence.first().is_some() {
        return next_of(around, top, counter, sequence);
    }
    if top < forced {
        return None;
    }
    sequence.forced(forced);
    Some(forced)
}

/// The next value that a statement generates: the forced one first, where one is set. None where it is past the greatest of
/// the column's type.
#[tactic(auto, using(crate::proofs::Numbering::generating))]
fn generated_next(
    around: &Around<'_>,
    forced: Option<i64>,
    top: i64,
    counter: u64,
    sequence: &mut StmtSeq,
) -> Option<i64>
    ensures value { result ≡ generated_next (world_of around.now) forced top counter sequence.old }
    ensures sequence { IfSome result (λ v. sequence.new ≡ after_generated v sequence.old) }
{
    match forced {
        Some(forced) => first_of(around, forced, top, counter, sequence),
        None => next_of(around, top, counter, sequence),
    }
}

/// A value generated at a place: 1467 past the column's type.
#[tactic(auto, using(crate::proofs::Places::leading, crate::proofs::Numbering::generating))]
fn generate_at(
    around: &Around<'_>,
    forced: Option<i64>,
    stage: &mut Stage,
    definition: &TableDef,
    row: Row,
    mut sequence: StmtSeq,
    place: u16,
) -> Result<Counted, SqlRefusal>
    ensures gives { EndsAsBy counted_of result (scene_of stage.new) (generate_at (world_of around.now) forced definition.now row sequence place (scene_of stage.old)) }
    ensures leads { LeadsOn stage.old stage.new }
{
    let Some(column) = definition.columns.get(usize::from(place)) else {
        return Err(SqlRefusal::Sql(NO_SUCH_COLUMN));
    };
    let counter = stage.counter(&definition.name);
    let top = greatest(column.kind);
    let Some(value) = generated_next(around, forced, top, counter, &mut sequence) else {
        return Err(SqlRefusal::Sql(NO_VALUE_LEFT));
    };
    stage.raise_counter(&definition.name, value);
    let row = with_value(row, usize::from(place), Value::Int(value));
    Ok(Counted {
        row,
        sequence,
        generated: Some(value),
    })
}

/// A value that was given: it moves the counter and the sequence.
#[tactic(auto, using(crate::proofs::Places::leading, crate::proofs::Numbering::generating))]
fn given_value(
    stage: &mut Stage,
    definition: &TableDef,
    row: Row,
    mut sequence: StmtSeq,
    place: u16,
) -> Counted
    ensures gives { given_value definition.now row sequence (slice_index_or row place Null) (scene_of stage.old) ≡ done (counted_of result) (scene_of stage.new) }
    ensures leads { LeadsOn stage.old stage.new }
{
    match value_at(&row, place, &Value::Null) {
        Value::Int(number) => {
            let number = *number;
            stage.raise_counter(&definition.name, number);
            sequence.explicit(number);
            Counted {
                row,
                sequence,
                generated: None,
            }
        }
        _ => Counted {
            row,
            sequence,
            generated: None,
        },
    }
}

/// The AUTO_INCREMENT value of a row, generated where it asks for one.
#[tactic(auto, using(crate::proofs::Places::leading, crate::proofs::Numbering::generating))]
pub(crate) fn count_row(
    around: &Around<'_>,
    forced: Option<i64>,
    stage: &mut Stage,
    definition: &TableDef,
    row: Row,
    sequence: StmtSeq,
) -> Result<Counted, SqlRefusal>
    ensures gives { EndsAsBy counted_of result (scene_of stage.new) (count_row (world_of around.now) forced definition.now row sequence (scene_of stage.old)) }
    ensures leads { LeadsOn stage.old stage.new }
{
    match definition.auto {
        Some(place) => {
            if asks(value_at(&row, place, &Value::Null)) {
                generate_at(around, forced, stage, definition, row, sequence, place)
            } else {
                Ok(given_value(stage, definition, row, sequence, place))
            }
        }
        None => Ok(Counted {
            row,
            sequence,
            generated: None,
        }),
    }
}
