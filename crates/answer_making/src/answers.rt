//! What commands are answered.
ghost use Rattle.std.specs.Prelude.{◌≡◌, [], false, IfOk};
ghost use Rattle.session_model.specs.Answers.{end_warned, ok, refused, refused_at, refused_by, row_count_after, showing, with_warning};
ghost use Rattle.answer_making.specs.Telling.{told_answer};

use answer_text::{Answer, End};
use prog_work::Outcome;
use sharing::Shared;
use std::alloc::Global;
use val_types::{Duplicate, List, NoMemory, Row, SqlError};

/// An answer that shows no rows.
fn ended(alloc: Global, end: End) -> Answer
    ensures { result ≡ record { sets = []; end = end } }
{
    Answer {
        sets: List::new(alloc),
        end,
    }
}

/// So many rows were affected, 0 for what affects none.
pub fn ok(alloc: Global, affected: u64) -> Answer
    ensures { result ≡ ok affected }
{
    ended(
        alloc,
        End::Ok {
            affected,
            warned: false,
        },
    )
}

/// An error.
pub fn refused(alloc: Global, code: SqlError) -> Answer
    ensures { result ≡ refused code }
{
    ended(
        alloc,
        End::Refused {
            code,
            at: None,
            holder: None,
        },
    )
}

/// A syntax error at a byte of the text.
pub fn refused_at(alloc: Global, at: u32) -> Answer
    ensures { result ≡ refused_at at }
{
    ended(
        alloc,
        End::Refused {
            code: 1064,
            at: Some(at),
            holder: None,
        },
    )
}

/// Another session has the writer's lock.
pub fn refused_by(alloc: Global, holder: u8) -> Answer
    ensures { result ≡ refused_by holder }
{
    ended(
        alloc,
        End::Refused {
            code: 1205,
            at: None,
            holder: Some(holder),
        },
    )
}

/// Copies of rows that many hold.
fn copies(alloc: Global, rows: &[Shared<Row>]) -> Result<List<Row>, NoMemory>
    ensures { IfOk result (λ copies. copies ≡ rows.now) }
{
    let mut copies = List::new(alloc);
    for row in rows {
        copies.push(row.get().duplicate(alloc)?)?;
    }
    Ok(copies)
}

/// The rows of a SELECT.
pub fn showing(alloc: Global, rows: &List<Shared<Row>>) -> Result<Answer, NoMemory>
    ensures { IfOk result (λ answer. answer ≡ showing false rows.now) }
{
    let mut sets = List::new(alloc);
    sets.push(copies(alloc, rows.as_slice())?)?;
    Ok(Answer {
        sets,
        end: End::Rows { warned: false },
    })
}

/// The end of an answer, which shows whether something is warned; an error shows no warning.
fn end_warned(end: End, warned: bool) -> End
    ensures { result ≡ end_warned warned end }
{
    match end {
        End::Ok { affected, .. } => End::Ok { affected, warned },
        End::Rows { .. } => End::Rows { warned },
        End::Refused { code, at, holder } => End::Refused { code, at, holder },
    }
}

/// An answer that shows whether something is warned.
pub fn with_warning(answer: Answer, warned: bool) -> Answer
    ensures { result ≡ with_warning warned answer }
{
    Answer {
        sets: answer.sets,
        end: end_warned(answer.end, warned),
    }
}

/// What ROW_COUNT() is behind an answer.
pub fn row_count_after(end: &End) -> i64
    ensures { result ≡ row_count_after end.now }
{
    match end {
        End::Ok { affected, .. } => (*affected).min(9_223_372_036_854_775_807) as i64,
        End::Rows { .. } | End::Refused { .. } => -1,
    }
}

/// The answer of a statement that came to something, without a warning.
pub fn told(alloc: Global, outcome: &Outcome) -> Result<Answer, NoMemory>
    ensures { IfOk result (λ answer. answer ≡ told_answer outcome.now) }
{
    match &outcome.rows {
        None => Ok(ok(alloc, outcome.affected)),
        Some(rows) => showing(alloc, rows),
    }
}
