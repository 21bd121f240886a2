//! What a statement came to.
ghost use Rattle.std.specs.Prelude.{◌≡◌};
ghost use Rattle.changed_rows.specs.sql_meaning.Changing.{affected_rows, did_insert};
ghost use Rattle.changed_rows.specs.sql_meaning.Running.{rows_shown};
ghost use Rattle.changed_rows.specs.Changed.{inserting_of};
ghost use Rattle.sql_statements.specs.Did.{did_of};

use changed_rows::Inserting;
use sharing::Shared;
use val_types::{List, Row};

/// What a statement came to.
#[derive(Drop)]
pub struct Did {
    /// How many rows it changed.
    pub affected: u64,
    /// The rows that it shows, None where it is no SELECT.
    pub shown: Option<List<Shared<Row>>>,
    /// The first value that it generated.
    pub first: Option<i64>,
    /// What LAST_INSERT_ID() becomes, None where it stays.
    pub last_id: Option<i64>,
}

/// A count of affected rows and nothing else.
pub(crate) fn affecting(affected: u64) -> Did
    ensures { did_of result ≡ affected_rows affected }
{
    Did {
        affected,
        shown: None,
        first: None,
        last_id: None,
    }
}

/// Rows that are shown.
pub(crate) fn showing(rows: List<Shared<Row>>) -> Did
    ensures { did_of result ≡ rows_shown rows }
{
    Did {
        affected: 0,
        shown: Some(rows),
        first: None,
        last_id: None,
    }
}

/// What an INSERT or REPLACE came to.
pub(crate) fn inserting(so_far: &Inserting) -> Did
    ensures { did_of result ≡ did_insert (inserting_of so_far.now) }
{
    Did {
        affected: so_far.affected,
        shown: None,
        first: so_far.sequence.first(),
        last_id: so_far.last_id,
    }
}
