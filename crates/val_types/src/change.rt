//! Changes of rows: what a log carries, and what is taken back.
ghost use Rattle.std.specs.Prelude.{◌≡◌, IfOk};
ghost use Rattle.val_types.specs.Changes.{inverse, table_of};

use crate::duplicate::Duplicate;
use crate::list::{Bytes, NoMemory};
use crate::value::Row;
use sharing::Shared;
use std::alloc::Global;

/// A change of one row of a table. Its parts are shared with who made it: the name with the table's
/// definition, the rows with the table itself.
#[derive(Drop)]
pub enum Change {
    Insert {
        table: Shared<Bytes>,
        row: Shared<Row>,
    },
    Update {
        table: Shared<Bytes>,
        before: Shared<Row>,
        after: Shared<Row>,
    },
    Delete {
        table: Shared<Bytes>,
        row: Shared<Row>,
    },
}

impl Change {
    /// The name of the table.
    pub fn table(&self) -> &Bytes
        ensures { result.now ≡ table_of self.now }
    {
        match self {
            Change::Insert { table, .. } => table.get(),
            Change::Update { table, .. } => table.get(),
            Change::Delete { table, .. } => table.get(),
        }
    }

    /// The change that takes this one back.
    pub fn inverse(self) -> Change
        ensures { result ≡ inverse self }
    {
        match self {
            Change::Insert { table, row } => Change::Delete { table, row },
            Change::Update {
                table,
                before,
                after,
            } => Change::Update {
                table,
                before: after,
                after: before,
            },
            Change::Delete { table, row } => Change::Insert { table, row },
        }
    }
}

/// One more holder of each part, without copies.
impl Duplicate for Change {
    fn duplicate(&self, alloc: Global) -> Result<Change, NoMemory> {
        let _ = alloc;
        match self {
            Change::Insert { table, row } => Ok(Change::Insert {
                table: table.share()?,
                row: row.share()?,
            }),
            Change::Update {
                table,
                before,
                after,
            } => Ok(Change::Update {
                table: table.share()?,
                before: before.share()?,
                after: after.share()?,
            }),
            Change::Delete { table, row } => Ok(Change::Delete {
                table: table.share()?,
                row: row.share()?,
            }),
        }
    }
}
