//! Rows once more, each held by both.
ghost use Rattle.std.specs.Prelude.{◌≡◌, IfOk};

use crate::arena::RowArena;
use sharing::Shared;
use std::alloc::Global;
use val_types::{NoMemory, Row};

/// One more holder of a row, if there is one.
fn held(row: &Option<Shared<Row>>) -> Result<Option<Shared<Row>>, NoMemory>
    ensures { IfOk result (λ held. held ≡ row.now) }
{
    match row {
        Some(row) => Ok(Some(row.share()?)),
        None => Ok(None),
    }
}

impl RowArena {
    /// The same rows under the same numbers, each shared with this one.
    pub fn copy(&self, alloc: Global) -> Result<RowArena, NoMemory>
        ensures { IfOk result (λ copy. copy.rows ≡ self.now.rows) }
    {
        let mut free = Vec::with_capacity(alloc, self.rows.len())?;
        free.extend_from_slice(self.free.as_slice())?;
        let mut rows = Vec::with_capacity(alloc, self.rows.len())?;
        for row in self.rows.as_slice() {
            rows.push(held(row)?)?;
        }
        Ok(RowArena { rows, free })
    }
}
