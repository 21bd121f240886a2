//! Tables once more, with rows that both hold.
ghost use Rattle.std.specs.Prelude.{◌≡◌, IfOk};

use crate::shelf::Shelf;
use crate::tables::Tables;
use std::alloc::Global;
use val_types::NoMemory;

impl Shelf {
    fn copy(&self, alloc: Global) -> Result<Shelf, NoMemory>
        ensures definition { IfOk result (λ copy. copy.sheet.definition ≡ self.now.sheet.definition) }
        ensures committed { IfOk result (λ copy. copy.sheet.committed ≡ self.now.sheet.committed) }
        ensures entries { IfOk result (λ copy. copy.sheet.entries ≡ self.now.sheet.entries) }
    {
        Ok(Shelf {
            name: self.name.share()?,
            sheet: self.sheet.copy(alloc)?,
        })
    }
}

impl Tables {
    /// Equal tables, in which the same keys are kept and the same rows are there to stay; their room is their own.
    pub fn copy(&self) -> Result<Tables, NoMemory>
        ensures tables { IfOk result (λ copy. copy.tables ≡ self.now.tables) }
        ensures kept { IfOk result (λ copy. copy.kept ≡ self.now.kept) }
        ensures committed { IfOk result (λ copy. copy.committed ≡ self.now.committed) }
    {
        let mut shelves = Vec::with_capacity(self.alloc, self.shelves.len())?;
        for shelf in self.shelves.as_slice() {
            shelves.push(shelf.copy(self.alloc)?)?;
        }
        Ok(Tables {
            alloc: self.alloc,
            shelves,
        })
    }
}
