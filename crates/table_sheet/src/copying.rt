//! A sheet once more, with rows that both hold.
ghost use Rattle.std.specs.Prelude.{◌≡◌, ◌<◌, ◌≤◌, ℕ, length, IfOk};
ghost use Rattle.row_index.specs.block_list.Layouts.{flat, holds};
ghost use Rattle.row_index.specs.Lists.{list_at, numbers_at};

use crate::committed::Committed;
use crate::entry::Entry;
use crate::overlay::Overlay;
use crate::sheet::Sheet;
use row_index::{copied_lists, make_hold, numbers_copied};
use std::alloc::Global;
use val_types::NoMemory;

impl Entry {
    fn copy(&self) -> Result<Entry, NoMemory>
        ensures { IfOk result (λ copy. copy ≡ self.now) }
    {
        let present = match &self.present {
            Some(row) => Some(row.share()?),
            None => None,
        };
        Ok(Entry {
            bearer: self.bearer.share()?,
            present,
        })
    }
}

impl Committed {
    fn copy(&self, alloc: Global) -> Result<Committed, NoMemory>
        ensures rows { IfOk result (λ copy. copy.rows.rows ≡ self.now.rows.rows) }
        ensures order { IfOk result (λ copy. flat copy.order.blocks ≡ flat self.now.order.blocks) }
        ensures indexes { IfOk result (λ copy. (which : ℕ) → numbers_at copy.indexes.items which ≡ numbers_at self.now.indexes.items which) }
        ensures hold { IfOk result (λ copy. copy.hold ≡ 0) }
    {
        let indexes = copied_lists(alloc, &self.indexes)?;
        let rows = self.rows.copy(alloc)?;
        let order = numbers_copied(alloc, &self.order)?;
        Ok(Committed {
            rows,
            order,
            indexes,
            hold: 0,
        })
    }
}

impl Overlay {
    fn copy(&self, alloc: Global, keys: usize) -> Result<Overlay, NoMemory>
        ensures entries { IfOk result (λ copy. copy.entries.items ≡ self.now.entries.items) }
        ensures ranks { IfOk result (λ copy. flat copy.ranks.blocks ≡ flat self.now.ranks.blocks) }
        ensures fresh { IfOk result (λ copy. copy.fresh ≡ self.now.fresh) }
        ensures indexes { IfOk result (λ copy. (which : ℕ) → numbers_at copy.indexes.items which ≡ numbers_at self.now.indexes.items which) }
        ensures hold { IfOk result (λ copy. (which : ℕ) → which < keys → length (flat self.now.ranks.blocks) ≤ holds (list_at copy.indexes.items which)) }
    {
        let mut indexes = copied_lists(alloc, &self.indexes)?;
        make_hold(&mut indexes, alloc, keys, self.ranks.len())?;
        let ranks = numbers_copied(alloc, &self.ranks)?;
        let mut entries = Vec::with_capacity(alloc, self.entries.len())?;
        for entry in self.entries.as_slice() {
            entries.push(entry.copy()?)?;
        }
        Ok(Overlay {
            entries,
            ranks,
            fresh: self.fresh,
            indexes,
        })
    }
}

impl Sheet {
    /// A sheet of the same definition, with the same committed rows and entries.
    pub fn copy(&self, alloc: Global) -> Result<Sheet, NoMemory>
        ensures definition { IfOk result (λ copy. copy.definition ≡ self.now.definition) }
        ensures committed { IfOk result (λ copy. copy.committed ≡ self.now.committed) }
        ensures entries { IfOk result (λ copy. copy.entries ≡ self.now.entries) }
    {
        let definition = self.definition.share()?;
        let keys = self.definition.get().uniques.len();
        let overlay = self.overlay.copy(alloc, keys)?;
        let mut committed = self.committed.copy(alloc)?;
        committed.make_room(alloc, keys, self.overlay.fresh)?;
        Ok(Sheet {
            definition,
            committed,
            overlay,
        })
    }
}
