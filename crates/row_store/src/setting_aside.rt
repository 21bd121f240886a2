//! What a transaction shows, set aside of all tables and put back, so that others see the rows that are there to
//! stay.

use crate::shelf::Shelf;
use crate::tables::Tables;
use std::alloc::Global;
use table_sheet::Overlay;
use val_types::NoMemory;

/// What was set aside of each table, in their order.
#[derive(Drop)]
pub struct Aside {
    pub(crate) overlays: Vec<Overlay>,
}

impl Shelf {
    ghost use Rattle.std.specs.Prelude.{◌≡◌, []};
    ghost use Rattle.table_sheet.specs.Parts.{entry_slots};
    ghost use Rattle.table_sheet.specs.Indexed.{Fits};

    /// Takes out what is shown, so that the rows that are there to stay are shown.
    fn set_aside(&mut self, alloc: Global) -> Overlay
        ensures entries { entry_slots self.old.sheet.definition result ≡ self.old.sheet.entries }
        ensures fits { Fits result self.old.sheet }
        ensures page { self.new.sheet ≡ record self.old.sheet { entries = [] } }
    {
        self.sheet.set_aside(alloc)
    }

    /// Shows again what was set aside.
    fn put_back(&mut self, overlay: Overlay)
        requires { Fits overlay self.old.sheet }
        ensures { self.new.sheet ≡ record self.old.sheet { entries = entry_slots self.old.sheet.definition overlay } }
    {
        self.sheet.put_back(overlay);
    }

    /// Drops what is shown, so that the rows that are there to stay are shown.
    fn forget(&mut self, alloc: Global)
        ensures { self.new.sheet ≡ record self.old.sheet { entries = [] } }
    {
        self.sheet.forget(alloc);
    }
}

impl Tables {
    ghost use Rattle.std.specs.Prelude.{◌≡◌, IfOk, OnErr, OnOk};
    ghost use Rattle.table_rules.specs.Stores.{IsWhole};
    ghost use Rattle.row_store.specs.Asides.{just_committed, with_aside, FitsIn, IsAside};

    /// Takes out all that is shown and all keys that are kept, so that the rows that are there to stay are shown.
    /// Where there is no memory for the list of what is set aside, nothing changes.
    pub fn set_aside(&mut self) -> Result<Aside, NoMemory>
        ensures ok { OnOk result (self.new ≡ just_committed self.old) }
        ensures aside { IfOk result (λ aside. IsAside aside self.old) }
        ensures err { OnErr result (self.new ≡ self.old) }
    {
        let count = self.shelves.len();
        let mut overlays = Vec::with_capacity(self.alloc, count)?;
        for i in 0..count {
            let overlay = self.shelves[i].set_aside(self.alloc);
            overlays.push_reserved(overlay);
        }
        Ok(Aside { overlays })
    }

    /// Shows again what was set aside, in place of what is shown now. It takes no memory.
    pub fn put_back(&mut self, aside: Aside)
        requires { FitsIn aside self.old }
        ensures { self.new ≡ with_aside aside self.old }
    {
        let mut overlays = aside.overlays;
        while let Some(overlay) = overlays.pop() {
            self.shelves[overlays.len()].put_back(overlay);
        }
    }

    /// Drops all that is shown and lets go all keys that are kept, so that the rows that are there to stay are shown.
    /// It takes no memory.
    pub fn forget(&mut self)
        ensures is { self.new ≡ just_committed self.old }
        ensures whole { IsWhole self.new }
    {
        for i in 0..self.shelves.len() {
            self.shelves[i].forget(self.alloc);
        }
    }
}
