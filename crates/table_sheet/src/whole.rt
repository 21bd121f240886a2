//! What is asked of a sheet as a whole.
ghost use Rattle.std.specs.Prelude.{◌≡◌, []};

use crate::committed::Committed;
use crate::overlay::Overlay;
use crate::sheet::Sheet;
use sharing::Shared;
use std::alloc::Global;
use val_types::TableDef;

impl Sheet {
    /// The table's definition, for those who hold it on while rows change.
    pub fn shared_definition(&self) -> &Shared<TableDef>
        ensures { result.now ≡ self.now.definition }
    {
        &self.definition
    }

    /// Drops all rows, the committed ones and those that are shown. It takes no memory.
    pub fn clear(&mut self, alloc: Global)
        ensures definition { self.new.definition ≡ self.old.definition }
        ensures committed { self.new.committed ≡ [] }
        ensures entries { self.new.entries ≡ [] }
    {
        self.committed = Committed::new(alloc);
        self.overlay = Overlay::new(alloc);
    }
}
