//! What is done with names.
ghost use Rattle.std.specs.Prelude.{◌≡◌, OnOk};
ghost use Rattle.statement_names.specs.Visiting.{Visits};

use val_types::{Bytes, NoMemory};

/// Does something with each name that a walk meets, or wants memory.
pub(crate) trait NameVisitor {
    /// What becomes of it at each.
    ghost visits: { Visits Self };

    /// At a user variable.
    fn visit_variable(&mut self, name: &Bytes) -> Result<(), NoMemory>
        ensures { OnOk result (self.new ≡ visits.variable name.now self.old) };

    /// At a table that is read or changed.
    fn visit_table(&mut self, name: &Bytes) -> Result<(), NoMemory>
        ensures { OnOk result (self.new ≡ visits.table name.now self.old) };
}
