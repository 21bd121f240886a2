//! Open changes set aside, so that a statement beside them works on the rows that were last committed.
ghost use Rattle.std.specs.Prelude.{◌≡◌, IfOk, OnErr, OnOk};
ghost use Rattle.prog_work.specs.Asides.{are_back, AreOpen, FitBack, just_committed};

use exec_state::Stage;
use row_store::Aside;
use std::alloc::Global;
use std::mem;
use undo_log::Undo;
use val_types::NoMemory;

/// The open changes of a stage: what its tables show of them, and the list by which they can be taken back.
#[derive(Drop)]
pub struct OpenChanges {
    rows: Aside,
    undo: Undo,
}

impl OpenChanges {
    /// Sets them aside: the stage shows the rows that were last committed, and has no change. All the memory that it
    /// takes is a list with one place for each table.
    pub fn set_aside(alloc: Global, stage: &mut Stage) -> Result<OpenChanges, NoMemory>
        ensures ok { OnOk result (stage.new ≡ just_committed stage.old) }
        ensures aside { IfOk result (λ aside. AreOpen aside stage.old) }
        ensures err { OnErr result (stage.new ≡ stage.old) }
    {
        let rows = stage.tables.set_aside()?;
        let undo = mem::replace(&mut stage.undo, Undo::new(alloc));
        Ok(OpenChanges { rows, undo })
    }

    /// Puts them back, which takes no memory. What the stage shows of later changes is dropped.
    pub fn put_back(self, stage: &mut Stage)
        requires { FitBack self stage.old }
        ensures { stage.new ≡ are_back self stage.old }
    {
        let OpenChanges { rows, undo } = self;
        stage.tables.put_back(rows);
        stage.undo = undo;
    }
}
