//! The catalog and the stage taken out of what is worked on, and put back.
ghost use Rattle.std.specs.Prelude.{◌≡◌};
ghost use Rattle.prog_work.specs.Contents.{contents_of};
ghost use Rattle.prog_work.specs.Together.{AreTogether};

use crate::work::Work;
use catalog::Catalog;
use exec_state::Stage;
use std::mem;

/// What a statement runs on: a stage under a catalog.
#[derive(Drop)]
pub struct Apart {
    pub catalog: Catalog,
    pub stage: Stage,
}

impl Work {
    /// Takes the catalog and the stage out, for a statement to run on. What stays is nothing, until they are put back.
    pub fn take_apart(&mut self) -> Apart
        ensures is { contents_of result.catalog result.stage ≡ self.old }
        ensures together { AreTogether result.catalog result.stage.tables result.stage.undo result.stage.counters }
    {
        let alloc = self.alloc;
        let (catalog, stage) = mem::replace(self, Work::new(alloc)).into_parts();
        Apart { catalog, stage }
    }

    /// Puts a catalog and a stage that are together in the place of its own.
    pub fn put_together(&mut self, apart: Apart)
        requires { AreTogether apart.catalog apart.stage.tables apart.stage.undo apart.stage.counters }
        ensures { self.new ≡ contents_of apart.catalog apart.stage }
    {
        let Apart { catalog, stage } = apart;
        self.catalog = catalog;
        self.stage = stage;
    }
}
