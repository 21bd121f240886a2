//! What statements work on.
ghost use Rattle.std.specs.Prelude.{◌≡◌, []};
ghost use Rattle.table_rules.specs.Stores.{IsWhole, definitions_of};
ghost use Rattle.sql_reach.specs.catalog_rules.Bases.{definitions_in};
ghost use Rattle.catalog.specs.catalog_objects.Keys.{objects_of};
ghost use Rattle.prog_work.specs.Contents.{IsTogether, committed_tables, contents_of, nothing, taken_back};
ghost use Rattle.prog_work.specs.Together.{AreTogether};

use auto_inc::Counters;
use catalog::Catalog;
use exec_state::Stage;
use exec_state::dml_rows::take_back_to;
use row_store::{Tables, tables_are_kept};
use std::alloc::Global;
use std::marker::Model;
use undo_log::Undo;

/// The catalog, the tables as they stand with the changes that can be taken back, and the counters. It is dropped here, so that no
/// crate that holds it has a function for each type of a tree in the catalog.
pub struct Work {
    pub(crate) alloc: Global,
    pub(crate) catalog: Catalog,
    pub(crate) stage: Stage,
}

impl Model for Work {
    ghost use Rattle.prog_work.specs.Contents.{Contents};
    ghost use Rattle.prog_work.specs.Together.{AreTogether};

    ghost Value = { Contents };

    ghost use Rattle.sql_tree.specs.contracts.statements.Stmt as stmt;
    ghost use Rattle.std.specs.Coded.{codes};

    ghost coded = { Prim.hlevel (codes, stmt.the_row.coded) };

    ghost view = { λ w. record {
      objects = w.catalog;
      tables = w.stage.tables.tables;
      changes = w.stage.undo;
      counters = w.stage.counters;
    } };

    ghost invariant = { λ w. AreTogether w.catalog w.stage.tables w.stage.undo w.stage.counters };
}

impl Drop for Work {
    fn drop(self) {
        let Work {
            alloc: _,
            catalog,
            stage,
        } = self;
        drop(catalog);
        drop(stage);
    }
}

impl Work {
    /// The catalog and the stage, which are together.
    pub(crate) fn into_parts(self) -> (Catalog, Stage)
        ensures is { contents_of result.0 result.1 ≡ self }
        ensures together { AreTogether result.0 result.1.tables result.1.undo result.1.counters }
    {
        let Work {
            alloc: _,
            catalog,
            stage,
        } = self;
        (catalog, stage)
    }

    /// No table and no change, which takes no memory.
    #[tactic(auto, using(crate::proofs::Holding::together_nothing))]
    pub fn new(alloc: Global) -> Work
        ensures { result ≡ nothing }
    {
        Work {
            alloc,
            catalog: Catalog::new(alloc),
            stage: Stage {
                tables: Tables::new(alloc),
                undo: Undo::new(alloc),
                counters: Counters::new(alloc),
                seeds: (0, 0),
                turns: 0,
                uuids: 0,
            },
        }
    }

    /// What holds of all that is worked on.
    #[tactic(auto, using(crate::proofs::Holding::are_together))]
    pub fn together(&self)
        ensures { IsTogether self.now }
    {
        tables_are_kept(&self.stage.tables);
    }

    /// The catalog.
    pub fn catalog(&self) -> &Catalog
        ensures { result.now ≡ self.now.objects }
    {
        &self.catalog
    }

    /// The tables as they stand.
    pub fn tables(&self) -> &Tables
        ensures { result.now.tables ≡ self.now.tables }
    {
        &self.stage.tables
    }

    /// The same tables by what is there to stay of them: the rows that were last committed, beside whatever is open.
    pub fn stored(&self) -> &Tables
        ensures shown { result.now.tables ≡ self.now.tables }
        ensures committed { result.now.committed ≡ committed_tables self.now }
        ensures none { self.now.changes ≡ [] → result.now.committed ≡ self.now.tables }
        ensures theirs { definitions_of result.now.tables ≡ definitions_in (objects_of self.now.objects) }
        ensures whole { IsWhole result.now }
    {
        tables_are_kept(&self.stage.tables);
        &self.stage.tables
    }

    /// The changes that can be taken back.
    pub fn undo(&self) -> &Undo
        ensures { result.now ≡ self.now.changes }
    {
        &self.stage.undo
    }

    /// The counters.
    pub fn counters(&self) -> &Counters
        ensures { result.now ≡ self.now.counters }
    {
        &self.stage.counters
    }

    /// Takes the changes behind a mark back, the last one first. It takes no memory.
    #[tactic(auto, using(crate::proofs::Holding::may_take_back, crate::proofs::Holding::together_back, crate::proofs::Holding::still_committed))]
    pub fn take_back_to(&mut self, mark: u64)
        ensures back { self.new ≡ taken_back mark self.old }
        ensures committed { committed_tables self.new ≡ committed_tables self.old }
    {
        take_back_to(&mut self.stage.tables, &mut self.stage.undo, mark);
    }

    /// Lets the changes stand: none of them can be taken back from here on. Room that was kept for that is given back.
    #[tactic(auto, using(crate::proofs::Holding::together_committed))]
    pub fn commit(&mut self)
        ensures { self.new ≡ record self.old { changes = [] } }
    {
        self.stage.undo.clear();
        self.stage.tables.tidy();
    }
}
