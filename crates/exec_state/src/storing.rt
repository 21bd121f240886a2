//! Rows stored in the table at a place, as the definitions' actions on a scene: table, change and caller hold one row
//! together. The place of a table stays good while no table is made or dropped.
ghost use Rattle.std.specs.Prelude.{◌≡◌, ℕ, List, Some};
ghost use Rattle.val_types.specs.declared.change.Change.TheVariants.{Insert};
ghost use Rattle.table_rules.specs.Stores.{place_of};
ghost use Rattle.sql_meaning.specs.Scenes.{make};
ghost use Rattle.sql_meaning.specs.Changing.{put_in_place, take_out};
ghost use Rattle.exec_state.specs.Stage.{EndsAs, LeadsOn, scene_of};

use crate::stage::Stage;
use dml_rows::row_store::RowRefusal;
use dml_rows::{insert_row_at, remove_row_at, replace_row_at};
use sharing::Shared;
use val_types::{Row, SqlError, SqlRefusal};

/// A key of the row is that of another.
const DUPLICATE_KEY: SqlError = 1062;

/// A row that was to be changed does not stand in its table.
const ROW_ABSENT: SqlError = 1032;

impl Stage {
    /// Puts a row into the table at a place; 1062 where it cannot be put there.
    #[tactic(auto, using(crate::proofs::Leading::leading, crate::proofs::Leading::stage_stores), unfolding(crate::specs::Stage::scene_of))]
    pub fn insert(&mut self, at: usize, row: Shared<Row>) -> Result<(), SqlRefusal>
        ensures gives { (name : List ℕ) → place_of name self.old.tables.tables ≡ Some at
            → EndsAs result (scene_of self.new) (make 1062 (Insert name row) (scene_of self.old)) }
        ensures leads { LeadsOn self.old self.new }
    {
        if !self.tables.fits_at(at, row.get()) {
            return Err(SqlRefusal::Sql(DUPLICATE_KEY));
        }
        match insert_row_at(&mut self.tables, &mut self.undo, at, row) {
            Ok(()) => Ok(()),
            Err(RowRefusal::NoMemory) => Err(SqlRefusal::NoMemory),
            Err(RowRefusal::Taken { .. }) => Err(SqlRefusal::Sql(DUPLICATE_KEY)),
            Err(RowRefusal::Absent) => Err(SqlRefusal::Sql(DUPLICATE_KEY)),
        }
    }

    /// Takes a row out of the table at a place, with one search; 1032 where it does not stand there.
    #[tactic(auto, using(crate::proofs::Leading::leading, crate::proofs::Leading::stage_stores), unfolding(crate::specs::Stage::scene_of))]
    pub fn take_out(&mut self, at: usize, row: &Shared<Row>) -> Result<(), SqlRefusal>
        ensures gives { (name : List ℕ) → place_of name self.old.tables.tables ≡ Some at
            → EndsAs result (scene_of self.new) (take_out name row.now (scene_of self.old)) }
        ensures leads { LeadsOn self.old self.new }
    {
        match remove_row_at(&mut self.tables, &mut self.undo, at, row) {
            Ok(()) => Ok(()),
            Err(RowRefusal::NoMemory) => Err(SqlRefusal::NoMemory),
            Err(RowRefusal::Taken { .. }) => Err(SqlRefusal::Sql(ROW_ABSENT)),
            Err(RowRefusal::Absent) => Err(SqlRefusal::Sql(ROW_ABSENT)),
        }
    }

    /// Puts a row in the place of another in the table at a place: 1032 where that does not stand there, 1062 where a
    /// key of the new one is that of a third. Where the primary key stays, there is one search.
    #[tactic(auto, using(crate::proofs::Leading::leading, crate::proofs::Leading::stage_stores), unfolding(crate::specs::Stage::scene_of))]
    pub fn put_in_place(
        &mut self,
        at: usize,
        old: &Shared<Row>,
        new: Shared<Row>,
    ) -> Result<(), SqlRefusal>
        ensures gives { (name : List ℕ) → place_of name self.old.tables.tables ≡ Some at
            → EndsAs result (scene_of self.new) (put_in_place name old.now new (scene_of self.old)) }
        ensures leads { LeadsOn self.old self.new }
    {
        if !self.tables.fits_at(at, new.get()) {
            return Err(SqlRefusal::Sql(ROW_ABSENT));
        }
        match replace_row_at(&mut self.tables, &mut self.undo, at, old, new) {
            Ok(()) => Ok(()),
            Err(RowRefusal::NoMemory) => Err(SqlRefusal::NoMemory),
            Err(RowRefusal::Taken { .. }) => Err(SqlRefusal::Sql(DUPLICATE_KEY)),
            Err(RowRefusal::Absent) => Err(SqlRefusal::Sql(ROW_ABSENT)),
        }
    }
}
