//! Rows put in, changed and taken out as they are, as an applier does it: no trigger runs.
ghost use Rattle.std.specs.Prelude.{◌≡◌, max, true};
ghost use Rattle.auto_inc.specs.Counting.{behind, changed_for, tables_of};
ghost use Rattle.table_rules.specs.Stored.{deletion, fits_table, insertion, replacement};
ghost use Rattle.row_store.specs.Stores.{Stores};
ghost use Rattle.exec_state.specs.dml_rows.Noted.{Notes};
ghost use Rattle.prog_work.specs.Carrying.{ChangesRows, given_up};

use crate::work::Work;
use auto_inc::Counters;
use exec_state::dml_rows::{delete_row, insert_row, take_back_to, update_row};
use row_store::RowRefusal;
use sharing::Shared;
use val_types::{Bytes, Row};

impl Work {
    /// Puts a row in.
    #[tactic(auto, using(crate::proofs::Carried::together_led, crate::proofs::Carried::rows_changed))]
    pub fn insert_row(&mut self, table: &Bytes, row: Shared<Row>) -> Result<(), RowRefusal>
        requires { fits_table table.now row self.old.tables ≡ true }
        ensures stored { Stores result (insertion table.now row self.old.tables) self.old.tables self.new.tables }
        ensures noted { Notes result (insertion table.now row self.old.tables) self.old.changes self.new.changes }
        ensures rest { ChangesRows self.old self.new }
    {
        insert_row(&mut self.stage.tables, &mut self.stage.undo, table, row)
    }

    /// Replaces the row of a key.
    #[tactic(auto, using(crate::proofs::Carried::together_led, crate::proofs::Carried::rows_changed))]
    pub fn update_row(
        &mut self,
        table: &Bytes,
        key: &Row,
        row: Shared<Row>,
    ) -> Result<(), RowRefusal>
        requires { fits_table table.now row self.old.tables ≡ true }
        ensures stored { Stores result (replacement table.now key.now row self.old.tables) self.old.tables self.new.tables }
        ensures noted { Notes result (replacement table.now key.now row self.old.tables) self.old.changes self.new.changes }
        ensures rest { ChangesRows self.old self.new }
    {
        update_row(
            &mut self.stage.tables,
            &mut self.stage.undo,
            table,
            key,
            row,
        )
    }

    /// Takes the row of a key out.
    #[tactic(auto, using(crate::proofs::Carried::together_led, crate::proofs::Carried::rows_changed))]
    pub fn delete_row(&mut self, table: &Bytes, key: &Row) -> Result<(), RowRefusal>
        ensures stored { Stores result (deletion table.now key.now self.old.tables) self.old.tables self.new.tables }
        ensures noted { Notes result (deletion table.now key.now self.old.tables) self.old.changes self.new.changes }
        ensures rest { ChangesRows self.old self.new }
    {
        delete_row(&mut self.stage.tables, &mut self.stage.undo, table, key)
    }

    /// Moves the counter of a table behind a value, where it is not there yet. A table without one has none after it.
    #[tactic(auto, using(crate::proofs::Carried::together_counted))]
    pub fn raise_counter(&mut self, table: &Bytes, value: i64)
        ensures raised { self.new ≡ record self.old { counters = changed_for table.now (max (behind value)) self.old.counters } }
        ensures tables { tables_of self.new.counters ≡ tables_of self.old.counters }
    {
        self.stage.counters.raise(table, value);
    }

    /// Takes all changes back and puts counters in the place of its own: those of an earlier moment, of the same tables.
    #[tactic(auto, using(crate::proofs::Carried::all_taken_back, crate::proofs::Holding::may_take_back))]
    pub fn give_up(&mut self, counters: Counters)
        requires { tables_of counters ≡ tables_of self.old.counters }
        ensures { self.new ≡ given_up counters self.old }
    {
        take_back_to(&mut self.stage.tables, &mut self.stage.undo, 0);
        self.stage.counters = counters;
    }
}
