//! CREATE, DROP and TRUNCATE.
ghost use Rattle.std.specs.Prelude.{◌≡◌, ◌++◌, ◌∷◌, [], true, None, Some, IsSome, OnErr, OnOk};
ghost use Rattle.val_types.specs.declared.definitions.TableDef.{TableDef as Definition};
ghost use Rattle.auto_inc.specs.Counting.{value_for};
ghost use Rattle.table_rules.specs.Stored.{table_named};
ghost use Rattle.sql_tree.specs.Statement.{create_function, create_procedure, create_table, create_trigger, drop_table, truncate};
ghost use Rattle.sql_tree.specs.StatementView.{view, view_program, view_trigger};
ghost use Rattle.sql_reach.specs.catalog_rules.Objects.{table_in};
ghost use Rattle.sql_reach.specs.catalog_rules.Bases.{table_without_rows};
ghost use Rattle.catalog.specs.catalog_objects.Keys.{objects_of};
ghost use Rattle.sql_reach.specs.Defining.{counters_with};
ghost use Rattle.sql_reach.specs.Reach.{is_definition};
ghost use Rattle.prog_work.specs.Contents.{contents_of};
ghost use Rattle.prog_work.specs.Defining.{Defines};
ghost use Rattle.prog_work.specs.Together.{AreTogether, is_drop_of_program};

use crate::meter::Outcome;
use crate::work::Work;
use catalog::Catalog;
use exec_state::Stage;
use row_store::tables_are_kept;
use sql_tree::{CreateTable, Routine, Stmt, TriggerDef};
use std::alloc::Global;
use tree_copies::{copy_routine, copy_trigger};
use val_types::{Boxed, Bytes, NoMemory, SqlRefusal, TableDef};

/// Whether a statement changes the catalog or empties a table.
pub fn is_definition(statement: &Stmt) -> bool
    ensures { result ≡ is_definition (view statement.now) }
{
    match statement {
        Stmt::CreateTable(_) => true,
        Stmt::CreateFunction(_) => true,
        Stmt::CreateProcedure(_) => true,
        Stmt::CreateTrigger(_) => true,
        Stmt::DropTable(_) => true,
        Stmt::DropFunction(_) => true,
        Stmt::DropProcedure(_) => true,
        Stmt::DropTrigger(_) => true,
        Stmt::Truncate(_) => true,
        _ => false,
    }
}

/// What is told of a definition.
fn nothing_told() -> Outcome
    ensures { result ≡ record { affected = 0; rows = None; first = None } }
{
    Outcome {
        affected: 0,
        rows: None,
        first: None,
    }
}

/// A table without rows, with its counter where it has an AUTO_INCREMENT column; where memory is wanted, neither.
#[tactic(auto, using(crate::proofs::Definitions::counter_out, crate::proofs::Definitions::added_counter_out))]
fn put_table(stage: &mut Stage, definition: &TableDef) -> Result<(), NoMemory>
    requires name { table_named definition.now.name stage.old.tables.tables ≡ None }
    requires counter { value_for definition.now.name stage.old.counters ≡ None }
    ensures tables { OnOk result (stage.new.tables.tables ≡ stage.old.tables.tables ++ table_without_rows definition.now ∷ []) }
    ensures committed { OnOk result (stage.new.tables.committed ≡ stage.old.tables.committed ++ table_without_rows definition.now ∷ []) }
    ensures counters { OnOk result (stage.new.counters ≡ counters_with definition.now stage.old.counters) }
    ensures err_tables { OnErr result (stage.new.tables ≡ stage.old.tables) }
    ensures err_counters { OnErr result (stage.new.counters ≡ stage.old.counters) }
    ensures changes { stage.new.undo ≡ stage.old.undo }
{
    if definition.auto.is_some() {
        stage.counters.add(&definition.name, 1)?;
    }
    match stage.tables.create(definition) {
        Ok(()) => Ok(()),
        Err(e) => {
            stage.counters.remove(&definition.name);
            Err(e)
        }
    }
}

/// The table of a name in the catalog, put where the rows are.
fn store(catalog: &Catalog, stage: &mut Stage, name: &Bytes) -> Result<(), NoMemory>
    requires there { IsSome (table_in (objects_of catalog.now) name.now) }
    requires free_name { (d : Definition) → table_in (objects_of catalog.now) name.now ≡ Some d → table_named d.name stage.old.tables.tables ≡ None }
    requires free_counter { (d : Definition) → table_in (objects_of catalog.now) name.now ≡ Some d → value_for d.name stage.old.counters ≡ None }
    ensures tables { OnOk result ((d : Definition) → table_in (objects_of catalog.now) name.now ≡ Some d → stage.new.tables.tables ≡ stage.old.tables.tables ++ table_without_rows d ∷ []) }
    ensures committed { OnOk result ((d : Definition) → table_in (objects_of catalog.now) name.now ≡ Some d → stage.new.tables.committed ≡ stage.old.tables.committed ++ table_without_rows d ∷ []) }
    ensures counters { OnOk result ((d : Definition) → table_in (objects_of catalog.now) name.now ≡ Some d → stage.new.counters ≡ counters_with d stage.old.counters) }
    ensures err_tables { OnErr result (stage.new.tables ≡ stage.old.tables) }
    ensures err_counters { OnErr result (stage.new.counters ≡ stage.old.counters) }
    ensures changes { stage.new.undo ≡ stage.old.undo }
{
    match catalog.table(name) {
        Some(definition) => {
            put_table(stage, definition)?;
            Ok(())
        }
        None => unreachable!(),
    }
}

/// CREATE TABLE; where there is no memory for the table's rows, the catalog is as it was.
fn create(
    catalog: &mut Catalog,
    stage: &mut Stage,
    t: &CreateTable,
    before: Catalog,
) -> Result<Outcome, SqlRefusal>
    requires before { before ≡ catalog.old }
    requires closed { stage.old.undo ≡ [] }
    requires together { AreTogether catalog.old stage.old.tables stage.old.undo stage.old.counters }
    ensures defines { Defines (create_table t.now) result (contents_of catalog.old stage.old) (contents_of catalog.new stage.new) }
    ensures together { AreTogether catalog.new stage.new.tables stage.new.undo stage.new.counters }
{
    match catalog.add_table(t) {
        Ok(()) => {}
        Err(SqlRefusal::Sql(code)) => return Err(SqlRefusal::Sql(code)),
        Err(SqlRefusal::NoMemory) => return Err(SqlRefusal::NoMemory),
    }
    match store(catalog, stage, &t.name) {
        Ok(()) => Ok(nothing_told()),
        Err(_) => {
            *catalog = before;
            Err(SqlRefusal::NoMemory)
        }
    }
}

/// DROP TABLE, which takes no memory.
#[tactic(auto, using(crate::proofs::Defined::check_not_short))]
fn drop_named(
    catalog: &mut Catalog,
    stage: &mut Stage,
    statement: &Stmt,
    name: &Bytes,
) -> Result<Outcome, SqlRefusal>
    requires statement { view statement.now ≡ drop_table name.now }
    requires closed { stage.old.undo ≡ [] }
    requires together { AreTogether catalog.old stage.old.tables stage.old.undo stage.old.counters }
    ensures defines { Defines (drop_table name.now) result (contents_of catalog.old stage.old) (contents_of catalog.new stage.new) }
    ensures together { AreTogether catalog.new stage.new.tables stage.new.undo stage.new.counters }
{
    tables_are_kept(&stage.tables);
    match catalog.remove(statement) {
        Ok(()) => {
            stage.tables.drop_table(name);
            stage.counters.remove(name);
            Ok(nothing_told())
        }
        Err(SqlRefusal::Sql(code)) => Err(SqlRefusal::Sql(code)),
        Err(SqlRefusal::NoMemory) => unreachable!(),
    }
}

/// TRUNCATE, likewise.
#[tactic(auto, using(crate::proofs::Defined::check_not_short))]
fn empty(
    catalog: &Catalog,
    stage: &mut Stage,
    statement: &Stmt,
    name: &Bytes,
) -> Result<Outcome, SqlRefusal>
    requires statement { view statement.now ≡ truncate name.now }
    requires closed { stage.old.undo ≡ [] }
    requires together { AreTogether catalog.now stage.old.tables stage.old.undo stage.old.counters }
    ensures defines { Defines (truncate name.now) result (contents_of catalog.now stage.old) (contents_of catalog.now stage.new) }
    ensures together { AreTogether catalog.now stage.new.tables stage.new.undo stage.new.counters }
{
    match catalog.check_removal(statement) {
        Ok(()) => {
            stage.tables.clear(name);
            stage.counters.reset(name);
            Ok(nothing_told())
        }
        Err(SqlRefusal::Sql(code)) => Err(SqlRefusal::Sql(code)),
        Err(SqlRefusal::NoMemory) => unreachable!(),
    }
}

/// CREATE TABLE, with the catalog kept as it was, which it may need again. No object is copied.
fn create_prepared(
    catalog: &mut Catalog,
    stage: &mut Stage,
    t: &CreateTable,
) -> Result<Outcome, SqlRefusal>
    requires closed { stage.old.undo ≡ [] }
    requires together { AreTogether catalog.old stage.old.tables stage.old.undo stage.old.counters }
    ensures defines { Defines (create_table t.now) result (contents_of catalog.old stage.old) (contents_of catalog.new stage.new) }
    ensures together { AreTogether catalog.new stage.new.tables stage.new.undo stage.new.counters }
{
    let before = catalog.copy()?;
    create(catalog, stage, t, before)
}

/// CREATE FUNCTION: the catalog holds a copy of its tree.
fn create_function(
    alloc: Global,
    catalog: &mut Catalog,
    stage: &Stage,
    routine: &Routine,
) -> Result<Outcome, SqlRefusal>
    requires together { AreTogether catalog.old stage.now.tables stage.now.undo stage.now.counters }
    ensures defines { Defines (create_function (view_program routine.now)) result (contents_of catalog.old stage.now) (contents_of catalog.new stage.now) }
    ensures together { AreTogether catalog.new stage.now.tables stage.now.undo stage.now.counters }
{
    let routine = Boxed::new(alloc, copy_routine(alloc, routine)?)?;
    match catalog.add_function(routine) {
        Ok(()) => Ok(nothing_told()),
        Err(SqlRefusal::Sql(code)) => Err(SqlRefusal::Sql(code)),
        Err(SqlRefusal::NoMemory) => Err(SqlRefusal::NoMemory),
    }
}

/// CREATE PROCEDURE, likewise.
fn create_procedure(
    alloc: Global,
    catalog: &mut Catalog,
    stage: &Stage,
    routine: &Routine,
) -> Result<Outcome, SqlRefusal>
    requires together { AreTogether catalog.old stage.now.tables stage.now.undo stage.now.counters }
    ensures defines { Defines (create_procedure (view_program routine.now)) result (contents_of catalog.old stage.now) (contents_of catalog.new stage.now) }
    ensures together { AreTogether catalog.new stage.now.tables stage.now.undo stage.now.counters }
{
    let routine = Boxed::new(alloc, copy_routine(alloc, routine)?)?;
    match catalog.add_procedure(routine) {
        Ok(()) => Ok(nothing_told()),
        Err(SqlRefusal::Sql(code)) => Err(SqlRefusal::Sql(code)),
        Err(SqlRefusal::NoMemory) => Err(SqlRefusal::NoMemory),
    }
}

/// CREATE TRIGGER, likewise.
fn create_trigger(
    alloc: Global,
    catalog: &mut Catalog,
    stage: &Stage,
    trigger: &TriggerDef,
) -> Result<Outcome, SqlRefusal>
    requires together { AreTogether catalog.old stage.now.tables stage.now.undo stage.now.counters }
    ensures defines { Defines (create_trigger (view_trigger trigger.now)) result (contents_of catalog.old stage.now) (contents_of catalog.new stage.now) }
    ensures together { AreTogether catalog.new stage.now.tables stage.now.undo stage.now.counters }
{
    let trigger = Boxed::new(alloc, copy_trigger(alloc, trigger)?)?;
    match catalog.add_trigger(trigger) {
        Ok(()) => Ok(nothing_told()),
        Err(SqlRefusal::Sql(code)) => Err(SqlRefusal::Sql(code)),
        Err(SqlRefusal::NoMemory) => Err(SqlRefusal::NoMemory),
    }
}

/// DROP FUNCTION, PROCEDURE and TRIGGER, likewise.
#[tactic(auto, using(crate::proofs::Defined::check_not_short))]
fn drop_program(
    catalog: &mut Catalog,
    stage: &Stage,
    statement: &Stmt,
) -> Result<Outcome, SqlRefusal>
    requires dropping { is_drop_of_program (view statement.now) ≡ true }
    requires together { AreTogether catalog.old stage.now.tables stage.now.undo stage.now.counters }
    ensures defines { Defines (view statement.now) result (contents_of catalog.old stage.now) (contents_of catalog.new stage.now) }
    ensures together { AreTogether catalog.new stage.now.tables stage.now.undo stage.now.counters }
{
    match catalog.remove(statement) {
        Ok(()) => Ok(nothing_told()),
        Err(SqlRefusal::Sql(code)) => Err(SqlRefusal::Sql(code)),
        Err(SqlRefusal::NoMemory) => unreachable!(),
    }
}

/// A definition under a catalog.
fn define_in(
    alloc: Global,
    catalog: &mut Catalog,
    stage: &mut Stage,
    statement: &Stmt,
) -> Result<Outcome, SqlRefusal>
    requires definition { is_definition (view statement.now) ≡ true }
    requires closed { stage.old.undo ≡ [] }
    requires together { AreTogether catalog.old stage.old.tables stage.old.undo stage.old.counters }
    ensures defines { Defines (view statement.now) result (contents_of catalog.old stage.old) (contents_of catalog.new stage.new) }
    ensures together { AreTogether catalog.new stage.new.tables stage.new.undo stage.new.counters }
{
    match statement {
        Stmt::CreateTable(t) => create_prepared(catalog, stage, t),
        Stmt::DropTable(name) => drop_named(catalog, stage, statement, name),
        Stmt::Truncate(name) => empty(catalog, stage, statement, name),
        Stmt::CreateFunction(routine) => create_function(alloc, catalog, stage, routine.get()),
        Stmt::CreateProcedure(routine) => create_procedure(alloc, catalog, stage, routine.get()),
        Stmt::CreateTrigger(trigger) => create_trigger(alloc, catalog, stage, trigger.get()),
        Stmt::DropFunction(_) => drop_program(catalog, stage, statement),
        Stmt::DropProcedure(_) => drop_program(catalog, stage, statement),
        Stmt::DropTrigger(_) => drop_program(catalog, stage, statement),
        _ => unreachable!(),
    }
}

impl Work {
    /// Makes a definition, or refuses it.
    pub fn define(&mut self, statement: &Stmt) -> Result<Outcome, SqlRefusal>
        requires definition { is_definition (view statement.now) ≡ true }
        requires none { self.old.changes ≡ [] }
        ensures { Defines (view statement.now) result self.old self.new }
    {
        define_in(self.alloc, &mut self.catalog, &mut self.stage, statement)
    }
}
