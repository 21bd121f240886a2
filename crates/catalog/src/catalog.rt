//! The catalog.
ghost use Rattle.std.specs.Prelude.{◌≡◌, [], true, false, None, if◌then◌else◌, slice_get, IfOk, OnErr};
ghost use Rattle.std.specs.Option.{option_copied, option_map};
ghost use Rattle.sql_tree.specs.View.{view_tree};
ghost use Rattle.sql_tree.specs.StatementView.{view, view_program, view_trigger};
ghost use Rattle.catalog_show_create.specs.catalog_rules.Objects.{table_in, function_in, procedure_in, trigger_for};
ghost use Rattle.catalog_show_create.specs.catalog_rules.Checks.{expression_refusal, statement_refusal};
ghost use Rattle.catalog_show_create.specs.catalog_objects.Keys.{objects_of};
ghost use Rattle.catalog_create_program.specs.catalog_checks.Asking.{scope_with};
ghost use Rattle.catalog.specs.Answers.{Lets, Makes, is_create};
ghost use Rattle.catalog_show_create.specs.Stated.{statement_of};
ghost use Rattle.sql_tree.specs.Statement.{create_function, create_procedure, create_table, create_trigger};
ghost use Rattle.catalog_show_create.specs.catalog_rules.Creating.{ddl_refusal};
ghost use Rattle.catalog_show_create.specs.catalog_objects.Lookups.{is_drop};

use crate::refusing::{creation_refusal, removal_refusal};
use catalog_create_program::catalog_checks::{expression_refusal, statement_refusal};
use catalog_create_program::catalog_create_table::definition_of;
use catalog_create_program::{function_refusal, procedure_refusal, trigger_refusal};
use catalog_show_create::catalog_objects::{Object, Objects};
use catalog_show_create::statement_at;
use sharing::Shared;
use sql_locals::Locals;
use sql_tree::{Cause, CreateTable, Expr, Routine, Stmt, Time, TriggerDef};
use std::alloc::Global;
use std::marker::Model;
use val_types::{Boxed, Bytes, NoMemory, SqlError, SqlRefusal, TableDef};

/// The objects of a database, which contracts see as their list in order of creation.
#[derive(Drop)]
pub struct Catalog {
    alloc: Global,
    objects: Objects,
}

impl Model for Catalog {
    ghost use Rattle.std.specs.Prelude.{List};
    ghost use Rattle.catalog_show_create.specs.catalog_objects.declared.object.Object.{Object};

    ghost Value = { List Object };

    ghost use Rattle.sql_tree.specs.contracts.statements.Stmt as stmt;
    ghost use Rattle.std.specs.Coded.{codes};

    ghost coded = { Prim.hlevel (codes, stmt.the_row.coded) };

    ghost view = { λ c. c.objects };
}

/// What a check answers.
fn answer(refusal: Option<SqlError>) -> Result<(), SqlRefusal>
    ensures { Lets result refusal }
{
    match refusal {
        None => Ok(()),
        Some(code) => Err(SqlRefusal::Sql(code)),
    }
}

impl Catalog {
    /// No object.
    pub fn new(alloc: Global) -> Catalog
        ensures { result ≡ [] }
    {
        Catalog {
            alloc,
            objects: Objects::new(alloc),
        }
    }

    /// The objects.
    pub fn objects(&self) -> &Objects
        ensures { result.now ≡ self.now }
    {
        &self.objects
    }

    /// The table of a name.
    pub fn table(&self, name: &Bytes) -> Option<&TableDef>
        ensures { option_copied result ≡ table_in (objects_of self.now) name.now }
    {
        self.objects.table(name)
    }

    /// The function of a name, or the procedure.
    pub fn routine(&self, name: &Bytes, function: bool) -> Option<&Routine>
        ensures { option_map view_program (option_copied result) ≡ (if function then function_in (objects_of self.now) name.now else procedure_in (objects_of self.now) name.now) }
    {
        if function {
            self.objects.function(name)
        } else {
            self.objects.procedure(name)
        }
    }

    /// The trigger for an event of a table.
    pub fn trigger(&self, table: &Bytes, time: Time, event: Cause) -> Option<&TriggerDef>
        ensures { option_map view_trigger (option_copied result) ≡ trigger_for (objects_of self.now) table.now time event }
    {
        self.objects.trigger(table, time, event)
    }

    /// The same catalog. No object is copied.
    pub fn copy(&self) -> Result<Catalog, NoMemory>
        ensures { IfOk result (λ copy. copy ≡ self.now) }
    {
        Ok(Catalog {
            alloc: self.alloc,
            objects: self.objects.copy()?,
        })
    }

    /// The CREATE statement of the object at a place in order of creation, counted from 0; None where there are not so many.
    pub fn object(&self, alloc: Global, i: u32) -> Result<Option<Stmt>, NoMemory>
        ensures { IfOk result (λ found. option_map view found ≡ option_map statement_of (slice_get (objects_of self.now) i)) }
    {
        statement_at(alloc, &self.objects, i)
    }

    /// The catalog checks of a statement of a session or a procedure, where some locals are in scope: the error that comes
    /// first refuses it. Takes no memory.
    pub fn check<'a>(&'a self, s: &Stmt, locals: &'a Locals) -> Result<(), SqlRefusal>
        ensures { Lets result (statement_refusal (objects_of self.now) (scope_with locals.now None None) (view s.now)) }
    {
        answer(statement_refusal(&self.objects, locals, None, None, s))
    }

    /// The same of a statement of a trigger or function, where rows of tables stand as NEW and OLD.
    pub fn check_in<'a>(
        &'a self,
        s: &Stmt,
        locals: &'a Locals,
        new_row: Option<&'a TableDef>,
        old_row: Option<&'a TableDef>,
    ) -> Result<(), SqlRefusal>
        ensures { Lets result (statement_refusal (objects_of self.now) (scope_with locals.now (option_copied new_row.entry) (option_copied old_row.entry)) (view s.now)) }
    {
        answer(statement_refusal(&self.objects, locals, new_row, old_row, s))
    }

    /// The same of an expression of a body: a condition, a DEFAULT, or what is returned.
    pub fn check_expr<'a>(
        &'a self,
        e: &Expr,
        locals: &'a Locals,
        new_row: Option<&'a TableDef>,
        old_row: Option<&'a TableDef>,
    ) -> Result<(), SqlRefusal>
        ensures { Lets result (expression_refusal (objects_of self.now) (scope_with locals.now (option_copied new_row.entry) (option_copied old_row.entry)) (view_tree e.now)) }
    {
        answer(expression_refusal(&self.objects, locals, new_row, old_row, e))
    }

    /// CREATE TABLE: the error of the first check that refuses it, or the catalog with its table behind the others.
    pub fn add_table(&mut self, t: &CreateTable) -> Result<(), SqlRefusal>
        ensures made { Makes result (create_table t.now) (objects_of self.old) (objects_of self.new) }
        ensures same { OnErr result (self.new ≡ self.old) }
    {
        if let Some(code) = creation_refusal(&self.objects, t) {
            return Err(SqlRefusal::Sql(code));
        }
        let definition = definition_of(self.alloc, t)?;
        let table = Shared::new(self.alloc, definition)?;
        self.objects.add(Object::Table(table))?;
        Ok(())
    }

    /// CREATE FUNCTION: the error of the first check that refuses it, or the catalog with it behind the others.
    pub fn add_function(&mut self, routine: Boxed<Routine>) -> Result<(), SqlRefusal>
        ensures made { Makes result (create_function (view_program routine)) (objects_of self.old) (objects_of self.new) }
        ensures same { OnErr result (self.new ≡ self.old) }
    {
        if let Some(code) = function_refusal(&self.objects, routine.get()) {
            return Err(SqlRefusal::Sql(code));
        }
        let routine = Shared::new(self.alloc, routine)?;
        self.objects.add(Object::Function(routine))?;
        Ok(())
    }

    /// CREATE PROCEDURE, as that of a function.
    pub fn add_procedure(&mut self, routine: Boxed<Routine>) -> Result<(), SqlRefusal>
        ensures made { Makes result (create_procedure (view_program routine)) (objects_of self.old) (objects_of self.new) }
        ensures same { OnErr result (self.new ≡ self.old) }
    {
        if let Some(code) = procedure_refusal(&self.objects, routine.get()) {
            return Err(SqlRefusal::Sql(code));
        }
        let routine = Shared::new(self.alloc, routine)?;
        self.objects.add(Object::Procedure(routine))?;
        Ok(())
    }

    /// CREATE TRIGGER, likewise.
    pub fn add_trigger(&mut self, trigger: Boxed<TriggerDef>) -> Result<(), SqlRefusal>
        ensures made { Makes result (create_trigger (view_trigger trigger)) (objects_of self.old) (objects_of self.new) }
        ensures same { OnErr result (self.new ≡ self.old) }
    {
        if let Some(code) = trigger_refusal(&self.objects, trigger.get()) {
            return Err(SqlRefusal::Sql(code));
        }
        let trigger = Shared::new(self.alloc, trigger)?;
        self.objects.add(Object::Trigger(trigger))?;
        Ok(())
    }

    /// What refuses a DROP or TRUNCATE: 1051 no such table, 1305 no such function or procedure, 1360 no such trigger, for
    /// TRUNCATE 1146. Nothing refuses another statement that is no CREATE.
    pub fn check_removal(&self, s: &Stmt) -> Result<(), SqlRefusal>
        requires { is_create (view s.now) ≡ false }
        ensures { Lets result (ddl_refusal (objects_of self.now) (view s.now)) }
    {
        answer(removal_refusal(&self.objects, s))
    }

    /// DROP: the catalog without its object, with a table also without its triggers; an object that is not there is refused.
    /// Takes no memory.
    pub fn remove(&mut self, s: &Stmt) -> Result<(), SqlRefusal>
        requires { is_drop (view s.now) ≡ true }
        ensures made { Makes result (view s.now) (objects_of self.old) (objects_of self.new) }
        ensures refused { Lets result (ddl_refusal (objects_of self.old) (view s.now)) }
        ensures same { OnErr result (self.new ≡ self.old) }
    {
        if let Some(code) = removal_refusal(&self.objects, s) {
            return Err(SqlRefusal::Sql(code));
        }
        self.objects.remove(s);
        Ok(())
    }
}
