//! What refuses CREATE FUNCTION, CREATE PROCEDURE and CREATE TRIGGER.
ghost use Rattle.std.specs.Prelude.{◌≡◌, [], is_some, map, nat_le, option_to_list};
ghost use Rattle.sql_tree.specs.Statement.{create_function, create_procedure, create_trigger, trigger};
ghost use Rattle.sql_tree.specs.StatementView.{view, view_program, view_trigger};
ghost use Rattle.sql_tree.specs.declared.statements.Parameter.{Parameter};
ghost use Rattle.catalog_create_table.specs.catalog_rules.Bodies.{of_trigger};
ghost use Rattle.catalog_create_table.specs.catalog_rules.Objects.{count_of_programs, function_in, name_of, procedure_in};
ghost use Rattle.catalog_create_table.specs.catalog_rules.Creating.{ddl_refusal, first_refusal, runs_before_storing, trigger_checks};
ghost use Rattle.catalog_objects.specs.Keys.{objects_of};
ghost use Rattle.catalog_create_program.specs.BodyRanks.{body_rank, types_rank};
ghost use Rattle.catalog_create_program.specs.Kinds.{kind_of};
ghost use Rattle.catalog_create_program.specs.Refusing.{code_by, program_rank};

use crate::bodies::body;
use crate::kinds::Kind;
use crate::ranks::{ILL_TYPE, NOTHING, code_by, has_ill_type, trigger_code, type_rank};
use crate::scope::Names;
use catalog_create_table::refused;
use catalog_objects::Objects;
use sql_tree::{Cause, Parameter, Routine, SqlType, Stmt, Time, TriggerDef};
use val_types::{Bytes, List, SqlError};

/// How many functions, procedures and triggers there may be.
const MOST_PROGRAMS: usize = 1000;

/// Whether there are programs enough.
fn is_full(objects: &Objects) -> bool
    ensures { result ≡ nat_le 1000 (count_of_programs (objects_of objects.now)) }
{
    objects.count_programs() >= MOST_PROGRAMS
}

/// What refuses the type of a result.
fn result_rank(returns: Option<SqlType>) -> u8
    ensures { result ≡ types_rank (option_to_list returns) }
{
    match returns {
        None => NOTHING,
        Some(kind) => type_rank(kind),
    }
}

/// What refuses the types of parameters.
fn parameters_rank(parameters: &List<Parameter>) -> u8
    ensures { result ≡ types_rank (map (λ (p : Parameter). p.kind) parameters.now) }
{
    if has_ill_type(parameters) {
        ILL_TYPE
    } else {
        NOTHING
    }
}

/// What refuses the body of a function or procedure with some parameters.
fn routine_rank(kind: Kind, parameters: &List<Parameter>, steps: &Stmt) -> u8
    ensures { result ≡ body_rank (kind_of kind) (map (λ (p : Parameter). p.name) parameters.now) (view steps.now) }
{
    body(kind, &Names::Parameters(parameters), steps)
}

/// What refuses the parameters, the result and the body of a program.
fn program_rank(kind: Kind, routine: &Routine) -> u8
    ensures { result ≡ program_rank (kind_of kind) (view_program routine.now) }
{
    let steps = routine_rank(kind, &routine.parameters, &routine.body);
    let types = result_rank(routine.returns).min(steps);
    parameters_rank(&routine.parameters).min(types)
}

/// The error that refuses the parameters, the result and the body of a program, or one program more.
fn program_code(objects: &Objects, kind: Kind, routine: &Routine) -> Option<SqlError>
    ensures { result ≡ code_by (program_rank (kind_of kind) (view_program routine.now)) (nat_le 1000 (count_of_programs (objects_of objects.now))) }
{
    code_by(program_rank(kind, routine), is_full(objects))
}

/// Whether there is a function of its name.
#[tactic(auto, using(catalog_objects::proofs::Parts::program_named))]
fn is_function(objects: &Objects, routine: &Routine) -> bool
    ensures { result ≡ is_some (function_in (objects_of objects.now) (name_of (view_program routine.now))) }
{
    objects.function(&routine.name).is_some()
}

/// Whether there is a procedure of its name.
#[tactic(auto, using(catalog_objects::proofs::Parts::program_named))]
fn is_procedure(objects: &Objects, routine: &Routine) -> bool
    ensures { result ≡ is_some (procedure_in (objects_of objects.now) (name_of (view_program routine.now))) }
{
    objects.procedure(&routine.name).is_some()
}

/// The error that refuses a CREATE FUNCTION: 1304 the name is there, 1193 SET of a name that is none, 30005 what may not
/// stand in the body, 30009 a type of no size or too many programs.
pub fn function_refusal(objects: &Objects, routine: &Routine) -> Option<SqlError>
    ensures { result ≡ ddl_refusal (objects_of objects.now) (create_function (view_program routine.now)) }
{
    let rest = program_code(objects, Kind::Function, routine);
    refused(is_function(objects, routine), 1304, rest)
}

/// The error that refuses a CREATE PROCEDURE, as that of a function.
pub fn procedure_refusal(objects: &Objects, routine: &Routine) -> Option<SqlError>
    ensures { result ≡ ddl_refusal (objects_of objects.now) (create_procedure (view_program routine.now)) }
{
    let rest = program_code(objects, Kind::Procedure, routine);
    refused(is_procedure(objects, routine), 1304, rest)
}

/// Whether a trigger may write the row that is to be stored.
fn writes_new(time: Time, event: Cause) -> bool
    ensures { result ≡ runs_before_storing time event }
{
    match time {
        Time::After => false,
        Time::Before => match event {
            Cause::Insert => true,
            Cause::Update => true,
            Cause::Delete => false,
        },
    }
}

/// What refuses the body of a trigger.
fn trigger_rank(time: Time, event: Cause, steps: &Stmt) -> u8
    ensures { result ≡ body_rank (of_trigger (runs_before_storing time event)) [] (view steps.now) }
{
    let kind = Kind::Trigger {
        writes_new: writes_new(time, event),
    };
    body(kind, &Names::Nothing, steps)
}

/// What refuses a trigger of a name for an event of a table.
fn refusal_for(
    objects: &Objects,
    name: &Bytes,
    time: Time,
    event: Cause,
    table: &Bytes,
    steps: &Stmt,
) -> Option<SqlError>
    ensures { result ≡ first_refusal (trigger_checks (objects_of objects.now) (trigger name.now time event table.now (view steps.now))) }
{
    let is_taken = objects.trigger(table, time, event).is_some();
    let rank = trigger_rank(time, event, steps);
    let rest = trigger_code(rank, is_taken, is_full(objects));
    let named = refused(objects.trigger_named(name).is_some(), 1359, rest);
    refused(objects.table(table).is_none(), 1146, named)
}

/// The error that refuses a CREATE TRIGGER: 1146 no such table, 1359 the name is there, 1193 SET of a name that is none, 30005
/// what may not stand in the body, or the table has a trigger for the same, 30009 a type of no size or too many programs.
pub fn trigger_refusal(objects: &Objects, t: &TriggerDef) -> Option<SqlError>
    ensures { result ≡ ddl_refusal (objects_of objects.now) (create_trigger (view_trigger t.now)) }
{
    refusal_for(objects, &t.name, t.time, t.event, &t.table, &t.body)
}
