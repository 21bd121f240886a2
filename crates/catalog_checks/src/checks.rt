//! What a walk is asked.
ghost use Rattle.std.specs.Prelude.{◌≡◌, Some, None};
ghost use Rattle.std.specs.Option.{option_copied};
ghost use Rattle.sql_tree.specs.View.{view_trees};
ghost use Rattle.catalog_objects.specs.catalog_rules.Names.{is_among, same_name};
ghost use Rattle.catalog_objects.specs.catalog_rules.Bodies.{readable_variables, session_variables};
ghost use Rattle.catalog_objects.specs.catalog_rules.Nodes.{count_of_trees};
ghost use Rattle.catalog_objects.specs.catalog_rules.Checks.{is_known_name};
ghost use Rattle.catalog_objects.specs.catalog_rules.Ranks.{is_target, changing, read_rank, function_rank, procedure_rank, count_rank, count_if_rank, limit_rank, target_rank};
ghost use Rattle.catalog_checks.specs.Asking.{asked_of, called_rank, names_of, sight_of};

use crate::ranks::{
    NO_COLUMN, NO_LOCAL, NO_ROUTINE, NO_TABLE, NO_VARIABLE, NOTHING, OTHER_COUNT, READS_TARGET,
    unless,
};
use crate::sight::{Sight, has_table, is_in_view, row_has_column};
use catalog_objects::Objects;
use sql_locals::Locals;
use sql_tree::{Count, Expr, Limit, Routine, Target};
use val_types::{Bytes, List, TableDef};

/// The objects, what is in scope, and the table that may not be read, where one is changed.
#[derive(Clone, Copy)]
pub struct Checks<'a> {
    pub objects: &'a Objects,
    pub locals: &'a Locals,
    /// The table of NEW, in a trigger.
    pub new_row: Option<&'a TableDef>,
    /// The table of OLD.
    pub old_row: Option<&'a TableDef>,
    pub target: Option<&'a Bytes>,
}

/// Whether a name is that of a local.
fn is_local(locals: &Locals, name: &Bytes) -> bool
    ensures { result ≡ is_among (names_of locals.now) name.now }
{
    for local in locals.as_slice() {
        if *name == local.name {
            return true;
        }
    }
    false
}

/// Whether a name is a word.
fn is(name: &Bytes, word: &[u8]) -> bool
    ensures { result ≡ same_name name.now word.now }
{
    name.as_slice() == word
}

/// Whether `@@name` can be read.
pub(crate) fn is_readable(name: &Bytes) -> bool
    ensures { result ≡ is_among readable_variables name.now }
{
    is(name, b"auto_increment_increment")
        || is(name, b"auto_increment_offset")
        || is(name, b"timestamp")
        || is(name, b"last_insert_id")
        || is(name, b"server_id")
}

/// Whether SET writes a variable.
pub fn is_session_variable(name: &Bytes) -> bool
    ensures { result ≡ is_among session_variables name.now }
{
    is(name, b"auto_increment_increment")
        || is(name, b"auto_increment_offset")
        || is(name, b"timestamp")
        || is(name, b"last_insert_id")
        || is(name, b"insert_id")
        || is(name, b"rand_seed1")
        || is(name, b"rand_seed2")
        || is(name, b"binlog_format")
}

/// How many expressions there are.
pub(crate) fn count_of(exprs: &List<Expr>) -> usize
    ensures { result ≡ count_of_trees (view_trees exprs.now) }
{
    exprs.len()
}

/// What refuses a call of a routine that was looked for.
fn called(routine: Option<&Routine>, count: usize) -> u8
    ensures { result ≡ called_rank (option_copied routine.entry) count }
{
    match routine {
        None => NO_ROUTINE,
        Some(routine) => unless(routine.parameters.len() == count, OTHER_COUNT),
    }
}

impl<'a> Checks<'a> {
    /// The same where a table is changed.
    pub(crate) fn changing(&self, table: &'a Bytes) -> Checks<'a>
        ensures { asked_of result ≡ changing table.now (asked_of self.now) }
    {
        Checks {
            objects: self.objects,
            locals: self.locals,
            new_row: self.new_row,
            old_row: self.old_row,
            target: Some(table),
        }
    }

    /// Whether a name is a local, or a column in view.
    pub(crate) fn is_known(&self, name: &Bytes, sight: &Sight<'_>) -> bool
        ensures { result ≡ is_known_name (asked_of self.now).catalog (asked_of self.now).scope (sight_of sight.now) name.now }
    {
        is_local(self.locals, name) || is_in_view(self.objects, name, sight)
    }

    /// Whether a table may not be read.
    fn is_target(&self, table: &Bytes) -> bool
        ensures { result ≡ is_target (asked_of self.now).target table.now }
    {
        match self.target {
            None => false,
            Some(target) => *target == *table,
        }
    }

    /// What refuses a table that is read.
    pub(crate) fn read(&self, table: &Bytes) -> u8
        ensures { result ≡ read_rank (asked_of self.now) table.now }
    {
        unless(has_table(self.objects, table), NO_TABLE).min(unless(
            !self.is_target(table),
            READS_TARGET,
        ))
    }

    /// What refuses a call of a function.
    pub(crate) fn function(&self, name: &Bytes, count: usize) -> u8
        ensures { result ≡ function_rank (asked_of self.now) name.now count }
    {
        called(self.objects.function(name), count)
    }

    /// What refuses a CALL.
    pub(crate) fn procedure(&self, name: &Bytes, count: usize) -> u8
        ensures { result ≡ procedure_rank (asked_of self.now) name.now count }
    {
        called(self.objects.procedure(name), count)
    }

    /// What refuses a number of rows.
    fn count(&self, count: &Count) -> u8
        ensures { result ≡ count_rank (asked_of self.now) count.now }
    {
        match count {
            Count::Number(_) => NOTHING,
            Count::Name(name) => unless(is_local(self.locals, name), NO_LOCAL),
        }
    }

    pub(crate) fn count_if(&self, count: &Option<Count>) -> u8
        ensures { result ≡ count_if_rank (asked_of self.now) count.now }
    {
        match count {
            None => NOTHING,
            Some(count) => self.count(count),
        }
    }

    /// What refuses a LIMIT.
    pub(crate) fn limit(&self, limit: &Option<Limit>) -> u8
        ensures { result ≡ limit_rank (asked_of self.now) limit.now }
    {
        match limit {
            None => NOTHING,
            Some(limit) => self.count(&limit.count).min(self.count_if(&limit.offset)),
        }
    }

    /// What refuses the left side of an assignment.
    pub(crate) fn assigned(&self, target: &Target) -> u8
        ensures { result ≡ target_rank (asked_of self.now) target.now }
    {
        match target {
            Target::User(_) => NOTHING,
            Target::Plain(name) => unless(
                is_local(self.locals, name) || is_session_variable(name),
                NO_VARIABLE,
            ),
            Target::System(name) => unless(is_session_variable(name), NO_VARIABLE),
            Target::New(column) => match self.new_row {
                None => NO_VARIABLE,
                Some(definition) => unless(row_has_column(column, Some(definition)), NO_COLUMN),
            },
        }
    }
}
