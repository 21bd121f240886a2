//! What a statement changes of a context while it runs.
ghost use Rattle.std.specs.Prelude.{◌≡◌, IfOk};
ghost use Rattle.std.specs.Option.{option_map};
ghost use Rattle.catalog_checks.specs.catalog_objects.Keys.{objects_of};
ghost use Rattle.binlog_items.specs.Items.{as_before, numbers_of};
ghost use Rattle.unsafe_rules.specs.sql_reach.Carrying.{carried};
ghost use Rattle.sql_tree.specs.StatementView.{view};

use catalog_checks::catalog_objects::Objects;
use log_entry_laws::log_entries::Carried;
use session_ctx::Ctx;
use sql_tree::Stmt;
use std::alloc::Global;
use unsafe_rules::carried;
use val_types::NoMemory;

/// What an item may carry of the context before its statement, and the statement may have changed since.
#[derive(Clone, Copy)]
pub struct Before {
    pub last_id: i64,
    pub seeds: (u64, u64),
}

impl Before {
    /// The numbers of a context.
    pub fn of(context: &Ctx) -> Before
        ensures { result ≡ numbers_of context.now }
    {
        Before {
            last_id: context.last_id(),
            seeds: context.seeds(),
        }
    }

    /// The LAST_INSERT_ID() before, where one is carried.
    fn last_id_if(self, carried: Option<i64>) -> Option<i64>
        ensures { result ≡ option_map (λ _. self.last_id) carried }
    {
        match carried {
            None => None,
            Some(_) => Some(self.last_id),
        }
    }

    /// The seeds before, where some are carried.
    fn seeds_if(self, carried: Option<(u64, u64)>) -> Option<(u64, u64)>
        ensures { result ≡ option_map (λ _. self.seeds) carried }
    {
        match carried {
            None => None,
            Some(_) => Some(self.seeds),
        }
    }
}

/// What an item of a statement carries of the context before it, by that behind it and the numbers before it.
pub(crate) fn carried_before(
    alloc: Global,
    statement: &Stmt,
    objects: &Objects,
    context: &Ctx,
    before: Before,
    first: Option<i64>,
) -> Result<Carried, NoMemory>
    ensures { IfOk result (λ parts. parts ≡ carried (objects_of objects.now) (view statement.now) (as_before before context.now) first) }
{
    let mut parts = carried(alloc, statement, objects, context, first)?;
    parts.last_id = before.last_id_if(parts.last_id);
    parts.seeds = before.seeds_if(parts.seeds);
    Ok(parts)
}
