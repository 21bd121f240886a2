//! The item of a statement.
ghost use Rattle.std.specs.Prelude.{◌≡◌, IfOk};
ghost use Rattle.catalog_checks.specs.catalog_objects.Keys.{objects_of};
ghost use Rattle.binlog_items.specs.Items.{as_before, statement_item};
ghost use Rattle.unsafe_rules.specs.sql_reach.Carrying.{carried};
ghost use Rattle.sql_tree.specs.StatementView.{view};

use crate::before::{Before, carried_before};
use crate::tables::definitions_changed;
use catalog_checks::catalog_objects::Objects;
use log_entry_laws::log_entries::Item;
use session_ctx::Ctx;
use sql_tree::Stmt;
use std::alloc::Global;
use val_types::{Bytes, Change, List, NoMemory};

/// The item of a statement, by its rows or by its text: the text as given, with what it carries of the context before it, the
/// definitions of the tables that its changes change, and these. The context is that behind it, with the numbers before it.
pub fn item_of(
    alloc: Global,
    text: &[u8],
    statement: &Stmt,
    objects: &Objects,
    context: &Ctx,
    before: Before,
    first: Option<i64>,
    rows: bool,
    changes: List<Change>,
) -> Result<Item, NoMemory>
    ensures { IfOk result (λ item. item ≡ statement_item text.now (carried (objects_of objects.now) (view statement.now) (as_before before context.now) first) rows (objects_of objects.now) changes) }
{
    let carried = carried_before(alloc, statement, objects, context, before, first)?;
    let defs = definitions_changed(alloc, objects, changes.as_slice())?;
    let text = Bytes::from_slice(alloc, text)?;
    Ok(Item {
        text,
        carried,
        rows,
        defs,
        changes,
    })
}
