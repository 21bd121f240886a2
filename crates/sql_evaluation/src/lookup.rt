//! What names mean: local variables and columns of the rows in view.
#![tactic(auto, using(crate::proofs::Meanings::meanings), unfolding(crate::specs::Seen::frame_of))]

ghost use Rattle.std.specs.Prelude.{◌≡◌, find};
ghost use Rattle.std.specs.Option.{option_copied};
ghost use Rattle.sql_tree.specs.View.{view_tree};
ghost use Rattle.catalog_objects.specs.catalog_rules.Names.{place_among, same_name};
ghost use Rattle.catalog_objects.specs.catalog_rules.Objects.{columns_of};
ghost use Rattle.key_order.specs.where_candidates.session_ctx.sql_meaning.Scenes.{needed};
ghost use Rattle.key_order.specs.where_candidates.session_ctx.sql_meaning.Frames.{column_if, column_in, column_in_view, named_value, qualified_value};
ghost use Rattle.sql_evaluation.specs.Seen.{Anywhere, StandsIf, frame_of, meant, view_of, view_if, views_of};

use crate::session_values::is_capped;
use crate::views::Views;
use crate::world::{Around, View};
use sql_tree::Expr;
use std::alloc::Global;
use val_types::{Bytes, Duplicate, SqlRefusal, TableDef, Value};

/// The place of the first column of a name, counted from 0.
pub fn place_of(definition: &TableDef, name: &Bytes) -> Option<usize>
    ensures { result ≡ place_among (columns_of definition.now) name.now }
{
    for (place, column) in definition.columns.as_slice().iter().enumerate() {
        if *name == column.name {
            return Some(place);
        }
    }
    None
}

/// The value of a column of a row.
fn column_in<'a>(view: &'a View, name: &Bytes) -> Option<&'a Value>
    ensures { option_copied result ≡ column_in name.now (view_of view.now) }
{
    match place_of(view.definition.get(), name) {
        Some(place) => view.row.get().get(place),
        None => None,
    }
}

/// The same of a row that may be none.
fn column_if<'a>(view: Option<&'a View>, name: &Bytes) -> Option<&'a Value>
    ensures { option_copied result ≡ column_if name.now (view_if view.entry) }
{
    match view {
        Some(view) => column_in(view, name),
        None => None,
    }
}

/// The column of the innermost row that has it.
fn column_in_view<'a>(views: &'a [View], name: &Bytes) -> Option<&'a Value>
    ensures { option_copied result ≡ column_in_view name.now (views_of views.now) }
{
    for view in views {
        if let Some(value) = column_in(view, name) {
            return Some(value);
        }
    }
    None
}

/// The innermost row of a table.
fn row_of_table<'a>(views: &'a [View], table: &Bytes) -> Option<&'a View>
    ensures { view_if result ≡ find (λ view. same_name table.now view.definition.name) (views_of views.now) }
{
    for view in views {
        if *table == view.definition.get().name {
            return Some(view);
        }
    }
    None
}

/// A name: a local variable, or else a column of a row in view.
fn named<'a>(around: &'a Around<'_>, views: &'a Views, name: &Bytes) -> Option<&'a Value>
    ensures { option_copied result ≡ named_value (frame_of around.now views.now) name.now }
{
    match around.locals.find(name) {
        Some(local) => Some(&local.value),
        None => column_in_view(views.as_slice(), name),
    }
}

/// `t.c`: the column of the innermost row of that table.
fn qualified<'a>(
    around: &'a Around<'_>,
    views: &'a Views,
    table: &Bytes,
    name: &Bytes,
) -> Option<&'a Value>
    ensures { option_copied result ≡ qualified_value (frame_of around.now views.now) table.now name.now }
{
    let _ = around;
    column_if(row_of_table(views.as_slice(), table), name)
}

/// What the name of a column or a local variable means; None for any other expression too.
fn meant<'a>(around: &'a Around<'_>, views: &'a Views, e: &Expr) -> Option<&'a Value>
    ensures { option_copied result ≡ meant around.now views.now (view_tree e.now) }
{
    match e {
        Expr::Name(name) => named(around, views, name),
        Expr::Column(table, column) => qualified(around, views, table, column),
        Expr::NewColumn(column) => column_if(around.new_row, column),
        Expr::OldColumn(column) => column_if(around.old_row, column),
        Expr::Values(column) => column_if(around.inserted, column),
        _ => None,
    }
}

/// The value of a literal, a local variable or a column, which stands already. None for anything else,
/// and where there is none.
pub fn standing<'a>(around: &'a Around<'_>, views: &'a Views, e: &'a Expr) -> Option<&'a Value>
    ensures { StandsIf around.now views.now (view_tree e.now) result }
{
    if let Expr::Literal(value) = e
        && is_capped(value)
    {
        return Some(value);
    }
    meant(around, views, e)
}

/// A copy of what a name means; 1054 where it means nothing.
pub fn copied(
    alloc: Global,
    around: &Around<'_>,
    views: &Views,
    e: &Expr,
) -> Result<Value, SqlRefusal>
    ensures { Anywhere result (needed 1054 (meant around.now views.now (view_tree e.now))) }
{
    match meant(around, views, e) {
        Some(value) => Ok(value.duplicate(alloc)?),
        None => Err(SqlRefusal::Sql(1054)),
    }
}
