//! Expressions that are a column of the table.
ghost use Rattle.std.specs.Prelude.{◌≡◌};
ghost use Rattle.sql_tree.specs.View.{view_tree};
ghost use Rattle.where_candidates.specs.session_ctx.sql_meaning.catalog_rules.Names.{place_among};
ghost use Rattle.where_candidates.specs.session_ctx.sql_meaning.catalog_rules.Objects.{columns_of};
ghost use Rattle.key_order.specs.Columns.{is_column, is_named};

use sql_tree::Expr;
use val_types::{Bytes, TableDef};
use where_candidates::where_keys::Outside;

/// The place of a column, counted from 0.
fn place_of(definition: &TableDef, name: &Bytes) -> Option<usize>
    ensures { result ≡ place_among (columns_of definition.now) name.now }
{
    for (place, column) in definition.columns.as_slice().iter().enumerate() {
        if *name == column.name {
            return Some(place);
        }
    }
    None
}

/// Whether the column at a place has a name.
fn is_named(definition: &TableDef, place: usize, name: &Bytes) -> bool
    ensures { result ≡ is_named definition.now place name.now }
{
    match place_of(definition, name) {
        Some(found) => found == place,
        None => false,
    }
}

/// Whether an expression is the column at a place.
pub(crate) fn is_column(
    outside: &Outside<'_>,
    definition: &TableDef,
    place: usize,
    e: &Expr,
) -> bool
    ensures { result ≡ is_column outside.now definition.now place (view_tree e.now) }
{
    match e {
        Expr::Name(name) => match outside.locals.find(name) {
            Some(_) => false,
            None => is_named(definition, place, name),
        },
        Expr::Column(table, name) => {
            *table == definition.name && is_named(definition, place, name)
        }
        _ => false,
    }
}
