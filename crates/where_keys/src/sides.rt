//! Sides of a comparison that are known before a row is looked at.
ghost use Rattle.std.specs.Prelude.{◌≡◌};
ghost use Rattle.std.specs.Option.{option_copied, option_map};
ghost use Rattle.sql_tree.specs.View.{view_tree};
ghost use Rattle.session_ctx.specs.sql_meaning.Frames.{column_if};
ghost use Rattle.session_ctx.specs.sql_meaning.catalog_rules.Names.{place_among};
ghost use Rattle.session_ctx.specs.sql_meaning.catalog_rules.Objects.{columns_of};
ghost use Rattle.where_laws.specs.Sides.{column_side, do_compare, is_condition, kind_of, short, stands};
ghost use Rattle.where_keys.specs.Sides.{kind_view, name_side_in, row_if, side_in, side_view, sides_compare, variable_side};

use crate::outside::{Outside, RowOf};
use session_ctx::Ctx;
use sql_tree::Expr;
use val_types::{Bytes, ColType, ColumnDef, TableDef, Value};

/// The column at a place, or a value that stands whatever the row.
#[derive(Clone, Copy)]
pub enum Side<'a> {
    Column(usize, &'a ColumnDef),
    Standing(&'a Value),
}

/// What a side may be besides NULL.
#[derive(Clone, Copy)]
pub(crate) enum Kind {
    NothingElse,
    Number,
    Text,
}

/// The place of a column, counted from 0.
fn place_of(definition: &TableDef, name: &Bytes) -> Option<usize>
    ensures { result ≡ place_among (columns_of definition.now) name.now }
{
    for (place, column) in definition.columns.as_slice().iter().enumerate() {
        if *name == column.name {
            return Some(place);
        }
    }
    None
}

/// The value of a column of a row that may be none.
fn column_if<'a>(row: &Option<RowOf<'a>>, name: &Bytes) -> Option<&'a Value>
    ensures { option_copied result ≡ column_if name.now (row_if row.now) }
{
    match row {
        Some(row) => match place_of(row.definition, name) {
            Some(place) => row.row.get(place),
            None => None,
        },
        None => None,
    }
}

/// The column of a name.
fn column_side<'a>(definition: &'a TableDef, name: &Bytes) -> Option<Side<'a>>
    ensures { option_map side_view result ≡ column_side definition.now (place_among (columns_of definition.now) name.now) }
{
    match place_of(definition, name) {
        Some(place) => match definition.columns.get(place) {
            Some(column) => Some(Side::Column(place, column)),
            None => None,
        },
        None => None,
    }
}

/// A value as it is; a text of more than 65,535 bytes is none.
fn short(value: &Value) -> Option<Side<'_>>
    ensures { option_map side_view result ≡ stands (short value.now) }
{
    match value {
        Value::Null | Value::Int(_) => Some(Side::Standing(value)),
        Value::Text(text) => {
            if text.len() <= 65_535 {
                Some(Side::Standing(value))
            } else {
                None
            }
        }
    }
}

/// The value of a user variable that was set.
fn variable_side<'a>(context: &'a Ctx, name: &Bytes) -> Option<Side<'a>>
    ensures { option_map side_view result ≡ variable_side context.now.variables name.now }
{
    match context.user_variable(name) {
        Some(value) => short(value),
        None => None,
    }
}

/// A value that may be there.
fn standing(value: Option<&Value>) -> Option<Side<'_>>
    ensures { option_map side_view result ≡ stands (option_copied value.entry) }
{
    match value {
        Some(value) => Some(Side::Standing(value)),
        None => None,
    }
}

/// What a name is: a local, else a column of the table.
fn name_side<'a>(
    outside: &'a Outside<'_>,
    definition: &'a TableDef,
    name: &Bytes,
) -> Option<Side<'a>>
    ensures { option_map side_view result ≡ name_side_in outside.now definition.now name.now }
{
    match outside.locals.find(name) {
        Some(local) => Some(Side::Standing(&local.value)),
        None => column_side(definition, name),
    }
}

/// What an expression is, None where that is not known here.
pub fn known_side<'a>(
    outside: &'a Outside<'_>,
    definition: &'a TableDef,
    e: &'a Expr,
) -> Option<Side<'a>>
    ensures { option_map side_view result ≡ side_in outside.now definition.now (view_tree e.now) }
{
    match e {
        Expr::Literal(value) => short(value),
        Expr::NameConst(_, value) => short(value),
        Expr::UserVariable(name) => variable_side(outside.context, name),
        Expr::Name(name) => name_side(outside, definition, name),
        Expr::Column(table, column) => {
            if *table == definition.name {
                column_side(definition, column)
            } else {
                None
            }
        }
        Expr::NewColumn(column) => standing(column_if(&outside.new_row, column)),
        Expr::OldColumn(column) => standing(column_if(&outside.old_row, column)),
        _ => None,
    }
}

/// What values a side may have.
fn kind_of(side: Side<'_>) -> Kind
    ensures { kind_view result ≡ kind_of (side_view side.entry) }
{
    match side {
        Side::Column(_, column) => match column.kind {
            ColType::Int | ColType::BigInt => Kind::Number,
            ColType::Varchar(_) => Kind::Text,
        },
        Side::Standing(value) => match value {
            Value::Null => Kind::NothingElse,
            Value::Int(_) => Kind::Number,
            Value::Text(_) => Kind::Text,
        },
    }
}

/// Whether two sides compare: a number and a text do not.
pub fn do_compare(a: Side<'_>, b: Side<'_>) -> bool
    ensures { result ≡ sides_compare (side_view a.entry) (side_view b.entry) }
{
    match (kind_of(a), kind_of(b)) {
        (Kind::Number, Kind::Text) | (Kind::Text, Kind::Number) => false,
        _ => true,
    }
}

/// Whether a side alone is a condition; a text is none.
pub(crate) fn is_condition(side: Side<'_>) -> bool
    ensures { result ≡ is_condition (kind_of (side_view side.entry)) }
{
    !matches!(kind_of(side), Kind::Text)
}
