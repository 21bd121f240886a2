//! What a condition says of a primary key before a row is looked at.
ghost use Rattle.std.specs.Prelude.{◌≡◌, is_some, IfOk};
ghost use Rattle.std.specs.Option.{option_map};
ghost use Rattle.sql_tree.specs.View.{view_tree};
ghost use Rattle.where_laws.specs.Facts.{way_of};
ghost use Rattle.where_keys.specs.Keys.{are_compared, column_look, equal_look, is_plain, key_in, look_in, look_view, quiet_in, sides_look};
ghost use Rattle.where_keys.specs.Sides.{side_in, side_view};

use crate::outside::Outside;
use crate::sides::{Side, do_compare, is_condition, known_side};
use sql_tree::Expr;
use std::alloc::Global;
use val_types::{BinOp, ColumnDef, Duplicate, List, NoMemory, Row, TableDef, UnOp, Value};

/// What a condition says of a column: its value; or nothing, and what stands behind may be looked at, or may not.
#[derive(Clone, Copy)]
pub(crate) enum Look<'a> {
    Found(&'a Value),
    Calm,
    Stopped,
}

/// Whether an operator compares.
fn is_comparison(op: BinOp) -> bool
    ensures { result ≡ is_some (way_of op) }
{
    match op {
        BinOp::Equal | BinOp::NullSafeEqual | BinOp::NotEqual => true,
        BinOp::Less | BinOp::LessOrEqual | BinOp::Greater | BinOp::GreaterOrEqual => true,
        _ => false,
    }
}

/// Whether two sides are known and compare.
fn do_compare_if(a: Option<Side<'_>>, b: Option<Side<'_>>) -> bool
    ensures { result ≡ are_compared (option_map side_view a.entry) (option_map side_view b.entry) }
{
    match (a, b) {
        (Some(a), Some(b)) => do_compare(a, b),
        _ => false,
    }
}

/// Whether a side is known and is a condition alone.
fn is_plain(side: Option<Side<'_>>) -> bool
    ensures { result ≡ is_plain (option_map side_view side.entry) }
{
    match side {
        Some(side) => is_condition(side),
        None => false,
    }
}

/// Whether a condition is true, false or unknown on each row, and changes nothing.
pub fn is_quiet(outside: &Outside<'_>, definition: &TableDef, e: &Expr) -> bool
    ensures { result ≡ quiet_in outside.now definition.now (view_tree e.now) }
{
    match e {
        Expr::Binary(op, a, b) => match op {
            BinOp::And | BinOp::Or => {
                is_quiet(outside, definition, a.get()) && is_quiet(outside, definition, b.get())
            }
            _ => {
                is_comparison(*op)
                    && do_compare_if(
                        known_side(&*outside, &*definition, a.get()),
                        known_side(&*outside, &*definition, b.get()),
                    )
            }
        },
        Expr::Unary(op, a) => match op {
            UnOp::Negate => false,
            UnOp::Not => is_quiet(outside, definition, a.get()),
            UnOp::IsNull | UnOp::IsNotNull => known_side(
                &*outside,
                &*definition,
                a.get(),
            ).is_some(),
        },
        _ => is_plain(known_side(&*outside, &*definition, &*e)),
    }
}

/// A column that is never NULL beside a value that is not.
fn column_look<'a>(place: usize, at: usize, column: &ColumnDef, value: &'a Value) -> Look<'a>
    ensures { look_view result ≡ column_look place at column.now value.now }
{
    if at == place && !column.nullable && !value.is_null() {
        Look::Found(value)
    } else {
        Look::Calm
    }
}

/// Two sides that are equal.
fn equal_look<'a>(place: usize, a: Side<'a>, b: Side<'a>) -> Look<'a>
    ensures { look_view result ≡ equal_look place (side_view a.entry) (side_view b.entry) }
{
    match (a, b) {
        (Side::Column(at, column), Side::Standing(value)) => column_look(place, at, column, value),
        (Side::Standing(value), Side::Column(at, column)) => column_look(place, at, column, value),
        _ => Look::Calm,
    }
}

/// The look of two expressions between which `=` or `<=>` stands.
fn sides_look<'a>(
    outside: &'a Outside<'_>,
    definition: &'a TableDef,
    place: usize,
    a: &'a Expr,
    b: &'a Expr,
) -> Look<'a>
    ensures { look_view result ≡ sides_look place (side_in outside.now definition.now (view_tree a.now)) (side_in outside.now definition.now (view_tree b.now)) }
{
    match (
        known_side(outside, definition, a),
        known_side(outside, definition, b),
    ) {
        (Some(a), Some(b)) => {
            if do_compare(a, b) {
                equal_look(place, a, b)
            } else {
                Look::Stopped
            }
        }
        _ => Look::Stopped,
    }
}

/// What a condition says of the column at a place.
fn said_of<'a>(
    outside: &'a Outside<'_>,
    definition: &'a TableDef,
    place: usize,
    e: &'a Expr,
) -> Look<'a>
    ensures { look_view result ≡ look_in outside.now definition.now place (view_tree e.now) }
{
    if let Expr::Binary(op, a, b) = e {
        match op {
            BinOp::And => {
                return match said_of(outside, definition, place, a.get()) {
                    Look::Found(value) => Look::Found(value),
                    Look::Calm => said_of(outside, definition, place, b.get()),
                    Look::Stopped => Look::Stopped,
                };
            }
            BinOp::Equal | BinOp::NullSafeEqual => {
                return sides_look(outside, definition, place, a.get(), b.get());
            }
            _ => {}
        }
    }
    if is_quiet(outside, definition, e) {
        Look::Calm
    } else {
        Look::Stopped
    }
}

/// The values that a condition names for some columns, before a row is looked at; None where it does not name each.
pub fn values_named(
    alloc: Global,
    outside: &Outside<'_>,
    definition: &TableDef,
    columns: &List<u16>,
    condition: &Expr,
) -> Result<Option<Row>, NoMemory>
    ensures { IfOk result (λ values. values ≡ key_in outside.now definition.now (view_tree condition.now) columns.now) }
{
    let mut values = List::with_capacity(alloc, columns.len())?;
    for column in columns.as_slice() {
        match said_of(outside, definition, usize::from(*column), condition) {
            Look::Found(value) => values.push(value.duplicate(alloc)?)?,
            Look::Calm | Look::Stopped => return Ok(None),
        }
    }
    Ok(Some(values))
}

/// The primary key that a condition names whole, before a row is looked at; None where it does not.
pub fn key_named(
    alloc: Global,
    outside: &Outside<'_>,
    definition: &TableDef,
    condition: &Expr,
) -> Result<Option<Row>, NoMemory>
    ensures { IfOk result (λ key. key ≡ key_in outside.now definition.now (view_tree condition.now) definition.now.primary) }
{
    values_named(alloc, outside, definition, &definition.primary, condition)
}
