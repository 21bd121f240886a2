//! In which range a condition says that a column is before a row is looked at.
ghost use Rattle.std.specs.Prelude.{◌≡◌};
ghost use Rattle.std.specs.Option.{option_map};
ghost use Rattle.sql_tree.specs.View.{view_tree};
ghost use Rattle.value_ranges.specs.Ranges.{range_of};
ghost use Rattle.where_keys.specs.Sides.{side_in, side_view};
ghost use Rattle.where_keys.specs.where_laws.Facts.{turned, way_of};
ghost use Rattle.where_ranges.specs.Saying.{column_range, compared_said, followed, is_asked, key_range, nothing_said, range_by, said_in, said_view, sides_range};

use sql_tree::Expr;
use val_types::{BinOp, ColumnDef, TableDef, Value};
use value_ranges::{End, ValueRange, everything, met};
use where_keys::{Outside, Side, do_compare, is_quiet, known_side};

/// A range in which a condition says that a column is, and whether what stands behind it may be looked at.
#[derive(Clone, Copy)]
pub(crate) struct Told<'a> {
    pub range: ValueRange<'a>,
    pub calm: bool,
}

/// Nothing of the column.
fn nothing_told<'a>(calm: bool) -> Told<'a>
    ensures { said_view result ≡ nothing_said calm }
{
    Told {
        range: everything(),
        calm,
    }
}

/// The comparison with its operands changed round.
fn turned(op: BinOp) -> BinOp
    ensures { way_of result ≡ option_map turned (way_of op) }
{
    match op {
        BinOp::Less => BinOp::Greater,
        BinOp::LessOrEqual => BinOp::GreaterOrEqual,
        BinOp::Greater => BinOp::Less,
        BinOp::GreaterOrEqual => BinOp::LessOrEqual,
        other => other,
    }
}

/// The values that stand so to another.
fn range_by<'a>(op: BinOp, value: &'a Value) -> ValueRange<'a>
    ensures { range_of result ≡ range_by (way_of op) value.now }
{
    let with = End { value, among: true };
    let without = End {
        value,
        among: false,
    };
    match op {
        BinOp::Equal | BinOp::NullSafeEqual => ValueRange {
            low: Some(with),
            high: Some(with),
        },
        BinOp::Less => ValueRange {
            low: None,
            high: Some(without),
        },
        BinOp::LessOrEqual => ValueRange {
            low: None,
            high: Some(with),
        },
        BinOp::Greater => ValueRange {
            low: Some(without),
            high: None,
        },
        BinOp::GreaterOrEqual => ValueRange {
            low: Some(with),
            high: None,
        },
        _ => everything(),
    }
}

/// Whether a column is that at a place, and neither it nor a value is NULL.
fn is_asked(place: usize, at: usize, column: &ColumnDef, value: &Value) -> bool
    ensures { result ≡ is_asked place at column.now value.now }
{
    at == place && !column.nullable && !value.is_null()
}

/// A column that is never NULL beside a value that is not.
fn column_range<'a>(
    place: usize,
    at: usize,
    column: &ColumnDef,
    op: BinOp,
    value: &'a Value,
) -> ValueRange<'a>
    ensures { range_of result ≡ column_range place at column.now (way_of op) value.now }
{
    let asked = is_asked(place, at, column, value);
    if asked {
        range_by(op, value)
    } else {
        everything()
    }
}

/// Two sides that compare.
fn sides_range<'a>(place: usize, op: BinOp, a: Side<'a>, b: Side<'a>) -> ValueRange<'a>
    ensures { range_of result ≡ sides_range place (way_of op) (side_view a.entry) (side_view b.entry) }
{
    match (a, b) {
        (Side::Column(at, column), Side::Standing(value)) => {
            column_range(place, at, column, op, value)
        }
        (Side::Standing(value), Side::Column(at, column)) => {
            column_range(place, at, column, turned(op), value)
        }
        _ => everything(),
    }
}

/// Two expressions between which a comparison stands.
fn compared<'a>(
    outside: &'a Outside<'_>,
    definition: &'a TableDef,
    place: usize,
    op: BinOp,
    a: &'a Expr,
    b: &'a Expr,
) -> Told<'a>
    ensures { said_view result ≡ compared_said place (way_of op) (side_in outside.now definition.now (view_tree a.now)) (side_in outside.now definition.now (view_tree b.now)) }
{
    match (
        known_side(outside, definition, a),
        known_side(outside, definition, b),
    ) {
        (Some(a), Some(b)) => {
            if do_compare(a, b) {
                Told {
                    range: sides_range(place, op, a, b),
                    calm: true,
                }
            } else {
                nothing_told(false)
            }
        }
        _ => nothing_told(false),
    }
}

/// AND behind a condition.
fn followed<'a>(first: Told<'a>, behind: Told<'a>) -> Told<'a>
    ensures { said_view result ≡ followed (said_view first.entry) (said_view behind.entry) }
{
    if first.calm {
        Told {
            range: met(first.range, behind.range),
            calm: behind.calm,
        }
    } else {
        first
    }
}

/// What a condition says of the column at a place.
fn said_of<'a>(
    outside: &'a Outside<'_>,
    definition: &'a TableDef,
    place: usize,
    e: &'a Expr,
) -> Told<'a>
    ensures { said_view result ≡ said_in outside.now definition.now place (view_tree e.now) }
{
    if let Expr::Binary(op, a, b) = e {
        match op {
            BinOp::And => {
                let first = said_of(outside, definition, place, a.get());
                return followed(first, said_of(outside, definition, place, b.get()));
            }
            BinOp::Equal
            | BinOp::NullSafeEqual
            | BinOp::NotEqual
            | BinOp::Less
            | BinOp::LessOrEqual
            | BinOp::Greater
            | BinOp::GreaterOrEqual => {
                return compared(outside, definition, place, *op, a.get(), b.get());
            }
            _ => {}
        }
    }
    nothing_told(is_quiet(outside, definition, e))
}

/// The range in which a condition says that the first column of the primary key is, before a row is looked at; without ends where it
/// says none.
pub fn range_named<'a>(
    outside: &'a Outside<'_>,
    definition: &'a TableDef,
    condition: &'a Expr,
) -> ValueRange<'a>
    ensures { range_of result ≡ key_range outside.now definition.now (view_tree condition.now) }
{
    match definition.primary.get(0) {
        Some(place) => said_of(outside, definition, usize::from(*place), condition).range,
        None => everything(),
    }
}
