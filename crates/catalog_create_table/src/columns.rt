//! The columns of a CREATE TABLE.
ghost use Rattle.std.specs.Prelude.{◌≡◌, ◌≤◌, false, map, not, ◌&&◌, filter, length, nat_lt, sum, is_ok};
ghost use Rattle.std.specs.List.{list_any};
ghost use Rattle.sql_locals.specs.Types.{column_type};
ghost use Rattle.sql_tree.specs.declared.statements.Column.{Column};
ghost use Rattle.val_types.specs.Fitting.{fitting};
ghost use Rattle.catalog_checks.specs.catalog_rules.Creating.{begins_key, counted_columns, has_ill_preset, is_ill_preset, is_ill_type, is_varchar, keys_of, row_width, width_of};

use crate::keys::begins_key;
use sql_tree::{Column, CreateTable, SqlType};
use val_types::{ColType, Value, type_fits};

/// Whether a value may be put where a type was written.
fn fits(kind: SqlType, value: &Value) -> bool
    ensures { result ≡ is_ok (fitting (column_type kind) value.now) }
{
    match kind {
        SqlType::Int => type_fits(ColType::Int, value).is_ok(),
        SqlType::BigInt => type_fits(ColType::BigInt, value).is_ok(),
        SqlType::Varchar(most) => match value {
            Value::Null => true,
            Value::Int(_) => false,
            Value::Text(text) => text.len() as u64 <= most,
        },
    }
}

/// Whether a DEFAULT does not fit, is NULL on a NOT NULL column or stands on the AUTO_INCREMENT column.
fn is_ill_preset(column: &Column, value: &Value) -> bool
    ensures { result ≡ is_ill_preset column.now value.now }
{
    !fits(column.kind, value) || (value.is_null() && !column.nullable) || column.auto_increment
}

/// Whether a column has such a DEFAULT.
pub(crate) fn has_ill_preset(columns: &[Column]) -> bool
    ensures { result ≡ list_any has_ill_preset columns.now }
{
    for column in columns {
        if let Some(value) = &column.preset {
            if is_ill_preset(column, value) {
                return true;
            }
        }
    }
    false
}

fn is_varchar(kind: SqlType) -> bool
    ensures { result ≡ is_varchar kind }
{
    match kind {
        SqlType::Int | SqlType::BigInt => false,
        SqlType::Varchar(_) => true,
    }
}

/// Whether a text has AUTO_INCREMENT.
pub(crate) fn has_counted_text(columns: &[Column]) -> bool
    ensures { result ≡ list_any (λ (c : Column). c.auto_increment && is_varchar c.kind) columns.now }
{
    for column in columns {
        if column.auto_increment && is_varchar(column.kind) {
            return true;
        }
    }
    false
}

/// How many columns have AUTO_INCREMENT.
fn count_counted(columns: &[Column]) -> usize
    ensures { result ≡ length (filter (λ (c : Column). c.auto_increment) columns.now) }
{
    let mut count = 0;
    for column in columns {
        if column.auto_increment {
            count += 1;
        }
    }
    count
}

/// Whether there are two AUTO_INCREMENT columns or more.
pub(crate) fn has_two_counted(columns: &[Column]) -> bool
    ensures { result ≡ nat_lt 1 (length (filter (λ (c : Column). c.auto_increment) columns.now)) }
{
    count_counted(columns) > 1
}

/// Whether an AUTO_INCREMENT column is the first of no key.
pub(crate) fn has_counted_behind(t: &CreateTable) -> bool
    ensures { result ≡ list_any (λ c. not (begins_key (keys_of t.now) c)) (counted_columns t.now) }
{
    for column in t.columns.as_slice() {
        if column.auto_increment && !begins_key(t, column) {
            return true;
        }
    }
    false
}

/// Whether a VARCHAR has 0 bytes or more than 65,535.
pub fn is_ill_type(kind: SqlType) -> bool
    ensures { result ≡ is_ill_type kind }
{
    match kind {
        SqlType::Int | SqlType::BigInt => false,
        SqlType::Varchar(most) => most == 0 || most > 65535,
    }
}

pub(crate) fn has_ill_type(columns: &[Column]) -> bool
    ensures { result ≡ list_any (λ (c : Column). is_ill_type c.kind) columns.now }
{
    for column in columns {
        if is_ill_type(column.kind) {
            return true;
        }
    }
    false
}

/// How many bytes a value of a type takes in a row.
fn width_of(kind: SqlType) -> u64
    requires { is_ill_type kind ≡ false }
    ensures is { result ≡ width_of kind }
    ensures most { result ≤ 65537 }
{
    match kind {
        SqlType::Int => 4,
        SqlType::BigInt => 8,
        SqlType::Varchar(most) => { if most <= 255 { most + 1 } else { most + 2 } }
    }
}

/// How many bytes the values of a row take.
#[tactic(auto, using(crate::proofs::Summing::sum_more))]
fn values_width(columns: &[Column]) -> u64
    requires few { length columns.now ≤ 64 }
    requires types { list_any (λ (c : Column). is_ill_type c.kind) columns.now ≡ false }
    ensures is { result ≡ sum (map (λ (c : Column). width_of c.kind) columns.now) }
    ensures most { result ≤ 4194368 }
{
    let mut total = 0;
    for column in columns {
        total += width_of(column.kind);
    }
    total
}

/// Whether a row takes more than 65,535 bytes.
pub(crate) fn is_wide(columns: &[Column]) -> bool
    requires few { length columns.now ≤ 64 }
    requires types { list_any (λ (c : Column). is_ill_type c.kind) columns.now ≡ false }
    ensures { result ≡ nat_lt 65535 (row_width columns.now) }
{
    values_width(columns) + (columns.len() as u64 + 7) / 8 > 65535
}
