//! What refuses a CREATE TABLE.
ghost use Rattle.std.specs.Prelude.{◌≡◌, ◌||◌, if◌then◌else◌, is_some, length, nat_lt, not, Some};
ghost use Rattle.std.specs.List.{list_any};
ghost use Rattle.catalog_checks.specs.catalog_rules.Names.{has_twice};
ghost use Rattle.catalog_checks.specs.catalog_rules.Objects.{table_in};
ghost use Rattle.catalog_checks.specs.catalog_rules.Defined.{names_of_columns};
ghost use Rattle.catalog_checks.specs.catalog_objects.Keys.{objects_of};
ghost use Rattle.catalog_checks.specs.catalog_rules.Creating.{begins_key, counted_columns, first_refusal, keys_of, is_past_table_limits, table_checks};

use crate::columns::{
    has_counted_behind, has_counted_text, has_ill_preset, has_ill_type, has_two_counted, is_wide,
};
use crate::keys::{has_columns_twice, has_keys_twice, key_twice, key_unknown, key_wide};
use catalog_checks::catalog_objects::Objects;
use sql_tree::CreateTable;
use val_types::SqlError;

/// Whether there are more columns, keys or bytes than a table may have, or a table too many.
fn is_past_limits(objects: &Objects, t: &CreateTable) -> bool
    ensures { result ≡ is_past_table_limits (objects_of objects.now) t.now }
{
    let columns = t.columns.as_slice();
    if columns.len() > 64 {
        return true;
    }
    if key_wide(t) || t.uniques.len() > 8 {
        return true;
    }
    if has_ill_type(columns) {
        return true;
    }
    is_wide(columns) || objects.count_tables() >= 1000
}

/// The error of a check, where it refuses, or else that of the checks behind it.
pub fn refused(refuses: bool, code: SqlError, rest: Option<SqlError>) -> Option<SqlError>
    ensures { result ≡ (if refuses then Some code else rest) }
{
    if refuses { Some(code) } else { rest }
}

/// Whether there is such a table.
fn is_taken(objects: &Objects, t: &CreateTable) -> bool
    ensures { result ≡ is_some (table_in (objects_of objects.now) t.now.name) }
{
    objects.table(&t.name).is_some()
}

/// Whether a column stands twice, in the table or in a key.
fn column_twice(t: &CreateTable) -> bool
    ensures { result ≡ (has_twice (names_of_columns t.now) || list_any has_twice (keys_of t.now)) }
{
    has_columns_twice(t.columns.as_slice()) || key_twice(t)
}

/// Whether there is more than one AUTO_INCREMENT column, or one that is first in no key.
fn is_ill_counted(t: &CreateTable) -> bool
    ensures { result ≡ (nat_lt 1 (length (counted_columns t.now)) || list_any (λ c. not (begins_key (keys_of t.now) c)) (counted_columns t.now)) }
{
    has_two_counted(t.columns.as_slice()) || has_counted_behind(t)
}

/// The error of the first check that refuses a CREATE TABLE: 1050 the name is there, 1060 a column twice, 1061 a key's name
/// twice, 1072 a key's column is none, 30001 no primary key, 1067 a DEFAULT, 1063 AUTO_INCREMENT on a text, 1075 more than
/// one, or first in no key, 30009 past a limit.
pub fn table_refusal(objects: &Objects, t: &CreateTable) -> Option<SqlError>
    ensures { result ≡ first_refusal (table_checks (objects_of objects.now) t.now) }
{
    let columns = t.columns.as_slice();
    let limits = refused(is_past_limits(objects, t), 30009, None);
    let counted = refused(is_ill_counted(t), 1075, limits);
    let texts = refused(has_counted_text(columns), 1063, counted);
    let presets = refused(has_ill_preset(columns), 1067, texts);
    let primary = refused(t.primary.is_none(), 30001, presets);
    let unknown = refused(key_unknown(t), 1072, primary);
    let names = refused(has_keys_twice(t.uniques.as_slice()), 1061, unknown);
    let twice = refused(column_twice(t), 1060, names);
    refused(is_taken(objects, t), 1050, twice)
}
