//! What refuses the columns and rows of an INSERT or REPLACE.
ghost use Rattle.std.specs.Prelude.{◌≡◌, false, not, ◌==◌, map, None, Some};
ghost use Rattle.std.specs.List.{list_any, enumerate_from};
ghost use Rattle.std.specs.Option.{option_map_or};
ghost use Rattle.sql_tree.specs.View.{view_query, view_aggregates};
ghost use Rattle.sql_tree.specs.StatementView.{view_rows, view_supply};
ghost use Rattle.val_types.specs.declared.definitions.ColumnDef.{ColumnDef};
ghost use Rattle.catalog_objects.specs.Keys.{objects_of};
ghost use Rattle.catalog_objects.specs.catalog_rules.Names.{has_twice, is_among};
ghost use Rattle.catalog_objects.specs.catalog_rules.Objects.{columns_of};
ghost use Rattle.catalog_objects.specs.catalog_rules.Nodes.{count_of_trees};
ghost use Rattle.catalog_objects.specs.catalog_rules.Checks.{count_of_aggregates, has_column, has_width, is_left_out, must_be_given, width_of_query};
ghost use Rattle.catalog_objects.specs.catalog_rules.Ranks.{given_rank, insert_rank};
ghost use Rattle.catalog_checks.specs.Asking.{asked_of};

use crate::checks::{Checks, count_of};
use crate::ranks::{COLUMN_TWICE, LEFT_OUT, NO_COLUMN, NO_TABLE, OTHER_WIDTH, unless};
use crate::sight::has_column;
use catalog_objects::Objects;
use sql_tree::{Aggregate, Expr, Select, Selection, Source};
use val_types::{Bytes, ColumnDef, List, TableDef};

/// Whether a name is among some.
pub fn is_among(names: &[Bytes], name: &Bytes) -> bool
    ensures { result ≡ is_among names.now name.now }
{
    for own in names {
        if *name == *own {
            return true;
        }
    }
    false
}

/// Whether a name stands twice.
pub fn has_twice(names: &[Bytes]) -> bool
    ensures { result ≡ has_twice names.now }
{
    for (i, name) in names.iter().enumerate() {
        if is_among(&names[i + 1..], name) {
            return true;
        }
    }
    false
}

/// Whether a column is among some.
fn is_column(columns: &[ColumnDef], name: &Bytes) -> bool
    ensures { result ≡ is_among (map (λ (c : ColumnDef). c.name) columns.now) name.now }
{
    for column in columns {
        if *name == column.name {
            return true;
        }
    }
    false
}

/// Whether a table has a column twice.
fn has_columns_twice(columns: &[ColumnDef]) -> bool
    ensures { result ≡ has_twice (map (λ (c : ColumnDef). c.name) columns.now) }
{
    for (i, column) in columns.iter().enumerate() {
        if is_column(&columns[i + 1..], &column.name) {
            return true;
        }
    }
    false
}

/// Whether a table does not have one of some columns.
fn has_unknown(definition: &TableDef, names: &[Bytes]) -> bool
    ensures { result ≡ list_any (λ c. not (has_column c definition.now)) names.now }
{
    for name in names {
        if !has_column(name, definition) {
            return true;
        }
    }
    false
}

/// Whether the column at a place is the AUTO_INCREMENT column.
fn is_auto(definition: &TableDef, place: usize) -> bool
    ensures { result ≡ option_map_or (λ k. k == place) definition.now.auto false }
{
    match definition.auto {
        Some(auto) => usize::from(auto) == place,
        None => false,
    }
}

/// Whether a column that has to be given is left out.
fn leaves_out(definition: &TableDef, names: &[Bytes]) -> bool
    ensures { result ≡ list_any (is_left_out definition.now names.now) (enumerate_from 0 definition.now.columns) }
{
    for (i, column) in definition.columns.as_slice().iter().enumerate() {
        let must = !column.nullable && column.preset.is_none() && !is_auto(definition, i);
        if must && !is_among(names, &column.name) {
            return true;
        }
    }
    false
}

/// How many aggregates there are.
fn count_of_aggregates(aggregates: &List<Aggregate>) -> usize
    ensures { result ≡ count_of_aggregates (view_aggregates aggregates.now) }
{
    aggregates.len()
}

/// How many values the rows of a SELECT have, None where its table is not there.
fn width_of(objects: &Objects, query: &Select) -> Option<usize>
    ensures { result ≡ width_of_query (objects_of objects.now) (view_query query.now) }
{
    match &query.what {
        Selection::Items(items) => Some(count_of(items)),
        Selection::Aggregates(aggregates) => Some(count_of_aggregates(aggregates)),
        Selection::All => match &query.from {
            None => None,
            Some(from) => match objects.table(&from.table) {
                None => None,
                Some(definition) => Some(definition.columns.len()),
            },
        },
    }
}

/// Whether a row of VALUES has another number of values.
fn has_other_width(rows: &List<List<Expr>>, count: usize) -> bool
    ensures { result ≡ list_any (λ ts. not (count_of_trees ts == count)) (view_rows rows.now) }
{
    for row in rows.as_slice() {
        if count_of(row) != count {
            return true;
        }
    }
    false
}

/// Whether rows have so many values.
fn has_width(objects: &Objects, count: usize, source: &Source) -> bool
    ensures { result ≡ has_width (objects_of objects.now) count (view_supply source.now) }
{
    match source {
        Source::Rows(rows) => !has_other_width(rows, count),
        Source::Select(query) => match width_of(objects, query) {
            None => true,
            Some(width) => width == count,
        },
    }
}

/// What refuses an INSERT that names no column: it gives all.
fn all_given(checks: &Checks<'_>, source: &Source, definition: &TableDef) -> u8
    ensures { result ≡ given_rank (asked_of checks.now) None (view_supply source.now) definition.now }
{
    let columns = definition.columns.as_slice();
    unless(!has_columns_twice(columns), COLUMN_TWICE).min(unless(
        has_width(checks.objects, columns.len(), source),
        OTHER_WIDTH,
    ))
}

/// What refuses an INSERT that names columns.
fn some_given(
    checks: &Checks<'_>,
    names: &List<Bytes>,
    source: &Source,
    definition: &TableDef,
) -> u8
    ensures { result ≡ given_rank (asked_of checks.now) (Some names.now) (view_supply source.now) definition.now }
{
    let given = names.as_slice();
    let width = unless(has_width(checks.objects, given.len(), source), OTHER_WIDTH);
    let rest = width.min(unless(!leaves_out(definition, given), LEFT_OUT));
    unless(!has_unknown(definition, given), NO_COLUMN).min(unless(
        !has_twice(given),
        COLUMN_TWICE,
    ).min(rest))
}

/// What refuses the columns and the numbers of values.
pub(crate) fn insert(
    checks: &Checks<'_>,
    table: &Bytes,
    names: &Option<List<Bytes>>,
    source: &Source,
) -> u8
    ensures { result ≡ insert_rank (asked_of checks.now) table.now names.now (view_supply source.now) }
{
    match checks.objects.table(table) {
        None => NO_TABLE,
        Some(definition) => match names {
            None => all_given(checks, source, definition),
            Some(names) => some_given(checks, names, source, definition),
        },
    }
}
