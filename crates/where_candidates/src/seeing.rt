//! The rows of a table that a WHERE has to look at.
ghost use Rattle.std.specs.Prelude.{◌≡◌, ℕ, Some, None, IfOk, List, option_to_list, slice_get};
ghost use Rattle.table_rules.specs.Stored.{row_at};
ghost use Rattle.table_rules.specs.Stores.{definitions_of, place_of};
ghost use Rattle.row_store.specs.Found.{found_with};
ghost use Rattle.sql_tree.specs.Tree.{part};
ghost use Rattle.sql_tree.specs.View.{view_part, view_tree};
ghost use Rattle.where_ranges.specs.where_keys.Keys.{key_in};
ghost use Rattle.where_candidates.specs.Candidates.{AreCandidates, Sees, first_named, part_if};

use row_store::{Tables, tables_are_kept};
use sharing::Shared;
use sql_tree::Expr;
use std::alloc::Global;
use val_types::{Boxed, Bytes, List, NoMemory, Row, SqlError, SqlRefusal, TableDef};
use value_ranges::has_end;
use where_ranges::range_named;
use where_ranges::where_keys::{Outside, key_named, values_named};

/// A name that is no table's.
const NO_SUCH_TABLE: SqlError = 1146;

/// A table with the rows of it that a WHERE has to look at.
#[derive(Drop)]
pub struct SeenTable {
    pub definition: Shared<TableDef>,
    pub rows: List<Shared<Row>>,
}

/// A unique key, by its number counted from 1, and values of it.
#[derive(Drop)]
pub struct Named {
    pub which: usize,
    pub values: Row,
}

/// The row of a key in the table at a place, if there is one.
fn row_of_key(
    alloc: Global,
    tables: &Tables,
    at: usize,
    key: &Row,
) -> Result<List<Shared<Row>>, NoMemory>
    ensures { (name : List ℕ) → place_of name tables.now.tables ≡ Some at
        → IfOk result (λ rows. rows ≡ option_to_list (row_at name key.now tables.now.tables)) }
{
    let mut rows = List::new(alloc);
    if let Some(row) = tables.held_at(at, key) {
        rows.push(row.share()?)?;
    }
    Ok(rows)
}

/// The row of the table at a place that has some values in the key of a number, if there is one.
fn row_with(
    alloc: Global,
    tables: &Tables,
    at: usize,
    which: usize,
    values: &Row,
) -> Result<List<Shared<Row>>, NoMemory>
    ensures { (name : List ℕ) → place_of name tables.now.tables ≡ Some at
        → IfOk result (λ rows. rows ≡ option_to_list (found_with name which values.now tables.now.tables)) }
{
    let mut rows = List::new(alloc);
    if let Some(row) = tables.held_with(at, which, values) {
        rows.push(row.share()?)?;
    }
    Ok(rows)
}

/// The first unique key of which a condition names each value, counted from 1, with these.
fn unique_named(
    alloc: Global,
    outside: &Outside<'_>,
    definition: &TableDef,
    condition: &Expr,
) -> Result<Option<Named>, NoMemory>
    ensures { IfOk result (λ named. named ≡ first_named outside.now definition.now (view_tree condition.now) 1 definition.now.uniques) }
{
    for (i, key) in definition.uniques.as_slice().iter().enumerate() {
        let named = values_named(alloc, outside, definition, &key.columns, condition)?;
        if let Some(values) = named {
            return Ok(Some(Named {
                which: i + 1,
                values,
            }));
        }
    }
    Ok(None)
}

/// The rows that a condition leaves to be looked at where it names no key: those within the range that it says of the first column of the
/// primary key.
fn rows_by_range(
    tables: &Tables,
    outside: &Outside<'_>,
    at: usize,
    definition: &TableDef,
    condition: &Expr,
) -> Result<List<Shared<Row>>, NoMemory>
    ensures { (name : List ℕ) → place_of name tables.now.tables ≡ Some at → slice_get (definitions_of tables.now.tables) at ≡ Some definition.now
        → key_in outside.now definition.now (view_tree condition.now) definition.now.primary ≡ None
        → first_named outside.now definition.now (view_tree condition.now) 1 definition.now.uniques ≡ None
        → IfOk result (λ rows. AreCandidates outside.now name definition.now (part (view_tree condition.now)) tables.now.tables rows) }
{
    tables_are_kept(tables);
    let range = range_named(outside, definition, condition);
    if has_end(range) {
        tables.rows_between(at, range)
    } else {
        tables.rows(at)
    }
}

/// The rows that a condition leaves to be looked at where it does not name the primary key.
fn rows_by_unique(
    alloc: Global,
    tables: &Tables,
    outside: &Outside<'_>,
    at: usize,
    definition: &TableDef,
    condition: &Expr,
) -> Result<List<Shared<Row>>, NoMemory>
    ensures { (name : List ℕ) → place_of name tables.now.tables ≡ Some at → slice_get (definitions_of tables.now.tables) at ≡ Some definition.now
        → key_in outside.now definition.now (view_tree condition.now) definition.now.primary ≡ None
        → IfOk result (λ rows. AreCandidates outside.now name definition.now (part (view_tree condition.now)) tables.now.tables rows) }
{
    tables_are_kept(tables);
    match unique_named(alloc, outside, definition, condition)? {
        Some(named) => row_with(alloc, tables, at, named.which, &named.values),
        None => rows_by_range(tables, outside, at, definition, condition),
    }
}

/// The same for a condition that may be none.
#[tactic(auto, using(crate::proofs::Enough::seeing))]
fn rows_for(
    alloc: Global,
    tables: &Tables,
    outside: &Outside<'_>,
    at: usize,
    definition: &TableDef,
    condition: Option<&Expr>,
) -> Result<List<Shared<Row>>, NoMemory>
    ensures { (name : List ℕ) → place_of name tables.now.tables ≡ Some at → slice_get (definitions_of tables.now.tables) at ≡ Some definition.now
        → IfOk result (λ rows. AreCandidates outside.now name definition.now (part_if condition.entry) tables.now.tables rows) }
{
    tables_are_kept(tables);
    let Some(condition) = condition else {
        return tables.rows(at);
    };
    match key_named(alloc, outside, definition, condition)? {
        Some(key) => row_of_key(alloc, tables, at, &key),
        None => rows_by_unique(alloc, tables, outside, at, definition, condition),
    }
}

/// The rows of the table at a place that a WHERE has to look at, each shared with the table: the row of a primary key that
/// the condition names whole, else that of a unique key of which it names each value, else those within the range that it says of the
/// first column of the primary key, else all.
pub fn candidates(
    alloc: Global,
    tables: &Tables,
    outside: &Outside<'_>,
    at: usize,
    definition: &TableDef,
    filter: &Option<Expr>,
) -> Result<List<Shared<Row>>, NoMemory>
    ensures { (name : List ℕ) → place_of name tables.now.tables ≡ Some at → slice_get (definitions_of tables.now.tables) at ≡ Some definition.now
        → IfOk result (λ rows. AreCandidates outside.now name definition.now (view_part filter.now) tables.now.tables rows) }
{
    match filter {
        Some(condition) => rows_for(alloc, tables, outside, at, definition, Some(condition)),
        None => rows_for(alloc, tables, outside, at, definition, None),
    }
}

fn condition_of(filter: &Option<Boxed<Expr>>) -> Option<&Expr>
    ensures { part_if result ≡ view_part filter.now }
{
    match filter {
        Some(condition) => Some(condition.get()),
        None => None,
    }
}

/// The table of a name with the rows of it that a WHERE has to look at; 1146 where there is none.
#[tactic(auto, using(crate::proofs::Enough::missing))]
pub fn rows_to_see(
    alloc: Global,
    tables: &Tables,
    outside: &Outside<'_>,
    name: &Bytes,
    filter: &Option<Boxed<Expr>>,
) -> Result<SeenTable, SqlRefusal>
    ensures { Sees outside.now name.now (view_part filter.now) tables.now.tables result }
{
    let Some(at) = tables.place(name) else {
        return Err(SqlRefusal::Sql(NO_SUCH_TABLE));
    };
    let Some(definition) = tables.shared_definition(at) else {
        return Err(SqlRefusal::Sql(NO_SUCH_TABLE));
    };
    let definition = definition.share()?;
    let rows = rows_for(
        alloc,
        tables,
        outside,
        at,
        definition.get(),
        condition_of(filter),
    )?;
    Ok(SeenTable { definition, rows })
}
