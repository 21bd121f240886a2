//! INSERT, REPLACE, UPDATE and DELETE.
ghost use Rattle.std.specs.Prelude.{◌≡◌, IfOk, Some, map};
ghost use Rattle.sql_lex.specs.declared.token.Symbol.TheVariants as signs;
ghost use Rattle.sql_grammar.specs.Rule.{behind};
ghost use Rattle.sql_syntax.specs.Changes as spec;
ghost use Rattle.sql_syntax.specs.Expressions.{expression};
ghost use Rattle.sql_parse_tokens.specs.Gives.{Gives};
ghost use Rattle.sql_parse_nodes.specs.Kept.{Keeps, above, beside, in_place};
ghost use Rattle.sql_syntax.specs.Parts.{list_of};
ghost use Rattle.sql_syntax.specs.Tokens.{sign};
ghost use Rattle.sql_tree.specs.Depth.{depth_of, depth_of_part, depth_of_sets, depth_of_supply, depth_of_trees, deepest, depth_of_value};
ghost use Rattle.sql_tree.specs.StatementView.{view, view_sets, view_supply, view_set};
ghost use Rattle.sql_tree.specs.View.{view_part, view_trees};
ghost use Rattle.sql_tree.specs.declared.statements.ColumnSet.{ColumnSet};
ghost use Rattle.sql_tree.specs.declared.statements.DeleteStmt.{DeleteStmt};
ghost use Rattle.sql_tree.specs.declared.statements.InsertStmt.{InsertStmt};
ghost use Rattle.sql_tree.specs.declared.statements.ReplaceStmt.{ReplaceStmt};
ghost use Rattle.sql_tree.specs.declared.statements.UpdateStmt.{UpdateStmt};
ghost use Rattle.sql_tree.specs.declared.statements.Source.{Source};
ghost use Rattle.sql_tree.specs.declared.statements.Stmt.{Stmt};

use sql_lex::{Keyword, Symbol};
use sql_parse_expressions::expressions::{closed_list, whole};
use sql_parse_expressions::selects::{order, select, where_part};
use sql_parse_nodes::kept::{Kept, Levelled, above, alone, beside, push};
use sql_parse_nodes::{held, node};
use sql_parse_tokens::fault::Stop;
use sql_parse_tokens::kinds::sign_code;
use sql_parse_tokens::limits::limit;
use sql_parse_tokens::opening::opening;
use sql_parse_tokens::parts::{a_name, names_in};
use sql_parse_tokens::rest::Rest;
use sql_tree::{
    ColumnSet, Count, DeleteStmt, Expr, InsertStmt, OrderItem, ReplaceStmt, Source, Stmt,
    UpdateStmt,
};
use std::alloc::Global;
use val_types::{Boxed, Bytes, List, NoMemory};

/// A part that may be left out, as it stands in a statement.
pub fn owned(part: Option<Boxed<Expr>>) -> Option<Expr>
    ensures { result ≡ part }
{
    let part = part?;
    Some(part.into_inner())
}

/// A part that is left out.
fn nothing<T>(part: T) -> Kept<T>
    ensures { result ≡ Some (record { part = part; levels = 0 }) }
{
    Some(Levelled { part, levels: 0 })
}

/// A value for a column.
fn column_set(column: Bytes, value: Kept<Boxed<Expr>>) -> Kept<ColumnSet>
    ensures { result ≡ in_place (λ v. record { column = column; value = v }) value }
{
    held!(value, a => ColumnSet {
        column,
        value: a.into_inner(),
    })
}

/// A column, `=` and its value.
fn set_item<'t>(
    alloc: Global,
    depth: u32,
    rest: Rest<'t>,
) -> Result<(Kept<ColumnSet>, Rest<'t>), Stop<'t>>
    ensures { Keeps view_set depth_of_value result ((spec.set_item (expression depth)).read rest.entry) }
{
    let (column, rest) = a_name(alloc, rest)?;
    let ((), rest) = rest.skip_mark(Symbol::Equal)?;
    let (value, rest) = whole(alloc, depth, rest)?;
    Ok((column_set(column, value), rest))
}

/// A comma and such an item.
fn next_set_item<'t>(
    alloc: Global,
    depth: u32,
    rest: Rest<'t>,
) -> Result<(Kept<ColumnSet>, Rest<'t>), Stop<'t>>
    ensures { Keeps view_set depth_of_value result ((behind (sign signs.Comma) (spec.set_item (expression depth))).read rest.entry) }
{
    let ((), rest) = rest.skip_mark(Symbol::Comma)?;
    set_item(alloc, depth, rest)
}

/// Such items with commas between.
fn sets<'t>(
    alloc: Global,
    depth: u32,
    rest: Rest<'t>,
) -> Result<(Kept<List<ColumnSet>>, Rest<'t>), Stop<'t>>
    ensures { Keeps view_sets depth_of_sets result ((spec.sets (expression depth)).read rest.entry) }
{
    let (first, mut rest) = set_item(alloc, depth, rest)?;
    let mut items = alone(alloc, first)?;
    for _turn in 0..rest.len() {
        if !rest.is_mark(Symbol::Comma) {
            return Ok((items, rest));
        }
        let (item, after) = next_set_item(alloc, depth, rest)?;
        items = push(items, item)?;
        rest = after;
    }
    Ok((items, rest))
}

/// IGNORE, or nothing.
fn ignore<'t>(rest: Rest<'t>) -> Result<(bool, Rest<'t>), Stop<'t>>
    ensures { Gives (λ b. b) result (spec.ignore.read rest.entry) }
{
    if !rest.is_key(Keyword::Ignore) {
        return Ok((false, rest));
    }
    let ((), rest) = rest.skip_key(Keyword::Ignore)?;
    Ok((true, rest))
}

/// A table, with INTO before it or not.
fn into<'t>(alloc: Global, rest: Rest<'t>) -> Result<(Bytes, Rest<'t>), Stop<'t>>
    ensures { Gives (λ n. n) result (spec.into.read rest.entry) }
{
    if !rest.is_key(Keyword::Into) {
        return a_name(alloc, rest);
    }
    let ((), rest) = rest.skip_key(Keyword::Into)?;
    a_name(alloc, rest)
}

/// Columns in parentheses, or nothing.
fn columns<'t>(
    alloc: Global,
    depth: u32,
    rest: Rest<'t>,
) -> Result<(Option<List<Bytes>>, Rest<'t>), Stop<'t>>
    ensures { Gives (λ c. c) result ((spec.columns depth).read rest.entry) }
{
    if !rest.is_mark(Symbol::Open) {
        return Ok((None, rest));
    }
    let (names, rest) = names_in(alloc, depth, rest)?;
    Ok((Some(names), rest))
}

/// A row of VALUES.
fn a_row<'t>(
    alloc: Global,
    depth: u32,
    rest: Rest<'t>,
) -> Result<(Kept<List<Expr>>, Rest<'t>), Stop<'t>>
    ensures { Keeps view_trees depth_of_trees result ((spec.a_row depth).read rest.entry) }
{
    let (depth, rest) = opening(depth, sign_code(Symbol::Open), rest)?;
    closed_list(alloc, depth, rest)
}

/// A comma and a row.
fn next_row<'t>(
    alloc: Global,
    depth: u32,
    rest: Rest<'t>,
) -> Result<(Kept<List<Expr>>, Rest<'t>), Stop<'t>>
    ensures { Keeps view_trees depth_of_trees result ((behind (sign signs.Comma) (spec.a_row depth)).read rest.entry) }
{
    let ((), rest) = rest.skip_mark(Symbol::Comma)?;
    a_row(alloc, depth, rest)
}

/// Rows with commas between.
fn rows<'t>(
    alloc: Global,
    depth: u32,
    rest: Rest<'t>,
) -> Result<(Kept<List<List<Expr>>>, Rest<'t>), Stop<'t>>
    ensures { Keeps (map view_trees) (deepest depth_of_trees) result ((list_of (spec.a_row depth)).read rest.entry) }
{
    let (first, mut rest) = a_row(alloc, depth, rest)?;
    let mut items = alone(alloc, first)?;
    for _turn in 0..rest.len() {
        if !rest.is_mark(Symbol::Comma) {
            return Ok((items, rest));
        }
        let (item, after) = next_row(alloc, depth, rest)?;
        items = push(items, item)?;
        rest = after;
    }
    Ok((items, rest))
}

/// VALUES or VALUE.
fn values_word<'t>(rest: Rest<'t>) -> Result<((), Rest<'t>), Stop<'t>>
    ensures { Gives (λ u. u) result (spec.values_word.read rest.entry) }
{
    if rest.is_key(Keyword::Values) {
        rest.skip_key(Keyword::Values)
    } else {
        rest.skip_key(Keyword::Value)
    }
}

/// Rows as the source of an INSERT.
fn row_source(alloc: Global, rows: Kept<List<List<Expr>>>) -> Result<Kept<Boxed<Source>>, NoMemory>
    ensures { IfOk result (λ r. r ≡ in_place (λ rs. Source.Rows rs) rows) }
{
    node!(alloc, rows, a => Source::Rows(a))
}

/// A SELECT as the source of an INSERT.
fn select_source(
    alloc: Global,
    query: Kept<Boxed<sql_tree::Select>>,
) -> Result<Kept<Boxed<Source>>, NoMemory>
    ensures { IfOk result (λ r. r ≡ in_place (λ q. Source.Select q) query) }
{
    node!(alloc, query, a => Source::Select(a.into_inner()))
}

/// Where the rows of INSERT and REPLACE come from.
fn source<'t>(
    alloc: Global,
    depth: u32,
    rest: Rest<'t>,
) -> Result<(Kept<Boxed<Source>>, Rest<'t>), Stop<'t>>
    ensures { Keeps view_supply depth_of_supply result ((spec.source depth).read rest.entry) }
{
    if rest.is_key(Keyword::Select) {
        let (query, rest) = select(alloc, depth, rest)?;
        return Ok((select_source(alloc, query)?, rest));
    }
    let ((), rest) = values_word(rest)?;
    let (rows, rest) = rows(alloc, depth, rest)?;
    Ok((row_source(alloc, rows)?, rest))
}

/// ON DUPLICATE KEY UPDATE and its items, or nothing.
fn on_duplicate<'t>(
    alloc: Global,
    depth: u32,
    rest: Rest<'t>,
) -> Result<(Kept<List<ColumnSet>>, Rest<'t>), Stop<'t>>
    ensures { Keeps view_sets depth_of_sets result ((spec.on_duplicate depth).read rest.entry) }
{
    if !rest.is_key(Keyword::On) {
        return Ok((nothing(List::new(alloc)), rest));
    }
    let ((), rest) = rest.skip_key(Keyword::On)?;
    let ((), rest) = rest.skip_key(Keyword::Duplicate)?;
    let ((), rest) = rest.skip_key(Keyword::Key)?;
    let ((), rest) = rest.skip_key(Keyword::Update)?;
    sets(alloc, depth, rest)
}

/// An INSERT of these parts.
fn inserted(
    ignore: bool,
    table: Bytes,
    columns: Option<List<Bytes>>,
    source: Kept<Boxed<Source>>,
    update: Kept<List<ColumnSet>>,
) -> Kept<Stmt>
    ensures { result ≡ in_place (λ p. Stmt.Insert (record { ignore = ignore; table = table; columns = columns; source = p.0; update = p.1 })) (above (beside source update)) }
{
    held!(above(beside(source, update)), (source, update) => Stmt::Insert(InsertStmt {
        ignore,
        table,
        columns,
        source: source.into_inner(),
        update,
    }))
}

/// INSERT.
fn insert<'t>(alloc: Global, depth: u32, rest: Rest<'t>) -> Result<(Kept<Stmt>, Rest<'t>), Stop<'t>>
    ensures { Keeps view depth_of result ((spec.insert depth).read rest.entry) }
{
    let ((), rest) = rest.skip_key(Keyword::Insert)?;
    let (ignore, rest) = ignore(rest)?;
    let (table, rest) = into(alloc, rest)?;
    let (columns, rest) = columns(alloc, depth, rest)?;
    let (source, rest) = source(alloc, depth, rest)?;
    let (update, rest) = on_duplicate(alloc, depth, rest)?;
    Ok((inserted(ignore, table, columns, source, update), rest))
}

/// A REPLACE of these parts.
fn replaced(table: Bytes, columns: Option<List<Bytes>>, source: Kept<Boxed<Source>>) -> Kept<Stmt>
    ensures { result ≡ in_place (λ s. Stmt.Replace (record { table = table; columns = columns; source = s })) (above source) }
{
    held!(above(source), a => Stmt::Replace(ReplaceStmt {
        table,
        columns,
        source: a.into_inner(),
    }))
}

/// REPLACE.
fn replace<'t>(
    alloc: Global,
    depth: u32,
    rest: Rest<'t>,
) -> Result<(Kept<Stmt>, Rest<'t>), Stop<'t>>
    ensures { Keeps view depth_of result ((spec.replace depth).read rest.entry) }
{
    let ((), rest) = rest.skip_key(Keyword::Replace)?;
    let (table, rest) = into(alloc, rest)?;
    let (columns, rest) = columns(alloc, depth, rest)?;
    let (source, rest) = source(alloc, depth, rest)?;
    Ok((replaced(table, columns, source), rest))
}

/// An UPDATE of these parts.
fn updated(
    table: Bytes,
    sets: Kept<List<ColumnSet>>,
    filter: Kept<Option<Boxed<Expr>>>,
    order: Kept<List<OrderItem>>,
    limit: Option<Count>,
) -> Kept<Stmt>
    ensures { result ≡ in_place (λ p. Stmt.Update (record { table = table; sets = p.0; filter = p.1.0; order = p.1.1; limit = limit })) (above (beside sets (beside filter order))) }
{
    held!(above(beside(sets, beside(filter, order))), (sets, (filter, order)) => Stmt::Update(UpdateStmt {
        table,
        sets,
        filter: owned(filter),
        order,
        limit,
    }))
}

/// UPDATE.
fn update<'t>(alloc: Global, depth: u32, rest: Rest<'t>) -> Result<(Kept<Stmt>, Rest<'t>), Stop<'t>>
    ensures { Keeps view depth_of result ((spec.update depth).read rest.entry) }
{
    let ((), rest) = rest.skip_key(Keyword::Update)?;
    let (table, rest) = a_name(alloc, rest)?;
    let ((), rest) = rest.skip_key(Keyword::Set)?;
    let (sets, rest) = sets(alloc, depth, rest)?;
    let (filter, rest) = where_part(alloc, depth, rest)?;
    let (order, rest) = order(alloc, depth, rest)?;
    let (limit, rest) = limit(alloc, rest)?;
    Ok((updated(table, sets, filter, order, limit), rest))
}

/// A DELETE of these parts.
fn deleted(
    table: Bytes,
    filter: Kept<Option<Boxed<Expr>>>,
    order: Kept<List<OrderItem>>,
    limit: Option<Count>,
) -> Kept<Stmt>
    ensures { result ≡ in_place (λ p. Stmt.Delete (record { table = table; filter = p.0; order = p.1; limit = limit })) (above (beside filter order)) }
{
    held!(above(beside(filter, order)), (filter, order) => Stmt::Delete(DeleteStmt {
        table,
        filter: owned(filter),
        order,
        limit,
    }))
}

/// DELETE.
fn delete<'t>(alloc: Global, depth: u32, rest: Rest<'t>) -> Result<(Kept<Stmt>, Rest<'t>), Stop<'t>>
    ensures { Keeps view depth_of result ((spec.delete depth).read rest.entry) }
{
    let ((), rest) = rest.skip_key(Keyword::Delete)?;
    let ((), rest) = rest.skip_key(Keyword::From)?;
    let (table, rest) = a_name(alloc, rest)?;
    let (filter, rest) = where_part(alloc, depth, rest)?;
    let (order, rest) = order(alloc, depth, rest)?;
    let (limit, rest) = limit(alloc, rest)?;
    Ok((deleted(table, filter, order, limit), rest))
}

/// A statement that changes rows.
pub fn change<'t>(
    alloc: Global,
    depth: u32,
    rest: Rest<'t>,
) -> Result<(Kept<Stmt>, Rest<'t>), Stop<'t>>
    ensures { Keeps view depth_of result ((spec.change depth).read rest.entry) }
{
    if rest.is_key(Keyword::Insert) {
        return insert(alloc, depth, rest);
    }
    if rest.is_key(Keyword::Replace) {
        return replace(alloc, depth, rest);
    }
    if rest.is_key(Keyword::Update) {
        return update(alloc, depth, rest);
    }
    delete(alloc, depth, rest)
}
