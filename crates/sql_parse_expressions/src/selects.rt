//! SELECT.
ghost use Rattle.sql_grammar.specs.Rule.{both, mapped, optional, paired, token};
ghost use Rattle.sql_lex.specs.declared.keyword.Keyword.TheVariants as words;
ghost use Rattle.sql_syntax.specs.Expressions as spec;
ghost use Rattle.sql_parse_tokens.specs.Gives.{Gives};
ghost use Rattle.sql_parse_nodes.specs.Kept.{Keeps, depth_of_aggregate, view_beside, depth_beside};
ghost use Rattle.sql_syntax.specs.Parts as part;
ghost use Rattle.sql_syntax.specs.Selects as selects;
ghost use Rattle.sql_syntax.specs.Tokens.{kind, code, keyword_said};
ghost use Rattle.sql_tree.specs.Depth.{depth_of_tree, depth_of_part, depth_of_query, depth_of_origin, depth_of_orders, deepest};
ghost use Rattle.sql_tree.specs.Tree.{no_origin};
ghost use Rattle.sql_tree.specs.View.{view_tree, view_part, view_query, view_aggregate, view_origin, view_order, view_orders, orders_of};
ghost use Rattle.std.specs.Prelude.{◌≡◌, ◌∷◌, [], Some, map, pred};

use crate::expressions::{list, whole};
use crate::primaries::closed_whole;
use sql_lex::{Keyword, Symbol};
use sql_parse_nodes::kept::{Kept, alone, alone_boxed, beside, empty, push, push_boxed};
use sql_parse_nodes::nodes;
use sql_parse_nodes::nodes::{
    Conditions, Ordering, aggregate, aggregates, all_columns, count_all, from_clause, items,
    no_origin, no_part, order_item, part,
};
use sql_parse_tokens::fault::Stop;
use sql_parse_tokens::kinds::FIRST_WORD;
use sql_parse_tokens::limits::limits;
use sql_parse_tokens::opening::open_mark;
use sql_parse_tokens::parts::a_name;
use sql_parse_tokens::rest::Rest;
use sql_tree::{Aggregate, Expr, FromClause, OrderItem, Select};
use std::alloc::Global;
use val_types::{Agg, Boxed, List};

/// Names of aggregates.
const AGGREGATES: [u8; 4] = [
    FIRST_WORD + Keyword::Count as u8,
    FIRST_WORD + Keyword::Sum as u8,
    FIRST_WORD + Keyword::Min as u8,
    FIRST_WORD + Keyword::Max as u8,
];

/// Those that always take an expression.
const ONE_SIDED: [u8; 3] = [
    FIRST_WORD + Keyword::Sum as u8,
    FIRST_WORD + Keyword::Min as u8,
    FIRST_WORD + Keyword::Max as u8,
];

/// The kind of the opening parenthesis.
const OPEN: u8 = Symbol::Open as u8;

/// A SELECT.
#[cycle(expressions)]
pub fn select<'t>(
    alloc: Global,
    depth: u32,
    rest: Rest<'t>,
) -> Result<(Kept<Boxed<Select>>, Rest<'t>), Stop<'t>>
    ensures { Keeps view_query depth_of_query result
        ((spec.nested depth).select.read rest.entry) }
{
    let ((), rest) = rest.skip_key(Keyword::Select)?;
    selection(alloc, depth, rest)
}

/// A SELECT with exactly one item that is not `*`.
#[cycle(expressions)]
pub fn single<'t>(
    alloc: Global,
    depth: u32,
    rest: Rest<'t>,
) -> Result<(Kept<Boxed<Select>>, Rest<'t>), Stop<'t>>
    ensures { Keeps view_query depth_of_query result
        ((spec.nested depth).single.read rest.entry) }
{
    let ((), rest) = rest.skip_key(Keyword::Select)?;
    single_selection(alloc, depth, rest)
}

/// What stands behind the SELECT of a subquery.
#[cycle(expressions)]
fn single_selection<'t>(
    alloc: Global,
    depth: u32,
    rest: Rest<'t>,
) -> Result<(Kept<Boxed<Select>>, Rest<'t>), Stop<'t>>
    ensures { Keeps view_query depth_of_query result
        ((selects.single_selected depth (spec.nested depth).whole (spec.nested (pred depth)).whole).read rest.entry) }
{
    if rest.are_in(&AGGREGATES, &[OPEN]) {
        return aggregated_one(alloc, depth, rest);
    }
    itemized_one(alloc, depth, rest)
}

/// What stands behind the word SELECT.
#[cycle(expressions)]
fn selection<'t>(
    alloc: Global,
    depth: u32,
    rest: Rest<'t>,
) -> Result<(Kept<Boxed<Select>>, Rest<'t>), Stop<'t>>
    ensures { Keeps view_query depth_of_query result
        ((selects.selected depth (spec.nested depth).whole (spec.nested (pred depth)).whole).read rest.entry) }
{
    if rest.is_mark(Symbol::Star) {
        let ((), rest) = rest.skip_mark(Symbol::Star)?;
        let (from, rest) = from_part(alloc, depth, rest)?;
        return Ok((nodes::select(alloc, all_columns(), from)?, rest));
    }
    if rest.are_in(&AGGREGATES, &[OPEN]) {
        return aggregated(alloc, depth, rest);
    }
    itemized(alloc, depth, rest)
}

/// Expressions, with FROM or not.
#[cycle(expressions)]
fn itemized<'t>(
    alloc: Global,
    depth: u32,
    rest: Rest<'t>,
) -> Result<(Kept<Boxed<Select>>, Rest<'t>), Stop<'t>>
    ensures { Keeps view_query depth_of_query result
        ((selects.itemized (spec.nested depth).whole).read rest.entry) }
{
    let (what, rest) = list(alloc, depth, rest)?;
    let (from, rest) = origin(alloc, depth, rest)?;
    Ok((nodes::select(alloc, items(what), from)?, rest))
}

/// One expression, with FROM or not.
#[cycle(expressions)]
fn itemized_one<'t>(
    alloc: Global,
    depth: u32,
    rest: Rest<'t>,
) -> Result<(Kept<Boxed<Select>>, Rest<'t>), Stop<'t>>
    ensures { Keeps view_query depth_of_query result
        ((selects.itemized_one (spec.nested depth).whole).read rest.entry) }
{
    let (what, rest) = whole(alloc, depth, rest)?;
    let what = alone_boxed(alloc, what)?;
    let (from, rest) = origin(alloc, depth, rest)?;
    Ok((nodes::select(alloc, items(what), from)?, rest))
}

/// Aggregates, with FROM and WHERE.
#[cycle(expressions)]
fn aggregated<'t>(
    alloc: Global,
    depth: u32,
    rest: Rest<'t>,
) -> Result<(Kept<Boxed<Select>>, Rest<'t>), Stop<'t>>
    ensures { Keeps view_query depth_of_query result
        ((selects.aggregated depth (spec.nested depth).whole (spec.nested (pred depth)).whole).read rest.entry) }
{
    let (what, rest) = aggregate_list(alloc, depth, rest)?;
    let (from, rest) = plain_from(alloc, depth, rest)?;
    Ok((nodes::select(alloc, aggregates(what), from)?, rest))
}

/// One aggregate, with FROM and WHERE.
#[cycle(expressions)]
fn aggregated_one<'t>(
    alloc: Global,
    depth: u32,
    rest: Rest<'t>,
) -> Result<(Kept<Boxed<Select>>, Rest<'t>), Stop<'t>>
    ensures { Keeps view_query depth_of_query result
        ((selects.aggregated_one depth (spec.nested depth).whole (spec.nested (pred depth)).whole).read rest.entry) }
{
    let (what, rest) = one_aggregate(alloc, depth, rest)?;
    let what = alone(alloc, what)?;
    let (from, rest) = plain_from(alloc, depth, rest)?;
    Ok((nodes::select(alloc, aggregates(what), from)?, rest))
}

/// Aggregates with commas between.
#[cycle(expressions)]
fn aggregate_list<'t>(
    alloc: Global,
    depth: u32,
    rest: Rest<'t>,
) -> Result<(Kept<List<Aggregate>>, Rest<'t>), Stop<'t>>
    ensures { Keeps (map view_aggregate) (deepest depth_of_aggregate) result
        ((part.list_of (selects.agg depth (spec.nested (pred depth)).whole)).read rest.entry) }
{
    let (first, mut rest) = one_aggregate(alloc, depth, rest)?;
    let mut list = alone(alloc, first)?;
    for _turn in 0..rest.len() {
        if !rest.is_mark(Symbol::Comma) {
            return Ok((list, rest));
        }
        let ((), after) = rest.skip_mark(Symbol::Comma)?;
        let (item, after) = one_aggregate(alloc, depth, after)?;
        list = push(list, item)?;
        rest = after;
    }
    Ok((list, rest))
}

/// `COUNT(*)`, or an aggregate of an expression.
#[cycle(expressions)]
fn one_aggregate<'t>(
    alloc: Global,
    depth: u32,
    rest: Rest<'t>,
) -> Result<(Kept<Aggregate>, Rest<'t>), Stop<'t>>
    ensures { Keeps view_aggregate depth_of_aggregate result
        ((selects.agg depth (spec.nested (pred depth)).whole).read rest.entry) }
{
    if rest.is_key(Keyword::Count) {
        let ((), rest) = rest.skip_key(Keyword::Count)?;
        let (inside, rest) = open_mark(depth, Symbol::Open, rest)?;
        return counted(alloc, inside, rest);
    }
    let (function, rest) = one_sided(rest)?;
    let (inside, rest) = open_mark(depth, Symbol::Open, rest)?;
    let (a, rest) = closed_whole(alloc, inside, rest)?;
    Ok((aggregate(function, a), rest))
}

/// The aggregate that a word names.
fn function_of(word: Option<Keyword>) -> Agg
    ensures { result ≡ selects.function_of word }
{
    match word {
        Some(Keyword::Sum) => Agg::Sum,
        Some(Keyword::Min) => Agg::Min,
        _ => Agg::Max,
    }
}

/// SUM, MIN or MAX.
fn one_sided<'t>(rest: Rest<'t>) -> Result<(Agg, Rest<'t>), Stop<'t>>
    ensures { Gives (λ f. f) result
        ((token kind selects.one_sided (λ t. Some (selects.function_of (keyword_said t)))).read rest.entry) }
{
    let (word, rest) = rest.take(&ONE_SIDED)?;
    Ok((function_of(word.key()), rest))
}

/// `*` or an expression, and the closing parenthesis: what stands in COUNT's.
#[cycle(expressions)]
fn counted<'t>(
    alloc: Global,
    depth: u32,
    rest: Rest<'t>,
) -> Result<(Kept<Aggregate>, Rest<'t>), Stop<'t>>
    ensures { Keeps view_aggregate depth_of_aggregate result
        ((selects.counted (spec.nested depth).whole).read rest.entry) }
{
    if rest.is_mark(Symbol::Star) {
        let ((), rest) = rest.skip_mark(Symbol::Star)?;
        let ((), rest) = rest.skip_mark(Symbol::Close)?;
        return Ok((count_all(), rest));
    }
    let (a, rest) = whole(alloc, depth, rest)?;
    let ((), rest) = rest.skip_mark(Symbol::Close)?;
    Ok((aggregate(Agg::Count, a), rest))
}

/// FROM and what stands behind it, or nothing.
#[cycle(expressions)]
fn origin<'t>(
    alloc: Global,
    depth: u32,
    rest: Rest<'t>,
) -> Result<(Kept<Option<FromClause>>, Rest<'t>), Stop<'t>>
    ensures { Keeps view_origin depth_of_origin result
        ((optional kind (code words.From ∷ []) no_origin (selects.from_part (spec.nested depth).whole)).read rest.entry) }
{
    if !rest.is_key(Keyword::From) {
        return Ok((no_origin(), rest));
    }
    from_part(alloc, depth, rest)
}

/// FROM, WHERE, ORDER BY and LIMIT.
#[cycle(expressions)]
fn from_part<'t>(
    alloc: Global,
    depth: u32,
    rest: Rest<'t>,
) -> Result<(Kept<Option<FromClause>>, Rest<'t>), Stop<'t>>
    ensures { Keeps view_origin depth_of_origin result
        ((selects.from_part (spec.nested depth).whole).read rest.entry) }
{
    let ((), rest) = rest.skip_key(Keyword::From)?;
    let (table, rest) = a_name(alloc, rest)?;
    let (conditions, rest) = conditions(alloc, depth, rest)?;
    Ok((from_clause(table, conditions), rest))
}

/// WHERE, ORDER BY and LIMIT.
#[cycle(expressions)]
fn conditions<'t>(
    alloc: Global,
    depth: u32,
    rest: Rest<'t>,
) -> Result<(Kept<Conditions>, Rest<'t>), Stop<'t>>
    ensures { Keeps (view_beside view_part (view_beside view_orders (λ l. l))) (depth_beside depth_of_part (λ o. depth_of_orders o.0)) result
        ((selects.conditions (spec.nested depth).whole).read rest.entry) }
{
    let (filter, rest) = where_part(alloc, depth, rest)?;
    let (ordering, rest) = ordering(alloc, depth, rest)?;
    Ok((beside(filter, ordering), rest))
}

/// ORDER BY and LIMIT.
#[cycle(expressions)]
fn ordering<'t>(
    alloc: Global,
    depth: u32,
    rest: Rest<'t>,
) -> Result<(Kept<Ordering>, Rest<'t>), Stop<'t>>
    ensures { Keeps (view_beside view_orders (λ l. l)) (λ o. depth_of_orders o.0) result
        ((selects.ordering (spec.nested depth).whole).read rest.entry) }
{
    let (order, rest) = order(alloc, depth, rest)?;
    let (limit, rest) = limits(alloc, rest)?;
    Ok((nodes::ordering(order, limit), rest))
}

/// FROM and WHERE.
#[cycle(expressions)]
fn plain_from<'t>(
    alloc: Global,
    depth: u32,
    rest: Rest<'t>,
) -> Result<(Kept<Option<FromClause>>, Rest<'t>), Stop<'t>>
    ensures { Keeps view_origin depth_of_origin result
        ((selects.plain_from (spec.nested depth).whole).read rest.entry) }
{
    let ((), rest) = rest.skip_key(Keyword::From)?;
    let (table, rest) = a_name(alloc, rest)?;
    let (filter, rest) = where_part(alloc, depth, rest)?;
    Ok((nodes::plain_from(alloc, table, filter), rest))
}

/// [WHERE expr]
#[cycle(expressions)]
pub fn where_part<'t>(
    alloc: Global,
    depth: u32,
    rest: Rest<'t>,
) -> Result<(Kept<Option<Boxed<Expr>>>, Rest<'t>), Stop<'t>>
    ensures { Keeps view_part depth_of_part result
        ((selects.where_part (spec.nested depth).whole).read rest.entry) }
{
    if !rest.is_key(Keyword::Where) {
        return Ok((no_part(), rest));
    }
    let ((), rest) = rest.skip_key(Keyword::Where)?;
    let (a, rest) = whole(alloc, depth, rest)?;
    Ok((part(a), rest))
}

/// [ORDER BY ..]
#[cycle(expressions)]
pub fn order<'t>(
    alloc: Global,
    depth: u32,
    rest: Rest<'t>,
) -> Result<(Kept<List<OrderItem>>, Rest<'t>), Stop<'t>>
    ensures { Keeps view_orders depth_of_orders result
        ((selects.order (spec.nested depth).whole).read rest.entry) }
{
    if !rest.is_key(Keyword::Order) {
        return Ok((empty(alloc), rest));
    }
    let ((), rest) = rest.skip_key(Keyword::Order)?;
    let ((), rest) = rest.skip_key(Keyword::By)?;
    order_list(alloc, depth, rest)
}

/// The items of ORDER BY.
#[cycle(expressions)]
fn order_list<'t>(
    alloc: Global,
    depth: u32,
    rest: Rest<'t>,
) -> Result<(Kept<List<OrderItem>>, Rest<'t>), Stop<'t>>
    ensures { Keeps view_orders depth_of_orders result
        ((mapped orders_of (part.list_of (both paired (spec.nested depth).whole selects.direction))).read rest.entry) }
{
    let (first, mut rest) = order_one(alloc, depth, rest)?;
    let mut list = alone_boxed(alloc, first)?;
    for _turn in 0..rest.len() {
        if !rest.is_mark(Symbol::Comma) {
            return Ok((list, rest));
        }
        let ((), after) = rest.skip_mark(Symbol::Comma)?;
        let (item, after) = order_one(alloc, depth, after)?;
        list = push_boxed(list, item)?;
        rest = after;
    }
    Ok((list, rest))
}

/// An item of ORDER BY.
#[cycle(expressions)]
fn order_one<'t>(
    alloc: Global,
    depth: u32,
    rest: Rest<'t>,
) -> Result<(Kept<Boxed<OrderItem>>, Rest<'t>), Stop<'t>>
    ensures { Keeps view_order (λ o. depth_of_tree o.0) result
        ((both paired (spec.nested depth).whole selects.direction).read rest.entry) }
{
    let (by, rest) = whole(alloc, depth, rest)?;
    let (descending, rest) = direction(rest)?;
    Ok((order_item(alloc, by, descending)?, rest))
}

/// [ASC | DESC]
fn direction<'t>(rest: Rest<'t>) -> Result<(bool, Rest<'t>), Stop<'t>>
    ensures { Gives (λ d. d) result (selects.direction.read rest.entry) }
{
    if rest.is_key(Keyword::Desc) {
        let ((), rest) = rest.skip_key(Keyword::Desc)?;
        return Ok((true, rest));
    }
    if !rest.is_key(Keyword::Asc) {
        return Ok((false, rest));
    }
    let ((), rest) = rest.skip_key(Keyword::Asc)?;
    Ok((false, rest))
}
