//! Calls by name, names and literals.
ghost use Rattle.sql_grammar.specs.Rule.{both, mapped, token};
ghost use Rattle.sql_syntax.specs.Expressions as spec;
ghost use Rattle.sql_parse_nodes.specs.Kept.{Keeps};
ghost use Rattle.sql_syntax.specs.Parts as part;
ghost use Rattle.sql_lex.specs.declared.token.Symbol.TheVariants as signs;
ghost use Rattle.sql_syntax.specs.Tokens.{kind, own_names, sign};
ghost use Rattle.sql_parse_tokens.specs.Gives.{Gives};
ghost use Rattle.sql_tree.specs.Depth.{depth_of_tree, depth_of_trees};
ghost use Rattle.sql_tree.specs.View.{view_tree, view_trees};
ghost use Rattle.std.specs.Prelude.{Some, pred};

use crate::expressions::{closed_list, prefix};
use crate::primaries::{closed_whole, three_arguments, two_arguments};
use sql_lex::{Keyword, Symbol};
use sql_parse_nodes::kept::{Kept, empty};
use sql_parse_nodes::leaves::{column, constant, plain_literal};
use sql_parse_nodes::nodes::{call, floor_rand, func_n, func0, func1, func2, func3};
use sql_parse_tokens::fault::Stop;
use sql_parse_tokens::kinds::{
    FIRST_WORD, NUMBER, OF_MANY, OF_NONE, OF_ONE, OF_THREE, OF_TWO, TEXT,
};
use sql_parse_tokens::opening::open_mark;
use sql_parse_tokens::rest::Rest;
use sql_tree::Expr;
use std::alloc::Global;
use val_types::{Boxed, List};

/// The kind of NULL.
const NULL: u8 = FIRST_WORD + Keyword::Null as u8;

/// The kind of NAME_CONST.
const NAME_CONST: u8 = FIRST_WORD + Keyword::NameConst as u8;

/// The kind of FLOOR.
const FLOOR: u8 = FIRST_WORD + Keyword::Floor as u8;

/// The kinds of the names of built-ins, of those too that have a rule of their own.
const BUILT_INS: [u8; 7] = [
    OF_NONE, OF_ONE, OF_TWO, OF_THREE, OF_MANY, NAME_CONST, FLOOR,
];

/// Aggregates, and RAND: names that no expression calls.
const UNCALLED: [u8; 5] = [
    FIRST_WORD + Keyword::Count as u8,
    FIRST_WORD + Keyword::Sum as u8,
    FIRST_WORD + Keyword::Min as u8,
    FIRST_WORD + Keyword::Max as u8,
    FIRST_WORD + Keyword::Rand as u8,
];

/// A name, a call by name or a literal, of which the first token decides.
#[cycle(expressions)]
pub fn by_name<'t>(
    alloc: Global,
    depth: u32,
    rest: Rest<'t>,
) -> Result<(Kept<Boxed<Expr>>, Rest<'t>), Stop<'t>>
    ensures { Keeps view_tree depth_of_tree result
        ((spec.by_name depth (spec.nested (pred depth))).read rest.entry) }
{
    if rest.is_in(&BUILT_INS) {
        return built_ins(alloc, depth, rest);
    }
    if rest.is_in(&UNCALLED) {
        return uncalled(alloc, rest);
    }
    if rest.is_in(&[NUMBER, TEXT, NULL]) {
        return plain_literal(alloc, rest);
    }
    name_or_call(alloc, depth, rest)
}

/// A column or a table's, where the name is an aggregate's or RAND.
fn uncalled<'t>(alloc: Global, rest: Rest<'t>) -> Result<(Kept<Boxed<Expr>>, Rest<'t>), Stop<'t>>
    ensures { Keeps view_tree depth_of_tree result
        ((both spec.named (token kind spec.uncalled_names (λ t. Some t)) spec.column_tail).read rest.entry) }
{
    let (word, rest) = rest.take(&UNCALLED)?;
    column(alloc, word, rest)
}

/// A name, or a call of a stored function.
#[cycle(expressions)]
fn name_or_call<'t>(
    alloc: Global,
    depth: u32,
    rest: Rest<'t>,
) -> Result<(Kept<Boxed<Expr>>, Rest<'t>), Stop<'t>>
    ensures { Keeps view_tree depth_of_tree result
        ((both spec.named (token kind own_names (λ t. Some t)) (spec.name_tail depth (spec.nested (pred depth)).whole)).read rest.entry) }
{
    let (word, rest) = rest.take_own_name()?;
    if !rest.is_mark(Symbol::Open) {
        return column(alloc, word, rest);
    }
    let (inside, rest) = open_mark(depth, Symbol::Open, rest)?;
    let (items, rest) = arguments(alloc, inside, rest)?;
    Ok((call(alloc, word.name(alloc)?, items)?, rest))
}

/// Expressions, none too, and the closing parenthesis.
#[cycle(expressions)]
pub fn arguments<'t>(
    alloc: Global,
    depth: u32,
    rest: Rest<'t>,
) -> Result<(Kept<List<Expr>>, Rest<'t>), Stop<'t>>
    ensures { Keeps view_trees depth_of_trees result
        ((part.arguments (spec.nested depth).whole).read rest.entry) }
{
    if !rest.is_mark(Symbol::Close) {
        return closed_list(alloc, depth, rest);
    }
    let ((), rest) = rest.skip_mark(Symbol::Close)?;
    Ok((empty(alloc), rest))
}

/// A built-in with its arguments, or its name as a column or a table.
#[cycle(expressions)]
fn built_ins<'t>(
    alloc: Global,
    depth: u32,
    rest: Rest<'t>,
) -> Result<(Kept<Boxed<Expr>>, Rest<'t>), Stop<'t>>
    ensures { Keeps view_tree depth_of_tree result
        ((spec.built_ins depth (spec.nested (pred depth))).read rest.entry) }
{
    if rest.is_in(&[OF_NONE]) {
        return with_none(alloc, depth, rest);
    }
    if rest.is_in(&[OF_ONE]) {
        return with_one(alloc, depth, rest);
    }
    if rest.is_in(&[OF_TWO]) {
        return with_two(alloc, depth, rest);
    }
    if rest.is_in(&[OF_THREE]) {
        return with_three(alloc, depth, rest);
    }
    if rest.is_in(&[OF_MANY]) {
        return with_many(alloc, depth, rest);
    }
    if rest.is_key(Keyword::NameConst) {
        return name_const_call(alloc, depth, rest);
    }
    floor_call(alloc, depth, rest)
}

/// A built-in without arguments, as NOW.
fn with_none<'t>(
    alloc: Global,
    depth: u32,
    rest: Rest<'t>,
) -> Result<(Kept<Boxed<Expr>>, Rest<'t>), Stop<'t>>
    ensures { Keeps view_tree depth_of_tree result ((spec.of_none depth).read rest.entry) }
{
    let (word, rest) = rest.take(&[OF_NONE])?;
    if !rest.is_mark(Symbol::Open) {
        return column(alloc, word, rest);
    }
    let (_, rest) = open_mark(depth, Symbol::Open, rest)?;
    let ((), rest) = rest.skip_mark(Symbol::Close)?;
    Ok((func0(alloc, word.none())?, rest))
}

/// A built-in of one argument, as ABS.
#[cycle(expressions)]
fn with_one<'t>(
    alloc: Global,
    depth: u32,
    rest: Rest<'t>,
) -> Result<(Kept<Boxed<Expr>>, Rest<'t>), Stop<'t>>
    ensures { Keeps view_tree depth_of_tree result
        ((spec.of_one depth (spec.nested (pred depth)).whole).read rest.entry) }
{
    let (word, rest) = rest.take(&[OF_ONE])?;
    if !rest.is_mark(Symbol::Open) {
        return column(alloc, word, rest);
    }
    let (inside, rest) = open_mark(depth, Symbol::Open, rest)?;
    let (a, rest) = closed_whole(alloc, inside, rest)?;
    Ok((func1(alloc, word.one(), a)?, rest))
}

/// A built-in of two arguments, as IFNULL.
#[cycle(expressions)]
fn with_two<'t>(
    alloc: Global,
    depth: u32,
    rest: Rest<'t>,
) -> Result<(Kept<Boxed<Expr>>, Rest<'t>), Stop<'t>>
    ensures { Keeps view_tree depth_of_tree result
        ((spec.of_two depth (spec.nested (pred depth)).whole).read rest.entry) }
{
    let (word, rest) = rest.take(&[OF_TWO])?;
    if !rest.is_mark(Symbol::Open) {
        return column(alloc, word, rest);
    }
    let (inside, rest) = open_mark(depth, Symbol::Open, rest)?;
    let (two, rest) = two_arguments(alloc, inside, rest)?;
    Ok((func2(alloc, word.two(), two)?, rest))
}

/// A built-in of three arguments, as SUBSTRING.
#[cycle(expressions)]
fn with_three<'t>(
    alloc: Global,
    depth: u32,
    rest: Rest<'t>,
) -> Result<(Kept<Boxed<Expr>>, Rest<'t>), Stop<'t>>
    ensures { Keeps view_tree depth_of_tree result
        ((spec.of_three depth (spec.nested (pred depth)).whole).read rest.entry) }
{
    let (word, rest) = rest.take(&[OF_THREE])?;
    if !rest.is_mark(Symbol::Open) {
        return column(alloc, word, rest);
    }
    let (inside, rest) = open_mark(depth, Symbol::Open, rest)?;
    let (three, rest) = three_arguments(alloc, inside, rest)?;
    Ok((func3(alloc, word.three(), three)?, rest))
}

/// A built-in of one argument or more, as CONCAT.
#[cycle(expressions)]
fn with_many<'t>(
    alloc: Global,
    depth: u32,
    rest: Rest<'t>,
) -> Result<(Kept<Boxed<Expr>>, Rest<'t>), Stop<'t>>
    ensures { Keeps view_tree depth_of_tree result
        ((spec.of_many depth (spec.nested (pred depth)).whole).read rest.entry) }
{
    let (word, rest) = rest.take(&[OF_MANY])?;
    if !rest.is_mark(Symbol::Open) {
        return column(alloc, word, rest);
    }
    let (inside, rest) = open_mark(depth, Symbol::Open, rest)?;
    let (items, rest) = closed_list(alloc, inside, rest)?;
    Ok((func_n(alloc, word.many(), items)?, rest))
}

/// NAME_CONST.
fn name_const_call<'t>(
    alloc: Global,
    depth: u32,
    rest: Rest<'t>,
) -> Result<(Kept<Boxed<Expr>>, Rest<'t>), Stop<'t>>
    ensures { Keeps view_tree depth_of_tree result ((spec.of_name_const depth).read rest.entry) }
{
    let (word, rest) = rest.take(&[NAME_CONST])?;
    if !rest.is_mark(Symbol::Open) {
        return column(alloc, word, rest);
    }
    let (_, rest) = open_mark(depth, Symbol::Open, rest)?;
    constant(alloc, rest)
}

/// FLOOR.
#[cycle(expressions)]
fn floor_call<'t>(
    alloc: Global,
    depth: u32,
    rest: Rest<'t>,
) -> Result<(Kept<Boxed<Expr>>, Rest<'t>), Stop<'t>>
    ensures { Keeps view_tree depth_of_tree result
        ((spec.of_floor depth (spec.nested (pred depth)).prefix).read rest.entry) }
{
    let (word, rest) = rest.take(&[FLOOR])?;
    if !rest.is_mark(Symbol::Open) {
        return column(alloc, word, rest);
    }
    let (inside, rest) = open_mark(depth, Symbol::Open, rest)?;
    random(alloc, inside, rest)
}

/// `RAND() * operand)`: what stands in FLOOR's.
#[cycle(expressions)]
fn random<'t>(
    alloc: Global,
    depth: u32,
    rest: Rest<'t>,
) -> Result<(Kept<Boxed<Expr>>, Rest<'t>), Stop<'t>>
    ensures { Keeps view_tree depth_of_tree result
        ((spec.random depth (spec.nested depth).prefix).read rest.entry) }
{
    let ((), rest) = rest.skip_key(Keyword::Rand)?;
    let ((), rest) = empty_parentheses(depth, rest)?;
    let ((), rest) = rest.skip_mark(Symbol::Star)?;
    let (a, rest) = prefix(alloc, depth, rest)?;
    let ((), rest) = rest.skip_mark(Symbol::Close)?;
    Ok((floor_rand(alloc, a)?, rest))
}

/// `()`
fn empty_parentheses<'t>(depth: u32, rest: Rest<'t>) -> Result<((), Rest<'t>), Stop<'t>>
    ensures { Gives (λ u. u) result
        ((part.in_parentheses depth (sign signs.Close)).read rest.entry) }
{
    let (_, rest) = open_mark(depth, Symbol::Open, rest)?;
    rest.skip_mark(Symbol::Close)
}
