//! Expressions without parts.
ghost use Rattle.sql_grammar.specs.Rule.{behind, either, mapped};
ghost use Rattle.sql_syntax.specs.Expressions as spec;
ghost use Rattle.sql_parse_nodes.specs.Kept.{IsKept, Keeps};
ghost use Rattle.sql_syntax.specs.Parts as part;
ghost use Rattle.sql_syntax.specs.Tokens as token;
ghost use Rattle.sql_lex.specs.declared.keyword.Keyword.TheVariants as words;
ghost use Rattle.sql_lex.specs.declared.token.Symbol.TheVariants as signs;
ghost use Rattle.sql_tree.specs.Depth.{depth_of_tree};
ghost use Rattle.sql_tree.specs.Tree as tree;
ghost use Rattle.sql_tree.specs.View.{view_tree};
ghost use Rattle.std.specs.Prelude.{◌≡◌, IfOk};

use crate::kept::Kept;
use crate::nodes::leaf;
use sql_lex::{Keyword, Symbol};
use sql_parse_tokens::fault::Stop;
use sql_parse_tokens::opening::open_mark;
use sql_parse_tokens::parts::{a_name, a_text, a_value, negative_value, plain_value, system_name};
use sql_parse_tokens::rest::Rest;
use sql_parse_tokens::word::Word;
use sql_tree::Expr;
use std::alloc::Global;
use val_types::{Boxed, Bytes, NoMemory};

/// A name and the closing parenthesis: what stands in VALUES's.
fn values_name<'t>(alloc: Global, rest: Rest<'t>) -> Result<(Kept<Boxed<Expr>>, Rest<'t>), Stop<'t>>
    ensures { Keeps view_tree depth_of_tree result
        ((mapped tree.values_of (part.closed part.a_name)).read rest.entry) }
{
    let (name, rest) = a_name(alloc, rest)?;
    let ((), rest) = rest.skip_mark(Symbol::Close)?;
    Ok((leaf(alloc, Expr::Values(name))?, rest))
}

/// `VALUES(c)`
pub fn values_call<'t>(
    alloc: Global,
    depth: u32,
    rest: Rest<'t>,
) -> Result<(Kept<Boxed<Expr>>, Rest<'t>), Stop<'t>>
    ensures { Keeps view_tree depth_of_tree result
        ((behind (token.keyword words.Values) (part.in_parentheses depth (mapped tree.values_of (part.closed part.a_name)))).read rest.entry) }
{
    let ((), rest) = rest.skip_key(Keyword::Values)?;
    let (_, rest) = open_mark(depth, Symbol::Open, rest)?;
    values_name(alloc, rest)
}

/// `@x`
pub fn user_variable<'t>(
    alloc: Global,
    rest: Rest<'t>,
) -> Result<(Kept<Boxed<Expr>>, Rest<'t>), Stop<'t>>
    ensures { Keeps view_tree depth_of_tree result
        ((mapped tree.user_variable (behind (token.sign signs.At) part.a_name)).read rest.entry) }
{
    let ((), rest) = rest.skip_mark(Symbol::At)?;
    let (name, rest) = a_name(alloc, rest)?;
    Ok((leaf(alloc, Expr::UserVariable(name))?, rest))
}

/// `@@x`
pub fn system_variable<'t>(
    alloc: Global,
    rest: Rest<'t>,
) -> Result<(Kept<Boxed<Expr>>, Rest<'t>), Stop<'t>>
    ensures { Keeps view_tree depth_of_tree result
        ((mapped tree.system_variable (behind (token.sign signs.AtAt) part.system_name)).read rest.entry) }
{
    let ((), rest) = rest.skip_mark(Symbol::AtAt)?;
    let (name, rest) = system_name(alloc, rest)?;
    Ok((leaf(alloc, Expr::SystemVariable(name))?, rest))
}

/// A number below 0.
pub fn negative_literal<'t>(
    alloc: Global,
    rest: Rest<'t>,
) -> Result<(Kept<Boxed<Expr>>, Rest<'t>), Stop<'t>>
    ensures { Keeps view_tree depth_of_tree result ((mapped tree.literal part.negative_value).read rest.entry) }
{
    let (value, rest) = negative_value(rest)?;
    Ok((leaf(alloc, Expr::Literal(value))?, rest))
}

/// A literal without a sign.
pub fn plain_literal<'t>(
    alloc: Global,
    rest: Rest<'t>,
) -> Result<(Kept<Boxed<Expr>>, Rest<'t>), Stop<'t>>
    ensures { Keeps view_tree depth_of_tree result ((mapped tree.literal part.plain_value).read rest.entry) }
{
    let (value, rest) = plain_value(alloc, rest)?;
    Ok((leaf(alloc, Expr::Literal(value))?, rest))
}

/// A text, a literal, and the closing parenthesis: what stands in NAME_CONST's.
pub fn constant<'t>(
    alloc: Global,
    rest: Rest<'t>,
) -> Result<(Kept<Boxed<Expr>>, Rest<'t>), Stop<'t>>
    ensures { Keeps view_tree depth_of_tree result (spec.constant.read rest.entry) }
{
    let (name, rest) = a_text(alloc, rest)?;
    let ((), rest) = rest.skip_mark(Symbol::Comma)?;
    let (value, rest) = a_value(alloc, rest)?;
    let ((), rest) = rest.skip_mark(Symbol::Close)?;
    Ok((leaf(alloc, Expr::NameConst(name, value))?, rest))
}

/// A column of a table, or of a trigger's row where the word is NEW or OLD without quotes.
fn column_by(alloc: Global, word: &Word<'_>, column: Bytes) -> Result<Kept<Boxed<Expr>>, NoMemory>
    ensures { IfOk result (λ k. IsKept view_tree depth_of_tree
        (spec.column_by (token.keyword_said word.now) (token.name_said word.now) column) k) }
{
    match word.key() {
        Some(Keyword::New) => leaf(alloc, Expr::NewColumn(column)),
        Some(Keyword::Old) => leaf(alloc, Expr::OldColumn(column)),
        _ => leaf(alloc, Expr::Column(word.name(alloc)?, column)),
    }
}

/// A name from behind it: a column or a table's.
pub fn column<'t>(
    alloc: Global,
    word: Word<'t>,
    rest: Rest<'t>,
) -> Result<(Kept<Boxed<Expr>>, Rest<'t>), Stop<'t>>
    ensures { Keeps view_tree depth_of_tree result ((mapped (spec.named word.entry) spec.column_tail).read rest.entry) }
{
    if !rest.is_mark(Symbol::Dot) {
        return Ok((leaf(alloc, Expr::Name(word.name(alloc)?))?, rest));
    }
    let ((), rest) = rest.skip_mark(Symbol::Dot)?;
    let (column, rest) = a_name(alloc, rest)?;
    Ok((column_by(alloc, &word, column)?, rest))
}
