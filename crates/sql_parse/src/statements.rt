//! Statements.
ghost use Rattle.std.specs.Prelude.{◌≡◌};
ghost use Rattle.sql_parse_nodes.specs.Kept.{Keeps};
ghost use Rattle.sql_syntax.specs.Programs as programs;
ghost use Rattle.sql_syntax.specs.Statements as spec;
ghost use Rattle.sql_tree.specs.Depth.{depth_of};
ghost use Rattle.sql_tree.specs.StatementView.{view};

use sql_lex::Keyword;
use sql_parse_bodies::bodies::with_kept_body;
use sql_parse_bodies::programs::inner;
use sql_parse_changes::common::{common, leaf};
use sql_parse_definitions::heads::a_head;
use sql_parse_definitions::sessions::{begun, started};
use sql_parse_definitions::tables::table;
use sql_parse_nodes::kept::{Kept, unboxed};
use sql_parse_tokens::fault::Stop;
use sql_parse_tokens::rest::Rest;
use sql_tree::Stmt;
use std::alloc::Global;

/// A stored program from behind CREATE.
fn created<'t>(
    alloc: Global,
    depth: u32,
    rest: Rest<'t>,
) -> Result<(Kept<Stmt>, Rest<'t>), Stop<'t>>
    ensures { Keeps view depth_of result ((programs.created depth (programs.inner depth)).read rest.entry) }
{
    let (head, rest) = a_head(alloc, depth, rest)?;
    let (body, rest) = inner(alloc, depth, rest)?;
    let program = with_kept_body(alloc, head, body)?;
    Ok((unboxed(program), rest))
}

/// CREATE of a table or a stored program.
fn create<'t>(alloc: Global, depth: u32, rest: Rest<'t>) -> Result<(Kept<Stmt>, Rest<'t>), Stop<'t>>
    ensures { Keeps view depth_of result ((programs.create depth (programs.inner depth)).read rest.entry) }
{
    let ((), rest) = rest.skip_key(Keyword::Create)?;
    if !rest.is_key(Keyword::Table) {
        return created(alloc, depth, rest);
    }
    let (part, rest) = table(alloc, depth, rest)?;
    Ok((leaf(Stmt::CreateTable(part)), rest))
}

/// A statement, where so many constructs may still be opened.
pub fn statement<'t>(
    alloc: Global,
    depth: u32,
    rest: Rest<'t>,
) -> Result<(Kept<Stmt>, Rest<'t>), Stop<'t>>
    ensures { Keeps view depth_of result ((spec.statement depth).read rest.entry) }
{
    if rest.is_key(Keyword::Create) {
        return create(alloc, depth, rest);
    }
    if rest.is_key(Keyword::Begin) {
        let (part, rest) = begun(rest)?;
        return Ok((leaf(part), rest));
    }
    if rest.is_key(Keyword::Start) {
        let (part, rest) = started(rest)?;
        return Ok((leaf(part), rest));
    }
    common(alloc, depth, rest)
}
