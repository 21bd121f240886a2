//! LIMIT.
ghost use Rattle.std.specs.Prelude.{◌≡◌};
ghost use Rattle.sql_parse_tokens.specs.Gives.{Gives};
ghost use Rattle.sql_grammar.specs.Rule.{mapped};
ghost use Rattle.sql_syntax.specs.Selects as spec;

use crate::fault::Stop;
use crate::kinds::NUMBER;
use crate::parts::{a_name, a_number};
use crate::rest::Rest;
use sql_lex::{Keyword, Symbol};
use sql_tree::{Count, Limit};
use std::alloc::Global;

/// A number, or the name of a local variable.
fn count<'t>(alloc: Global, rest: Rest<'t>) -> Result<(Count, Rest<'t>), Stop<'t>>
    ensures { Gives (λ c. c) result (spec.count.read rest.entry) }
{
    if rest.is_in(&[NUMBER]) {
        let (n, rest) = a_number(rest)?;
        return Ok((Count::Number(n), rest));
    }
    let (name, rest) = a_name(alloc, rest)?;
    Ok((Count::Name(name), rest))
}

/// The LIMIT of UPDATE and DELETE, or nothing.
pub fn limit<'t>(alloc: Global, rest: Rest<'t>) -> Result<(Option<Count>, Rest<'t>), Stop<'t>>
    ensures { Gives (λ c. c) result (spec.limit.read rest.entry) }
{
    if !rest.is_key(Keyword::Limit) {
        return Ok((None, rest));
    }
    let ((), rest) = rest.skip_key(Keyword::Limit)?;
    let (count, rest) = count(alloc, rest)?;
    Ok((Some(count), rest))
}

/// A LIMIT from behind its first count.
fn bounded<'t>(alloc: Global, first: Count, rest: Rest<'t>) -> Result<(Limit, Rest<'t>), Stop<'t>>
    ensures { Gives (λ l. l) result ((mapped (spec.limit_by first) spec.bound).read rest.entry) }
{
    if rest.is_key(Keyword::Offset) {
        let ((), rest) = rest.skip_key(Keyword::Offset)?;
        let (offset, rest) = count(alloc, rest)?;
        let offset = Some(offset);
        return Ok((
            Limit {
                count: first,
                offset,
            },
            rest,
        ));
    }
    if !rest.is_mark(Symbol::Comma) {
        let offset = None;
        return Ok((
            Limit {
                count: first,
                offset,
            },
            rest,
        ));
    }
    let ((), rest) = rest.skip_mark(Symbol::Comma)?;
    let (count, rest) = count(alloc, rest)?;
    let offset = Some(first);
    Ok((Limit { count, offset }, rest))
}

/// The LIMIT of a SELECT, or nothing.
pub fn limits<'t>(alloc: Global, rest: Rest<'t>) -> Result<(Option<Limit>, Rest<'t>), Stop<'t>>
    ensures { Gives (λ l. l) result (spec.limits.read rest.entry) }
{
    if !rest.is_key(Keyword::Limit) {
        return Ok((None, rest));
    }
    let ((), rest) = rest.skip_key(Keyword::Limit)?;
    let (first, rest) = count(alloc, rest)?;
    let (limit, rest) = bounded(alloc, first, rest)?;
    Ok((Some(limit), rest))
}
