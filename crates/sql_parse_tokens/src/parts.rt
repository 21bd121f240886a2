//! What many rules are made of: names, lists of names, and literals.
ghost use Rattle.std.specs.Prelude.{◌≡◌, length};
ghost use Rattle.sql_parse_tokens.specs.Gives.{Gives};
ghost use Rattle.sql_grammar.specs.Rule.{behind};
ghost use Rattle.sql_lex.specs.declared.token.Symbol.TheVariants as signs;
ghost use Rattle.sql_syntax.specs.Parts as spec;
ghost use Rattle.sql_syntax.specs.Tokens.{sign};

use crate::fault::Stop;
use crate::kinds::{LEAST, NUMBER, TEXT, TIGHT_MINUS, code, sign_code};
use crate::opening::opening;
use crate::rest::Rest;
use sql_lex::{Keyword, Symbol};
use std::alloc::Global;
use val_types::{Bytes, List, Value};

/// A name.
pub fn a_name<'t>(alloc: Global, rest: Rest<'t>) -> Result<(Bytes, Rest<'t>), Stop<'t>>
    ensures { Gives (λ n. n) result (spec.a_name.read rest.entry) }
{
    let (word, rest) = rest.take_name()?;
    Ok((word.name(alloc)?, rest))
}

/// A name of another kind than these.
pub fn name_but<'t>(
    alloc: Global,
    set: &[u8],
    rest: Rest<'t>,
) -> Result<(Bytes, Rest<'t>), Stop<'t>>
    ensures { Gives (λ n. n) result ((spec.name_but set.now).read rest.entry) }
{
    if rest.is_in(set) {
        return Err(Stop::Syntax(rest));
    }
    a_name(alloc, rest)
}

/// A word as a name.
pub fn word_name<'t>(
    alloc: Global,
    word: Keyword,
    rest: Rest<'t>,
) -> Result<(Bytes, Rest<'t>), Stop<'t>>
    ensures { Gives (λ n. n) result ((spec.word_name word).read rest.entry) }
{
    let (word, rest) = rest.take(&[code(word)])?;
    Ok((word.name(alloc)?, rest))
}

/// A name, or nothing.
pub fn optional_name<'t>(
    alloc: Global,
    rest: Rest<'t>,
) -> Result<(Option<Bytes>, Rest<'t>), Stop<'t>>
    ensures { Gives (λ n. n) result (spec.optional_name.read rest.entry) }
{
    if !rest.is_name() {
        return Ok((None, rest));
    }
    let (name, rest) = a_name(alloc, rest)?;
    Ok((Some(name), rest))
}

/// A dot and a name, or nothing.
pub fn dotted_name<'t>(alloc: Global, rest: Rest<'t>) -> Result<(Option<Bytes>, Rest<'t>), Stop<'t>>
    ensures { Gives (λ n. n) result (spec.dotted_name.read rest.entry) }
{
    if !rest.is_mark(Symbol::Dot) {
        return Ok((None, rest));
    }
    let ((), rest) = rest.skip_mark(Symbol::Dot)?;
    let (name, rest) = a_name(alloc, rest)?;
    Ok((Some(name), rest))
}

/// SESSION with a dot and a name, where SESSION alone is a name, or another name.
pub fn system_name<'t>(alloc: Global, rest: Rest<'t>) -> Result<(Bytes, Rest<'t>), Stop<'t>>
    ensures { Gives (λ n. n) result (spec.system_name.read rest.entry) }
{
    if !rest.is_key(Keyword::Session) {
        return name_but(alloc, &[code(Keyword::Session)], rest);
    }
    let (session, rest) = word_name(alloc, Keyword::Session, rest)?;
    let (name, rest) = dotted_name(alloc, rest)?;
    Ok((name.unwrap_or(session), rest))
}

/// A number without a sign.
pub fn a_number<'t>(rest: Rest<'t>) -> Result<(u64, Rest<'t>), Stop<'t>>
    ensures { Gives (λ n. n) result (spec.a_number.read rest.entry) }
{
    let (word, rest) = rest.take(&[NUMBER])?;
    Ok((word.number(), rest))
}

/// A literal in quotes, or in hexadecimal.
pub fn a_text<'t>(alloc: Global, rest: Rest<'t>) -> Result<(Bytes, Rest<'t>), Stop<'t>>
    ensures { Gives (λ n. n) result (spec.a_text.read rest.entry) }
{
    let (word, rest) = rest.take(&[TEXT])?;
    Ok((word.text(alloc)?, rest))
}

/// A literal without a sign.
pub fn plain_value<'t>(alloc: Global, rest: Rest<'t>) -> Result<(Value, Rest<'t>), Stop<'t>>
    ensures { Gives (λ v. v) result (spec.plain_value.read rest.entry) }
{
    if rest.is_in(&[NUMBER]) {
        let (word, rest) = rest.take(&[NUMBER])?;
        return Ok((Value::Int(word.integer()), rest));
    }
    if rest.is_in(&[TEXT]) {
        let (text, rest) = a_text(alloc, rest)?;
        return Ok((Value::Text(text), rest));
    }
    let ((), rest) = rest.skip_key(Keyword::Null)?;
    Ok((Value::Null, rest))
}

/// A minus directly before a number, and the number.
pub fn negative_value<'t>(rest: Rest<'t>) -> Result<(Value, Rest<'t>), Stop<'t>>
    ensures { Gives (λ v. v) result (spec.negative_value.read rest.entry) }
{
    let ((), rest) = rest.skip(TIGHT_MINUS)?;
    let (word, rest) = rest.take(&[NUMBER, LEAST])?;
    Ok((Value::Int(word.negative()), rest))
}

/// A literal.
pub fn a_value<'t>(alloc: Global, rest: Rest<'t>) -> Result<(Value, Rest<'t>), Stop<'t>>
    ensures { Gives (λ v. v) result (spec.a_value.read rest.entry) }
{
    if rest.is_in(&[TIGHT_MINUS]) {
        negative_value(rest)
    } else {
        plain_value(alloc, rest)
    }
}

/// A comma and a name.
fn next_name<'t>(alloc: Global, rest: Rest<'t>) -> Result<(Bytes, Rest<'t>), Stop<'t>>
    ensures { Gives (λ n. n) result ((behind (sign signs.Comma) spec.a_name).read rest.entry) }
{
    let ((), rest) = rest.skip_mark(Symbol::Comma)?;
    a_name(alloc, rest)
}

/// One name or more, with commas between.
pub fn name_list<'t>(alloc: Global, rest: Rest<'t>) -> Result<(List<Bytes>, Rest<'t>), Stop<'t>>
    ensures { Gives (λ n. n) result ((spec.list_of spec.a_name).read rest.entry) }
{
    let (first, mut rest) = a_name(alloc, rest)?;
    let mut names = List::new(alloc);
    names.push(first)?;
    for _turn in 0..rest.len() {
        if !rest.is_mark(Symbol::Comma) {
            return Ok((names, rest));
        }
        let (name, after) = next_name(alloc, rest)?;
        names.push(name)?;
        rest = after;
    }
    Ok((names, rest))
}

/// Names in parentheses, where so many constructs may still be opened.
#[tactic(auto, using(crate::proofs::Reading::opened_is))]
pub fn names_in<'t>(
    alloc: Global,
    depth: u32,
    rest: Rest<'t>,
) -> Result<(List<Bytes>, Rest<'t>), Stop<'t>>
    ensures { Gives (λ n. n) result ((spec.names_in depth).read rest.entry) }
{
    let (_, rest) = opening(depth, sign_code(Symbol::Open), rest)?;
    let (names, rest) = name_list(alloc, rest)?;
    let ((), rest) = rest.skip_mark(Symbol::Close)?;
    Ok((names, rest))
}
