//! What stands before the body of a stored program.
ghost use Rattle.std.specs.Prelude.{◌≡◌, pred};
ghost use Rattle.sql_lex.specs.declared.keyword.Keyword.TheVariants as words;
ghost use Rattle.sql_lex.specs.declared.token.Symbol.TheVariants as signs;
ghost use Rattle.sql_grammar.specs.Rule.{before, behind};
ghost use Rattle.sql_parse_tokens.specs.Gives.{Gives};
ghost use Rattle.sql_syntax.specs.Parts.{a_name, closed, in_parentheses, list_of};
ghost use Rattle.sql_syntax.specs.Programs as spec;
ghost use Rattle.sql_syntax.specs.Tables as types;
ghost use Rattle.sql_syntax.specs.Tokens.{keyword, sign};

use crate::types::a_type;
use sql_lex::{Keyword, Symbol};
use sql_parse_tokens::fault::Stop;
use sql_parse_tokens::kinds::{FIRST_WORD, sign_code};
use sql_parse_tokens::opening::opening;
use sql_parse_tokens::parts::a_name;
use sql_parse_tokens::rest::Rest;
use sql_syntax::Head;
use sql_tree::{Cause, Parameter, SqlType, Time};
use std::alloc::Global;
use val_types::{Bytes, List};

/// A name and a type.
fn parameter<'t>(
    alloc: Global,
    depth: u32,
    rest: Rest<'t>,
) -> Result<(Parameter, Rest<'t>), Stop<'t>>
    ensures { Gives (λ p. p) result ((spec.parameter depth).read rest.entry) }
{
    let (name, rest) = a_name(alloc, rest)?;
    let (kind, rest) = a_type(depth, rest)?;
    Ok((Parameter { name, kind }, rest))
}

/// A name and a type, perhaps behind IN.
fn in_parameter<'t>(
    alloc: Global,
    depth: u32,
    rest: Rest<'t>,
) -> Result<(Parameter, Rest<'t>), Stop<'t>>
    ensures { Gives (λ p. p) result ((spec.in_parameter depth).read rest.entry) }
{
    if !rest.is_key(Keyword::In) {
        return parameter(alloc, depth, rest);
    }
    let ((), rest) = rest.skip_key(Keyword::In)?;
    parameter(alloc, depth, rest)
}

/// A parameter, behind IN only where that is allowed.
fn parameter_of<'t>(
    alloc: Global,
    depth: u32,
    may_in: bool,
    rest: Rest<'t>,
) -> Result<(Parameter, Rest<'t>), Stop<'t>>
    ensures { Gives (λ p. p) result ((spec.parameter_of may_in depth).read rest.entry) }
{
    if may_in {
        in_parameter(alloc, depth, rest)
    } else {
        parameter(alloc, depth, rest)
    }
}

/// A comma and a parameter.
fn next_parameter<'t>(
    alloc: Global,
    depth: u32,
    may_in: bool,
    rest: Rest<'t>,
) -> Result<(Parameter, Rest<'t>), Stop<'t>>
    ensures { Gives (λ p. p) result ((behind (sign signs.Comma) (spec.parameter_of may_in depth)).read rest.entry) }
{
    let ((), rest) = rest.skip_mark(Symbol::Comma)?;
    parameter_of(alloc, depth, may_in, rest)
}

/// Parameters with commas between.
fn parameter_list<'t>(
    alloc: Global,
    depth: u32,
    may_in: bool,
    rest: Rest<'t>,
) -> Result<(List<Parameter>, Rest<'t>), Stop<'t>>
    ensures { Gives (λ ps. ps) result ((list_of (spec.parameter_of may_in depth)).read rest.entry) }
{
    let (first, mut rest) = parameter_of(alloc, depth, may_in, rest)?;
    let mut parameters = List::new(alloc);
    parameters.push(first)?;
    for _turn in 0..rest.len() {
        if !rest.is_mark(Symbol::Comma) {
            return Ok((parameters, rest));
        }
        let (parameter, after) = next_parameter(alloc, depth, may_in, rest)?;
        parameters.push(parameter)?;
        rest = after;
    }
    Ok((parameters, rest))
}

/// Parameters, none too, up to and with the closing parenthesis.
fn parameters<'t>(
    alloc: Global,
    depth: u32,
    may_in: bool,
    rest: Rest<'t>,
) -> Result<(List<Parameter>, Rest<'t>), Stop<'t>>
    ensures { Gives (λ ps. ps) result ((spec.parameters (spec.parameter_of may_in depth)).read rest.entry) }
{
    if rest.is_mark(Symbol::Close) {
        let ((), rest) = rest.skip_mark(Symbol::Close)?;
        return Ok((List::new(alloc), rest));
    }
    let (list, rest) = parameter_list(alloc, depth, may_in, rest)?;
    let ((), rest) = rest.skip_mark(Symbol::Close)?;
    Ok((list, rest))
}

/// Parameters in parentheses.
fn parameters_in<'t>(
    alloc: Global,
    depth: u32,
    may_in: bool,
    rest: Rest<'t>,
) -> Result<(List<Parameter>, Rest<'t>), Stop<'t>>
    ensures { Gives (λ ps. ps) result ((in_parentheses depth (spec.parameters (spec.parameter_of may_in (pred depth)))).read rest.entry) }
{
    let (depth, rest) = opening(depth, sign_code(Symbol::Open), rest)?;
    parameters(alloc, depth, may_in, rest)
}

/// SQL DATA.
fn sql_data<'t>(rest: Rest<'t>) -> Result<((), Rest<'t>), Stop<'t>>
    ensures { Gives (λ u. u) result ((behind (keyword words.Sql) (keyword words.Data)).read rest.entry) }
{
    let ((), rest) = rest.skip_key(Keyword::Sql)?;
    rest.skip_key(Keyword::Data)
}

/// A trait, which is read and dropped.
fn one_trait<'t>(rest: Rest<'t>) -> Result<((), Rest<'t>), Stop<'t>>
    ensures { Gives (λ u. u) result (spec.trait'.read rest.entry) }
{
    if rest.is_key(Keyword::Not) {
        let ((), rest) = rest.skip_key(Keyword::Not)?;
        return rest.skip_key(Keyword::Deterministic);
    }
    if rest.is_key(Keyword::Deterministic) {
        return rest.skip_key(Keyword::Deterministic);
    }
    if rest.is_key(Keyword::No) {
        let ((), rest) = rest.skip_key(Keyword::No)?;
        return rest.skip_key(Keyword::Sql);
    }
    if rest.is_key(Keyword::Contains) {
        let ((), rest) = rest.skip_key(Keyword::Contains)?;
        return rest.skip_key(Keyword::Sql);
    }
    if rest.is_key(Keyword::Reads) {
        let ((), rest) = rest.skip_key(Keyword::Reads)?;
        return sql_data(rest);
    }
    let ((), rest) = rest.skip_key(Keyword::Modifies)?;
    sql_data(rest)
}

/// What traits begin with.
const TRAIT_WORDS: [u8; 6] = [
    FIRST_WORD + Keyword::Not as u8,
    FIRST_WORD + Keyword::Deterministic as u8,
    FIRST_WORD + Keyword::No as u8,
    FIRST_WORD + Keyword::Contains as u8,
    FIRST_WORD + Keyword::Reads as u8,
    FIRST_WORD + Keyword::Modifies as u8,
];

/// Traits, none too, which are read and dropped.
fn traits<'t>(rest: Rest<'t>) -> Result<((), Rest<'t>), Stop<'t>>
    ensures { Gives (λ u. u) result (spec.traits.read rest.entry) }
{
    let mut rest = rest;
    for _turn in 0..rest.len() {
        if !rest.is_in(&TRAIT_WORDS) {
            return Ok(((), rest));
        }
        let ((), after) = one_trait(rest)?;
        rest = after;
    }
    Ok(((), rest))
}

/// RETURNS, a type, and traits.
fn returns<'t>(depth: u32, rest: Rest<'t>) -> Result<(SqlType, Rest<'t>), Stop<'t>>
    ensures { Gives (λ k. k) result ((behind (keyword words.Returns) (before (types.a_type depth) spec.traits)).read rest.entry) }
{
    let ((), rest) = rest.skip_key(Keyword::Returns)?;
    let (kind, rest) = a_type(depth, rest)?;
    let ((), rest) = traits(rest)?;
    Ok((kind, rest))
}

/// A function from its name up to its body.
fn function<'t>(alloc: Global, depth: u32, rest: Rest<'t>) -> Result<(Head, Rest<'t>), Stop<'t>>
    ensures { Gives (λ h. h) result ((spec.function depth).read rest.entry) }
{
    let (name, rest) = a_name(alloc, rest)?;
    let (parameters, rest) = parameters_in(alloc, depth, false, rest)?;
    let (kind, rest) = returns(depth, rest)?;
    Ok((Head::Function(name, parameters, kind), rest))
}

/// A procedure from its name up to its body.
fn procedure<'t>(alloc: Global, depth: u32, rest: Rest<'t>) -> Result<(Head, Rest<'t>), Stop<'t>>
    ensures { Gives (λ h. h) result ((spec.procedure depth).read rest.entry) }
{
    let (name, rest) = a_name(alloc, rest)?;
    let (parameters, rest) = parameters_in(alloc, depth, true, rest)?;
    let ((), rest) = traits(rest)?;
    Ok((Head::Procedure(name, parameters), rest))
}

/// BEFORE or AFTER.
fn time<'t>(rest: Rest<'t>) -> Result<(Time, Rest<'t>), Stop<'t>>
    ensures { Gives (λ t. t) result (spec.time.read rest.entry) }
{
    if rest.is_key(Keyword::Before) {
        let ((), rest) = rest.skip_key(Keyword::Before)?;
        return Ok((Time::Before, rest));
    }
    let ((), rest) = rest.skip_key(Keyword::After)?;
    Ok((Time::After, rest))
}

/// INSERT, UPDATE or DELETE.
fn cause<'t>(rest: Rest<'t>) -> Result<(Cause, Rest<'t>), Stop<'t>>
    ensures { Gives (λ c. c) result (spec.event.read rest.entry) }
{
    if rest.is_key(Keyword::Insert) {
        let ((), rest) = rest.skip_key(Keyword::Insert)?;
        return Ok((Cause::Insert, rest));
    }
    if rest.is_key(Keyword::Update) {
        let ((), rest) = rest.skip_key(Keyword::Update)?;
        return Ok((Cause::Update, rest));
    }
    let ((), rest) = rest.skip_key(Keyword::Delete)?;
    Ok((Cause::Delete, rest))
}

/// ON, a table, and FOR EACH ROW.
fn on_each_row<'t>(alloc: Global, rest: Rest<'t>) -> Result<(Bytes, Rest<'t>), Stop<'t>>
    ensures { Gives (λ n. n) result ((behind (keyword words.On) (before a_name spec.each_row)).read rest.entry) }
{
    let ((), rest) = rest.skip_key(Keyword::On)?;
    let (table, rest) = a_name(alloc, rest)?;
    let ((), rest) = rest.skip_key(Keyword::For)?;
    let ((), rest) = rest.skip_key(Keyword::Each)?;
    let ((), rest) = rest.skip_key(Keyword::Row)?;
    Ok((table, rest))
}

/// A trigger from its name up to its body.
fn triggered<'t>(alloc: Global, rest: Rest<'t>) -> Result<(Head, Rest<'t>), Stop<'t>>
    ensures { Gives (λ h. h) result (spec.triggered.read rest.entry) }
{
    let (name, rest) = a_name(alloc, rest)?;
    let (time, rest) = time(rest)?;
    let (cause, rest) = cause(rest)?;
    let (table, rest) = on_each_row(alloc, rest)?;
    Ok((Head::Trigger(name, time, cause, table), rest))
}

/// Behind CREATE: a function, a procedure or a trigger up to its body.
pub fn a_head<'t>(alloc: Global, depth: u32, rest: Rest<'t>) -> Result<(Head, Rest<'t>), Stop<'t>>
    ensures { Gives (λ h. h) result ((spec.head depth).read rest.entry) }
{
    if rest.is_key(Keyword::Function) {
        let ((), rest) = rest.skip_key(Keyword::Function)?;
        return function(alloc, depth, rest);
    }
    if rest.is_key(Keyword::Procedure) {
        let ((), rest) = rest.skip_key(Keyword::Procedure)?;
        return procedure(alloc, depth, rest);
    }
    let ((), rest) = rest.skip_key(Keyword::Trigger)?;
    triggered(alloc, rest)
}
