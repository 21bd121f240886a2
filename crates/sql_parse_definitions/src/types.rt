//! Types of columns, parameters and variables.
ghost use Rattle.std.specs.Prelude.{◌≡◌};
ghost use Rattle.sql_lex.specs.declared.keyword.Keyword.TheVariants as words;
ghost use Rattle.sql_tree.specs.declared.statements.SqlType.{SqlType};
ghost use Rattle.sql_grammar.specs.Rule.{behind, mapped};
ghost use Rattle.sql_parse_tokens.specs.Gives.{Gives};
ghost use Rattle.sql_syntax.specs.Parts.{a_number, closed, in_parentheses};
ghost use Rattle.sql_syntax.specs.Tables as spec;
ghost use Rattle.sql_syntax.specs.Tokens.{keyword};

use sql_lex::{Keyword, Symbol};
use sql_parse_tokens::fault::Stop;
use sql_parse_tokens::kinds::sign_code;
use sql_parse_tokens::opening::opening;
use sql_parse_tokens::parts::a_number;
use sql_parse_tokens::rest::Rest;
use sql_tree::SqlType;

/// A number and the closing parenthesis.
fn closed_number<'t>(rest: Rest<'t>) -> Result<(u64, Rest<'t>), Stop<'t>>
    ensures { Gives (λ n. n) result ((closed a_number).read rest.entry) }
{
    let (n, rest) = a_number(rest)?;
    let ((), rest) = rest.skip_mark(Symbol::Close)?;
    Ok((n, rest))
}

/// A number in parentheses, which is read and dropped, or nothing.
#[tactic(auto, using(sql_parse_tokens::proofs::Reading::opened_is))]
fn width<'t>(depth: u32, rest: Rest<'t>) -> Result<((), Rest<'t>), Stop<'t>>
    ensures { Gives (λ u. u) result ((spec.width depth).read rest.entry) }
{
    if !rest.is_mark(Symbol::Open) {
        return Ok(((), rest));
    }
    let (_, rest) = opening(depth, sign_code(Symbol::Open), rest)?;
    let (_, rest) = closed_number(rest)?;
    Ok(((), rest))
}

/// VARCHAR and the greatest length.
#[tactic(auto, using(sql_parse_tokens::proofs::Reading::opened_is))]
fn varchar<'t>(depth: u32, rest: Rest<'t>) -> Result<(SqlType, Rest<'t>), Stop<'t>>
    ensures { Gives (λ k. k) result ((behind (keyword words.Varchar) (in_parentheses depth (mapped (λ n. SqlType.Varchar n) (closed a_number)))).read rest.entry) }
{
    let ((), rest) = rest.skip_key(Keyword::Varchar)?;
    let (_, rest) = opening(depth, sign_code(Symbol::Open), rest)?;
    let (n, rest) = closed_number(rest)?;
    Ok((SqlType::Varchar(n), rest))
}

/// A type, where so many constructs may still be opened.
pub fn a_type<'t>(depth: u32, rest: Rest<'t>) -> Result<(SqlType, Rest<'t>), Stop<'t>>
    ensures { Gives (λ k. k) result ((spec.a_type depth).read rest.entry) }
{
    if rest.is_key(Keyword::Int) {
        let ((), rest) = rest.skip_key(Keyword::Int)?;
        let ((), rest) = width(depth, rest)?;
        return Ok((SqlType::Int, rest));
    }
    if rest.is_key(Keyword::Integer) {
        let ((), rest) = rest.skip_key(Keyword::Integer)?;
        return Ok((SqlType::Int, rest));
    }
    if rest.is_key(Keyword::Bigint) {
        let ((), rest) = rest.skip_key(Keyword::Bigint)?;
        let ((), rest) = width(depth, rest)?;
        return Ok((SqlType::BigInt, rest));
    }
    varchar(depth, rest)
}
