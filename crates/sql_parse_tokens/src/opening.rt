//! The token that opens a construct.
ghost use Rattle.std.specs.Prelude.{◌≡◌, ◌+◌, IfOk};
ghost use Rattle.sql_parse_tokens.specs.Gives.{Gives};
ghost use Rattle.sql_syntax.specs.Parts as spec;
ghost use Rattle.sql_syntax.specs.Tokens.{code, sign_code};

use crate::fault::Stop;
use crate::kinds::{code, sign_code};
use crate::rest::Rest;
use sql_lex::{Keyword, Symbol};

/// How many constructs may be opened behind a token of this kind, which opens one.
pub fn opening<'t>(depth: u32, k: u8, rest: Rest<'t>) -> Result<(u32, Rest<'t>), Stop<'t>>
    ensures reads { Gives (λ n. n) result ((spec.opening depth k).read rest.entry) }
    ensures one_less { IfOk result (λ r. r.0 + 1 ≡ depth) }
{
    if depth > 0 {
        let ((), rest) = rest.skip(k)?;
        return Ok((depth - 1, rest));
    }
    if rest.is_in(&[k]) {
        return Err(Stop::Deep(rest));
    }
    Err(Stop::Syntax(rest))
}

/// The same behind a sign.
pub fn open_mark<'t>(depth: u32, mark: Symbol, rest: Rest<'t>) -> Result<(u32, Rest<'t>), Stop<'t>>
    ensures reads { Gives (λ n. n) result ((spec.opening depth (sign_code mark)).read rest.entry) }
    ensures one_less { IfOk result (λ r. r.0 + 1 ≡ depth) }
{
    opening(depth, sign_code(mark), rest)
}

/// The same behind a keyword.
pub fn open_key<'t>(depth: u32, word: Keyword, rest: Rest<'t>) -> Result<(u32, Rest<'t>), Stop<'t>>
    ensures reads { Gives (λ n. n) result ((spec.opening depth (code word)).read rest.entry) }
    ensures one_less { IfOk result (λ r. r.0 + 1 ≡ depth) }
{
    opening(depth, code(word), rest)
}
