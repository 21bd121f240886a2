//! What stands behind a part that was read.
ghost use Rattle.std.specs.Prelude.{Ok};
ghost use Rattle.sql_lex.specs.declared.keyword.Keyword.TheVariants as words;
ghost use Rattle.sql_grammar.specs.Reader.{bind};
ghost use Rattle.sql_grammar.specs.Rule.{behind};
ghost use Rattle.sql_parse_tokens.specs.Gives.{Gives};
ghost use Rattle.sql_syntax.specs.Tokens.{keyword, sign};

use crate::fault::Stop;
use crate::rest::Rest;
use sql_lex::{Keyword, Symbol};

/// A part, where this sign stands behind it.
pub fn before_mark<'t, T: Drop>(
    part: T,
    mark: Symbol,
    rest: Rest<'t>,
) -> Result<(T, Rest<'t>), Stop<'t>>
    ensures { Gives (λ p. p) result (bind ((sign mark).read rest.entry) (λ u. Ok (part, u.1))) }
{
    let ((), rest) = rest.skip_mark(mark)?;
    Ok((part, rest))
}

/// A part, where this keyword stands behind it.
pub fn before_key<'t, T: Drop>(
    part: T,
    word: Keyword,
    rest: Rest<'t>,
) -> Result<(T, Rest<'t>), Stop<'t>>
    ensures { Gives (λ p. p) result (bind ((keyword word).read rest.entry) (λ u. Ok (part, u.1))) }
{
    let ((), rest) = rest.skip_key(word)?;
    Ok((part, rest))
}

/// A part, where END and this keyword stand behind it.
pub fn before_end<'t, T: Drop>(
    part: T,
    word: Keyword,
    rest: Rest<'t>,
) -> Result<(T, Rest<'t>), Stop<'t>>
    ensures { Gives (λ p. p) result (bind ((behind (keyword words.End) (keyword word)).read rest.entry) (λ u. Ok (part, u.1))) }
{
    let ((), rest) = rest.skip_key(Keyword::End)?;
    before_key(part, word, rest)
}
