//! Operators between operands, and tests of nullness.
ghost use Rattle.sql_grammar.specs.Rule.{token};
ghost use Rattle.sql_syntax.specs.Expressions as spec;
ghost use Rattle.sql_parse_tokens.specs.Gives.{Gives};
ghost use Rattle.sql_syntax.specs.Tokens.{kind};
ghost use Rattle.std.specs.Prelude.{◌≡◌, Some};

use sql_lex::{Keyword, Symbol};
use sql_parse_tokens::fault::Stop;
use sql_parse_tokens::kinds::{BROKEN_MINUS, FIRST_WORD, TIGHT_MINUS};
use sql_parse_tokens::rest::Rest;
use sql_parse_tokens::word::Word;
use val_types::{BinOp, UnOp};

/// The kinds of the operators of the level of products.
pub const PRODUCT_OPS: [u8; 4] = [
    Symbol::Star as u8,
    Symbol::Percent as u8,
    FIRST_WORD + Keyword::Div as u8,
    FIRST_WORD + Keyword::Mod as u8,
];

/// The kinds of the operators of the level of sums.
pub const SUM_OPS: [u8; 4] = [
    Symbol::Plus as u8,
    Symbol::Minus as u8,
    TIGHT_MINUS,
    BROKEN_MINUS,
];

/// The kinds of the signs that compare.
pub const COMPARISON_OPS: [u8; 7] = [
    Symbol::Equal as u8,
    Symbol::NullSafeEqual as u8,
    Symbol::NotEqual as u8,
    Symbol::Less as u8,
    Symbol::LessEqual as u8,
    Symbol::Greater as u8,
    Symbol::GreaterEqual as u8,
];

/// The kinds of tokens that go on behind the left operand of a comparison.
pub const TEST_KINDS: [u8; 10] = [
    FIRST_WORD + Keyword::Is as u8,
    FIRST_WORD + Keyword::In as u8,
    FIRST_WORD + Keyword::Not as u8,
    Symbol::Equal as u8,
    Symbol::NullSafeEqual as u8,
    Symbol::NotEqual as u8,
    Symbol::Less as u8,
    Symbol::LessEqual as u8,
    Symbol::Greater as u8,
    Symbol::GreaterEqual as u8,
];

fn product_said(word: &Word<'_>) -> BinOp
    ensures { result ≡ spec.is_percent word.now }
{
    if word.mark() == Some(Symbol::Percent) {
        return BinOp::Modulo;
    }
    match word.key() {
        Some(Keyword::Div) => BinOp::Divide,
        Some(Keyword::Mod) => BinOp::Modulo,
        _ => BinOp::Multiply,
    }
}

/// An operator of the level of products.
pub fn product_op<'t>(rest: Rest<'t>) -> Result<(BinOp, Rest<'t>), Stop<'t>>
    ensures { Gives (λ o. o) result
        ((token kind spec.product_ops (λ t. Some (spec.is_percent t))).read rest.entry) }
{
    let (word, rest) = rest.take(&PRODUCT_OPS)?;
    Ok((product_said(&word), rest))
}

/// An operator of the level of sums.
pub fn sum_op<'t>(rest: Rest<'t>) -> Result<(BinOp, Rest<'t>), Stop<'t>>
    ensures { Gives (λ o. o) result
        ((token kind spec.sum_ops (λ t. Some (spec.sum_op t))).read rest.entry) }
{
    let (word, rest) = rest.take(&SUM_OPS)?;
    match word.mark() {
        Some(Symbol::Plus) => Ok((BinOp::Add, rest)),
        _ => Ok((BinOp::Subtract, rest)),
    }
}

fn comparison_said(word: &Word<'_>) -> BinOp
    ensures { result ≡ spec.comparison_op word.now }
{
    match word.mark() {
        Some(Symbol::Equal) => BinOp::Equal,
        Some(Symbol::NullSafeEqual) => BinOp::NullSafeEqual,
        Some(Symbol::NotEqual) => BinOp::NotEqual,
        Some(Symbol::Less) => BinOp::Less,
        Some(Symbol::LessEqual) => BinOp::LessOrEqual,
        Some(Symbol::Greater) => BinOp::Greater,
        _ => BinOp::GreaterOrEqual,
    }
}

/// A sign that compares.
pub fn comparison_op<'t>(rest: Rest<'t>) -> Result<(BinOp, Rest<'t>), Stop<'t>>
    ensures { Gives (λ o. o) result
        ((token kind spec.comparison_ops (λ t. Some (spec.comparison_op t))).read rest.entry) }
{
    let (word, rest) = rest.take(&COMPARISON_OPS)?;
    Ok((comparison_said(&word), rest))
}

/// IS NULL or IS NOT NULL.
pub fn nullness<'t>(rest: Rest<'t>) -> Result<(UnOp, Rest<'t>), Stop<'t>>
    ensures { Gives spec.null_test result (spec.nullness.read rest.entry) }
{
    let ((), rest) = rest.skip_key(Keyword::Is)?;
    if rest.is_key(Keyword::Not) {
        let ((), rest) = rest.skip_key(Keyword::Not)?;
        let ((), rest) = rest.skip_key(Keyword::Null)?;
        return Ok((UnOp::IsNotNull, rest));
    }
    let ((), rest) = rest.skip_key(Keyword::Null)?;
    Ok((UnOp::IsNull, rest))
}
