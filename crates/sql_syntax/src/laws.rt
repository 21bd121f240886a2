//! What holds of the grammar.
ghost use Rattle.sql_grammar.specs.Whole.{IsExact};
ghost use Rattle.sql_lex.specs.Lexes.{IsFront};
ghost use Rattle.sql_lex.specs.declared.token.Symbol.TheVariants as signs;
ghost use Rattle.sql_lex.specs.declared.token.Token.{Token};
ghost use Rattle.sql_lex.specs.declared.token.TokenKind.TheVariants as kinds;
ghost use Rattle.sql_syntax.specs.Expressions.{expression, select};
ghost use Rattle.sql_syntax.specs.Spoken.{spoken};
ghost use Rattle.sql_syntax.specs.Statements.{statement};
ghost use Rattle.sql_syntax.specs.Texts.{IsRefusedAt, IsStatement, IsTooDeepAt, place_of, toks};
ghost use Rattle.sql_syntax.specs.Tokens.{broken_minus, tight_minus};
ghost use Rattle.sql_syntax.specs.Written.{num, sg};
ghost use Rattle.sql_tree.specs.Statement.{Statement};
ghost use Rattle.std.specs.Prelude.{◌≡◌, ◌⊎◌, [], ◌∷◌, codes, List, ℕ};

/// Expressions are read exactly, with every number of constructs that may be opened, and each
/// fault comes where it belongs.
pub fn expressions_are_exact()
    ensures { IsExact expression }
{}

/// So are SELECTs.
pub fn selects_are_exact()
    ensures { IsExact select }
{}

/// And so are whole statements.
pub fn statements_are_exact()
    ensures { IsExact statement }
{}

/// Each text of bytes is a statement, is refused at a place, or opens a construct too many at a
/// place, and just one of these: one statement, one place.
pub fn texts_have_one_answer()
    ensures decided { (text : List ℕ) (ts : List Token) (stop : ℕ) → IsFront text ts stop
        → ((s : Statement) × IsStatement text s) ⊎ ((at : ℕ) × IsRefusedAt text at) ⊎ ((at : ℕ) × IsTooDeepAt text at) }
    ensures statement { (text : List ℕ) (s s' : Statement) → IsStatement text s → IsStatement text s' → s ≡ s' }
    ensures place { (text : List ℕ) (m n : ℕ) → IsRefusedAt text m → IsRefusedAt text n → m ≡ n }
    ensures deep { (text : List ℕ) (m n : ℕ) → IsTooDeepAt text m → IsTooDeepAt text n → m ≡ n }
    ensures not_refused { (text : List ℕ) (s : Statement) (at : ℕ) → IsStatement text s → IsRefusedAt text at → ⊥ }
    ensures not_deep { (text : List ℕ) (s : Statement) (at : ℕ) → IsStatement text s → IsTooDeepAt text at → ⊥ }
    ensures not_both { (text : List ℕ) (m n : ℕ) → IsRefusedAt text m → IsTooDeepAt text n → ⊥ }
{}

/// The three kinds of minus: `-5`, `- 5`, and `-9223372036854775809`, which has one token.
pub fn minuses_are_told_apart()
    ensures tight { toks (codes "-5") (record { kind = kinds.Symbol signs.Minus; at = 0; end = 1 } ∷ record { kind = kinds.Number 5; at = 1; end = 2 } ∷ [])
        ≡ tight_minus ∷ num 5 ∷ [] }
    ensures loose { toks (codes "- 5") (record { kind = kinds.Symbol signs.Minus; at = 0; end = 1 } ∷ record { kind = kinds.Number 5; at = 2; end = 3 } ∷ [])
        ≡ sg signs.Minus ∷ num 5 ∷ [] }
    ensures broken { toks (codes "-9223372036854775809") (record { kind = kinds.Symbol signs.Minus; at = 0; end = 1 } ∷ []) ≡ broken_minus ∷ [] }
{}

/// The tokens of a text can be computed.
pub fn tokens_are_computed()
    ensures { (text : List ℕ) (ts : List Token) (stop : ℕ) → IsFront text ts stop → spoken text ≡ toks text ts }
{}

/// A syntax error is at the first byte of its token; where no token is left, where none begins.
pub fn places_are_first_bytes()
    ensures token { (t : Token) (ts : List Token) (stop : ℕ) → place_of (t ∷ ts) stop ≡ t.at }
    ensures stop { (stop : ℕ) → place_of [] stop ≡ stop }
{}
