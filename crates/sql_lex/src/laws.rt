//! What holds of the tokens of every text.
ghost use Rattle.std.specs.Prelude.{◌≡◌, ◌≤◌, ℕ, List, length};
ghost use Rattle.sql_lex.specs.declared.token.Token.{Token};
ghost use Rattle.sql_lex.specs.Lexes.{IsFront, Lexes, Says};
ghost use Rattle.sql_lex.specs.Plain.{Plain, plain_tokens};
ghost use Rattle.sql_lex.specs.Spans.{Spans};

/// A text has one list of tokens, and says one list.
pub fn one_reading()
    ensures front { (text : List ℕ) (ts us : List Token) (m n : ℕ) → IsFront text ts m → IsFront text us n → (ts ≡ us) × (m ≡ n) }
    ensures says { (text : List ℕ) (ps qs : List Plain) → Says text ps → Says text qs → ps ≡ qs }
{}

/// The tokens of a text are slices in order, with white space and comments alone between them.
pub fn tokens_are_slices()
    ensures spans { (text : List ℕ) (ts : List Token) (stop : ℕ) → IsFront text ts stop → Spans text 0 ts stop }
    ensures within { (text : List ℕ) (ts : List Token) (stop : ℕ) → IsFront text ts stop → stop ≤ length text }
{}

/// The tokens of a whole text say what the text says.
pub fn tokens_say()
    ensures { (text : List ℕ) (ts : List Token) → Lexes text ts → Says text (plain_tokens text ts) }
{}
