//! What is written as a token is read as that token, whatever text follows it.
ghost use Rattle.std.specs.Prelude.{◌≡◌, ◌<◌, ◌≤◌, ◌^◌, ℕ, Bool, true, false, List, ◌∷◌, ◌++◌, length};
ghost use Rattle.std.specs.Char.{is_ascii_digit};
ghost use Rattle.std.specs.Fmt.{decimal};
ghost use Rattle.hex.specs.Hex.{IsBytes, encode_upper};
ghost use Rattle.sql_lex.specs.Begins.{is_letter, is_word_byte};
ghost use Rattle.sql_lex.specs.Folded.{folded};
ghost use Rattle.sql_lex.specs.Lexes.{Spells};
ghost use Rattle.sql_lex.specs.Plain.{Plain, number, quoted, text, word};
ghost use Rattle.sql_lex.specs.Quotes.{begins, is_name};
ghost use Rattle.sql_lex.specs.Spelled.{AllOf, Ends, in_backquotes, is_simple};

/// A name in backquotes, a word, a number, a string and a hexadecimal literal are read as written,
/// directly behind a minus or not, where the text behind them does not go on with them; a space
/// says nothing.
pub fn written_is_read()
    ensures name { (m : Bool) (name rest : List ℕ) (ps : List Plain) → is_name name ≡ true
        → begins 96 rest ≡ false → Spells false rest ps
        → Spells m (in_backquotes name rest) (quoted (folded name) ∷ ps) }
    ensures word { (m : Bool) (b : ℕ) (bs rest : List ℕ) (ps : List Plain) → is_letter b ≡ true
        → AllOf is_word_byte bs → length (b ∷ bs) ≤ 64
        → Ends is_word_byte rest → begins 39 rest ≡ false → Spells false rest ps
        → Spells m ((b ∷ bs) ++ rest) (word (folded (b ∷ bs)) ∷ ps) }
    ensures number { (m : Bool) (n : ℕ) (rest : List ℕ) (ps : List Plain) → n < 9223372036854775808
        → Ends is_ascii_digit rest → Spells false rest ps
        → Spells m (decimal n ++ rest) (number n ∷ ps) }
    ensures string { (m : Bool) (t rest : List ℕ) (ps : List Plain) → AllOf is_simple t
        → begins 39 rest ≡ false → Spells false rest ps
        → Spells m (39 ∷ (t ++ 39 ∷ rest)) (text t ∷ ps) }
    ensures hexadecimal { (m : Bool) (t rest : List ℕ) (ps : List Plain) → IsBytes t
        → Spells false rest ps
        → Spells m (88 ∷ 39 ∷ (encode_upper t ++ 39 ∷ rest)) (text t ∷ ps) }
    ensures space { (m : Bool) (rest : List ℕ) (ps : List Plain) → Spells false rest ps
        → Spells m (32 ∷ rest) ps }
{}
