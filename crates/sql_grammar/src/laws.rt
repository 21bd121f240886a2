//! The laws of two small languages.
ghost use Rattle.std.specs.Prelude.{◌≡◌, [], ◌∷◌, false, true, None, Ok, Err};
ghost use Rattle.sql_grammar.specs.Reader.{Deep, Syntax};
ghost use Rattle.sql_grammar.specs.Sums.{add, application, closing, colon, exact, leaf, multiply, number, opening, plus, signed, text, times};
ghost use Rattle.sql_grammar.specs.Whole.{IsExact, read_whole};

/// Lists of sums are read exactly: with every number of constructs that may be opened just the
/// texts are read, each as its one value, and just the faults come that belong at their place.
/// The language nests, has operators of two levels to the left, a list, marks of which each may be
/// given once, and a part that may be left out.
pub fn sums_are_exact()
    ensures { IsExact text }
{}

/// So are applications or sums, which only two tokens tell apart.
pub fn applications_are_exact()
    ensures { IsExact application }
{}

/// Worked texts and their places: `1 + 2 * 3 + 4 exact` is grouped; `(1` ends too soon; of
/// `((1 + )` with one construct to be opened the second parenthesis is one too many; a mark that
/// is given twice is refused at the second, a scale of three digits at its number. `2(3)` is an
/// application, and where none may be opened its parenthesis is one too many.
pub fn worked_texts_are_read()
    ensures groups { read_whole (text 0) (number 1 ∷ plus ∷ number 2 ∷ times ∷ number 3 ∷ plus ∷ number 4 ∷ exact ∷ [])
        ≡ Ok (add (add (leaf 1) (multiply (leaf 2) (leaf 3))) (leaf 4) ∷ [], ((false, true), None)) }
    ensures ends { read_whole (text 1) (opening ∷ number 1 ∷ []) ≡ Err (Syntax []) }
    ensures deep { read_whole (text 1) (opening ∷ opening ∷ number 1 ∷ plus ∷ closing ∷ [])
        ≡ Err (Deep (opening ∷ number 1 ∷ plus ∷ closing ∷ [])) }
    ensures closes { read_whole (text 1) (opening ∷ number 1 ∷ plus ∷ closing ∷ []) ≡ Err (Syntax (closing ∷ [])) }
    ensures twice { read_whole (text 0) (number 1 ∷ signed ∷ exact ∷ signed ∷ []) ≡ Err (Syntax (signed ∷ [])) }
    ensures far { read_whole (text 0) (number 1 ∷ colon ∷ number 100 ∷ []) ≡ Err (Syntax (number 100 ∷ [])) }
    ensures applies { read_whole (application 1) (number 2 ∷ opening ∷ number 3 ∷ closing ∷ []) ≡ Ok (multiply (leaf 2) (leaf 3)) }
    ensures applies_deep { read_whole (application 0) (number 2 ∷ opening ∷ []) ≡ Err (Deep (opening ∷ [])) }
{}
