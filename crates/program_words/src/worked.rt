//! Lists of words by hand, which the checker computes.
ghost use Rattle.std.specs.Prelude.{◌≡◌, [], ◌∷◌, codes, None, Some};
ghost use Rattle.program_words.specs.Words.{word_asked};
ghost use Rattle.program_words.specs.declared.words.Word.TheVariants.{DumpReplica, DumpSource, Gen, Print, Replay, Run};

/// One word alone: in small letters, with nothing before, behind or beside it.
pub fn words_alone()
    ensures run { word_asked (codes "run" ∷ []) ≡ Some Run }
    ensures replay { word_asked (codes "replay" ∷ []) ≡ Some Replay }
    ensures print { word_asked (codes "print" ∷ []) ≡ Some Print }
    ensures none { word_asked [] ≡ None }
    ensures empty { word_asked ([] ∷ []) ≡ None }
    ensures large { word_asked (codes "RUN" ∷ []) ≡ None }
    ensures front { word_asked (codes "ru" ∷ []) ≡ None }
    ensures longer { word_asked (codes "runs" ∷ []) ≡ None }
    ensures blank { word_asked (codes "run " ∷ []) ≡ None }
    ensures flag { word_asked (codes "--run" ∷ []) ≡ None }
    ensures fast { word_asked (codes "run" ∷ codes "fast" ∷ []) ≡ None }
    ensures number { word_asked (codes "run" ∷ codes "1" ∷ []) ≡ None }
    ensures twice { word_asked (codes "print" ∷ codes "print" ∷ []) ≡ None }
    ensures both { word_asked (codes "replay" ∷ codes "print" ∷ []) ≡ None }
    ensures empty_behind { word_asked (codes "run" ∷ [] ∷ []) ≡ None }
    ensures load { word_asked (codes "load" ∷ codes "4" ∷ []) ≡ None }
{}

/// `gen` with a number from 1 to 100000 in decimal, without sign or leading zero, and nothing behind it.
pub fn numbers_read()
    ensures least { word_asked (codes "gen" ∷ codes "1" ∷ []) ≡ Some (Gen 1) }
    ensures four { word_asked (codes "gen" ∷ codes "4" ∷ []) ≡ Some (Gen 4) }
    ensures thousand { word_asked (codes "gen" ∷ codes "1000" ∷ []) ≡ Some (Gen 1000) }
    ensures greatest { word_asked (codes "gen" ∷ codes "100000" ∷ []) ≡ Some (Gen 100000) }
    ensures past { word_asked (codes "gen" ∷ codes "100001" ∷ []) ≡ None }
    ensures far_past { word_asked (codes "gen" ∷ codes "18446744073709551617" ∷ []) ≡ None }
    ensures zero { word_asked (codes "gen" ∷ codes "0" ∷ []) ≡ None }
    ensures leading { word_asked (codes "gen" ∷ codes "01" ∷ []) ≡ None }
    ensures plus { word_asked (codes "gen" ∷ codes "+4" ∷ []) ≡ None }
    ensures minus { word_asked (codes "gen" ∷ codes "-4" ∷ []) ≡ None }
    ensures letter { word_asked (codes "gen" ∷ codes "4a" ∷ []) ≡ None }
    ensures blank { word_asked (codes "gen" ∷ codes " 4" ∷ []) ≡ None }
    ensures hexadecimal { word_asked (codes "gen" ∷ codes "0x4" ∷ []) ≡ None }
    ensures fraction { word_asked (codes "gen" ∷ codes "4.0" ∷ []) ≡ None }
    ensures empty { word_asked (codes "gen" ∷ [] ∷ []) ≡ None }
    ensures without { word_asked (codes "gen" ∷ []) ≡ None }
    ensures two { word_asked (codes "gen" ∷ codes "4" ∷ codes "4" ∷ []) ≡ None }
    ensures before { word_asked (codes "4" ∷ codes "gen" ∷ []) ≡ None }
    ensures alone { word_asked (codes "4" ∷ []) ≡ None }
    ensures joined { word_asked (codes "gen4" ∷ []) ≡ None }
    ensures equals { word_asked (codes "gen=4" ∷ []) ≡ None }
    ensures large { word_asked (codes "Gen" ∷ codes "4" ∷ []) ≡ None }
    ensures behind { word_asked (codes "gen" ∷ codes "4" ∷ codes "run" ∷ []) ≡ None }
{}

/// `dump` with the name of a node, and nothing behind it.
pub fn nodes_read()
    ensures source { word_asked (codes "dump" ∷ codes "source" ∷ []) ≡ Some DumpSource }
    ensures replica { word_asked (codes "dump" ∷ codes "replica" ∷ []) ≡ Some DumpReplica }
    ensures between { word_asked (codes "dump" ∷ codes "--" ∷ codes "source" ∷ []) ≡ Some DumpSource }
    ensures without { word_asked (codes "dump" ∷ []) ≡ None }
    ensures other { word_asked (codes "dump" ∷ codes "both" ∷ []) ≡ None }
    ensures empty { word_asked (codes "dump" ∷ [] ∷ []) ≡ None }
    ensures large { word_asked (codes "dump" ∷ codes "Source" ∷ []) ≡ None }
    ensures front { word_asked (codes "dump" ∷ codes "sour" ∷ []) ≡ None }
    ensures number { word_asked (codes "dump" ∷ codes "1" ∷ []) ≡ None }
    ensures two { word_asked (codes "dump" ∷ codes "source" ∷ codes "replica" ∷ []) ≡ None }
    ensures before { word_asked (codes "source" ∷ codes "dump" ∷ []) ≡ None }
    ensures alone { word_asked (codes "source" ∷ []) ≡ None }
{}

/// The first word that is `--` does not count, wherever it stands; a second one does.
pub fn dashes_dropped()
    ensures first { word_asked (codes "--" ∷ codes "run" ∷ []) ≡ Some Run }
    ensures last { word_asked (codes "run" ∷ codes "--" ∷ []) ≡ Some Run }
    ensures first_of_gen { word_asked (codes "--" ∷ codes "gen" ∷ codes "4" ∷ []) ≡ Some (Gen 4) }
    ensures between { word_asked (codes "gen" ∷ codes "--" ∷ codes "4" ∷ []) ≡ Some (Gen 4) }
    ensures behind_gen { word_asked (codes "gen" ∷ codes "4" ∷ codes "--" ∷ []) ≡ Some (Gen 4) }
    ensures alone { word_asked (codes "--" ∷ []) ≡ None }
    ensures two { word_asked (codes "--" ∷ codes "--" ∷ []) ≡ None }
    ensures two_first { word_asked (codes "--" ∷ codes "--" ∷ codes "run" ∷ []) ≡ None }
    ensures round { word_asked (codes "--" ∷ codes "run" ∷ codes "--" ∷ []) ≡ None }
    ensures two_of_gen { word_asked (codes "gen" ∷ codes "--" ∷ codes "--" ∷ []) ≡ None }
    ensures four { word_asked (codes "--" ∷ codes "gen" ∷ codes "--" ∷ codes "4" ∷ []) ≡ None }
    ensures one_dash { word_asked (codes "-" ∷ codes "run" ∷ []) ≡ None }
    ensures three_dashes { word_asked (codes "---" ∷ codes "run" ∷ []) ≡ None }
{}
