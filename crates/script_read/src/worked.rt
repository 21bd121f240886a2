//! Worked scripts, which the checker computes from their bytes.
ghost use Rattle.std.specs.Prelude.{◌≡◌, ◌<◌, ◌≤◌, ℕ, List, [], ◌∷◌, ◌++◌, codes, length, Err, None, Ok, Some};
ghost use Rattle.script_read.specs.Bytes.{trim_front};
ghost use Rattle.script_read.specs.Commands.{What, actor_of, apply, fetch, of_session, replica_checkpoint, replica_restart, replica_select, replica_text, source_checkpoint, source_flush, source_restart, source_text};
ghost use Rattle.script_read.specs.Script.{command_at, command_of, split_of, text_of_body};
ghost use Rattle.script_read.specs.Worked.{line, only, says, slashes};
ghost use Rattle.script_read.specs.declared.command.Actor.TheVariants as actors;

/// Who an actor is, in either case: sessions 1 to 99 without leading zeros, the source, the replica.
pub fn actors_read()
    ensures first { actor_of (codes "s1") ≡ Some (actors.Session 1) }
    ensures large { actor_of (codes "S1") ≡ Some (actors.Session 1) }
    ensures tenth { actor_of (codes "s10") ≡ Some (actors.Session 10) }
    ensures last { actor_of (codes "s99") ≡ Some (actors.Session 99) }
    ensures last_large { actor_of (codes "S99") ≡ Some (actors.Session 99) }
    ensures zero { actor_of (codes "s0") ≡ None }
    ensures two_zeros { actor_of (codes "s00") ≡ None }
    ensures leading { actor_of (codes "s01") ≡ None }
    ensures past { actor_of (codes "s100") ≡ None }
    ensures far_past { actor_of (codes "s18446744073709551617") ≡ None }
    ensures signed { actor_of (codes "s+1") ≡ None }
    ensures without { actor_of (codes "s") ≡ None }
    ensures letter { actor_of (codes "s1a") ≡ None }
    ensures blank { actor_of (codes "s 1") ≡ None }
    ensures other { actor_of (codes "t1") ≡ None }
    ensures nobody { actor_of [] ≡ None }
    ensures source { actor_of (codes "source") ≡ Some actors.Source }
    ensures source_large { actor_of (codes "SOURCE") ≡ Some actors.Source }
    ensures replica { actor_of (codes "replica") ≡ Some actors.Replica }
    ensures replica_mixed { actor_of (codes "RepLica") ≡ Some actors.Replica }
    ensures longer { actor_of (codes "replicas") ≡ None }
    ensures behind { actor_of (codes "source ") ≡ None }
{}

/// What the source is asked: one of three words, in either case, and nothing beside it.
pub fn source_asked()
    ensures checkpoint { source_text (codes "CHECKPOINT") ≡ Some source_checkpoint }
    ensures checkpoint_small { source_text (codes "checkpoint") ≡ Some source_checkpoint }
    ensures flush { source_text (codes "Flush") ≡ Some source_flush }
    ensures restart { source_text (codes "rEsTaRt") ≡ Some source_restart }
    ensures nothing { source_text [] ≡ None }
    ensures more { source_text (codes "CHECKPOINT 1") ≡ None }
    ensures two { source_text (codes "FLUSH RESTART") ≡ None }
    ensures ended { source_text (codes "FLUSH;") ≡ None }
    ensures front { source_text (codes "FLUS") ≡ None }
    ensures of_replica { source_text (codes "FETCH 1") ≡ None }
    ensures select { source_text (codes "SELECT 1") ≡ None }
{}

/// What the replica is asked in words.
pub fn replica_asked()
    ensures checkpoint { replica_text (codes "checkPOINT") ≡ Some replica_checkpoint }
    ensures restart { replica_text (codes "RESTART") ≡ Some replica_restart }
    ensures restart_now { replica_text (codes "RESTART now") ≡ None }
    ensures flush { replica_text (codes "FLUSH") ≡ None }
    ensures nothing { replica_text [] ≡ None }
    ensures update { replica_text (codes "UPDATE t SET v = 1") ≡ None }
{}

/// A text whose first word is SELECT, whatever follows: the first word is the longest front of letters, digits, `_` and `$`.
pub fn selects_read()
    ensures alone { replica_text (codes "SELECT") ≡ Some (replica_select (codes "SELECT")) }
    ensures small { replica_text (codes "select * FROM t") ≡ Some (replica_select (codes "select * FROM t")) }
    ensures open { replica_text (codes "select(1)") ≡ Some (replica_select (codes "select(1)")) }
    ensures star { replica_text (codes "Select*from t") ≡ Some (replica_select (codes "Select*from t")) }
    ensures digit { replica_text (codes "SELECT1") ≡ None }
    ensures underscore { replica_text (codes "SELECT_") ≡ None }
    ensures dollar { replica_text (codes "SELECT$") ≡ None }
    ensures quoted { replica_text (codes "`SELECT`") ≡ None }
    ensures within { replica_text (codes "(SELECT 1)") ≡ None }
{}

/// FETCH with a number from 1 to 1073741824, in decimal without sign or leading zero, behind white space.
pub fn fetches_read()
    ensures least { replica_text (codes "FETCH 1") ≡ Some (fetch 1) }
    ensures small { replica_text (codes "fetch 12") ≡ Some (fetch 12) }
    ensures blanks { replica_text (codes "Fetch" ++ 0x20 ∷ 0x09 ∷ 0x0d ∷ 0x0a ∷ codes "7") ≡ Some (fetch 7) }
    ensures greatest { replica_text (codes "FETCH 1073741824") ≡ Some (fetch 1073741824) }
    ensures past { replica_text (codes "FETCH 1073741825") ≡ None }
    ensures far_past { replica_text (codes "FETCH 18446744073709551617") ≡ None }
    ensures zero { replica_text (codes "FETCH 0") ≡ None }
    ensures leading { replica_text (codes "FETCH 01") ≡ None }
    ensures plus { replica_text (codes "FETCH +1") ≡ None }
    ensures minus { replica_text (codes "FETCH -1") ≡ None }
    ensures letter { replica_text (codes "FETCH 1a") ≡ None }
    ensures hexadecimal { replica_text (codes "FETCH 0x1") ≡ None }
    ensures fraction { replica_text (codes "FETCH 1.0") ≡ None }
    ensures two { replica_text (codes "FETCH 1 2") ≡ None }
    ensures without { replica_text (codes "FETCH") ≡ None }
    ensures joined { replica_text (codes "FETCH1") ≡ None }
    ensures parenthesis { replica_text (codes "FETCH(1)") ≡ None }
{}

/// APPLY with a number from 1 to 4294967295, likewise.
pub fn applies_read()
    ensures least { replica_text (codes "APPLY 1") ≡ Some (apply 1) }
    ensures small { replica_text (codes "apply  20") ≡ Some (apply 20) }
    ensures greatest { replica_text (codes "APPLY 4294967295") ≡ Some (apply 4294967295) }
    ensures past { replica_text (codes "APPLY 4294967296") ≡ None }
    ensures zero { replica_text (codes "APPLY 0") ≡ None }
    ensures leading { replica_text (codes "APPLY 007") ≡ None }
    ensures minus { replica_text (codes "APPLY -1") ≡ None }
    ensures without { replica_text (codes "APPLY") ≡ None }
    ensures joined { replica_text (codes "APPLY1") ≡ None }
{}

/// Where a command ends: at the first `//` that a line feed, a carriage return and a line feed, or the end of the script
/// follows, in a string too.
#[tactic(auto, unfolding(crate::specs::Script::split_of))]
pub fn ends_found()
    ensures feed { split_of (codes "s1:a" ++ slashes ++ 0x0a ∷ []) ≡ says (codes "a") }
    ensures both { split_of (codes "s1:a" ++ slashes ++ 0x0d ∷ 0x0a ∷ []) ≡ says (codes "a") }
    ensures end { split_of (codes "s1:a" ++ slashes) ≡ says (codes "a") }
    ensures carriage { split_of (codes "s1:a" ++ slashes ++ 0x0d ∷ []) ≡ Err 0 }
    ensures space { split_of (codes "s1:a" ++ slashes ++ 0x20 ∷ 0x0a ∷ []) ≡ Err 0 }
    ensures inside { split_of (codes "s1:a//b" ++ slashes) ≡ says (codes "a//b") }
    ensures three { split_of (codes "s1:a/" ++ slashes) ≡ says (codes "a/") }
    ensures one { split_of (codes "s1:a/" ++ 0x0a ∷ []) ≡ Err 0 }
    ensures without { split_of (codes "s1:a") ≡ Err 0 }
    ensures string { split_of (line (codes "s1:'a") ++ codes "b' " ++ slashes) ≡ Err 8 }
    ensures lines { split_of (codes "s1:a" ++ 0x0a ∷ codes "b" ++ slashes) ≡ says (codes "a" ++ 0x0a ∷ codes "b") }
    ensures second { split_of (line (codes "s1:a") ++ line (codes "s2:b")) ≡ Ok (command_at 0 (of_session 1 (codes "a")) ∷ command_at 7 (of_session 2 (codes "b")) ∷ []) }
{}

/// What a body says: white space and one closing `;` are taken away.
pub fn texts_trimmed()
    ensures blanks { text_of_body (0x20 ∷ 0x09 ∷ codes "a b" ++ 0x0d ∷ 0x0a ∷ []) ≡ codes "a b" }
    ensures once { text_of_body (codes "a;") ≡ codes "a" }
    ensures twice { text_of_body (codes "a;;") ≡ codes "a;" }
    ensures apart { text_of_body (codes " a ; ") ≡ codes "a" }
    ensures both { text_of_body (codes "a; ;") ≡ codes "a;" }
    ensures inside { text_of_body (codes "a;b") ≡ codes "a;b" }
    ensures leading { text_of_body (codes ";a") ≡ codes ";a" }
    ensures alone { text_of_body (codes ";") ≡ [] }
    ensures nothing { text_of_body [] ≡ [] }
    ensures other { text_of_body (0x0b ∷ codes "a" ++ 0x00 ∷ []) ≡ 0x0b ∷ codes "a" ++ 0x00 ∷ [] }
{}

/// Where a script is bad: at the first byte of the first command that is none.
#[tactic(auto, unfolding(crate::specs::Script::split_of))]
pub fn places_found()
    ensures empty { split_of [] ≡ Ok [] }
    ensures blank { split_of (0x20 ∷ 0x09 ∷ 0x0d ∷ 0x0a ∷ []) ≡ Ok [] }
    ensures no_text { split_of (codes "s1:" ++ slashes) ≡ says [] }
    ensures no_source_text { split_of (codes "source:" ++ slashes) ≡ Err 0 }
    ensures before { split_of (0x20 ∷ 0x0a ∷ codes "s1:" ++ slashes) ≡ Ok (command_at 2 (of_session 1 []) ∷ []) }
    ensures colon_apart { split_of (codes "s1 :a" ++ slashes) ≡ Err 0 }
    ensures no_colon { split_of (codes "s1 a" ++ slashes) ≡ Err 0 }
    ensures slashes_alone { split_of slashes ≡ Err 0 }
    ensures fetched { split_of (codes "Replica: FETCH 5;" ++ slashes) ≡ only (fetch 5) }
    ensures flushed { split_of (codes "source: FLUSH ; " ++ slashes) ≡ only source_flush }
    ensures two_semicolons { split_of (codes "source: FLUSH;;" ++ slashes) ≡ Err 0 }
    ensures bad_second { split_of (line (codes "s1:a") ++ 0x20 ∷ line (codes "s0:b")) ≡ Err 8 }
    ensures bad_text { split_of (line (codes "s1:a") ++ line (codes "source: FETCH 1") ++ line (codes "s0:b")) ≡ Err 7 }
    ensures bad_end { split_of (line (codes "s1:a") ++ codes "s2:b") ≡ Err 7 }
{}

/// What is past a limit is bad: a script at its limit, a command at its first byte.
pub fn limits_kept()
    ensures script { (script : List ℕ) → 67108864 < length script → split_of script ≡ Err 67108864 }
    ensures command { (script : List ℕ) (what : What) (size : ℕ) → length script ≤ 67108864 → 0 < length script
        → trim_front script ≡ script → command_of script ≡ Some (what, size) → 1048576 < size → split_of script ≡ Err 0 }
{}
