//! Logs by hand, which the checker computes from the definitions.
ghost use Rattle.std.specs.Prelude.{◌≡◌, ◌∷◌, ◌++◌, [], codes, length, take};
ghost use Rattle.log_group_laws.specs.log_model.Log.{magic};
ghost use Rattle.log_group_laws.specs.log_model.Worked.{first_log};
ghost use Rattle.log_file_model.specs.Printed.{log_lines};
ghost use Rattle.log_file_model.specs.Walk.{damaged, ended, foreign, grouped, grouped_from, nothing_but};
ghost use Rattle.log_file_model.specs.Worked.{lines_shown, rotated, with_unknown};

/// A log without events, and what is none.
#[tactic(auto, unfolding(crate::specs::Walk::grouped))]
pub fn magic_by_hand()
    ensures alone { grouped magic ≡ nothing_but ended }
    ensures wrong { grouped (0xfe ∷ 0x62 ∷ 0x69 ∷ 0x6f ∷ []) ≡ nothing_but (damaged 0) }
    ensures short { grouped (take 3 magic) ≡ nothing_but (damaged 0) }
{}

/// The log of a table and a row in it: its lines; without its last 6 bytes it is damaged where its transaction begins, and two
/// groups stand before.
pub fn first_log_by_hand()
    ensures cut { (grouped (take 330 first_log)).ending ≡ damaged 206 }
    ensures before { length (grouped (take 330 first_log)).pieces ≡ 2 }
{}

/// A byte behind the name of the next log; an event of a type that is not known, behind a whole log.
pub fn stops_by_hand()
    ensures whole { (grouped rotated).ending ≡ ended }
    ensures behind { (grouped (rotated ++ 0 ∷ [])).ending ≡ damaged 163 }
    ensures unknown { (grouped with_unknown).ending ≡ foreign 336 34 }
{}

/// From the transaction of the log of a table and a row on; with a position behind a log's end, and in its magic; a log without its magic,
/// which is looked at before its length.
pub fn positions_by_hand()
    ensures one { length (grouped_from 206 first_log).pieces ≡ 1 }
    ensures whole { (grouped_from 206 first_log).ending ≡ ended }
    ensures short { grouped_from 206 (take 205 first_log) ≡ nothing_but (damaged 205) }
    ensures within { grouped_from 3 first_log ≡ nothing_but (damaged 3) }
    ensures other { grouped_from 206 (0xfe ∷ 0x62 ∷ 0x69 ∷ 0x6f ∷ []) ≡ nothing_but (damaged 0) }
    ensures alone { grouped_from 4 magic ≡ nothing_but ended }
{}
