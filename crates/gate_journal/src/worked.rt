//! Journals by hand.
ghost use Rattle.std.specs.Prelude.{◌≡◌, [], ◌∷◌, Ok, Err};
ghost use Rattle.gate_journal.specs.declared.record.NextRecord.TheVariants.{End, Record, Damaged};
ghost use Rattle.gate_journal.specs.Records.{records, record_at, with_last};
ghost use Rattle.gate_journal.specs.Worked.{two_records, one_staged, three_records};

/// The records of a file, those with a body staged behind the gate, and with its gate open.
pub fn journals_by_hand()
    ensures none { records [] ≡ Ok (record { bodies = []; gates = []; gate = 0 }) }
    ensures one_byte { records (90 ∷ []) ≡ Ok (record { bodies = []; gates = []; gate = 0 }) }
    ensures closed { records (0 ∷ 255 ∷ []) ≡ Ok (record { bodies = []; gates = []; gate = 0 }) }
    ensures two { records two_records ≡ Ok (record { bodies = (97 ∷ 98 ∷ 99 ∷ []) ∷ [] ∷ []; gates = 0 ∷ 8 ∷ []; gate = 13 }) }
    ensures staged { records one_staged ≡ records two_records }
    ensures opened { records three_records ≡ with_last (100 ∷ []) (records two_records) }
    ensures at_gate { record_at three_records 13 ≡ Record 1 }
    ensures behind { record_at three_records 19 ≡ End }
{}

/// An open record whose length or body or next gate does not stand in the file.
pub fn damage_by_hand()
    ensures no_length { records (1 ∷ 0 ∷ []) ≡ Err 0 }
    ensures no_body { records (1 ∷ 255 ∷ 0 ∷ 0 ∷ 0 ∷ 0 ∷ []) ≡ Err 0 }
    ensures no_gate { records (1 ∷ 1 ∷ 0 ∷ 0 ∷ 0 ∷ 97 ∷ []) ≡ Err 0 }
    ensures second { records (1 ∷ 1 ∷ 0 ∷ 0 ∷ 0 ∷ 97 ∷ 7 ∷ []) ≡ Err 6 }
    ensures behind_closed { records (0 ∷ 1 ∷ 1 ∷ 1 ∷ 1 ∷ []) ≡ Ok (record { bodies = []; gates = []; gate = 0 }) }
{}
