//! Lines by hand, which the checker computes from the definitions.
ghost use Rattle.std.specs.Prelude.{◌≡◌, ◌++◌, [], ◌∷◌, codes, false, neg_ℤ, pos, replicate, None, Some, true};
ghost use Rattle.val_types.specs.declared.value.Value.TheVariants.{Int, Null, Text};
ghost use Rattle.event_codec.specs.declared.event.IntVarKind.TheVariants.{InsertId, LastInsertId};
ghost use Rattle.event_codec.specs.declared.event.RowsKind.TheVariants.{Delete, Update, Write};
ghost use Rattle.event_codec.specs.Event.{format_description, int_var, query, rand, rotate, rows, table_map, user_var, xid};
ghost use Rattle.log_model.specs.Worked.{pair_bytes, pairs};
ghost use Rattle.log_print.specs.Escapes.{before_zero, escapes};
ghost use Rattle.log_print.specs.Lines.{line_of, rows_shown, words_of};

/// Bytes at the ends of what is plain, a quote, which is plain, and a backslash, which is not.
#[tactic(auto, unfolding(hex::specs::Hex::encode_with))]
pub fn bytes_by_hand()
    ensures low { escapes (0x1f ∷ 0x20 ∷ []) ≡ 0x5c ∷ codes "x1f " }
    ensures high { escapes (0x7e ∷ 0x7f ∷ 0xff ∷ []) ≡ codes "~" ++ 0x5c ∷ codes "x7f" ++ 0x5c ∷ codes "xff" }
    ensures quote { escapes (codes "it's") ≡ codes "it's" }
    ensures backslash { escapes (0x5c ∷ codes "n") ≡ 0x5c ∷ codes "x5cn" }
    ensures zero { escapes (0 ∷ 0xab ∷ []) ≡ 0x5c ∷ codes "x00" ++ 0x5c ∷ codes "xab" }
    ensures first_zero { before_zero (codes "5.7" ++ 0 ∷ 1 ∷ 0 ∷ []) ≡ codes "5.7" }
    ensures no_zero { before_zero (codes "ab") ≡ codes "ab" }
{}

/// The version with its zeros, the name of the next log, user variables, and rows of one text.
#[tactic(auto, unfolding(hex::specs::Hex::encode_with, event_codec::specs::LogName::log_name))]
pub fn words_by_hand()
    ensures version { words_of None 0 (format_description (codes "5.7.44-log" ++ replicate 40 0)) ≡ codes "FORMAT_DESCRIPTION 5.7.44-log" }
    ensures next { words_of None 0 (rotate 2) ≡ codes "ROTATE binlog.000002" }
    ensures last { words_of None 0 (rotate 60000) ≡ codes "ROTATE binlog.060000" }
    ensures null { words_of None 0 (user_var (codes "x") Null) ≡ codes "USER_VAR x NULL" }
    ensures text { words_of None 0 (user_var (codes "y") (Text (codes "a b"))) ≡ codes "USER_VAR y 'a b'" }
    ensures hexadecimal { words_of None 0 (user_var (0x0a ∷ []) (Text (0x0a ∷ []))) ≡ codes "USER_VAR " ++ 0x5c ∷ codes "x0a X'0A'" }
    ensures no_map { rows_shown None (record { kind = Write; id = 1; ends = true; columns = 1; rows = 1 ∷ [] }) ≡ [] }
{}

/// A log that begins, a table and a row in it; then increments and offsets.
pub fn statements_by_hand()
    ensures start { line_of None 4 (record { stamp = 1700000000; size = 119; body = format_description (codes "5.7.44-log" ++ replicate 40 0) }) ≡ codes "4 FORMAT_DESCRIPTION 5.7.44-log" }
    ensures create { line_of None 123 (record { stamp = 1700000001; size = 83; body = query (record { thread = 1; step = None; text = codes "CREATE TABLE t (id INT, v INT, PRIMARY KEY (id))" }) }) ≡ codes "123 QUERY thread=1 time=1700000001 CREATE TABLE t (id INT, v INT, PRIMARY KEY (id))" }
    ensures begin { line_of None 206 (record { stamp = 1700000002; size = 40; body = query (record { thread = 1; step = None; text = codes "BEGIN" }) }) ≡ codes "206 QUERY thread=1 time=1700000002 BEGIN" }
    ensures insert { line_of None 246 (record { stamp = 1700000002; size = 63; body = query (record { thread = 1; step = None; text = codes "INSERT INTO t VALUES (1, 10)" }) }) ≡ codes "246 QUERY thread=1 time=1700000002 INSERT INTO t VALUES (1, 10)" }
    ensures commit { line_of None 309 (record { stamp = 1700000002; size = 27; body = xid 2 }) ≡ codes "309 XID 2" }
    ensures step { words_of None 0 (query (record { thread = 2; step = Some (record { increment = 10; offset = 20 }); text = codes "DO 1" })) ≡ codes "QUERY thread=2 time=0 inc=10 off=20 DO 1" }
{}

/// What a statement needs of its session, and the map of a table.
pub fn numbers_by_hand()
    ensures insert_id { words_of None 0 (int_var InsertId 2) ≡ codes "INTVAR INSERT_ID 2" }
    ensures last_insert_id { words_of None 0 (int_var LastInsertId 9223372036854775807) ≡ codes "INTVAR LAST_INSERT_ID 9223372036854775807" }
    ensures seeds { words_of None 0 (rand 1 1073741822) ≡ codes "RAND 1 1073741822" }
    ensures negative { words_of None 0 (user_var (codes "y") (Int (neg_ℤ (pos 2)))) ≡ codes "USER_VAR y -2" }
    ensures map { words_of None 0 (table_map (pairs 1)) ≡ codes "TABLE_MAP 1 t" }
{}

/// Rows of two numbers that were put in, changed and taken out.
#[tactic(auto, unfolding(log_model::specs::Images::row_at, log_model::specs::Images::changes_at, byte_fields::specs::Unroll::all_from, byte_fields::specs::Field::number_at))]
pub fn rows_by_hand()
    ensures put_in { words_of (Some (pairs 1)) 0 (rows (record { kind = Write; id = 1; ends = false; columns = 2; rows = pair_bytes })) ≡ codes "WRITE_ROWS 1 (1, 10)" }
    ensures changed { words_of (Some (pairs 1)) 0 (rows (record { kind = Update; id = 1; ends = false; columns = 2; rows = pair_bytes ++ 2 ∷ 1 ∷ 0 ∷ 0 ∷ 0 ∷ [] })) ≡ codes "UPDATE_ROWS 1 (1, 10)->(1, NULL)" }
    ensures taken_out { words_of (Some (pairs 1)) 0 (rows (record { kind = Delete; id = 1; ends = true; columns = 2; rows = pair_bytes ++ pair_bytes })) ≡ codes "DELETE_ROWS 1 end (1, 10) (1, 10)" }
{}
