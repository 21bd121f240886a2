//! Events by hand, which the checker computes from the definitions: the bytes of small logs, and bodies
//! at the edges of their forms.
ghost use Rattle.std.specs.Prelude.{◌≡◌, ◌++◌, [], ◌∷◌, codes, false, true, neg_ℤ, pos, None, Some, Ok, Err, ℕ, length};
ghost use Rattle.val_types.specs.declared.value.Value.TheVariants as value;
ghost use Rattle.event_codec.specs.declared.event.IntVarKind.TheVariants.{InsertId, LastInsertId};
ghost use Rattle.event_codec.specs.declared.event.RowsKind.TheVariants.{Delete, Update, Write};
ghost use Rattle.event_codec.specs.declared.fault.Fault.TheVariants.{Damaged, Foreign};
ghost use Rattle.event_codec.specs.Event.{query, rotate, int_var, rand, user_var, xid, table_map, rows};
ghost use Rattle.event_codec.specs.Reading.{body_at, damaged, event, none, reading, short};
ghost use Rattle.event_codec.specs.Worked.{begin_body, first_head, step_body, table_body, table_of, xid_event};
ghost use Rattle.event_codec.specs.Writing.{body_bytes, event_bytes, header_bytes};

/// The header of a log's first event, and an XID that ends at 253: byte by byte, and read again.
#[tactic(auto, unfolding(crate::specs::Worked::xid_event, crate::specs::Worked::first_head, crate::specs::Writing::event_bytes, crate::specs::Writing::header_bytes, crate::specs::Writing::size, byte_fields::specs::Field::number_bytes, byte_fields::specs::Field::number_at, crate::specs::Reading::reading, crate::specs::Bodies::xid_body))]
pub fn events_by_hand()
    ensures head { header_bytes 15 119 (record { stamp = 1700000000; server_id = 1; pos = 4 }) ≡ first_head }
    ensures xid_written { event_bytes (xid 1) (record { stamp = 1700000001; server_id = 1; pos = 226 }) ≡ xid_event }
    ensures xid_read { reading (xid_event ++ (7 ∷ [])) 226 ≡ event (record { stamp = 1700000001; size = 27; body = xid 1 }) }
    ensures xid_elsewhere { reading xid_event 225 ≡ none (damaged 225) }
    ensures head_alone { reading first_head 4 ≡ none (short 119) }
    ensures nothing { reading [] 4 ≡ none (short 19) }
{}

/// Bodies of statements and of what they need of their session: as written, and as read.
#[tactic(auto, unfolding(crate::specs::Worked::step_body, crate::specs::Worked::begin_body, crate::specs::Writing::query_bytes, crate::specs::Writing::user_var_bytes, crate::specs::Writing::rotate_bytes, crate::specs::LogName::log_name, crate::specs::LogName::log_number, byte_fields::specs::Field::number_bytes, byte_fields::specs::Field::number_at, crate::specs::Bodies::query_body, crate::specs::Bodies::step_at, crate::specs::Bodies::rotate_body, crate::specs::Bodies::int_var_body, crate::specs::Bodies::rand_body, crate::specs::Bodies::value_at, crate::specs::Bodies::user_var_body))]
pub fn statements_by_hand()
    ensures begin_written { body_bytes 0 (query (record { thread = 1; step = None; text = codes "BEGIN" })) ≡ begin_body }
    ensures begin_read { body_at 2 begin_body ≡ Ok (query (record { thread = 1; step = None; text = codes "BEGIN" })) }
    ensures step_written { body_bytes 0 (query (record { thread = 1; step = Some (record { increment = 10; offset = 20 }); text = codes "x" })) ≡ step_body }
    ensures step_read { body_at 2 step_body ≡ Ok (query (record { thread = 1; step = Some (record { increment = 10; offset = 20 }); text = codes "x" })) }
    ensures insert_id { body_bytes 0 (int_var InsertId 2) ≡ 2 ∷ 2 ∷ 0 ∷ 0 ∷ 0 ∷ 0 ∷ 0 ∷ 0 ∷ 0 ∷ [] }
    ensures last_insert_id { body_at 5 (1 ∷ 255 ∷ 255 ∷ 255 ∷ 255 ∷ 255 ∷ 255 ∷ 255 ∷ 127 ∷ []) ≡ Ok (int_var LastInsertId 9223372036854775807) }
    ensures above_bigint { body_at 5 (1 ∷ 0 ∷ 0 ∷ 0 ∷ 0 ∷ 0 ∷ 0 ∷ 0 ∷ 128 ∷ []) ≡ Err Foreign }
    ensures third_kind { body_at 5 (3 ∷ 0 ∷ 0 ∷ 0 ∷ 0 ∷ 0 ∷ 0 ∷ 0 ∷ 128 ∷ []) ≡ Err Damaged }
    ensures seeds_wrap { body_at 13 (255 ∷ 255 ∷ 255 ∷ 63 ∷ 0 ∷ 0 ∷ 0 ∷ 0 ∷ 0 ∷ 0 ∷ 0 ∷ 64 ∷ 0 ∷ 0 ∷ 0 ∷ 0 ∷ []) ≡ Ok (rand 0 1) }
    ensures null_written { body_bytes 0 (user_var (codes "x") value.Null) ≡ 1 ∷ 0 ∷ 0 ∷ 0 ∷ 0x78 ∷ 1 ∷ [] }
    ensures null_read { body_at 14 (1 ∷ 0 ∷ 0 ∷ 0 ∷ 0x78 ∷ 1 ∷ []) ≡ Ok (user_var (codes "x") value.Null) }
    ensures empty_text { body_bytes 0 (user_var (codes "x") (value.Text [])) ≡ 1 ∷ 0 ∷ 0 ∷ 0 ∷ 0x78 ∷ 0 ∷ 0 ∷ 63 ∷ 0 ∷ 0 ∷ 0 ∷ 0 ∷ 0 ∷ 0 ∷ 0 ∷ 0 ∷ [] }
    ensures minus_two { body_at 14 (1 ∷ 0 ∷ 0 ∷ 0 ∷ 0x78 ∷ 0 ∷ 2 ∷ 63 ∷ 0 ∷ 0 ∷ 0 ∷ 8 ∷ 0 ∷ 0 ∷ 0 ∷ 254 ∷ 255 ∷ 255 ∷ 255 ∷ 255 ∷ 255 ∷ 255 ∷ 255 ∷ 0 ∷ []) ≡ Ok (user_var (codes "x") (value.Int (neg_ℤ (pos 2)))) }
    ensures log_two { body_bytes 0 (rotate 2) ≡ 4 ∷ 0 ∷ 0 ∷ 0 ∷ 0 ∷ 0 ∷ 0 ∷ 0 ∷ codes "binlog.000002" }
    ensures log_read { body_at 4 (4 ∷ 0 ∷ 0 ∷ 0 ∷ 0 ∷ 0 ∷ 0 ∷ 0 ∷ codes "binlog.060000") ≡ Ok (rotate 60000) }
    ensures log_elsewhere { body_at 4 (4 ∷ 0 ∷ 0 ∷ 0 ∷ 0 ∷ 0 ∷ 0 ∷ 0 ∷ codes "binlog.06000") ≡ Err Foreign }
{}

/// The map of a table of two numbers, and rows of it: as written and as read, with a column that is not
/// present, unused bits that are set, and a length that is spelled longer than it has to be.
#[tactic(auto, unfolding(crate::specs::Worked::table_body, crate::specs::Worked::table_of, crate::specs::Writing::table_map_bytes, crate::specs::Writing::names_bytes, crate::specs::Writing::rows_bytes, byte_fields::specs::Field::number_bytes, byte_fields::specs::Field::number_at, byte_fields::specs::LengthEncoded::lenenc_at, byte_fields::specs::LengthEncoded::lenenc_bytes, crate::specs::Parts::text, crate::specs::Columns::columns_at, crate::specs::Bodies::table_map_body, crate::specs::Bodies::rows_body))]
pub fn tables_by_hand()
    ensures map_written { body_bytes 0 (table_map (table_of 2)) ≡ table_body }
    ensures map_read { body_at 19 table_body ≡ Ok (table_map (table_of 2)) }
    ensures rows_written { body_bytes 0 (rows (record { kind = Write; id = 2; ends = true; columns = 2; rows = 0 ∷ [] })) ≡ 2 ∷ 0 ∷ 0 ∷ 0 ∷ 0 ∷ 0 ∷ 1 ∷ 0 ∷ 2 ∷ 0 ∷ 2 ∷ 3 ∷ 0 ∷ [] }
    ensures rows_read { body_at 30 (2 ∷ 0 ∷ 0 ∷ 0 ∷ 0 ∷ 0 ∷ 1 ∷ 0 ∷ 2 ∷ 0 ∷ 2 ∷ 3 ∷ 0 ∷ []) ≡ Ok (rows (record { kind = Write; id = 2; ends = true; columns = 2; rows = 0 ∷ [] })) }
    ensures unused_bits { body_at 30 (2 ∷ 0 ∷ 0 ∷ 0 ∷ 0 ∷ 0 ∷ 2 ∷ 0 ∷ 2 ∷ 0 ∷ 2 ∷ 255 ∷ 0 ∷ []) ≡ Ok (rows (record { kind = Write; id = 2; ends = false; columns = 2; rows = 0 ∷ [] })) }
    ensures longer_spelling { body_at 32 (2 ∷ 0 ∷ 0 ∷ 0 ∷ 0 ∷ 0 ∷ 1 ∷ 0 ∷ 2 ∷ 0 ∷ 252 ∷ 2 ∷ 0 ∷ 3 ∷ 0 ∷ []) ≡ Ok (rows (record { kind = Delete; id = 2; ends = true; columns = 2; rows = 0 ∷ [] })) }
    ensures two_bitmaps { body_at 31 (2 ∷ 0 ∷ 0 ∷ 0 ∷ 0 ∷ 0 ∷ 1 ∷ 0 ∷ 2 ∷ 0 ∷ 2 ∷ 3 ∷ 3 ∷ 0 ∷ []) ≡ Ok (rows (record { kind = Update; id = 2; ends = true; columns = 2; rows = 0 ∷ [] })) }
    ensures not_present { body_at 31 (2 ∷ 0 ∷ 0 ∷ 0 ∷ 0 ∷ 0 ∷ 1 ∷ 0 ∷ 2 ∷ 0 ∷ 2 ∷ 3 ∷ 1 ∷ 0 ∷ []) ≡ Err Foreign }
    ensures no_rows { body_at 31 (2 ∷ 0 ∷ 0 ∷ 0 ∷ 0 ∷ 0 ∷ 1 ∷ 0 ∷ 2 ∷ 0 ∷ 2 ∷ 3 ∷ 1 ∷ []) ≡ Err Damaged }
    ensures extra_bytes { body_at 31 (2 ∷ 0 ∷ 0 ∷ 0 ∷ 0 ∷ 0 ∷ 1 ∷ 0 ∷ 3 ∷ 0 ∷ []) ≡ Err Foreign }
    ensures no_length { body_at 31 (2 ∷ 0 ∷ 0 ∷ 0 ∷ 0 ∷ 0 ∷ 1 ∷ 0 ∷ 2 ∷ 0 ∷ 251 ∷ 3 ∷ 3 ∷ 0 ∷ []) ≡ Err Damaged }
{}
