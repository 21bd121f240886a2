//! Logs by hand, which the checker computes from the definitions.
ghost use Rattle.std.specs.Prelude.{◌≡◌, ◌++◌, [], ◌∷◌, codes, drop, false, length, map, neg_ℤ, pos, replicate, take, true, None, Some};
ghost use Rattle.val_types.specs.declared.change.Change.TheVariants.{Delete as Remove, Insert, Update as Replace};
ghost use Rattle.val_types.specs.declared.value.Value.TheVariants.{Int, Null, Text};
ghost use Rattle.event_codec.specs.Event.{Map, Query, Rows};
ghost use Rattle.event_codec.specs.declared.event.RowsKind.TheVariants.{Delete, Update, Write};
ghost use Rattle.log_model.specs.Events.{Place};
ghost use Rattle.log_model.specs.Groups.{ddl, group, group_at, not_whole, txn, Group};
ghost use Rattle.log_model.specs.Items.{changes_item, item_events, item_size, text_of};
ghost use Rattle.log_model.specs.Log.{LogPlace, definition, end, head, log, transaction, written_to};
ghost use Rattle.log_model.specs.Spelling.{bodies_of, rows_item, text_item};
ghost use Rattle.log_model.specs.Worked.{bodies_in, by_text, creating, first_entries, first_log, inserting, needing, nowhere, pairs, plainly, rows_sizes, text_row, sizes_in, stepping, table_named, with_trigger};

/// A log that begins has 123 bytes; the header of its first event.
#[tactic(auto, unfolding(event_codec::specs::Writing::event_bytes, event_codec::specs::Writing::header_bytes, event_codec::specs::Writing::size, event_codec::specs::Writing::format_description_bytes, event_codec::specs::Writing::layout_bytes, byte_fields::specs::Field::number_bytes))]
pub fn log_starts()
    ensures bytes { length (head 1700000000 1) ≡ 123 }
    ensures header { take 23 (head 1700000000 1) ≡ 0xfe ∷ 0x62 ∷ 0x69 ∷ 0x6e ∷ 0x00 ∷ 0xf1 ∷ 0x53 ∷ 0x65 ∷ 0x0f ∷ 0x01 ∷ 0x00 ∷ 0x00 ∷ 0x00 ∷ 0x77 ∷ 0x00 ∷ 0x00 ∷ 0x00 ∷ 0x7b ∷ 0x00 ∷ 0x00 ∷ 0x00 ∷ 0x00 ∷ 0x00 ∷ [] }
{}

/// A table that is created, and a row in it: the events' lengths and places.
#[tactic(auto, unfolding(event_codec::specs::Writing::size, event_codec::specs::Writing::query_bytes, byte_fields::specs::Field::number_bytes))]
pub fn row_inserted()
    ensures definition { sizes_in (definition 1700000001 creating) ≡ 83 ∷ [] }
    ensures transaction { sizes_in (transaction 1700000002 2 (inserting ∷ [])) ≡ 40 ∷ 63 ∷ 27 ∷ [] }
    ensures writer { written_to first_entries 0 nowhere ≡ record { log = 1; pos = 336 } }
    ensures started { end (record { log = 1; pos = 4 }) first_entries 1 0 nowhere ≡ record { log = 1; pos = 4 } }
    ensures created { end (record { log = 1; pos = 4 }) first_entries 2 0 nowhere ≡ record { log = 1; pos = 206 } }
    ensures inserted { end (record { log = 1; pos = 4 }) first_entries 3 0 nowhere ≡ record { log = 1; pos = 336 } }
{}

/// The log of that row has 336 bytes, and begins with a log's start, a definition and a transaction; without
/// its last 6 bytes the transaction is not whole.
#[tactic(auto, unfolding(crate::specs::Worked::first_log, crate::specs::Groups::group_at, crate::specs::Events::walk, byte_fields::specs::Unroll::all_from, event_codec::specs::Reading::reading, event_codec::specs::Bodies::query_body, event_codec::specs::Bodies::xid_body, event_codec::specs::Writing::event_bytes, event_codec::specs::Writing::header_bytes, event_codec::specs::Writing::size, event_codec::specs::Writing::query_bytes, event_codec::specs::Writing::format_description_bytes, event_codec::specs::Writing::layout_bytes, byte_fields::specs::Field::number_bytes, byte_fields::specs::Field::number_at))]
pub fn first_log_by_hand()
    ensures bytes { length first_log ≡ 336 }
    ensures created { group_at (record { bytes = drop 123 first_log; pos = 123 }) ≡ group (record { form = ddl (record { stamp = 1700000001; size = 83; query = record { thread = 1; step = None; text = creating.text } }); begin = 123; end = 206 }) }
    ensures cut { group_at (record { bytes = take 124 (drop 206 first_log); pos = 206 }) ≡ not_whole }
{}

/// What texts carry: a value that was generated; increment and offset; user variables.
#[tactic(auto, unfolding(event_codec::specs::Writing::size, event_codec::specs::Writing::query_bytes, event_codec::specs::Writing::user_var_bytes, byte_fields::specs::Field::number_bytes))]
pub fn texts_by_hand()
    ensures generated { sizes_in (take 1 (item_events (by_text (codes "INSERT INTO a (k) VALUES (1)") (needing (plainly 1700000005 1) (Some (pos 2)) [])))) ≡ 28 ∷ [] }
    ensures generated_body { bodies_in (take 1 (item_events (by_text (codes "INSERT INTO a (k) VALUES (1)") (needing (plainly 1700000005 1) (Some (pos 2)) [])))) ≡ (2 ∷ 2 ∷ 0 ∷ 0 ∷ 0 ∷ 0 ∷ 0 ∷ 0 ∷ 0 ∷ []) ∷ [] }
    ensures stepping { bodies_in (item_events (by_text (codes "x") (stepping (plainly 1 1) 10 3))) ≡ (1 ∷ 0 ∷ 0 ∷ 0 ∷ 0 ∷ 0 ∷ 0 ∷ 0 ∷ 2 ∷ 0 ∷ 0 ∷ 5 ∷ 0 ∷ 0x03 ∷ 0x0a ∷ 0x00 ∷ 0x03 ∷ 0x00 ∷ (codes "db" ++ (0 ∷ codes "x"))) ∷ [] }
    ensures large_offset { bodies_in (item_events (by_text (codes "x") (stepping (plainly 1 1) 10 20))) ≡ (1 ∷ 0 ∷ 0 ∷ 0 ∷ 0 ∷ 0 ∷ 0 ∷ 0 ∷ 2 ∷ 0 ∷ 0 ∷ 5 ∷ 0 ∷ 0x03 ∷ 0x0a ∷ 0x00 ∷ 0x14 ∷ 0x00 ∷ (codes "db" ++ (0 ∷ codes "x"))) ∷ [] }
    ensures variable { bodies_in (take 1 (item_events (by_text (codes "INSERT INTO t VALUES (2, g())") (needing (plainly 1700000004 1) None ((codes "x", Null) ∷ []))))) ≡ (1 ∷ 0 ∷ 0 ∷ 0 ∷ 0x78 ∷ 1 ∷ []) ∷ [] }
{}

/// Rows: a map for each table in the order of first changes, then runs of changes of one kind.
#[tactic(auto, unfolding(crate::specs::Images::row_bytes, byte_fields::specs::Field::number_bytes))]
pub fn rows_items_by_hand()
    ensures events { changes_item with_trigger.defs with_trigger.changes ≡ rows_item (pairs 1 ∷ record { id = 2; name = codes "l"; kinds = 3 ∷ 3 ∷ []; metadata = []; nulls = 0 ∷ [] } ∷ []) (record { kind = Write; id = 1; ends = false; columns = 2; rows = 0 ∷ 2 ∷ 0 ∷ 0 ∷ 0 ∷ 2 ∷ 0 ∷ 0 ∷ 0 ∷ [] } ∷ record { kind = Write; id = 2; ends = true; columns = 2; rows = 0 ∷ 2 ∷ 0 ∷ 0 ∷ 0 ∷ 2 ∷ 0 ∷ 0 ∷ 0 ∷ [] } ∷ []) }
{}

/// An event has as many rows as fit into 8,192 bytes of them; rows of another kind begin another one.
#[tactic(auto, unfolding(crate::specs::Images::row_bytes, byte_fields::specs::Field::number_bytes))]
pub fn rows_cut()
    ensures fitting { rows_sizes (text_row 4093 ∷ text_row 4093 ∷ text_row 1 ∷ []) ≡ 8192 ∷ 4 ∷ [] }
    ensures one_too_many { rows_sizes (text_row 4093 ∷ text_row 4094 ∷ text_row 1 ∷ []) ≡ 4096 ∷ 4101 ∷ [] }
    ensures kinds { rows_sizes (text_row 1 ∷ Remove (codes "x") (Null ∷ []) ∷ text_row 2 ∷ text_row 3 ∷ []) ≡ 4 ∷ 1 ∷ 11 ∷ [] }
{}
