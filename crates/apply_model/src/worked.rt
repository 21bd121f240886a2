//! Groups and what an applier makes of them, which the checker computes.
//!
//! The table `t` has two numbers, `id` and `v`, of which the first is its key; those of `a` are the same, and its key counts by
//! AUTO_INCREMENT. Each event has 40 bytes, and the first behind BEGIN stands at 246.
ghost use Rattle.std.specs.Prelude.{◌≡◌, ◌++◌, [], ◌∷◌, codes, length, nat_lt, pos, replicate, true, List, ℕ};
ghost use Rattle.val_types.specs.declared.value.Value.TheVariants.{Int};
ghost use Rattle.val_types.specs.declared.value.Value.{Value};
ghost use Rattle.event_codec.specs.Event.{int_var, table_map, user_var};
ghost use Rattle.event_codec.specs.declared.event.IntVarKind.TheVariants.{InsertId};
ghost use Rattle.event_codec.specs.declared.event.RowsKind.TheVariants.{Write, Update, Delete};
ghost use Rattle.binlog_sizes.specs.Sizes.{most_text};
ghost use Rattle.apply_model.specs.Worked.{carried_on, counted_on, counts, leaves, pair, pair_bytes, rows_of, stops, t_map, text_of, wide_map};

/// Rows of one item: two are put, one is changed, one is taken out.
pub fn rows_carried()
    ensures { carried_on (pair 5 50 ∷ []) (table_map t_map ∷ rows_of Write (pair_bytes 1 10 ++ pair_bytes 2 20) ∷ table_map t_map
        ∷ rows_of Update (pair_bytes 1 10 ++ pair_bytes 1 11) ∷ table_map t_map ∷ rows_of Delete (pair_bytes 5 50) ∷ [])
        ≡ leaves (pair 1 11 ∷ pair 2 20 ∷ []) }
{}

/// A row that is not there with just these values, a key that is taken, other columns.
pub fn differing_rows()
    ensures absent { carried_on (pair 1 10 ∷ []) (table_map t_map ∷ rows_of Delete (pair_bytes 1 11) ∷ []) ≡ stops 286 1032 (codes "t") (Int (pos 1) ∷ []) }
    ensures taken { carried_on (pair 1 10 ∷ []) (table_map t_map ∷ rows_of Write (pair_bytes 2 20 ++ pair_bytes 1 30) ∷ []) ≡ stops 286 1062 (codes "t") (Int (pos 1) ∷ []) }
    ensures columns { carried_on [] (table_map wide_map ∷ rows_of Write (0 ∷ 1 ∷ 0 ∷ 0 ∷ 0 ∷ 2 ∷ 0 ∷ 0 ∷ 0 ∷ 0 ∷ 0 ∷ 0 ∷ 0 ∷ []) ∷ []) ≡ stops 286 30010 (codes "t") [] }
{}

/// A text is carried out at its place, also behind rows.
pub fn texts_run()
    ensures first { carried_on (pair 1 10 ∷ pair 2 20 ∷ []) (text_of (codes "DELETE FROM t WHERE id = 1") ∷ []) ≡ leaves (pair 2 20 ∷ []) }
    ensures behind { carried_on (pair 1 10 ∷ []) (table_map t_map ∷ rows_of Write (pair_bytes 2 20) ∷ text_of (codes "UPDATE t SET v = v + id") ∷ [])
        ≡ leaves (pair 1 11 ∷ pair 2 22 ∷ []) }
{}

/// Texts that are no statement, that may not stand in a transaction, that the catalog refuses, and whose run is refused.
pub fn texts_refused()
    ensures text { carried_on (pair 1 10 ∷ []) (text_of (codes "SELECT 1 FORM t") ∷ []) ≡ stops 246 1064 [] [] }
    ensures deep { carried_on [] (text_of (codes "SELECT " ++ replicate 401 0x28) ∷ []) ≡ stops 246 30007 [] [] }
    ensures transaction { carried_on [] (text_of (codes "COMMIT") ∷ []) ≡ stops 246 30005 [] [] }
    ensures definition { carried_on [] (text_of (codes "CREATE TABLE u (id INT PRIMARY KEY)") ∷ []) ≡ stops 246 30005 [] [] }
    ensures assignment { carried_on [] (text_of (codes "SET @x = 1") ∷ []) ≡ stops 246 30005 [] [] }
    ensures check { carried_on [] (text_of (codes "DELETE FROM u") ∷ []) ≡ stops 246 1146 [] [] }
    ensures null { carried_on [] (text_of (codes "INSERT INTO t VALUES (1, NULL)") ∷ []) ≡ stops 246 1048 [] [] }
    ensures taken { carried_on (pair 1 10 ∷ []) (table_map t_map ∷ rows_of Write (pair_bytes 2 20) ∷ text_of (codes "INSERT INTO t VALUES (3, 30), (1, 11)") ∷ [])
        ≡ stops 326 1062 [] [] }
{}

/// A text of more than 1,048,576 bytes is refused before it is read.
pub fn long_texts()
    ensures { (rs : List (List Value)) → (text : List ℕ) → nat_lt most_text (length text) ≡ true → carried_on rs (text_of text ∷ []) ≡ stops 246 1153 [] [] }
{}

/// What an item carries is for its own text: the next one has not the user variables of the one before.
pub fn variables_of_one_item()
    ensures { carried_on [] (user_var (codes "x") (Int (pos 5)) ∷ text_of (codes "INSERT INTO t VALUES (1, @x)") ∷ text_of (codes "INSERT INTO t VALUES (2, IFNULL(@x, 7))") ∷ [])
        ≡ leaves (pair 1 5 ∷ pair 2 7 ∷ []) }
{}

/// An INSERT_ID that is carried is the first value that is generated, where the counter would have given another one.
pub fn first_value_carried()
    ensures { counted_on 1 (int_var InsertId 2 ∷ text_of (codes "INSERT INTO a VALUES (NULL, 10)") ∷ []) ≡ counts (pair 2 10 ∷ []) 3 }
{}
