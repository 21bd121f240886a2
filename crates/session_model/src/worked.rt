//! Scripts and their answers, and where the log ends behind them, which the checker computes.
//!
//! The table `t` has two numbers, `id` and `v`, of which the first is its key.
ghost use Rattle.std.specs.Prelude.{◌≡◌, [], ◌∷◌, codes, false, pos, true};
ghost use Rattle.val_types.specs.declared.value.Value.TheVariants.{Int, Null};
ghost use Rattle.session_model.specs.Answers.{ok, ok_warned, refused, refused_at, refused_by, showing};
ghost use Rattle.session_model.specs.Running.{is_full};
ghost use Rattle.session_model.specs.Worked.{adds_nine, adds_unsafely, answers_of, asks_f, begins_unsafely, by_rows_of, by_text, called_with_rows, draws_one, first_at, hides_v, inserts_twice, made_t, pair, places_of, s1, s2, sets_y, texts_of};

/// A transaction under way: another session may not write, and reads what was committed before.
pub fn writers_and_readers()
    ensures { answers_of (made_t ∷ s1 (codes "INSERT INTO t VALUES (1, 10)") ∷ s1 (codes "BEGIN") ∷ s1 (codes "INSERT INTO t VALUES (2, 20)")
        ∷ s2 (codes "UPDATE t SET v = 0") ∷ s2 (codes "SELECT * FROM t") ∷ s1 (codes "COMMIT") ∷ [])
        ≡ ok 0 ∷ ok 1 ∷ ok 0 ∷ ok 1 ∷ refused_by 1 ∷ showing false (pair 1 10 ∷ []) ∷ ok 0 ∷ [] }
{}

/// Savepoints: what was done behind one is taken back to it, and there is none outside a transaction.
pub fn savepoints_kept()
    ensures { answers_of (made_t ∷ s1 (codes "BEGIN") ∷ s1 (codes "INSERT INTO t VALUES (1, 10)") ∷ s1 (codes "SAVEPOINT x")
        ∷ s1 (codes "INSERT INTO t VALUES (2, 20)") ∷ s1 (codes "ROLLBACK TO x") ∷ s1 (codes "COMMIT") ∷ s1 (codes "SELECT * FROM t")
        ∷ s1 (codes "ROLLBACK TO x") ∷ [])
        ≡ ok 0 ∷ ok 0 ∷ ok 1 ∷ ok 0 ∷ ok 1 ∷ ok 0 ∷ ok 0 ∷ showing false (pair 1 10 ∷ []) ∷ refused 1305 ∷ [] }
{}

/// Variables: an unknown name, a number that stands for 1, and one that a variable does not take.
pub fn variables_set()
    ensures { answers_of (s1 (codes "SET nosuch = NULL") ∷ s1 (codes "SET auto_increment_offset = LENGTH('')") ∷ s1 (codes "SELECT @@auto_increment_offset")
        ∷ s1 (codes "SET rand_seed1 = 'a'") ∷ s1 (codes "SELECT 1 FORM t") ∷ s1 (codes "") ∷ [])
        ≡ refused 1193 ∷ ok 0 ∷ showing false ((Int (pos 1) ∷ []) ∷ []) ∷ refused 1231 ∷ refused_at 9 ∷ refused_at 0 ∷ [] }
{}

/// The format: a text names it in upper or lower case, a transaction keeps it, and it has no value that is read.
pub fn formats_set()
    ensures { answers_of (s1 (codes "SET binlog_format = 'MINIMAL'") ∷ s1 (codes "SET binlog_format = 'mixed'") ∷ s1 (codes "SET binlog_format = 'row'") ∷ s1 (codes "SELECT @@binlog_format")
        ∷ s1 (codes "BEGIN") ∷ s1 (codes "SET binlog_format = 'ROW'") ∷ s1 (codes "SET binlog_format = 1") ∷ [])
        ≡ refused 1231 ∷ ok 0 ∷ ok 0 ∷ refused 1193 ∷ ok 0 ∷ refused 30006 ∷ refused 1231 ∷ [] }
{}

/// Of two assignments that are refused the first counts, and where one is refused none is made.
pub fn first_refusal_counts()
    ensures { answers_of (s1 (codes "BEGIN") ∷ s1 (codes "SET binlog_format = 'ROW', rand_seed1 = 'a'") ∷ s1 (codes "SET rand_seed1 = 'a', binlog_format = 'ROW'")
        ∷ s1 (codes "SET auto_increment_offset = 5, binlog_format = 1") ∷ s1 (codes "SELECT @@auto_increment_offset") ∷ [])
        ≡ ok 0 ∷ refused 30006 ∷ refused 1231 ∷ refused 1231 ∷ showing false ((Int (pos 1) ∷ []) ∷ []) ∷ [] }
{}

/// A SET that is refused behind its evaluation: the row of the function that it called is taken back, nothing is logged, and in a
/// transaction it takes no lock.
pub fn refused_sets_taken_back()
    ensures answers { answers_of (made_t ∷ adds_nine ∷ s1 (codes "SET @a = f(), rand_seed1 = 'a'") ∷ s1 (codes "SELECT * FROM t") ∷ s1 (codes "SELECT @a")
        ∷ s1 (codes "BEGIN") ∷ s1 (codes "SET @a = f(), binlog_format = ROW") ∷ s2 (codes "INSERT INTO t VALUES (1, 10)") ∷ [])
        ≡ ok 0 ∷ ok 0 ∷ refused 1231 ∷ showing false [] ∷ showing false ((Null ∷ []) ∷ []) ∷ ok 0 ∷ refused 30006 ∷ ok 1 ∷ [] }
    ensures logged { texts_of (made_t ∷ adds_nine ∷ s1 (codes "SET @a = f(), rand_seed1 = 'a'") ∷ s1 (codes "SET @a = f()") ∷ [])
        ≡ (codes "DO `f`()" ∷ []) ∷ [] }
{}

/// Where the log ends behind a table that is created, and behind an INSERT that is logged by its text, or by its row.
pub fn log_grows()
    ensures texts { places_of (made_t ∷ s1 (codes "INSERT INTO t VALUES (1, 10)") ∷ s1 (codes "SELECT * FROM t") ∷ [])
        ≡ first_at 206 ∷ first_at 336 ∷ first_at 336 ∷ [] }
    ensures rows { places_of (s1 (codes "SET binlog_format = 'ROW'") ∷ made_t ∷ s1 (codes "INSERT INTO t VALUES (1, 10)") ∷ s1 (codes "SELECT * FROM t") ∷ [])
        ≡ first_at 123 ∷ first_at 206 ∷ first_at 352 ∷ first_at 352 ∷ [] }
{}

/// CALL: a condition is logged as the DO over it, where it changed a row, and the user variable is assigned; statements behind an
/// INSERT see its ROW_COUNT().
pub fn procedures_called()
    ensures answers { answers_of (made_t ∷ adds_nine ∷ asks_f ∷ s1 (codes "CALL i()") ∷ s1 (codes "SELECT @y") ∷ [])
        ≡ ok 0 ∷ ok 0 ∷ ok 0 ∷ ok 0 ∷ showing false ((Int (pos 1) ∷ []) ∷ []) ∷ [] }
    ensures logged { texts_of (made_t ∷ adds_nine ∷ asks_f ∷ s1 (codes "CALL i()") ∷ []) ≡ (codes "DO `f`()" ∷ []) ∷ [] }
    ensures counted { answers_of (made_t ∷ s1 (codes "CREATE PROCEDURE r() BEGIN INSERT INTO t VALUES (3, 3); SELECT ROW_COUNT(); END") ∷ s1 (codes "CALL r()") ∷ [])
        ≡ ok 0 ∷ ok 0 ∷ called_with_rows ((Int (pos 1) ∷ []) ∷ []) 1 ∷ [] }
{}

/// Each statement of a procedure is a transaction by itself, and what was committed before an error stays; in a transaction none is
/// committed before COMMIT.
pub fn calls_committed()
    ensures refused_third { answers_of (made_t ∷ inserts_twice ∷ s1 (codes "CALL q()") ∷ []) ≡ ok 0 ∷ ok 0 ∷ refused 1062 ∷ [] }
    ensures two_committed { texts_of (made_t ∷ inserts_twice ∷ s1 (codes "CALL q()") ∷ [])
        ≡ (codes "INSERT INTO `t` VALUES (1, 1)" ∷ []) ∷ (codes "INSERT INTO `t` VALUES (2, 2)" ∷ []) ∷ [] }
    ensures none_before { texts_of (made_t ∷ inserts_twice ∷ s1 (codes "BEGIN") ∷ s1 (codes "CALL q()") ∷ []) ≡ [] }
    ensures one_behind { texts_of (made_t ∷ inserts_twice ∷ s1 (codes "BEGIN") ∷ s1 (codes "CALL q()") ∷ s1 (codes "COMMIT") ∷ [])
        ≡ (codes "INSERT INTO `t` VALUES (1, 1)" ∷ codes "INSERT INTO `t` VALUES (2, 2)" ∷ []) ∷ [] }
{}

/// A parameter that hides a column is logged with its value.
pub fn locals_closed_in()
    ensures { texts_of (made_t ∷ hides_v ∷ s1 (codes "INSERT INTO t VALUES (1, 10)") ∷ s1 (codes "CALL p(-5)") ∷ [])
        ≡ (codes "INSERT INTO t VALUES (1, 10)" ∷ []) ∷ (codes "UPDATE `t` SET `v` = (NAME_CONST('v', -5) + 1) WHERE (`id` = 1)" ∷ []) ∷ [] }
{}

/// A session begins in MIXED: of one transaction a statement with a reason is logged by its rows, one without by its text, and
/// neither is warned.
pub fn mixed_chooses()
    ensures answers { answers_of (made_t ∷ s1 (codes "BEGIN") ∷ draws_one ∷ s1 (codes "INSERT INTO t VALUES (2, 1)") ∷ s1 (codes "COMMIT") ∷ [])
        ≡ ok 0 ∷ ok 0 ∷ ok 1 ∷ ok 1 ∷ ok 0 ∷ [] }
    ensures logged { by_rows_of (made_t ∷ s1 (codes "BEGIN") ∷ draws_one ∷ s1 (codes "INSERT INTO t VALUES (2, 1)") ∷ s1 (codes "COMMIT") ∷ [])
        ≡ (true ∷ false ∷ []) ∷ [] }
{}

/// Under STATEMENT a statement with a reason is logged by its text and warned, also a SELECT and a SET whose function changes a row;
/// one that changes nothing is not.
pub fn unsafe_texts_warned()
    ensures changes { answers_of (made_t ∷ by_text ∷ draws_one ∷ s1 (codes "UPDATE t SET v = FLOOR(RAND() * 10) WHERE id = 7") ∷ [])
        ≡ ok 0 ∷ ok 0 ∷ ok_warned true 1 ∷ ok 0 ∷ [] }
    ensures logged { by_rows_of (made_t ∷ by_text ∷ draws_one ∷ []) ≡ (false ∷ []) ∷ [] }
    ensures functions { answers_of (made_t ∷ adds_unsafely ∷ by_text ∷ s1 (codes "SELECT g(1)") ∷ s1 (codes "SET @a = g(2)") ∷ [])
        ≡ ok 0 ∷ ok 0 ∷ ok 0 ∷ showing true ((Int (pos 1) ∷ []) ∷ []) ∷ ok_warned true 0 ∷ [] }
{}

/// A CALL shows the warning of its first statement behind its last, and that of its arguments; one that ends with an error shows none.
pub fn calls_warned()
    ensures statements { answers_of (made_t ∷ begins_unsafely ∷ by_text ∷ s1 (codes "CALL c(2)") ∷ []) ≡ ok 0 ∷ ok 0 ∷ ok 0 ∷ ok_warned true 2 ∷ [] }
    ensures an_error { answers_of (made_t ∷ begins_unsafely ∷ by_text ∷ s1 (codes "CALL c(1)") ∷ []) ≡ ok 0 ∷ ok 0 ∷ ok 0 ∷ refused 1062 ∷ [] }
    ensures arguments { answers_of (made_t ∷ adds_unsafely ∷ sets_y ∷ by_text ∷ s1 (codes "CALL y(g(1))") ∷ [])
        ≡ ok 0 ∷ ok 0 ∷ ok 0 ∷ ok 0 ∷ ok_warned true 0 ∷ [] }
{}

/// A log takes no transaction more behind 1 GiB, and none is behind the log 60,000.
pub fn logs_full()
    ensures room { is_full (record { log = 59999; pos = 1073741823 }) ≡ false }
    ensures long { is_full (first_at 1073741824) ≡ true }
    ensures last { is_full (record { log = 60000; pos = 123 }) ≡ true }
{}
