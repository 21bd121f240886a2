//! Runs and the lines that they write, which the checker computes.
ghost use Rattle.std.specs.Prelude.{◌≡◌, [], ◌∷◌, codes};
ghost use Rattle.run_model.specs.Asked.{restart_replica, restart_source, select, take_bytes, take_groups};
ghost use Rattle.run_model.specs.Worked.{counted_twice, ended, lines_of, made_a, made_t, replica_rows, s1, source_rows};
ghost use Rattle.session_replays.specs.session_model.Worked.{pair};

/// A table and a row: logged by its text, fetched and carried out.
pub fn a_row_replicated()
    ensures { lines_of (made_t ∷ s1 (codes "INSERT INTO t VALUES (1, 10)") ∷ take_bytes 1000 ∷ take_groups 10 ∷ select (codes "SELECT * FROM t") ∷ [])
        ≡ ended (codes "1 ok 0" ∷ codes "2 ok 1" ∷ codes "3 fetched 332" ∷ codes "4 applied 2 1:336" ∷ codes "5 row 1, 10" ∷ codes "5 rows 1" ∷ []) }
{}

/// The same logged by its row.
pub fn a_row_replicated_by_rows()
    ensures { lines_of (s1 (codes "SET binlog_format = 'ROW'") ∷ made_t ∷ s1 (codes "INSERT INTO t VALUES (1, 10)") ∷ take_bytes 1000 ∷ take_groups 10
        ∷ select (codes "SELECT * FROM t") ∷ [])
        ≡ ended (codes "1 ok 0" ∷ codes "2 ok 0" ∷ codes "3 ok 1" ∷ codes "4 fetched 348" ∷ codes "5 applied 2 1:352" ∷ codes "6 row 1, 10" ∷ codes "6 rows 1" ∷ []) }
{}

/// What the replica refuses: a table that is not there, and what is no statement, at its place.
pub fn replica_only_reads()
    ensures { lines_of (select (codes "SELECT * FROM t") ∷ select (codes "SELECT 1 FORM t") ∷ select (codes "SELECT CONNECTION_ID() = 0") ∷ [])
        ≡ ended (codes "1 error 1146" ∷ codes "2 error 1064 at 9" ∷ codes "3 row 1" ∷ codes "3 rows 1" ∷ []) }
{}

/// RESTART of the source: what a session had open is gone, and so are its variables; what was committed before stays, and the log goes
/// on where it ended, so that a replica fetches what it does without one.
pub fn source_restarted()
    ensures { lines_of (made_t ∷ s1 (codes "SET @x = 3") ∷ s1 (codes "BEGIN") ∷ s1 (codes "INSERT INTO t VALUES (2, 20)") ∷ restart_source
        ∷ s1 (codes "SELECT * FROM t") ∷ s1 (codes "SELECT @x") ∷ s1 (codes "INSERT INTO t VALUES (1, 10)") ∷ restart_source ∷ s1 (codes "SELECT * FROM t")
        ∷ take_bytes 1000 ∷ take_groups 10 ∷ [])
        ≡ ended (codes "1 ok 0" ∷ codes "2 ok 0" ∷ codes "3 ok 0" ∷ codes "4 ok 1" ∷ codes "5 ok 0" ∷ codes "6 rows 0" ∷ codes "7 row NULL" ∷ codes "7 rows 1"
        ∷ codes "8 ok 1" ∷ codes "9 ok 0" ∷ codes "10 row 1, 10" ∷ codes "10 rows 1" ∷ codes "11 fetched 332" ∷ codes "12 applied 2 1:336" ∷ []) }
{}

/// The counters of a source begin anew behind its rows: 1 was given to a row that was rolled back, and is given again.
pub fn counters_begun_anew()
    ensures { lines_of (made_a ∷ s1 (codes "BEGIN") ∷ s1 (codes "INSERT INTO a (k) VALUES (1)") ∷ s1 (codes "ROLLBACK") ∷ restart_source
        ∷ s1 (codes "INSERT INTO a (k) VALUES (1)") ∷ s1 (codes "SELECT * FROM a") ∷ [])
        ≡ ended (codes "1 ok 0" ∷ codes "2 ok 0" ∷ codes "3 ok 1" ∷ codes "4 ok 0" ∷ codes "5 ok 0" ∷ codes "6 ok 1" ∷ codes "7 row 1, 1" ∷ codes "7 rows 1" ∷ []) }
{}

/// RESTART of the replica: what it fetched and did not carry out is gone, and is fetched again; what it carried out stays, and is carried
/// out once.
pub fn replica_restarted()
    ensures { lines_of (made_t ∷ s1 (codes "INSERT INTO t VALUES (1, 10)") ∷ take_bytes 100 ∷ restart_replica ∷ take_groups 10 ∷ take_bytes 1000 ∷ take_groups 1
        ∷ restart_replica ∷ take_groups 10 ∷ take_bytes 1000 ∷ take_groups 10 ∷ select (codes "SELECT * FROM t") ∷ [])
        ≡ ended (codes "1 ok 0" ∷ codes "2 ok 1" ∷ codes "3 fetched 100" ∷ codes "4 ok 0" ∷ codes "5 applied 0 1:4" ∷ codes "6 fetched 332" ∷ codes "7 applied 1 1:206"
        ∷ codes "8 ok 0" ∷ codes "9 applied 0 1:206" ∷ codes "10 fetched 130" ∷ codes "11 applied 1 1:336" ∷ codes "12 row 1, 10" ∷ codes "12 rows 1" ∷ []) }
{}

/// The counters of a replica begin anew behind its rows: the second row that its trigger makes has 1 there, where the source goes on to 2.
/// Both texts that make rows are warned.
pub fn replica_counters_begun_anew()
    ensures source { source_rows counted_twice ≡ (pair 2 2 ∷ []) ∷ (pair 1 1 ∷ pair 2 2 ∷ []) ∷ [] }
    ensures replica { replica_rows counted_twice ≡ (pair 1 2 ∷ []) ∷ (pair 1 1 ∷ pair 2 2 ∷ []) ∷ [] }
{}
