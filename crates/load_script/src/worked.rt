//! Scripts by hand, which the checker computes.
ghost use Rattle.std.specs.Prelude.{◌≡◌, ◌∷◌, ◌++◌, [], codes, length};
ghost use Rattle.script_read.specs.Commands.{apply, fetch, of_session, replica_select};
ghost use Rattle.load_script.specs.Commands.{load_commands, turn};
ghost use Rattle.load_script.specs.Script.{change_text, load_text, turn_lines};
ghost use Rattle.load_script.specs.Worked.{lines};

/// The script with four changes: eight lines.
pub fn four_changes()
    ensures text { load_text 4 ≡ lines (codes "s1: CREATE TABLE g (id BIGINT NOT NULL AUTO_INCREMENT, k INT NOT NULL, v VARCHAR(20) NOT NULL, PRIMARY KEY (id), UNIQUE KEY u (k)) //"
        ∷ codes "s1: INSERT INTO g (k, v) VALUES (1, 'a1') //"
        ∷ codes "s1: DELETE FROM g WHERE k = 1 LIMIT 1 //"
        ∷ codes "s1: INSERT INTO g (k, v) VALUES (3, 'b3'), (100003, 'c') //"
        ∷ codes "s1: UPDATE g SET v = CONCAT(v, 'x') WHERE k = 3 //"
        ∷ codes "replica: FETCH 1000000000 //"
        ∷ codes "replica: APPLY 4294967295 //"
        ∷ codes "replica: SELECT COUNT(*) FROM g //" ∷ []) }
    ensures commands { load_commands 4 ≡ of_session 1 (codes "CREATE TABLE g (id BIGINT NOT NULL AUTO_INCREMENT, k INT NOT NULL, v VARCHAR(20) NOT NULL, PRIMARY KEY (id), UNIQUE KEY u (k))")
        ∷ of_session 1 (codes "INSERT INTO g (k, v) VALUES (1, 'a1')")
        ∷ of_session 1 (codes "DELETE FROM g WHERE k = 1 LIMIT 1")
        ∷ of_session 1 (codes "INSERT INTO g (k, v) VALUES (3, 'b3'), (100003, 'c')")
        ∷ of_session 1 (codes "UPDATE g SET v = CONCAT(v, 'x') WHERE k = 3")
        ∷ fetch 1000000000 ∷ apply 4294967295 ∷ replica_select (codes "SELECT COUNT(*) FROM g") ∷ [] }
{}

/// Behind the hundredth change the replica fetches and applies, and behind no other of the first two hundred but the last; numbers
/// are written out.
pub fn hundredth_change()
    ensures before { turn_lines 99 ≡ lines (codes "s1: INSERT INTO g (k, v) VALUES (99, 'b99'), (100099, 'c') //" ∷ []) }
    ensures lines { turn_lines 100 ≡ lines (codes "s1: UPDATE g SET v = CONCAT(v, 'x') WHERE k = 99 //"
        ∷ codes "replica: FETCH 1000000 //" ∷ codes "replica: APPLY 1000 //" ∷ []) }
    ensures behind { turn_lines 101 ≡ lines (codes "s1: INSERT INTO g (k, v) VALUES (101, 'a101') //" ∷ []) }
    ensures commands { turn 200 ≡ of_session 1 (codes "UPDATE g SET v = CONCAT(v, 'x') WHERE k = 199") ∷ fetch 1000000 ∷ apply 1000 ∷ [] }
    ensures delete { turn 1002 ≡ of_session 1 (codes "DELETE FROM g WHERE k = 1001 LIMIT 1") ∷ [] }
    ensures greatest { change_text 99999 ≡ codes "INSERT INTO g (k, v) VALUES (99999, 'b99999'), (199999, 'c')" }
{}
