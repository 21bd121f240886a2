//! A script whose committed statements run again, which the checker computes.
ghost use Rattle.std.specs.Prelude.{◌≡◌, [], ◌∷◌, codes, Some};
ghost use Rattle.session_model.specs.Worked.{adds_nine, asks_f, made_t, pair, s1, s2};
ghost use Rattle.session_replays.specs.Worked.{rows_again};

/// Statements by themselves and in transactions, of which those behind a savepoint and those rolled back do not run again.
pub fn script_run_again()
    ensures { rows_again (made_t ∷ s1 (codes "INSERT INTO t VALUES (1, 10)") ∷ s1 (codes "BEGIN") ∷ s1 (codes "INSERT INTO t VALUES (2, 20)")
        ∷ s1 (codes "SAVEPOINT x") ∷ s1 (codes "DELETE FROM t") ∷ s1 (codes "ROLLBACK TO x") ∷ s1 (codes "UPDATE t SET v = v + 1") ∷ s1 (codes "COMMIT")
        ∷ s2 (codes "BEGIN") ∷ s2 (codes "DELETE FROM t WHERE id = 1") ∷ s2 (codes "ROLLBACK") ∷ [])
        ≡ Some ((pair 1 11 ∷ pair 2 21 ∷ []) ∷ []) }
{}

/// A condition of a procedure that changed a row runs again as the DO over it.
pub fn call_run_again()
    ensures { rows_again (made_t ∷ adds_nine ∷ asks_f ∷ s1 (codes "CALL i()") ∷ []) ≡ Some ((pair 9 9 ∷ []) ∷ []) }
{}
