//! Small logs, fetched and carried out, which the checker computes.
ghost use Rattle.std.specs.Prelude.{◌≡◌, None, Some, drop, length, take};
ghost use Rattle.session_model.specs.log_model.Worked.{first_log};
ghost use Rattle.replica_model.specs.Applying.{damaged};
ghost use Rattle.replica_model.specs.Replica.{want};
ghost use Rattle.replica_model.specs.Worked.{applied_from, first_of, replica_with, second_of, served, spoiled};

/// A table and a row in it, logged as a row: where the replica fetches next, what it carries out of all bytes, of all but the last,
/// and of bytes that are damaged in the second event.
pub fn first_row_applied()
    ensures bytes { length served ≡ 348 }
    ensures wanted { want (replica_with served) ≡ record { log = 1; pos = 352 } }
    ensures count { (applied_from served).count ≡ 2 }
    ensures place { (applied_from served).replica.place ≡ record { log = 1; pos = 352 } }
    ensures number { (applied_from served).replica.number ≡ 2 }
    ensures stop { (applied_from served).stop ≡ None }
    ensures cut { (applied_from (take 347 served)).count ≡ 1 }
    ensures cut_place { (applied_from (take 347 served)).replica.place ≡ record { log = 1; pos = 206 } }
    ensures damaged { (applied_from (spoiled 136 0)).stop ≡ Some (damaged 123) }
{}

/// The log of the table and of the row by its text: what its replay makes of all bytes, and of a log that ends inside the
/// transaction.
pub fn first_text_replayed()
    ensures count { (first_of first_log).count ≡ 2 }
    ensures place { (first_of first_log).place ≡ record { log = 1; pos = 336 } }
    ensures stop { (first_of first_log).stop ≡ None }
    ensures cut { (first_of (take 330 first_log)).count ≡ 1 }
    ensures cut_place { (first_of (take 330 first_log)).place ≡ record { log = 1; pos = 206 } }
    ensures cut_stop { (first_of (take 330 first_log)).stop ≡ None }
{}

/// The same log, of which 330 bytes were replayed before: the transaction is carried out, from position 206 on; a log that ends before is
/// not, and nothing of it is carried out.
pub fn next_text_replayed()
    ensures count { (second_of (take 330 first_log) first_log).count ≡ 1 }
    ensures number { (second_of (take 330 first_log) first_log).number ≡ 2 }
    ensures place { (second_of (take 330 first_log) first_log).place ≡ record { log = 1; pos = 336 } }
    ensures short { (second_of (take 330 first_log) (take 205 first_log)).count ≡ 0 }
{}
