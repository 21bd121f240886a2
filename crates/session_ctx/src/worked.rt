//! Assignments by hand, which the checker computes from the definitions.
ghost use Rattle.std.specs.Prelude.{◌≡◌, codes, neg_ℤ, pos, Err, None, Ok, Some};
ghost use Rattle.val_types.specs.declared.value.Value.TheVariants.{Int, Null, Text};
ghost use Rattle.sql_meaning.specs.Worked.{context};
ghost use Rattle.session_ctx.specs.declared.variables.SessionVariable.TheVariants.{InsertId, LastInsertId, RandSeed2, Timestamp};
ghost use Rattle.session_ctx.specs.Variables.{context_with, counted, setting, timestamp_with};

/// Which values a variable takes.
///
/// - unknown: 1193, also for binlog_format, which only a session knows; the name comes before the value
pub fn values_refused()
    ensures unknown { setting (codes "server_id") (Int (pos 1)) ≡ Err 1193 }
    ensures format { setting (codes "binlog_format") (Text (codes "ROW")) ≡ Err 1193 }
    ensures name_first { setting (codes "x") Null ≡ Err 1193 }
    ensures null { setting (codes "auto_increment_increment") Null ≡ Err 1231 }
    ensures text { setting (codes "timestamp") (Text (codes "1")) ≡ Err 1231 }
    ensures late { setting (codes "timestamp") (Int (pos 2147483648)) ≡ Err 1231 }
    ensures early { setting (codes "timestamp") (Int (neg_ℤ (pos 1))) ≡ Err 1231 }
    ensures seed { setting (codes "rand_seed1") (Int (pos 1073741823)) ≡ Err 1231 }
    ensures id { setting (codes "insert_id") (Int (pos 9223372036854775807)) ≡ Ok (InsertId, pos 9223372036854775807) }
    ensures last_id { setting (codes "last_insert_id") (Int (pos 0)) ≡ Ok (LastInsertId, pos 0) }
{}

/// What an assignment makes.
pub fn variables_set()
    ensures none { counted (pos 0) ≡ 1 }
    ensures below { counted (neg_ℤ (pos 1)) ≡ 65535 }
    ensures above { counted (pos 65536) ≡ 65535 }
    ensures within { counted (pos 10) ≡ 10 }
    ensures fixed { timestamp_with Timestamp (pos 5) None ≡ Some 5 }
    ensures cleared { timestamp_with Timestamp (pos 0) (Some 5) ≡ None }
    ensures other { timestamp_with InsertId (pos 0) (Some 5) ≡ Some 5 }
    ensures forced { (context_with InsertId (pos 7) context).forced ≡ Some (pos 7) }
    ensures not_forced { (context_with InsertId (pos 0) context).forced ≡ None }
    ensures second_seed { (context_with RandSeed2 (pos 9) context).seeds ≡ (1, 9) }
{}
