//! What follows of writes and of draws, as contracts of functions that do nothing.
ghost use Rattle.std.specs.Prelude.{ℕ, List, [], ◌++◌, Option};
ghost use Rattle.port_traits.specs.declared.identity.Draw.{Draw};
ghost use Rattle.run_streams.specs.Reports.{Drawn};
ghost use Rattle.run_streams.specs.Wrote.{Wrote, WroteFront};

/// A law of writes: nothing was written where a stream stayed as it was; bytes that were written one after
/// the other were written together; where writing broke off, what was written is a front of all that was to be.
pub fn writes_join()
    ensures nothing { (before : Option (List ℕ)) → Wrote before before [] }
    ensures joined { (before between after : Option (List ℕ)) (first second : List ℕ)
        → Wrote before between first → Wrote between after second → Wrote before after (first ++ second) }
    ensures broken { (before between after : Option (List ℕ)) (first second : List ℕ)
        → Wrote before between first → WroteFront between after second → WroteFront before after (first ++ second) }
    ensures front { (before after : Option (List ℕ)) (first second : List ℕ)
        → WroteFront before after first → WroteFront before after (first ++ second) }
    ensures whole { (before after : Option (List ℕ)) (bytes : List ℕ)
        → Wrote before after bytes → WroteFront before after bytes }
{}

/// A law of draws: where nothing was taken yet, what is left are all draws.
pub fn draws_begin()
    ensures { (start : Option (List Draw)) → Drawn start start [] }
{}
