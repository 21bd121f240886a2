//! Laws of talks.
ghost use Rattle.proc_model.specs.Talk.{ExchangesLead, LedByExchanges, LedByFunction, Rules};

/// What does as some relations say.
pub trait Ruled {
    /// What it does, as relations of its state before, what it is asked, what it tells and its state after.
    ghost rules: { Rules Self };
}

/// A law: what leads a runner is a list of things asked and told, which led it one after the other, and such a list
/// leads it.
pub fn talks_are_lists<R: Ruled, A>()
    ensures listed { LedByExchanges A R.rules }
    ensures leads { ExchangesLead A R.rules }
{}

/// A law: a runner that does what a function says, of its state as it is seen, comes to the end and the state to which the
/// function brings a talk.
pub fn functions_bring_talks<R: Ruled, T, A>()
    ensures brought { LedByFunction T A R.rules }
{}
