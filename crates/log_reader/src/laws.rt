//! What follows of calls that read a log group by group, as contracts of functions that do nothing.
ghost use Rattle.log_reader.specs.Behind.{CallsLead, FrontLeads, FrontsAreKnown, MagicLeads};

/// A law of the first call: behind the magic no group was passed yet, and without it the log is damaged at its first byte.
pub fn magic_leads()
    ensures { MagicLeads }
{}

/// The same of bytes before a position.
pub fn front_leads()
    ensures { FrontLeads }
{}

/// A law of each other call: one more group is passed, or it is known how the log on the input ends.
pub fn calls_lead()
    ensures { CallsLead }
{}

/// Wherever one stands, the log on the input begins with the groups that were passed.
pub fn fronts_are_known()
    ensures { FrontsAreKnown }
{}
