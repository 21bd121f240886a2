//! What holds of the machine of sessions.
ghost use Rattle.session_model.specs.Holding.{CallsKeepSteps, DefinitionsLeaveAll, ErrorsLeaveAll, FormatsDecide, ReadersSeeCommitted, RunsBegin, RunsGoOn, RunsOpen, StepsLeaveAll};
ghost use Rattle.session_model.specs.Machine.{StepsAreKept};
ghost use Rattle.session_model.specs.Openings.{OpeningsHold, OpensWithNothing, RestartsHold};

use session_ctx::sql_meaning::statements_end_well;

/// A law: what a node keeps of a step on whole items is its step on what it keeps of them.
pub fn steps_are_kept()
    ensures { StepsAreKept }
{}

/// A law: in every run the committed base is what the entries that were put out make of the base that it
/// began with, and the log ends where they end; the open changes are those of the items of the session that
/// has the lock, and no other session has an item; a savepoint stands at the changes of its items; items and
/// entries are what statements made, and no transaction has more bytes than one may have.
pub fn runs_hold()
    ensures begins { RunsBegin }
    ensures opens { RunsOpen }
    ensures goes_on { RunsGoOn }
{
    statements_end_well();
}

/// A law: what holds of every run holds of a source that opens on whatever its store has, and behind a RESTART; opening on nothing is
/// the opening of a source without a store.
pub fn openings_hold()
    ensures nothing { OpensWithNothing }
    ensures openings { OpeningsHold }
    ensures restarts { RestartsHold }
{}

/// A law: the transactions that a step puts out are logged in the format that its session had before it.
pub fn formats_decide()
    ensures { FormatsDecide }
{
    statements_end_well();
}

/// A law: a statement that is refused leaves all tables, the open transaction and what was committed as they were, and assigns
/// no variable; a definition leaves all as the commit of the open transaction does. In a CALL the statement or evaluation that
/// is refused leaves all where it stands, and what those before it did stays.
pub fn errors_leave_all()
    ensures statements { ErrorsLeaveAll }
    ensures definitions { DefinitionsLeaveAll }
    ensures steps { StepsLeaveAll }
    ensures calls { CallsKeepSteps }
{}

/// A law: a session beside another one's open changes reads the rows that were last committed.
pub fn readers_see_committed()
    ensures { ReadersSeeCommitted }
{}
