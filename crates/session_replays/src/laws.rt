//! Committed statements, run one transaction after the other, give just the changes of the entries.
ghost use Rattle.session_replays.specs.Again.{SetsRunAsDos};
ghost use Rattle.session_replays.specs.Bodies.{CatalogsStayWell, HistoriesStayWell, RunsStayWell, StepsDefineWell};
ghost use Rattle.session_replays.specs.Followed.{MixedIsUnwarned, RowsAreUnwarned, UnwarnedFollow};
ghost use Rattle.session_replays.specs.Replaying.{OpeningsReplay, ReplaysBegin, ReplaysGoOn, ReplaysOpen, RestartsReplay};
ghost use Rattle.session_replays.specs.Rerun.{RunsAgain};
ghost use Rattle.session_replays.specs.Sizes.{SizesStay};

use independence_laws::statements_are_followed;
use name_const_laws::sql_meaning::{parts_are_well, statements_end_well, turns_never_rise};
use name_const_laws::sql_text::prints_are_read;
use name_const_laws::{
    closed_does_the_same, closed_is_allowed, closed_is_read, fitted_values_are_short,
};
use session_model::text_answers::{answers_are_well, texts_are_answered};
use session_model::{openings_hold, runs_hold};

/// A law: the DO over some expressions, as which a SET is logged, ends as their evaluation does, on the same scene.
pub fn sets_run_as_dos()
    ensures { SetsRunAsDos }
{}

/// A law: in every run the statements of each committed transaction that changed rows, run one transaction
/// after the other in the order of the entries, each with what it began with, give just the changes of the
/// entries; so do those of each open transaction, behind all entries. The text of each of them is read as that statement, which no
/// check refuses, also of those that a CALL ran.
pub fn transactions_replay()
    ensures begins { ReplaysBegin }
    ensures opens { ReplaysOpen }
    ensures goes_on { ReplaysGoOn }
{
    statements_end_well();
    closed_does_the_same();
    closed_is_allowed();
    closed_is_read();
    fitted_values_are_short();
    turns_never_rise();
    parts_are_well();
    answers_are_well();
    prints_are_read();
    texts_are_answered();
    runs_hold();
}

/// A law: so it is where a source opens on what its store has, and behind a RESTART.
pub fn openings_replay()
    ensures openings { OpeningsReplay }
    ensures restarts { RestartsReplay }
{
    openings_hold();
}

/// A law: what the committed statements of a run make of the base that it began with, each run with what it began
/// with, is the committed base, whatever changes the entries have.
pub fn statements_make_the_base()
    ensures { RunsAgain }
{}

/// A law: the definitions that commands put out are statements that the parser can give, where the texts of the commands are
/// of bytes. So the bodies of functions, procedures and triggers are, in each catalog to which such entries lead.
pub fn bodies_stay_well()
    ensures steps { StepsDefineWell }
    ensures histories { HistoriesStayWell }
    ensures catalogs { CatalogsStayWell }
    ensures runs { RunsStayWell }
{
    answers_are_well();
}

/// A law: the types of procedures have sizes that there are, in each catalog that a run comes to, if they do where it began.
pub fn sizes_stay()
    ensures { SizesStay }
{}

/// A law: an item that is not warned follows, and so does one whose reasons all come from RAND() alone. Under MIXED and ROW no item
/// is warned.
pub fn unwarned_items_follow()
    ensures follow { UnwarnedFollow }
    ensures mixed { MixedIsUnwarned }
    ensures rows { RowsAreUnwarned }
{
    statements_are_followed();
}
