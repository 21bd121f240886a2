//! Laws of the definitions: what follows from them, for all changes and tables.
ghost use Rattle.table_rules.specs.Changes.{ChangesTurnBack};
ghost use Rattle.table_rules.specs.Leads.{LastTakenBack, LeadsBack, LeadsHome, LeadsNowhere, LeadsOn, NoChangeLeads, NoneTakenBack, NotedTakenBack, OneChangeLeads, StillTakenBack};
ghost use Rattle.table_rules.specs.Stored.{AllTurnBack, DefinitionsStay, DeletesWhatIsThere, InsertsWhereApplied, KeysInWay, ReplacesWhereApplied, RowInWay};
ghost use Rattle.table_rules.specs.Stores.{FitsByPlace, PlaceHasName, PlaceIsOfName, PlacesStay};

/// A law: a change that can be made to tables leaves each with rows that fit, rise by key and have no
/// key in common, and the inverse change gives the tables as they were.
pub fn changes_turn_back()
    ensures { ChangesTurnBack }
{}

/// A law: changes that can be made one after the other are taken back by their inverses, the last one
/// first, and what they leave are tables that hold what tables have to.
pub fn all_turn_back()
    ensures { AllTurnBack }
{}

/// A law: a key is in the way just where a row has a key in common with one that is there.
pub fn keys_in_way_collide()
    ensures { KeysInWay }
{}

/// A law: storing a row that fits is refused just where its change could not be made to the tables.
pub fn refusals_are_exact()
    ensures inserts { InsertsWhereApplied }
    ensures replaces { ReplacesWhereApplied }
    ensures deletes { DeletesWhatIsThere }
{}

/// A law: no change of rows changes which tables there are, their order or their definitions.
pub fn definitions_stay()
    ensures { DefinitionsStay }
{}

/// A law: the row in the way is the first that has the first key in the way.
pub fn rows_in_way_have_keys()
    ensures { RowInWay }
{}

/// A law: what calls did to what is stored, and noted, is one step of the same kind: doing nothing is one,
/// a change that was made and noted is one, and two of them are one.
pub fn changes_lead_on()
    ensures nowhere { LeadsNowhere }
    ensures none { NoChangeLeads }
    ensures one { OneChangeLeads }
    ensures on { LeadsOn }
{}

/// A law: what could be taken back can be taken back after such a step, and so can what was noted in it;
/// where some changes can be taken back, so can the last of them.
pub fn changes_can_be_taken_back()
    ensures none { NoneTakenBack }
    ensures still { StillTakenBack }
    ensures noted { NotedTakenBack }
    ensures last { LastTakenBack }
{}

/// A law: taking back to a mark behind the beginning of a step leaves a step from there; taking back to
/// the beginning leaves the tables and the list as they were.
pub fn taking_back_leads_back()
    ensures back { LeadsBack }
    ensures home { LeadsHome }
{}

/// A law: the table at the place of a name is the table of the name, so that rows fit it by either; places
/// stay where no table is made or dropped.
pub fn places_are_of_names()
    ensures table { PlaceIsOfName }
    ensures name { PlaceHasName }
    ensures fit { FitsByPlace }
    ensures stay { PlacesStay }
{}
