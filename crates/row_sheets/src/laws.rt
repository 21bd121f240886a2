//! Laws of what a table shows.
ghost use Rattle.row_sheets.specs.ClaimLaws.{EntryClaimsNothing, FoundByValue, NoClaimIsNew, NothingClaimed, RowPut, RowTakenOut, ValuesAreKept};
ghost use Rattle.row_sheets.specs.Writes.{AllPut, AllTakenOut, AllWithEntry, FreeWhereNoneCollides};
ghost use Rattle.row_sheets.specs.SheetLaws.{SheetFinds, SheetSettles, SheetStarts, SoundIsApart};
ghost use Rattle.row_sheets.specs.Orders.{FoundHasSlot, MissingHasNone, PutIsOver, ReplacedIsFilled, RisingIsInOrder, TakenIsDropped};
ghost use Rattle.row_sheets.specs.OverLaws.{EntriesSet, FoundByKey, JustByCount, NewSlots, OverRises, RowsHidden, SettledEntryStays, SettledStay, SlotsAreTold};

/// A law: an entry that is set again fills its slot, one of a new key is a new slot, and one of the key of a committed row
/// hides that row.
pub fn entries_over_rows()
    ensures set { EntriesSet }
    ensures new { NewSlots }
    ensures hidden { RowsHidden }
{}

/// A law: what is shown rises by key, and has of each key what its entry has, else the committed row; and slots that rise
/// are told by what they have of each key.
pub fn slots_are_told()
    ensures rises { OverRises }
    ensures found { FoundByKey }
    ensures told { SlotsAreTold }
{}

/// A law: settling an entry, whichever, leaves the rows that are shown; so does settling all, in any order.
pub fn settling_shows_the_same()
    ensures one { SettledEntryStays }
    ensures all { SettledStay }
    ensures just { JustByCount }
{}

/// A law: claims are kept through what is done with entries. Before the first nothing is claimed, an entry without a row
/// claims nothing; a row is taken out and put. A value that is kept stays so, and a row of it is put without a new claim.
pub fn claims_are_kept()
    ensures start { NothingClaimed }
    ensures entry { EntryClaimsNothing }
    ensures out { RowTakenOut }
    ensures put { RowPut }
    ensures kept { ValuesAreKept }
    ensures same { NoClaimIsNew }
{}

/// A law: a value of a unique key leads to the row that is shown with it, if there is one.
pub fn values_lead_to_rows()
    ensures { FoundByValue }
{}

/// A law: a sheet begins with the committed rows; rows that are apart are so on each unique key; claims lead to the rows that
/// are shown; and entries settled in any order make these the committed ones.
pub fn sheets_show_rows()
    ensures start { SheetStarts }
    ensures apart { SoundIsApart }
    ensures finds { SheetFinds }
    ensures settles { SheetSettles }
{}

/// A law: numbers whose keys rise are in order for a search; what it finds has the slot of the key, and a number that is put or
/// taken out there puts its slot or takes it out.
pub fn orders_are_slots()
    ensures in_order { RisingIsInOrder }
    ensures found { FoundHasSlot }
    ensures missing { MissingHasNone }
    ensures put { PutIsOver }
    ensures taken { TakenIsDropped }
    ensures replaced { ReplacedIsFilled }
{}

/// A law: the claims of all unique keys of a table are kept where an entry is made, a row taken out of one, and a row put into one;
/// the values of a row that collides with none that is shown are free.
pub fn all_claims_are_kept()
    ensures entry { AllWithEntry }
    ensures out { AllTakenOut }
    ensures put { AllPut }
    ensures free { FreeWhereNoneCollides }
{}
