//! Laws of indexes.
ghost use Rattle.row_indexes.specs.IndexLaws.{FoundInBoth, NothingIndexed, NullPutInIndex, NullTakenOfIndex, RowPutInIndex, RowTakenOfIndex};
ghost use Rattle.row_indexes.specs.Wholes.{FirstInWay, RowPutInAll, RowTakenOfAll};

/// A law: an index of no rows is empty; one stays an index where a row is put in its place by values, or taken out of it, and as it is
/// where that row has a NULL.
pub fn indexes_are_kept()
    ensures start { NothingIndexed }
    ensures put { RowPutInIndex }
    ensures put_null { NullPutInIndex }
    ensures taken { RowTakenOfIndex }
    ensures taken_null { NullTakenOfIndex }
{}

/// A law: the index of entries and that of committed rows find the row that is shown.
pub fn indexes_find_rows()
    ensures { FoundInBoth }
{}

/// A law: the indexes of all unique keys stay those as a row is put or taken out.
pub fn all_indexes_are_kept()
    ensures put { RowPutInAll }
    ensures taken { RowTakenOfAll }
{}

/// A law: where the indexes of all unique keys find a row, the first key of them is the first in the way.
pub fn indexes_find_ways()
    ensures { FirstInWay }
{}
