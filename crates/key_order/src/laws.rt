//! Laws of ORDER BY, COUNT(*), MIN and MAX.
ghost use Rattle.key_order.specs.Counts.{CountsRows};
ghost use Rattle.key_order.specs.Extremes.{HighestIsLast, LowestIsFirst};
ghost use Rattle.key_order.specs.Keys.{FallingKeysTurn, KeysOrderRows, KeysTurnRows, RisingKeysStay};

/// A law: rows in the order of their primary key stay as they stand where they are sorted by it, all its columns rising, and turn where
/// all are falling; so ORDER BY these columns leaves the rows of a table as they stand, or the other way round, and changes nothing.
pub fn keys_order_rows()
    ensures rising { RisingKeysStay }
    ensures falling { FallingKeysTurn }
    ensures columns { KeysOrderRows }
    ensures turned { KeysTurnRows }
{}

/// A law: COUNT(*) alone shows how many rows there are, and changes nothing.
pub fn rows_are_counted()
    ensures { CountsRows }
{}

/// A law: of values that rise, and of which none is NULL, MIN is the first and MAX the last.
pub fn extremes_stand_outside()
    ensures lowest { LowestIsFirst }
    ensures highest { HighestIsLast }
{}
