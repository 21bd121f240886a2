//! What holds of all that is stored.
ghost use Rattle.table_rules.specs.Stores.{IsWhole};
ghost use Rattle.row_store.specs.Asides.{AsidesReturn};

use crate::tables::Tables;

/// A law: what is stored holds what tables have to: rows fit, rise by their primary keys and have no key
/// in common, and no two tables have the same name.
pub fn tables_are_kept(tables: &Tables)
    ensures { IsWhole tables.now }
{
    let _ = &tables.shelves;
}

/// A law: what was set aside can be put back where the same rows are there to stay and no table has less room,
/// as calls that store rows and take changes back leave them; what was shown then is shown again.
pub fn asides_return()
    ensures { AsidesReturn }
{}
