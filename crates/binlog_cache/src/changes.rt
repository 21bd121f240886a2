//! The changes of items, one behind the other.
ghost use Rattle.std.specs.Prelude.{◌≡◌, IfOk};
ghost use Rattle.binlog_cache.specs.Sums.{changes_in, items_of};

use crate::kept::Kept;
use std::alloc::Global;
use val_types::{Change, Duplicate, List, NoMemory};

/// Copies of the changes of items, in their order: each is one more holder of its rows.
pub(crate) fn all_changes(alloc: Global, kept: &List<Kept>) -> Result<List<Change>, NoMemory>
    ensures { IfOk result (λ changes. changes ≡ changes_in (items_of kept.now)) }
{
    let mut all = List::new(alloc);
    for place in 0..kept.len() {
        let own = kept[place].item.changes.as_slice();
        all.append(Change::duplicate_all(alloc, own)?)?;
    }
    Ok(all)
}
