//! The items of a transaction that is not yet committed.
ghost use Rattle.std.specs.Prelude.{◌≡◌, ◌≤◌, ◌++◌, ◌∷◌, [], length, take, IfOk, OnErr, OnOk};
ghost use Rattle.binlog_sizes.specs.log_model.Items.{AreCarried};
ghost use Rattle.binlog_sizes.specs.log_model.Log.{transaction};
ghost use Rattle.binlog_sizes.specs.log_model.Written.{bytes_of, CanWriteAll};
ghost use Rattle.binlog_sizes.specs.row_events.Sizes.{bounded};
ghost use Rattle.binlog_sizes.specs.Sizes.{all_changes_size, all_sizes};
ghost use Rattle.binlog_cache.specs.Sums.{changes_in, items_of, AreCounted};

use crate::changes::all_changes;
use crate::encoding::encode_items;
use crate::kept::{Kept, Sums};
use binlog_sizes::changes_size;
use binlog_sizes::log_entries::Item;
use event_codec::Header;
use item_events::item_size;
use std::alloc::Global;
use std::marker::Model;
use val_types::{Bytes, Change, List, NoMemory};

/// How many bytes BEGIN and XID have beside the items.
const ENDS: u64 = 67;

/// The items of a transaction, in the order in which their statements ran. Contracts see it as their list. It is dropped here, so
/// that no crate that holds it has a function for each type in an item.
pub struct Cache {
    kept: List<Kept>,
}

impl Model for Cache {
    ghost use Rattle.std.specs.Prelude.{List};
    ghost use Rattle.binlog_sizes.specs.log_entries.declared.entries.Item.{Item as CachedItem};
    ghost use Rattle.binlog_cache.specs.Sums.{items_of, AreCounted};

    ghost Value = { List CachedItem };

    ghost view = { λ c. items_of c.kept };

    ghost invariant = { λ c. AreCounted c.kept };
}

impl Drop for Cache {
    fn drop(self) {
        let Cache { kept } = self;
        drop(kept);
    }
}

impl Cache {
    /// No item.
    pub fn new(alloc: Global) -> Cache
        ensures { result ≡ [] }
    {
        Cache {
            kept: List::new(alloc),
        }
    }

    /// Puts an item behind the others.
    pub fn add(&mut self, item: Item) -> Result<(), NoMemory>
        ensures ok { OnOk result (self.new ≡ self.old ++ item ∷ []) }
        ensures err { OnErr result (self.new ≡ self.old) }
    {
        let before = last_sums(&self.kept);
        let until = Sums {
            log: before.log.saturating_add(item_size(&item)),
            changes: before
                .changes
                .saturating_add(changes_size(item.changes.as_slice())),
        };
        self.kept.push(Kept { item, until })?;
        Ok(())
    }

    /// How many bytes the items have in a log, or the greatest number of 64 bits where they have more.
    pub fn bytes(&self) -> u64
        ensures { result ≡ bounded (all_sizes self.now) }
    {
        last_sums(&self.kept).log
    }

    /// How many bytes the changes of the items have, or the greatest number of 64 bits where they have
    /// more.
    pub fn changes_bytes(&self) -> u64
        ensures { result ≡ bounded (all_changes_size self.now) }
    {
        last_sums(&self.kept).changes
    }

    /// How many items there are: the mark of a savepoint.
    pub fn mark(&self) -> u64
        ensures { result ≡ length self.now }
    {
        self.kept.len() as u64
    }

    /// Takes the items behind a mark off.
    pub fn cut(&mut self, mark: u64)
        requires { mark ≤ length self.old }
        ensures { self.new ≡ take mark self.old }
    {
        self.kept.truncate(mark as usize);
    }

    /// Copies of the changes of the items, in their order: each is one more holder of its rows.
    pub fn changes(&self, alloc: Global) -> Result<List<Change>, NoMemory>
        ensures { IfOk result (λ changes. changes ≡ changes_in self.now) }
    {
        all_changes(alloc, &self.kept)
    }

    /// The bytes of the transaction of these items from a header's place on: BEGIN, the items, and XID
    /// with a number and the header's timestamp. No item has no bytes.
    pub fn encode(&self, alloc: Global, xid: u64, header: &Header) -> Result<Bytes, NoMemory>
        requires carried { AreCarried self.now }
        requires events { CanWriteAll header.now.pos (transaction header.now.stamp xid self.now) }
        ensures { IfOk result (λ bytes. bytes ≡ bytes_of header.now.server_id header.now.pos (transaction header.now.stamp xid self.now)) }
    {
        let room = last_sums(&self.kept).log.saturating_add(ENDS);
        encode_items(alloc, &self.kept, room, xid, header)
    }
}

/// How many bytes items have that are kept with their sums.
fn last_sums(kept: &List<Kept>) -> Sums
    requires { AreCounted kept.now }
    ensures log { result.log ≡ bounded (all_sizes (items_of kept.now)) }
    ensures changes { result.changes ≡ bounded (all_changes_size (items_of kept.now)) }
{
    match kept.as_slice() {
        [.., last] => last.until,
        [] => Sums { log: 0, changes: 0 },
    }
}
