//! The items of a transaction that a log can carry.
ghost use Rattle.std.specs.Prelude.{◌≡◌, ◌+◌, ◌<◌, ◌≤◌, ◌^◌, ◌++◌, ◌∷◌, ℕ, [], length, nat_lt, take, IfOk, OnErr, OnOk};
ghost use Rattle.log_entry_laws.specs.log_entries.declared.entries.Entry.TheVariants.{Transaction};
ghost use Rattle.binlog_items.specs.Logged.{Encodes};
ghost use Rattle.row_laws.specs.row_events.Sizes.{bounded};
ghost use Rattle.binlog_cache.specs.Sums.{changes_in};
ghost use Rattle.binlog_cache.specs.binlog_sizes.Sizes.{are_too_large, most_bytes};

use crate::carrying::{have_words, is_logged};
use binlog_cache::Cache;
use binlog_cache::binlog_sizes::MOST_BYTES;
use event_codec::Header;
use log_entry_laws::log_entries::Item;
use std::alloc::{AllocError, Global};
use std::marker::Model;
use val_types::{Bytes, Change, List, NoMemory};

/// How many bytes BEGIN and XID have beside the items.
const ENDS: u64 = 67;

/// The greatest position at which an event may end. A log that takes a transaction ends below 2^30, and a transaction has
/// at most 64 MiB, so that no run reaches it.
pub(crate) const LAST_END: u64 = 1_200_000_000;

/// The items of a transaction, in the order in which their statements ran. Contracts see them as their list.
#[derive(Drop)]
pub struct Items {
    cache: Cache,
}

impl Model for Items {
    ghost use Rattle.std.specs.Prelude.{List};
    ghost use Rattle.log_entry_laws.specs.log_entries.declared.entries.Item.{Item as LoggedItem};
    ghost use Rattle.binlog_items.specs.Logged.{AreLogged};

    ghost Value = { List LoggedItem };

    ghost view = { λ i. i.cache };

    ghost invariant = { λ i. AreLogged i.cache };
}

/// Whether bytes, which were counted up to the greatest number of 64 bits, are too many.
fn are_too_many(bytes: u64) -> bool
    ensures { (n : ℕ) → bytes ≡ bounded n → result ≡ nat_lt most_bytes n }
{
    bytes > MOST_BYTES
}

impl Items {
    /// No item.
    pub fn new(alloc: Global) -> Items
        ensures { result ≡ [] }
    {
        Items {
            cache: Cache::new(alloc),
        }
    }

    /// Puts an item behind the others. One that no log can carry, of which there is none in a run, is refused as where
    /// memory is short.
    pub fn add(&mut self, item: Item) -> Result<(), NoMemory>
        ensures ok { OnOk result (self.new ≡ self.old ++ item ∷ []) }
        ensures err { OnErr result (self.new ≡ self.old) }
    {
        if !is_logged(&item) {
            return Err(AllocError);
        }
        self.cache.add(item)
    }

    /// Whether they have too many bytes for one transaction, as events or as changes.
    pub fn are_too_large(&self) -> bool
        ensures { result ≡ are_too_large self.now }
    {
        are_too_many(self.cache.bytes()) || are_too_many(self.cache.changes_bytes())
    }

    /// How many there are: the mark of a savepoint.
    pub fn mark(&self) -> u64
        ensures { result ≡ length self.now }
    {
        self.cache.mark()
    }

    /// Takes the items behind a mark off.
    pub fn cut(&mut self, mark: u64)
        requires { mark ≤ length self.old }
        ensures { self.new ≡ take mark self.old }
    {
        self.cache.cut(mark);
    }

    /// Copies of the changes of all items, in their order: each is one more holder of its rows.
    pub fn changes(&self, alloc: Global) -> Result<List<Change>, NoMemory>
        ensures { IfOk result (λ changes. changes ≡ changes_in self.now) }
    {
        self.cache.changes(alloc)
    }

    /// The bytes of the transaction of these items, where so many were committed before, from a header's place on. A place too
    /// far behind is refused as where memory is short.
    pub fn encode(&self, alloc: Global, committed: u64, header: &Header) -> Result<Bytes, NoMemory>
        requires some { 1 ≤ length self.now }
        requires few { committed + 1 < 2 ^ 64 }
        ensures { IfOk result (λ bytes. Encodes (Transaction header.now.stamp header.now.server_id self.now) committed header.now.pos bytes) }
    {
        let end = header
            .pos
            .saturating_add(self.cache.bytes())
            .saturating_add(ENDS);
        if end > LAST_END {
            return Err(AllocError);
        }
        have_words(header.stamp, header.server_id);
        self.cache.encode(alloc, committed + 1, header)
    }
}
