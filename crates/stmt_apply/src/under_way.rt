//! A transaction under way, beside its rows.
ghost use Rattle.std.specs.Prelude.{◌≡◌, [], None, map, List as Items};
ghost use Rattle.std.specs.Option.{option_map};
ghost use Rattle.event_codec.specs.Event.{map_of};
ghost use Rattle.log_groups.specs.log_model.Groups.{find};
ghost use Rattle.apply_model.specs.Groups.{Going, is_too_large, item_ended, rows_ended};
ghost use Rattle.row_apply.specs.prog_work.Contents.{Contents};
ghost use Rattle.stmt_apply.specs.Needing.{no_text};
ghost use Rattle.stmt_apply.specs.UnderWay.{Goes, Stands};

use crate::needs::Needs;
use apply_model::binlog_sizes::MOST_BYTES;
use event_codec::MapView;
use row_apply::{Stop, stop_at};
use std::alloc::Global;
use val_types::{List, SqlError};

/// The items or the changes of a transaction have too many bytes (ER_TRANS_CACHE_FULL).
const TOO_LARGE: SqlError = 1197;

/// A transaction under way: the bytes of its events and of its changes, and of the item under way what its text carries, the
/// maps and the place of its first rows.
#[derive(Drop)]
pub(crate) struct UnderWay<'a> {
    pub bytes: u64,
    pub changed: u64,
    pub needs: Needs,
    pub maps: List<MapView<'a>>,
    pub begun: Option<u64>,
}

/// The map with an id.
pub(crate) fn find_map<'a>(maps: &[MapView<'a>], id: u64) -> Option<MapView<'a>>
    ensures { option_map map_of result ≡ find id (map map_of maps.now) }
{
    for map in maps {
        if map.id == id {
            return Some(*map);
        }
    }
    None
}

impl<'a> UnderWay<'a> {
    /// Behind BEGIN.
    pub fn new(alloc: Global) -> UnderWay<'a>
        ensures { result ≡ record { bytes = 0; changed = 0; needs = no_text; maps = []; begun = None } }
    {
        UnderWay {
            bytes: 0,
            changed: 0,
            needs: Needs::new(alloc),
            maps: List::new(alloc),
            begun: None,
        }
    }

    /// Whether there are too many bytes.
    fn is_too_large(&self) -> bool
        ensures { (work : Contents) → (g : Going) → Stands work self.now g → result ≡ is_too_large g }
    {
        self.bytes > MOST_BYTES || self.changed > MOST_BYTES
    }

    /// The end of an item, at the place of its text or of its first rows: 1197. Nothing that it carried is left.
    pub fn end_item(&mut self, alloc: Global, first: u64) -> Result<(), Stop>
        ensures { (work : Contents) → (g : Going) → Stands work self.old g → Goes result work self.new (item_ended first g) }
    {
        if self.is_too_large() {
            return Err(stop_at(alloc, first, TOO_LARGE));
        }
        self.needs = Needs::new(alloc);
        self.maps.clear();
        self.begun = None;
        Ok(())
    }

    /// Rows that end their item, or do not.
    pub fn end_rows(&mut self, alloc: Global, first: u64, ends: bool) -> Result<(), Stop>
        ensures { (work : Contents) → (g : Going) → Stands work self.old g → Goes result work self.new (rows_ended ends first g) }
    {
        if ends {
            return self.end_item(alloc, first);
        }
        self.begun = Some(first);
        Ok(())
    }
}
