//! A walk over the events of a transaction.
ghost use Rattle.std.specs.Prelude.{◌≡◌, ◌≤◌, ◌<◌, ◌^◌, ◌+◌, length, take, drop, IfSome};
ghost use Rattle.std.specs.Option.{option_map};
ghost use Rattle.event_codec.specs.Event.{body_of, map_of};
ghost use Rattle.row_image.specs.log_model.Groups.{find, is_xid};
ghost use Rattle.log_groups.specs.Views.{ends_item, map_with, maps_in, part_of, parts, place_of, walked};

use event_codec::{Event, MapView, Read, read_event};

/// An event of a transaction with its place, and whether it is the last of its item.
#[derive(Clone, Copy)]
pub struct Part<'a> {
    pub event: Event<'a>,
    pub pos: u64,
    pub ends: bool,
}

/// A walk over the events between BEGIN and XID, from the bytes behind BEGIN and their place in the log
/// on. A walk over a copy leaves the original where it stands.
#[derive(Clone, Copy)]
pub struct Items<'a> {
    pub bytes: &'a [u8],
    pub pos: u64,
}

impl<'a> Items<'a> {
    /// The next event, or None where the XID stands.
    pub fn next(&mut self) -> Option<Part<'a>>
        ensures walk { (option_map part_of result, parts self.new) ≡ walked (parts self.old) }
        ensures ends { IfSome result (λ p. p.ends ≡ ends_item (body_of p.event)) }
    {
        match read_event(self.bytes, self.pos) {
            Read::Event(event) => {
                if is_xid(&event) {
                    return None;
                }
                let pos = self.pos;
                let ends = ends_item(&event);
                *self = self.past(event.length());
                Some(Part { event, pos, ends })
            }
            Read::Short { .. } => None,
            Read::Damaged { .. } => None,
            Read::Foreign { .. } => None,
        }
    }

    /// Behind so many bytes.
    pub(crate) fn past(&self, size: u64) -> Items<'a>
        requires within { size ≤ length self.now.bytes.now }
        requires ends { self.now.pos + size < 2 ^ 64 }
        ensures { place_of result ≡ record { bytes = drop size self.now.bytes.now; pos = self.now.pos + size } }
    {
        let (_, bytes) = self.bytes.split_at(size as usize);
        Items {
            bytes,
            pos: self.pos + size,
        }
    }
}

/// Whether an event ends a transaction.
fn is_xid(event: &Event) -> bool
    ensures { result ≡ is_xid (body_of event.now) }
{
    match event {
        Event::Xid { .. } => true,
        Event::Query(_) => false,
        Event::Rotate { .. } => false,
        Event::IntVar { .. } => false,
        Event::Rand { .. } => false,
        Event::UserVar(_) => false,
        Event::FormatDescription { .. } => false,
        Event::TableMap(_) => false,
        Event::Rows(_) => false,
    }
}

/// Whether an event is the last of its item.
fn ends_item(event: &Event) -> bool
    ensures { result ≡ ends_item (body_of event.now) }
{
    match event {
        Event::Query(_) => true,
        Event::Rows(rows) => rows.ends,
        Event::Rotate { .. } => false,
        Event::IntVar { .. } => false,
        Event::Rand { .. } => false,
        Event::UserVar(_) => false,
        Event::FormatDescription { .. } => false,
        Event::Xid { .. } => false,
        Event::TableMap(_) => false,
    }
}

/// The map of an event, if it has this id.
fn map_with<'a>(event: &Event<'a>, id: u64) -> Option<MapView<'a>>
    ensures { option_map map_of result ≡ map_with id (body_of event.now) }
{
    match event {
        Event::TableMap(map) => { if map.id == id { Some(*map) } else { None } }
        Event::Query(_) => None,
        Event::Rotate { .. } => None,
        Event::IntVar { .. } => None,
        Event::Rand { .. } => None,
        Event::UserVar(_) => None,
        Event::FormatDescription { .. } => None,
        Event::Xid { .. } => None,
        Event::Rows(_) => None,
    }
}

/// The map with an id among the next events.
pub(crate) fn find_map(items: Items<'_>, count: u64, id: u64) -> Option<MapView<'_>>
    ensures { option_map map_of result ≡ find id (maps_in (take count (parts items.entry))) }
{
    let mut walk = items;
    for _step in 0..count {
        let Some(part) = walk.next() else {
            return None;
        };
        match map_with(&part.event, id) {
            Some(map) => return Some(map),
            None => {}
        }
    }
    None
}
