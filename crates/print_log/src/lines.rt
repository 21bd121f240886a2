//! The lines of a group.
ghost use Rattle.std.specs.Prelude.{◌≡◌, ◌++◌, ◌∷◌, [], map, OnOk};
ghost use Rattle.std.specs.Option.{option_map};
ghost use Rattle.event_codec.specs.Event.{body_of, map_of, seen};
ghost use Rattle.log_reader.specs.log_model.Events.{events_from};
ghost use Rattle.log_reader.specs.log_model.Groups.{find};
ghost use Rattle.log_reader.specs.log_print.Lines.{line_of};
ghost use Rattle.log_reader.specs.log_file_model.Printed.{lines_from, map_for, maps_behind};

use event_codec::{Event, MapView, Read, read_event};
use log_reader::log_print::line;
use std::alloc::Global;
use val_types::{Bytes, List, NoMemory};

/// The map with this id.
fn find<'a>(maps: &[MapView<'a>], id: u64) -> Option<MapView<'a>>
    ensures { option_map map_of result ≡ find id (map map_of maps.now) }
{
    for map in maps {
        if map.id == id {
            return Some(*map);
        }
    }
    None
}

/// The map that the rows of an event are of, among the maps of their item.
fn map_for<'a>(maps: &[MapView<'a>], it: &Event) -> Option<MapView<'a>>
    ensures { option_map map_of result ≡ map_for (map map_of maps.now) (body_of it.now) }
{
    match it {
        Event::Rows(rows) => find(maps, rows.id),
        Event::Query(_) => None,
        Event::Rotate { .. } => None,
        Event::IntVar { .. } => None,
        Event::Rand { .. } => None,
        Event::UserVar(_) => None,
        Event::FormatDescription { .. } => None,
        Event::Xid { .. } => None,
        Event::TableMap(_) => None,
    }
}

/// Puts the line of an event to the end of others.
fn put_line(
    alloc: Global,
    lines: &mut Bytes,
    it: &Event,
    maps: &[MapView],
    pos: u64,
) -> Result<(), NoMemory>
    ensures { OnOk result (lines.new ≡ lines.old ++ (line_of (map_for (map map_of maps.now) (body_of it.now)) pos (seen it.now) ++ 0x0a ∷ [])) }
{
    let map = map_for(maps, it);
    let text = line(alloc, it, map.as_ref(), pos)?;
    lines.append(text)?;
    lines.push(b'\n')
}

/// The maps of the item under way, behind an event.
fn keep_maps<'a>(maps: &mut List<MapView<'a>>, it: &Event<'a>) -> Result<(), NoMemory>
    ensures { OnOk result (map map_of maps.new ≡ maps_behind (map map_of maps.old) (body_of it.now)) }
{
    match it {
        Event::TableMap(table) => maps.push(*table),
        Event::Rows(rows) => {
            if rows.ends {
                maps.clear();
            }
            Ok(())
        }
        Event::Query(_) => Ok(()),
        Event::Rotate { .. } => Ok(()),
        Event::IntVar { .. } => Ok(()),
        Event::Rand { .. } => Ok(()),
        Event::UserVar(_) => Ok(()),
        Event::FormatDescription { .. } => Ok(()),
        Event::Xid { .. } => Ok(()),
    }
}

/// Puts a line for each event of a group to the end of others.
pub(crate) fn put_lines(
    alloc: Global,
    lines: &mut Bytes,
    bytes: &[u8],
    begin: u64,
) -> Result<(), NoMemory>
    ensures { OnOk result (lines.new ≡ lines.old ++ lines_from [] (events_from (record { bytes = bytes.now; pos = begin }))) }
{
    let mut maps = List::new(alloc);
    let mut rest = bytes;
    let mut pos = begin;
    while let Read::Event(event) = read_event(rest, pos) {
        put_line(alloc, lines, &event, maps.as_slice(), pos)?;
        keep_maps(&mut maps, &event)?;
        let (_, behind) = rest.split_at(event.length() as usize);
        rest = behind;
        pos += event.length();
    }
    Ok(())
}
