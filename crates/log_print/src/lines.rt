//! The line of an event.
ghost use Rattle.std.specs.Prelude.{◌≡◌, IfOk};
ghost use Rattle.event_codec.specs.Event.{seen};
ghost use Rattle.log_print.specs.Lines.{line_of, map_seen};

use crate::events::put_event;
use crate::putting::put_number;
use event_codec::{Event, MapView};
use std::alloc::Global;
use val_types::{Bytes, NoMemory};

/// The line that shows an event at a place of its log, without a line feed at its end, as
/// `309 XID 2`. `map` is the map of the table that rows are of; for other events it is not looked at.
/// Names, texts and versions show as their bytes, those outside 20 to 7E and the backslash as `\xhh`;
/// values of user variables and rows show as in answers.
pub fn line(
    alloc: Global,
    event: &Event,
    map: Option<&MapView>,
    pos: u64,
) -> Result<Bytes, NoMemory>
    ensures { IfOk result (λ text. text ≡ line_of (map_seen map.entry) pos (seen event.now)) }
{
    let mut text = Bytes::new(alloc);
    put_number(alloc, &mut text, b"", pos)?;
    text.push(b' ')?;
    put_event(alloc, &mut text, event, map)?;
    Ok(text)
}
