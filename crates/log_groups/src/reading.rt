//! The group at the front of some bytes.
ghost use Rattle.std.specs.Prelude.{◌≡◌, ◌<◌, ◌^◌, ◌+◌};
ghost use Rattle.event_codec.specs.Event.{body_of, query_of, seen, size_of};
ghost use Rattle.row_image.specs.log_model.Events.{events_from, stop_from};
ghost use Rattle.row_image.specs.log_model.Groups.{begun_by, first, group_at, scan, txn_of};
ghost use Rattle.log_groups.specs.Views.{next_of, place_of, query_at};

use crate::group::{Form, Group, Next};
use crate::items::Items;
use crate::stage::{Move, Stage, advance};
use event_codec::{Event, QueryView, Read, read_event};

/// The text that begins a transaction.
pub(crate) const BEGIN: [u8; 5] = *b"BEGIN";

/// The transaction behind its BEGIN.
fn transaction<'a>(opening: &QueryView<'a>, begin: u64, items: Items<'a>) -> Next<'a>
    ensures { next_of result ≡ txn_of (query_at begin opening.now) (query_of opening.now) (events_from (place_of items.entry)) (scan first (events_from (place_of items.entry)) (stop_from (place_of items.entry))) }
{
    let mut here = items;
    let mut stage = Stage::First;
    loop {
        match read_event(here.bytes, here.pos) {
            Read::Event(event) => match advance(stage, &event, here) {
                Move::Go(next) => {
                    stage = next;
                    here = here.past(event.length());
                }
                Move::Close(number) => {
                    return Next::Group(Group {
                        form: Form::Txn {
                            begin: *opening,
                            items,
                            xid: number,
                        },
                        begin,
                        end: here.pos + event.length(),
                    });
                }
                Move::Refuse => return Next::Damaged { pos: here.pos },
            },
            Read::Short { .. } => return Next::NotWhole,
            Read::Damaged { pos } => return Next::Damaged { pos },
            Read::Foreign { pos, kind } => return Next::Foreign { pos, kind },
        }
    }
}

/// A group of one event.
fn alone<'a>(form: Form<'a>, begin: u64, length: u64) -> Next<'a>
    requires { begin + length < 2 ^ 64 }
    ensures { result ≡ Next.Group (record { form = form.entry; begin = begin; end = begin + length }) }
{
    Next::Group(Group {
        form,
        begin,
        end: begin + length,
    })
}

/// The group that an event begins, with what is behind it.
fn begun<'a>(event: &Event<'a>, begin: u64, behind: Items<'a>) -> Next<'a>
    requires { begin + size_of event.now < 2 ^ 64 }
    ensures { next_of result ≡ begun_by (record { pos = begin; event = seen event.now }) (events_from (place_of behind.entry)) (stop_from (place_of behind.entry)) (body_of event.now) }
{
    match event {
        Event::Query(query) => {
            if query.text == BEGIN.as_slice() {
                transaction(query, begin, behind)
            } else {
                alone(Form::Ddl(*query), begin, query.length)
            }
        }
        Event::Rotate { length, next, .. } => alone(Form::Rotate { next: *next }, begin, *length),
        Event::FormatDescription { length, .. } => {
            if begin == 4 {
                alone(Form::Start, begin, *length)
            } else {
                Next::Damaged { pos: begin }
            }
        }
        Event::IntVar { .. } => Next::Damaged { pos: begin },
        Event::Rand { .. } => Next::Damaged { pos: begin },
        Event::UserVar(_) => Next::Damaged { pos: begin },
        Event::Xid { .. } => Next::Damaged { pos: begin },
        Event::TableMap(_) => Next::Damaged { pos: begin },
        Event::Rows(_) => Next::Damaged { pos: begin },
    }
}

/// Reads the group at the front of `bytes`, which stand from `pos` on in their log. What follows the
/// group is not looked at.
pub fn next_group(bytes: &[u8], pos: u64) -> Next<'_>
    ensures { next_of result ≡ group_at (record { bytes = bytes.now; pos = pos }) }
{
    let here = Items { bytes, pos };
    match read_event(bytes, pos) {
        Read::Event(event) => begun(&event, pos, here.past(event.length())),
        Read::Short { .. } => Next::NotWhole,
        Read::Damaged { pos } => Next::Damaged { pos },
        Read::Foreign { pos, kind } => Next::Foreign { pos, kind },
    }
}
