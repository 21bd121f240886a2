//! A look at a group while its bytes come, event after event.
ghost use Rattle.std.specs.Prelude.{◌≡◌, ◌≤◌, ◌<◌, ◌+◌, ◌^◌, ◌⊎◌, ℕ, List, [], length};
ghost use Rattle.event_codec.specs.Event.{body_of, seen, size_of};
ghost use Rattle.event_codec.specs.Reading.{event, reading};
ghost use Rattle.log_groups.specs.Growing.{InTransaction, IsLooked, LookGives, LooksStay, MarkCounts, MarkLies, MarkStands, after, goes_on, mark_behind, mark_behind_map, mark_behind_rows, mark_behind_var, stage_at};
ghost use Rattle.log_groups.specs.Views.{StandsAt, place_of, stage_of};

use crate::items::Items;
use crate::reading::BEGIN;
use crate::stage::{Move, Stage, advance};
use event_codec::{Event, IntVarKind, Read, read_event};

/// How many bytes a header has.
const HEADER_LENGTH: u64 = 19;

/// Where one stands in a transaction behind events that were passed, as a stage says, with how many bytes of the group stand
/// before the item of maps and rows.
#[derive(Clone, Copy)]
pub enum Mark {
    First,
    Between,
    Vars { passed: u64 },
    Maps { item: u64, count: u64 },
    Rows { item: u64, count: u64 },
}

/// How far bytes were looked at: so many of them were passed, and the next look needs so many.
#[derive(Clone, Copy)]
pub struct Progress {
    pub looked: u64,
    pub upto: u64,
    pub mark: Mark,
}

/// What a look comes to: the group goes on behind these bytes; or what stands at their front is settled.
#[derive(Clone, Copy)]
pub enum Look {
    GoesOn(Progress),
    Settled,
}

impl Progress {
    /// Before the first look.
    pub fn new() -> Progress
        ensures looked { (bytes : List ℕ) (pos : ℕ) → IsLooked bytes pos result }
        ensures upto { result.upto ≡ 19 }
    {
        Progress {
            looked: 0,
            upto: HEADER_LENGTH,
            mark: Mark::First,
        }
    }
}

/// A law of looks: what was looked at stays so as more bytes come.
pub fn looks_stay()
    ensures { LooksStay }
{}

/// The stage of a mark in a group that begins here, behind so many bytes.
fn stage_at<'a>(mark: Mark, group: Items<'a>, looked: u64) -> Stage<'a>
    requires item { MarkLies mark looked }
    requires within { looked ≤ length group.bytes.now }
    requires place { group.pos + looked < 2 ^ 64 }
    requires stands { MarkStands mark looked (place_of group) }
    ensures exact { stage_of result ≡ stage_at mark (place_of group.entry) }
    ensures stands { StandsAt result (after looked (place_of group.entry)) }
{
    match mark {
        Mark::First => Stage::First,
        Mark::Between => Stage::Between,
        Mark::Vars { passed } => Stage::Vars { passed },
        Mark::Maps { item, count } => Stage::Maps {
            items: group.past(item),
            count,
        },
        Mark::Rows { item, count } => Stage::Rows {
            items: group.past(item),
            count,
        },
    }
}

/// The mark behind a variable of this kind.
fn mark_behind_var(kind: IntVarKind) -> Mark
    ensures { result ≡ mark_behind_var kind }
{
    match kind {
        IntVarKind::LastInsertId => Mark::Vars { passed: 1 },
        IntVarKind::InsertId => Mark::Vars { passed: 2 },
    }
}

/// The mark behind a map, which is the first of an item or one more.
fn mark_behind_map(mark: Mark, looked: u64) -> Mark
    requires { MarkCounts mark 1200000000 }
    ensures { result ≡ mark_behind_map mark looked }
{
    match mark {
        Mark::Maps { item, count } => Mark::Maps {
            item,
            count: count + 1,
        },
        Mark::First => Mark::Maps {
            item: looked,
            count: 1,
        },
        Mark::Between => Mark::Maps {
            item: looked,
            count: 1,
        },
        Mark::Vars { .. } => Mark::Maps {
            item: looked,
            count: 1,
        },
        Mark::Rows { .. } => Mark::Maps {
            item: looked,
            count: 1,
        },
    }
}

/// The mark behind rows that are not the last of their item.
fn mark_behind_rows(mark: Mark) -> Mark
    ensures { result ≡ mark_behind_rows mark }
{
    match mark {
        Mark::Maps { item, count } => Mark::Rows { item, count },
        Mark::Rows { item, count } => Mark::Rows { item, count },
        Mark::First => Mark::Between,
        Mark::Between => Mark::Between,
        Mark::Vars { .. } => Mark::Between,
    }
}

/// The mark behind an event that goes on.
fn mark_behind(mark: Mark, looked: u64, event: &Event) -> Mark
    requires { MarkCounts mark 1200000000 }
    ensures { result ≡ mark_behind mark looked (body_of event.now) }
{
    match event {
        Event::Query(_) => Mark::Between,
        Event::IntVar { kind, .. } => mark_behind_var(*kind),
        Event::Rand { .. } => Mark::Vars { passed: 3 },
        Event::UserVar(_) => Mark::Vars { passed: 3 },
        Event::TableMap(_) => mark_behind_map(mark, looked),
        Event::Rows(rows) => {
            if rows.ends {
                Mark::Between
            } else {
                mark_behind_rows(mark)
            }
        }
        Event::Rotate { .. } => Mark::Between,
        Event::FormatDescription { .. } => Mark::Between,
        Event::Xid { .. } => Mark::Between,
    }
}

/// The group goes on behind an event of so many bytes.
fn go_on(progress: Progress, size: u64, mark: Mark) -> Look
    requires { progress.looked + size ≤ 1200000000 }
    ensures { result ≡ Look.GoesOn (goes_on progress.looked size mark) }
{
    let looked = progress.looked + size;
    Look::GoesOn(Progress {
        looked,
        upto: looked + HEADER_LENGTH,
        mark,
    })
}

/// What a group's first event comes to.
fn opened(it: &Event, group: Items<'_>, progress: Progress) -> Look
    requires looked { IsLooked group.bytes.now group.pos progress }
    requires few { length group.bytes.now ≤ progress.upto }
    requires none { progress.looked ≡ 0 }
    requires here { reading group.bytes.now group.pos ≡ event (seen it.now) }
    ensures { LookGives group.entry.bytes.now group.entry.pos progress result }
{
    match it {
        Event::Query(query) => {
            if query.text == BEGIN.as_slice() {
                go_on(progress, query.length, Mark::First)
            } else {
                Look::Settled
            }
        }
        Event::Rotate { .. } => Look::Settled,
        Event::IntVar { .. } => Look::Settled,
        Event::Rand { .. } => Look::Settled,
        Event::UserVar(_) => Look::Settled,
        Event::FormatDescription { .. } => Look::Settled,
        Event::Xid { .. } => Look::Settled,
        Event::TableMap(_) => Look::Settled,
        Event::Rows(_) => Look::Settled,
    }
}

/// What an event in a transaction comes to.
fn moved<'a>(it: &Event<'a>, group: Items<'a>, here: Items<'a>, progress: Progress) -> Look
    requires looked { IsLooked group.bytes.now group.pos progress }
    requires few { length group.bytes.now ≤ progress.upto }
    requires begun { InTransaction progress.mark progress.looked group.bytes.now group.pos }
    requires place { place_of here ≡ after progress.looked (place_of group) }
    requires here { reading here.bytes.now here.pos ≡ event (seen it.now) }
    ensures { LookGives group.entry.bytes.now group.entry.pos progress result }
{
    let stage = stage_at(progress.mark, group, progress.looked);
    match advance(stage, it, here) {
        Move::Go(_) => {
            let mark = mark_behind(progress.mark, progress.looked, it);
            go_on(progress, it.length(), mark)
        }
        Move::Close(_) => Look::Settled,
        Move::Refuse => Look::Settled,
    }
}

/// Looks at the event behind those that were passed, of bytes that stand from `pos` on in their log. Further events are not
/// looked at: there are none.
pub fn look_at(bytes: &[u8], pos: u64, progress: Progress) -> Look
    requires looked { IsLooked bytes.now pos progress }
    requires few { length bytes.now ≤ progress.upto }
    requires place { pos ≤ 1200000000 }
    ensures { LookGives bytes.now pos progress result }
{
    let group = Items { bytes, pos };
    let here = group.past(progress.looked);
    match read_event(here.bytes, here.pos) {
        Read::Event(event) => {
            if progress.looked == 0 {
                opened(&event, group, progress)
            } else {
                moved(&event, group, here, progress)
            }
        }
        Read::Short { need } => Look::GoesOn(Progress {
            looked: progress.looked,
            upto: progress.looked + need,
            mark: progress.mark,
        }),
        Read::Damaged { .. } => Look::Settled,
        Read::Foreign { .. } => Look::Settled,
    }
}
