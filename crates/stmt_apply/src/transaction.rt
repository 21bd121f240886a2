//! The events of a transaction, one after the other.
ghost use Rattle.std.specs.Prelude.{◌≡◌, ◌≤◌, [], drop, length, reverse, IfOk, OnErr, OnOk};
ghost use Rattle.event_codec.specs.Event.{body_of, map_of, query_of, rows_of, size_of};
ghost use Rattle.log_groups.specs.log_model.Groups.{find};
ghost use Rattle.log_groups.specs.Views.{part_of, parts};
ghost use Rattle.apply_model.specs.Groups.{Going, carry_changes, carry_rows, event_carried, with_bytes};
ghost use Rattle.apply_laws.specs.row_events.Sizes.{bounded};
ghost use Rattle.apply_laws.specs.binlog_sizes.Sizes.{changes_size};
ghost use Rattle.row_apply.specs.Ends.{Ends, Stays, progress_in};
ghost use Rattle.stmt_apply.specs.Applying.{applied_in, applier_in};
ghost use Rattle.stmt_apply.specs.Leading.{Opens};
ghost use Rattle.stmt_apply.specs.Needing.{Counts, MayStand};
ghost use Rattle.stmt_apply.specs.UnderWay.{ComesTo, Goes, Stands, items_from, text_carried, transaction_carried};

use crate::text::run_text;
use crate::under_way::{UnderWay, find_map};
use apply_laws::binlog_sizes::changes_size;
use event_codec::{Event, MapView, QueryView, RowsView};
use log_groups::row_image::rows_of;
use log_groups::{Items, Part};
use port_traits::{Draw, Identity};
use prog_run::Work;
use row_apply::{Stop, carry_change, stop_at};
use std::alloc::Global;
use val_types::{Change, Duplicate, List, NoMemory, SqlRefusal};

/// Changes from the last one on.
fn backwards(changes: List<Change>) -> List<Change>
    ensures { result ≡ reverse changes }
{
    let mut changes = changes.into_vec();
    changes.reverse();
    List::from_vec(changes)
}

/// The changes of an event at a place, one after the other, by the map of their table.
#[tactic(auto, using(row_apply::proofs::Staying::staying))]
fn carry_changes(
    alloc: Global,
    work: &mut Work,
    pos: u64,
    map: &MapView,
    changes: List<Change>,
) -> Result<(), Stop>
    ensures ends { Ends result (progress_in work.new) (carry_changes pos (map_of map.now) changes (progress_in work.old)) }
    ensures rest { Stays work.old work.new }
{
    let mut left = backwards(changes);
    while let Some(change) = left.pop() {
        carry_change(alloc, work, pos, map, change)?;
    }
    Ok(())
}

/// The rows of an event at a place.
#[tactic(auto, using(row_apply::proofs::Staying::staying))]
fn apply_rows(
    alloc: Global,
    work: &mut Work,
    under_way: &mut UnderWay,
    pos: u64,
    rows: &RowsView,
) -> Result<(), Stop>
    ensures goes { (g : Going) → Stands work.old under_way.old g → Goes result work.new under_way.new (carry_rows pos (rows_of rows.now) g (find rows.now.id g.maps)) }
    ensures rest { Stays work.old work.new }
{
    let Some(map) = find_map(under_way.maps.as_slice(), rows.id) else {
        return Ok(());
    };
    let changes = rows_of(alloc, &map, rows)?;
    let size = changes_size(changes.as_slice());
    carry_changes(alloc, work, pos, &map, changes)?;
    under_way.changed = under_way.changed.saturating_add(size);
    under_way.end_rows(alloc, under_way.begun.unwrap_or(pos), rows.ends)
}

/// How many bytes the changes behind a mark have, or the greatest number of 64 bits where they have more.
fn size_since(work: &Work, mark: u64) -> Result<u64, NoMemory>
    requires { mark ≤ length work.now.changes }
    ensures { IfOk result (λ size. size ≡ bounded (changes_size (drop mark work.now.changes))) }
{
    let changes = work.undo().since(mark)?;
    Ok(changes_size(changes.as_slice()))
}

/// The text of an event at a place.
fn apply_query(
    alloc: Global,
    work: &mut Work,
    under_way: &mut UnderWay,
    pos: u64,
    query: &QueryView,
    identity: &Identity,
    draw: &Draw,
) -> Result<(), Stop>
    requires { Counts query.now.step }
    ensures goes { (g : Going) → Stands work.old under_way.old g → Goes result work.new under_way.new (text_carried (applier_in identity.now draw.entry.now work.old) pos query.now.stamp (query_of query.now) g) }
    ensures rest { Stays work.old work.new }
{
    let mark = work.undo().mark();
    match run_text(alloc, work, query, &mut under_way.needs, identity, draw) {
        Ok(()) => {
            let size = size_since(work, mark)?;
            under_way.changed = under_way.changed.saturating_add(size);
            under_way.end_item(alloc, pos)
        }
        Err(SqlRefusal::Sql(code)) => Err(stop_at(alloc, pos, code)),
        Err(SqlRefusal::NoMemory) => Err(Stop::NoMemory),
    }
}

/// An event, whose bytes are counted.
#[tactic(auto, using(crate::proofs::Going::passes, crate::proofs::Going::mapped, row_apply::proofs::Staying::staying))]
fn apply_body<'a>(
    alloc: Global,
    work: &mut Work,
    under_way: &mut UnderWay<'a>,
    part: &Part<'a>,
    identity: &Identity,
    draw: &Draw,
) -> Result<(), Stop>
    requires { MayStand (body_of part.now.event) }
    ensures goes { (g : Going) → Stands work.old under_way.old g → Goes result work.new under_way.new (event_carried (applier_in identity.now draw.entry.now work.old) (part_of part.now) g (body_of part.now.event)) }
    ensures rest { Stays work.old work.new }
{
    match &part.event {
        Event::Query(query) => {
            apply_query(alloc, work, under_way, part.pos, query, identity, draw)
        }
        Event::TableMap(map) => {
            under_way.maps.push(*map)?;
            Ok(())
        }
        Event::Rows(rows) => apply_rows(alloc, work, under_way, part.pos, rows),
        Event::IntVar { kind, value, .. } => {
            under_way.needs.put_number(*kind, *value);
            Ok(())
        }
        Event::Rand { first, second, .. } => {
            under_way.needs.put_seeds(*first, *second);
            Ok(())
        }
        Event::UserVar(variable) => {
            under_way.needs.put_variable(alloc, variable)?;
            Ok(())
        }
        Event::Rotate { .. } => Ok(()),
        Event::FormatDescription { .. } => Ok(()),
        Event::Xid { .. } => Ok(()),
    }
}

/// An event.
fn apply_event<'a>(
    alloc: Global,
    work: &mut Work,
    under_way: &mut UnderWay<'a>,
    part: &Part<'a>,
    identity: &Identity,
    draw: &Draw,
) -> Result<(), Stop>
    requires { MayStand (body_of part.now.event) }
    ensures goes { (g : Going) → Stands work.old under_way.old g → Goes result work.new under_way.new (event_carried (applier_in identity.now draw.entry.now work.old) (part_of part.now) (with_bytes (size_of part.now.event) g) (body_of part.now.event)) }
    ensures rest { Stays work.old work.new }
{
    under_way.bytes = under_way.bytes.saturating_add(part.event.length());
    apply_body(alloc, work, under_way, part, identity, draw)
}

/// The events of a transaction's items.
#[tactic(auto, using(row_apply::proofs::Staying::staying))]
fn apply_items(
    alloc: Global,
    work: &mut Work,
    items: Items<'_>,
    identity: &Identity,
    draw: &Draw,
) -> Result<(), Stop>
    requires { work.old.changes ≡ [] }
    ensures comes { ComesTo result work.new (items_from (applier_in identity.now draw.entry.now work.old) (parts items.entry) work.old) }
    ensures rest { Stays work.old work.new }
{
    let mut walk = items;
    let mut under_way = UnderWay::new(alloc);
    while let Some(part) = walk.next() {
        apply_event(alloc, work, &mut under_way, &part, identity, draw)?;
    }
    Ok(())
}

/// What a transaction's items do, all of it or nothing, as want of memory does nothing. Its changes stand open.
#[tactic(auto, using(crate::proofs::Going::transaction_done, crate::proofs::Going::transaction_stopped, crate::proofs::Staying::given_back, crate::proofs::Leading::opens))]
pub(crate) fn apply_transaction(
    alloc: Global,
    work: &mut Work,
    items: Items<'_>,
    identity: &Identity,
    draw: &Draw,
) -> Result<(), Stop>
    requires { work.old.changes ≡ [] }
    ensures ends { Ends result (applied_in work.new) (transaction_carried (applier_in identity.now draw.entry.now work.old) (parts items.entry) work.old) }
    ensures opens { OnOk result (Opens work.old work.new) }
    ensures err { OnErr result (work.new ≡ work.old) }
{
    let counters = work.counters().duplicate(alloc)?;
    match apply_items(alloc, work, items, identity, draw) {
        Ok(()) => {
            work.together();
            Ok(())
        }
        Err(stop) => {
            work.give_up(counters);
            Err(stop)
        }
    }
}
