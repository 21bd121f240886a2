//! Where one stands in a transaction, and what an event does there.
ghost use Rattle.std.specs.Prelude.{◌≡◌, ◌<◌, ◌^◌, ◌+◌, ◌++◌, ◌∷◌, [], take};
ghost use Rattle.event_codec.specs.Event.{body_of, map_of, rows_of, seen, table_map};
ghost use Rattle.event_codec.specs.Reading.{event, reading};
ghost use Rattle.row_image.specs.log_model.Events.{past};
ghost use Rattle.row_image.specs.log_model.Groups.{begin_move, between_move, find, go, in_rows_move, int_var_move, maps, maps_move, move, rows_move, text_move};
ghost use Rattle.log_groups.specs.Views.{IsMaps, IsNoMaps, StandsAt, StandsThen, maps_in, move_of, parts, place_of, stage_of};

use crate::items::{Items, find_map};
use event_codec::{Event, IntVarKind, MapView, RowsView};
use row_image::rows_fit;

/// Behind BEGIN, behind an item, in the variables of a text, behind the first `count` events of a rows
/// item, which are its maps, or behind rows of these maps that are not the last.
#[derive(Clone, Copy)]
pub(crate) enum Stage<'a> {
    First,
    Between,
    /// So many kinds of variables are passed.
    Vars { passed: u64 },
    Maps { items: Items<'a>, count: u64 },
    Rows { items: Items<'a>, count: u64 },
}

/// What an event does there.
#[derive(Clone, Copy)]
pub(crate) enum Move<'a> {
    Go(Stage<'a>),
    Close(u64),
    Refuse,
}

/// What a LAST_INSERT_ID or INSERT_ID does behind so many kinds of variables.
fn int_var_move<'a>(passed: u64, kind: IntVarKind) -> Move<'a>
    ensures exact { move_of result ≡ int_var_move passed kind }
    ensures none { IsNoMaps result }
{
    let (last, now) = match kind {
        IntVarKind::LastInsertId => (1, 1),
        IntVarKind::InsertId => (2, 2),
    };
    if passed < last {
        Move::Go(Stage::Vars { passed: now })
    } else {
        Move::Refuse
    }
}

/// What an event of a text does behind so many kinds of variables.
fn text_move<'a>(passed: u64, it: &Event) -> Move<'a>
    ensures exact { move_of result ≡ text_move passed (body_of it.now) }
    ensures none { IsNoMaps result }
{
    match it {
        Event::Query(_) => Move::Go(Stage::Between),
        Event::IntVar { kind, .. } => int_var_move(passed, *kind),
        Event::Rand { .. } => {
            if passed < 3 {
                Move::Go(Stage::Vars { passed: 3 })
            } else {
                Move::Refuse
            }
        }
        Event::UserVar(_) => Move::Go(Stage::Vars { passed: 3 }),
        Event::Rotate { .. } => Move::Refuse,
        Event::FormatDescription { .. } => Move::Refuse,
        Event::Xid { .. } => Move::Refuse,
        Event::TableMap(_) => Move::Refuse,
        Event::Rows(_) => Move::Refuse,
    }
}

/// What rows do behind maps.
fn rows_move<'a>(items: Items<'a>, count: u64, rows: &RowsView) -> Move<'a>
    ensures exact { move_of result ≡ rows_move (maps_in (take count (parts items.entry))) (rows_of rows.now) (find rows.now.id (maps_in (take count (parts items.entry)))) }
    ensures none { IsNoMaps result }
{
    let Some(map) = find_map(items, count, rows.id) else {
        return Move::Refuse;
    };
    if !rows_fit(&map, rows) {
        Move::Refuse
    } else if rows.ends {
        Move::Go(Stage::Between)
    } else {
        Move::Go(Stage::Rows { items, count })
    }
}

/// What one more map does behind maps.
fn more_map<'a>(items: Items<'a>, count: u64, table: &MapView) -> Move<'a>
    requires few { count + 1 < 2 ^ 64 }
    requires more { maps_in (take (count + 1) (parts items)) ≡ maps_in (take count (parts items)) ++ map_of table.now ∷ [] }
    ensures exact { move_of result ≡ maps_move (maps_in (take count (parts items.entry))) (table_map (map_of table.now)) }
    ensures same { IsMaps result items.entry (count + 1) }
{
    if find_map(items, count, table.id).is_some() {
        Move::Refuse
    } else {
        Move::Go(Stage::Maps {
            items,
            count: count + 1,
        })
    }
}

/// What the first map of an item does.
fn first_map<'a>(table: &MapView, here: Items<'a>) -> Move<'a>
    requires { maps_in (take 1 (parts here)) ≡ map_of table.now ∷ [] }
    ensures exact { move_of result ≡ go (maps (map_of table.now ∷ [])) }
    ensures same { IsMaps result here.entry 1 }
{
    Move::Go(Stage::Maps {
        items: here,
        count: 1,
    })
}

/// What an event does where an item begins.
fn begin_move<'a>(it: &Event<'a>, here: Items<'a>) -> Move<'a>
    requires { reading here.bytes.now here.pos ≡ event (seen it.now) }
    ensures exact { move_of result ≡ begin_move (body_of it.now) }
    ensures stands { StandsThen result (past (seen it.now) (place_of here.entry)) }
{
    match it {
        Event::TableMap(table) => first_map(table, here),
        Event::Query(_) => text_move(0, it),
        Event::IntVar { .. } => text_move(0, it),
        Event::Rand { .. } => text_move(0, it),
        Event::UserVar(_) => text_move(0, it),
        Event::Rotate { .. } => Move::Refuse,
        Event::FormatDescription { .. } => Move::Refuse,
        Event::Xid { .. } => Move::Refuse,
        Event::Rows(_) => Move::Refuse,
    }
}

/// What an event does behind an item.
fn between_move<'a>(it: &Event<'a>, here: Items<'a>) -> Move<'a>
    requires { reading here.bytes.now here.pos ≡ event (seen it.now) }
    ensures exact { move_of result ≡ between_move (body_of it.now) }
    ensures stands { StandsThen result (past (seen it.now) (place_of here.entry)) }
{
    match it {
        Event::Xid { number, .. } => Move::Close(*number),
        Event::TableMap(_) => begin_move(it, here),
        Event::Query(_) => begin_move(it, here),
        Event::IntVar { .. } => begin_move(it, here),
        Event::Rand { .. } => begin_move(it, here),
        Event::UserVar(_) => begin_move(it, here),
        Event::Rotate { .. } => Move::Refuse,
        Event::FormatDescription { .. } => Move::Refuse,
        Event::Rows(_) => Move::Refuse,
    }
}

/// What an event does behind maps.
fn maps_move<'a>(items: Items<'a>, count: u64, it: &Event<'a>, here: Items<'a>) -> Move<'a>
    requires stands { StandsAt (Stage.Maps items count) (place_of here) }
    requires here { reading here.bytes.now here.pos ≡ event (seen it.now) }
    ensures exact { move_of result ≡ maps_move (maps_in (take count (parts items.entry))) (body_of it.now) }
    ensures stands { StandsThen result (past (seen it.now) (place_of here.entry)) }
{
    match it {
        Event::TableMap(table) => more_map(items, count, table),
        Event::Rows(rows) => rows_move(items, count, rows),
        Event::Query(_) => Move::Refuse,
        Event::Rotate { .. } => Move::Refuse,
        Event::IntVar { .. } => Move::Refuse,
        Event::Rand { .. } => Move::Refuse,
        Event::UserVar(_) => Move::Refuse,
        Event::FormatDescription { .. } => Move::Refuse,
        Event::Xid { .. } => Move::Refuse,
    }
}

/// What an event does behind rows.
fn in_rows_move<'a>(items: Items<'a>, count: u64, it: &Event<'a>) -> Move<'a>
    ensures exact { move_of result ≡ in_rows_move (maps_in (take count (parts items.entry))) (body_of it.now) }
    ensures none { IsNoMaps result }
{
    match it {
        Event::Rows(rows) => rows_move(items, count, rows),
        Event::Query(_) => Move::Refuse,
        Event::Rotate { .. } => Move::Refuse,
        Event::IntVar { .. } => Move::Refuse,
        Event::Rand { .. } => Move::Refuse,
        Event::UserVar(_) => Move::Refuse,
        Event::FormatDescription { .. } => Move::Refuse,
        Event::Xid { .. } => Move::Refuse,
        Event::TableMap(_) => Move::Refuse,
    }
}

/// What an event does at a stage, where it is the first of `here`.
pub(crate) fn advance<'a>(stage: Stage<'a>, it: &Event<'a>, here: Items<'a>) -> Move<'a>
    requires stands { StandsAt stage (place_of here) }
    requires here { reading here.bytes.now here.pos ≡ event (seen it.now) }
    ensures exact { move_of result ≡ move (stage_of stage.entry) (body_of it.now) }
    ensures stands { StandsThen result (past (seen it.now) (place_of here.entry)) }
{
    match stage {
        Stage::First => begin_move(it, here),
        Stage::Between => between_move(it, here),
        Stage::Vars { passed } => text_move(passed, it),
        Stage::Maps { items, count } => maps_move(items, count, it, here),
        Stage::Rows { items, count } => in_rows_move(items, count, it),
    }
}
