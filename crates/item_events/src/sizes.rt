//! How many bytes the events of an item have, at most the greatest number of 64 bits.
ghost use Rattle.std.specs.Prelude.{◌≡◌, ◌≤◌, ℕ, length};
ghost use Rattle.std.specs.Int.{w64, cast_unsigned};
ghost use Rattle.std.specs.Option.{option_map};
ghost use Rattle.event_codec.specs.declared.event.IntVarKind.{IntVarKind};
ghost use Rattle.event_codec.specs.Event.{int_var, query, rand, user_var};
ghost use Rattle.event_codec.specs.Writing.{size, step_bytes, value_bytes};
ghost use Rattle.row_events.specs.log_model.Items.{at_time, item_size, query_of, step_of, text_of};
ghost use Rattle.row_events.specs.log_model.Spelling.{bodies_of};
ghost use Rattle.row_events.specs.log_model.Written.{total};
ghost use Rattle.row_events.specs.Sizes.{bounded, sizes};
ghost use Rattle.item_events.specs.Parts.{if_some, numbers, variables};

use crate::text::step_of;
use row_events::log_entries::{Carried, Item, Vars};
use row_events::rows_size;
use val_types::{Bytes, Value};

/// How many bytes an INTVAR has, where there is a number.
#[tactic(auto, unfolding(event_codec::specs::Writing::size, byte_fields::specs::Field::number_bytes))]
fn int_var_size(number: Option<i64>) -> u64
    ensures exact { (kind : IntVarKind) → result ≡ sizes (if_some (int_var kind) (option_map (cast_unsigned w64) number)) }
    ensures few { result ≤ 28 }
{
    match number {
        None => 0,
        Some(_) => 28,
    }
}

/// How many bytes a RAND has, where there are seeds.
#[tactic(auto, unfolding(event_codec::specs::Writing::size, byte_fields::specs::Field::number_bytes))]
fn seeds_size(seeds: Option<(u64, u64)>) -> u64
    ensures exact { result ≡ sizes (if_some (λ s. rand s.0 s.1) seeds) }
    ensures few { result ≤ 35 }
{
    match seeds {
        None => 0,
        Some(_) => 35,
    }
}

/// How many bytes the numbers have that a statement needs.
fn numbers_size(carried: &Carried) -> u64
    ensures { result ≡ sizes (numbers carried.now) }
{
    int_var_size(carried.last_id) + int_var_size(carried.first) + seeds_size(carried.seeds)
}

/// How many bytes the value of a user variable has, with the byte that says whether it is NULL.
#[tactic(auto, unfolding(byte_fields::specs::Field::number_bytes))]
fn content_size(value: &Value) -> u64
    ensures { result ≡ bounded (length (value_bytes value.now)) }
{
    match value {
        Value::Null => 1,
        Value::Int(_) => 19,
        Value::Text(text) => (text.len() as u64).saturating_add(11),
    }
}

/// How many bytes a USER_VAR has.
#[tactic(auto, using(crate::proofs::Measuring::size_of_var))]
fn var_size(name: &Bytes, value: &Value) -> u64
    ensures { result ≡ bounded (size (user_var name.now value.now)) }
{
    let name_size = (name.len() as u64).saturating_add(23);
    name_size.saturating_add(content_size(value))
}

/// How many bytes USER_VARs have.
fn vars_size(vars: &Vars) -> u64
    ensures { result ≡ bounded (sizes (variables vars.now)) }
{
    let mut size: u64 = 0;
    for place in 0..vars.len() {
        match vars.at(place) {
            Some((name, value)) => size = size.saturating_add(var_size(name, value)),
            None => {}
        }
    }
    size
}

/// How many bytes increment and offset have, where they are not 1 and 1.
#[tactic(auto, unfolding(byte_fields::specs::Field::number_bytes))]
fn step_size(increment: u16, offset: u16) -> u64
    ensures { result ≡ length (step_bytes (step_of increment offset)) }
{
    match step_of(increment, offset) {
        None => 0,
        Some(_) => 5,
    }
}

/// How many bytes the QUERY of a text has.
fn query_size(text: &Bytes, carried: &Carried) -> u64
    ensures { result ≡ bounded (size (query (query_of text.now carried.now))) }
{
    let text_size = (text.len() as u64).saturating_add(35);
    text_size.saturating_add(step_size(carried.inc, carried.off))
}

/// How many bytes the events of an item by its text have, at whatever time.
fn text_size(text: &Bytes, carried: &Carried) -> u64
    ensures { (stamp : ℕ) → result ≡ bounded (total (at_time stamp (bodies_of (text_of text.now carried.now)))) }
{
    let needs = numbers_size(carried).saturating_add(vars_size(&carried.vars));
    needs.saturating_add(query_size(text, carried))
}

/// How many bytes the events of an item have in a log, or the greatest number of 64 bits where they
/// have more. Takes no memory.
pub fn item_size(item: &Item) -> u64
    ensures { result ≡ bounded (item_size item.now) }
{
    if item.rows {
        rows_size(&item.defs, item.changes.as_slice())
    } else {
        text_size(&item.text, &item.carried)
    }
}
