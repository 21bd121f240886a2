//! The numbers of one unique key.
ghost use Rattle.std.specs.Prelude.{◌≡◌, ◌-◌, ◌^◌, ◌<◌, ◌≤◌, length, Some, None, MatchResult};
ghost use Rattle.std.specs.Option.{option_map};
ghost use Rattle.val_types.specs.Keys.{values_at};
ghost use Rattle.block_list.specs.Layouts.{flat, holds, AreWithinDigits};
ghost use Rattle.block_list.specs.Spots.{IsAt, IsFound, IsSpot};
ghost use Rattle.row_sheets.specs.Slots.{held};
ghost use Rattle.row_sheets.specs.Orders.{by_key, NumbersRise};
ghost use Rattle.row_index.specs.Numbers.{number_slot, number_slots, CanPut, IsPut, IsTaken};

use crate::comparing::{columns_cmp, has_null, no_columns_cmp, nothing_cmp, values_cmp};
use crate::rows::RowsByNumber;
use block_list::{Blocks, Spot, Steps};
use std::cmp::Ordering;
use std::sync::ledger::Ledger;
use val_types::{KeyDef, Row};

/// How the values of a number's row stand to those of a row.
fn number_cmp<R: RowsByNumber>(key: &KeyDef, rows: &R, row: &Row, number: u32) -> Ordering
    ensures { result ≡ by_key (number_slot key.now (R.row_of rows.now)) (values_at key.now.columns row.now) number }
{
    match rows.row(number) {
        Some(other) => values_cmp(other, row, key),
        None => nothing_cmp(row, key),
    }
}

/// Where the number of the row with the values of a row stands, or belongs.
fn spot_of<R: RowsByNumber>(
    numbers: &Blocks,
    key: &KeyDef,
    rows: &R,
    row: &Row,
) -> Result<Spot, Spot>
    requires { NumbersRise (number_slot key.now (R.row_of rows.now)) (flat numbers.now.blocks) }
    ensures found { IsFound (by_key (number_slot key.now (R.row_of rows.now)) (values_at key.now.columns row.now)) numbers.now.blocks result }
    ensures spot { MatchResult result (λ spot. IsAt numbers.now.blocks spot) (λ spot. IsSpot numbers.now.blocks spot) }
{
    let compare = |number: u32| -> Ordering
        ensures { result ≡ by_key (number_slot key.entry.now (R.row_of rows.entry.now)) (values_at key.entry.now.columns row.entry.now) number }
    { number_cmp(key, rows, row, number) };
    numbers.find(&compare)
}

/// How the values of a number's row stand to values that are looked for.
fn number_cmp_to<R: RowsByNumber>(key: &KeyDef, rows: &R, values: &Row, number: u32) -> Ordering
    ensures { result ≡ by_key (number_slot key.now (R.row_of rows.now)) values.now number }
{
    match rows.row(number) {
        Some(row) => columns_cmp(row, &key.columns, values),
        None => no_columns_cmp(values),
    }
}

/// Where the number of the row with some values stands, or belongs, in counted comparisons.
fn spot_in<R: RowsByNumber, L: Ledger>(
    numbers: &Blocks,
    key: &KeyDef,
    rows: &R,
    values: &Row,
    steps: &mut Steps<L>,
) -> Result<Spot, Spot>
    requires { NumbersRise (number_slot key.now (R.row_of rows.now)) (flat numbers.now.blocks) }
    ensures found { IsFound (by_key (number_slot key.now (R.row_of rows.now)) values.now) numbers.now.blocks result }
    ensures spot { MatchResult result (λ spot. IsAt numbers.now.blocks spot) (λ spot. IsSpot numbers.now.blocks spot) }
    ensures cost { AreWithinDigits (length (flat numbers.now.blocks)) (steps.new - steps.old) }
    ensures more { steps.old ≤ steps.new }
{
    let compare = |number: u32| -> Ordering
        ensures { result ≡ by_key (number_slot key.entry.now (R.row_of rows.entry.now)) values.entry.now number }
    { number_cmp_to(key, rows, values, number) };
    numbers.search(&compare, steps)
}

/// The number whose row has the values of a row.
pub(crate) fn number_of<R: RowsByNumber>(
    numbers: &Blocks,
    key: &KeyDef,
    rows: &R,
    row: &Row,
) -> Option<u32>
    requires { NumbersRise (number_slot key.now (R.row_of rows.now)) (flat numbers.now.blocks) }
    ensures { held (values_at key.now.columns row.now) (number_slots key.now (R.row_of rows.now) (flat numbers.now.blocks)) ≡ option_map (R.row_of rows.now) result }
{
    match spot_of(numbers, key, rows, row) {
        Ok(spot) => numbers.get(spot),
        Err(_) => None,
    }
}

/// The number whose row has some values, in counted comparisons.
pub(crate) fn number_in<R: RowsByNumber, L: Ledger>(
    numbers: &Blocks,
    key: &KeyDef,
    rows: &R,
    values: &Row,
    steps: &mut Steps<L>,
) -> Option<u32>
    requires { NumbersRise (number_slot key.now (R.row_of rows.now)) (flat numbers.now.blocks) }
    ensures number { held values.now (number_slots key.now (R.row_of rows.now) (flat numbers.now.blocks)) ≡ option_map (R.row_of rows.now) result }
    ensures cost { AreWithinDigits (length (flat numbers.now.blocks)) (steps.new - steps.old) }
    ensures more { steps.old ≤ steps.new }
{
    match spot_in(numbers, key, rows, values, steps) {
        Ok(spot) => numbers.get(spot),
        Err(_) => None,
    }
}

/// Puts the number of a row where its values belong; nowhere where it has a NULL in the key.
pub(crate) fn put_number<R: RowsByNumber>(
    numbers: &mut Blocks,
    key: &KeyDef,
    rows: &R,
    row: &Row,
    number: u32,
)
    requires there { R.row_of rows.now number ≡ Some row.now }
    requires can { CanPut key.now (R.row_of rows.now) numbers.old }
    ensures { IsPut key.now (R.row_of rows.now) row.now numbers.old numbers.new }
{
    if has_null(row, key) {
        return;
    }
    match spot_of(numbers, key, rows, row) {
        Ok(_) => {}
        Err(spot) => {
            numbers.has_room();
            numbers.put(spot, number);
        }
    }
}

/// Takes the number of the row with the values of a row out; none where that has a NULL in the key.
pub(crate) fn take_number<R: RowsByNumber>(numbers: &mut Blocks, key: &KeyDef, rows: &R, row: &Row)
    requires { NumbersRise (number_slot key.now (R.row_of rows.now)) (flat numbers.old.blocks) }
    ensures { IsTaken key.now (R.row_of rows.now) row.now numbers.old numbers.new }
{
    if has_null(row, key) {
        return;
    }
    match spot_of(numbers, key, rows, row) {
        Ok(spot) => {
            let _ = numbers.take(spot);
        }
        Err(_) => {}
    }
}
