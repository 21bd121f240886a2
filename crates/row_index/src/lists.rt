//! The lists of all unique keys of a table.
ghost use Rattle.std.specs.Prelude.{◌≡◌, ◌≢◌, ◌-◌, ◌^◌, ◌<◌, ◌≤◌, ℕ, [], length, vec_len, option_copied, slice_get, Some, OnOk};
ghost use Rattle.std.specs.Option.{option_map};
ghost use Rattle.val_types.specs.Keys.{values_at};
ghost use Rattle.block_list.specs.Layouts.{holds, AreWithinDigits};
ghost use Rattle.row_sheets.specs.Slots.{held};
ghost use Rattle.row_sheets.specs.Orders.{NumbersRise};
ghost use Rattle.row_index.specs.Numbers.{number_slot, number_slots, CanPut, IsPut, IsTaken};
ghost use Rattle.row_index.specs.Lists.{list_at, numbers_at, CanPutInAll, IsPutInAll, IsTakenOfAll, KeepsNumbers, OfEach};

use crate::numbers::{number_in, number_of, put_number, take_number};
use crate::rows::RowsByNumber;
use block_list::{Blocks, Steps};
use std::alloc::Global;
use std::sync::ledger::Ledger;
use val_types::{KeyDef, NoMemory, Row, TableDef};

/// The list of a unique key, None where it is not there yet.
fn list_of(lists: &Vec<Blocks>, which: usize) -> Option<&Blocks>
    ensures { option_copied result ≡ slice_get lists.now.items which }
{
    lists.get(which)
}

/// The number whose row has the values of a row in a unique key.
pub fn found_in<R: RowsByNumber>(
    lists: &Vec<Blocks>,
    which: usize,
    key: &KeyDef,
    rows: &R,
    row: &Row,
) -> Option<u32>
    requires { NumbersRise (number_slot key.now (R.row_of rows.now)) (numbers_at lists.now.items which) }
    ensures { held (values_at key.now.columns row.now) (number_slots key.now (R.row_of rows.now) (numbers_at lists.now.items which)) ≡ option_map (R.row_of rows.now) result }
{
    match list_of(lists, which) {
        Some(numbers) => number_of(numbers, key, rows, row),
        None => None,
    }
}

/// The number whose row has some values in a unique key, in counted comparisons.
pub fn search_in<R: RowsByNumber, L: Ledger>(
    lists: &Vec<Blocks>,
    which: usize,
    key: &KeyDef,
    rows: &R,
    values: &Row,
    steps: &mut Steps<L>,
) -> Option<u32>
    requires { NumbersRise (number_slot key.now (R.row_of rows.now)) (numbers_at lists.now.items which) }
    ensures number { held values.now (number_slots key.now (R.row_of rows.now) (numbers_at lists.now.items which)) ≡ option_map (R.row_of rows.now) result }
    ensures cost { AreWithinDigits (length (numbers_at lists.now.items which)) (steps.new - steps.old) }
    ensures more { steps.old ≤ steps.new }
{
    match list_of(lists, which) {
        Some(numbers) => number_in(numbers, key, rows, values, steps),
        None => None,
    }
}

/// Puts the number of a row into one list.
fn put_one<R: RowsByNumber>(
    lists: &mut Vec<Blocks>,
    which: usize,
    key: &KeyDef,
    rows: &R,
    row: &Row,
    number: u32,
)
    requires there { R.row_of rows.now number ≡ Some row.now }
    requires can { CanPut key.now (R.row_of rows.now) (list_at lists.old.items which) }
    ensures put { IsPut key.now (R.row_of rows.now) row.now (list_at lists.old.items which) (list_at lists.new.items which) }
    ensures others { (other : ℕ) → other ≢ which → list_at lists.new.items other ≡ list_at lists.old.items other }
{
    put_number(&mut lists[which], key, rows, row, number);
}

/// Takes the number of the row with the values of a row out of one list.
fn take_one<R: RowsByNumber>(
    lists: &mut Vec<Blocks>,
    which: usize,
    key: &KeyDef,
    rows: &R,
    row: &Row,
)
    requires { NumbersRise (number_slot key.now (R.row_of rows.now)) (numbers_at lists.old.items which) }
    ensures taken { IsTaken key.now (R.row_of rows.now) row.now (list_at lists.old.items which) (list_at lists.new.items which) }
    ensures others { (other : ℕ) → other ≢ which → list_at lists.new.items other ≡ list_at lists.old.items other }
{
    if which < lists.len() {
        take_number(&mut lists[which], key, rows, row);
    }
}

/// Puts the number of a row into the list of each unique key of a table, unless the row has a NULL there.
pub fn put_row<R: RowsByNumber>(
    lists: &mut Vec<Blocks>,
    definition: &TableDef,
    rows: &R,
    row: &Row,
    number: u32,
)
    requires there { R.row_of rows.now number ≡ Some row.now }
    requires can { CanPutInAll definition.now.uniques (R.row_of rows.now) lists.old.items }
    ensures { IsPutInAll definition.now.uniques (R.row_of rows.now) row.now lists.old.items lists.new.items }
{
    for (which, key) in definition.uniques.as_slice().iter().enumerate() {
        put_one(lists, which, key, rows, row, number);
    }
}

/// Takes the number of the row with the values of a row out of the list of each unique key of a table.
pub fn take_row<R: RowsByNumber>(
    lists: &mut Vec<Blocks>,
    definition: &TableDef,
    rows: &R,
    row: &Row,
)
    requires { OfEach definition.now.uniques (λ which key. NumbersRise (number_slot key (R.row_of rows.now)) (numbers_at lists.old.items which)) }
    ensures { IsTakenOfAll definition.now.uniques (R.row_of rows.now) row.now lists.old.items lists.new.items }
{
    for (which, key) in definition.uniques.as_slice().iter().enumerate() {
        take_one(lists, which, key, rows, row);
    }
}

/// Makes so many lists, where there are fewer.
fn add_lists(lists: &mut Vec<Blocks>, alloc: Global, count: usize) -> Result<(), NoMemory>
    ensures made { OnOk result (count ≤ vec_len lists.new) }
    ensures keeps { KeepsNumbers lists.old.items lists.new.items }
{
    while lists.len() < count {
        lists.push(Blocks::new(alloc))?;
    }
    Ok(())
}

/// Makes one list hold so many numbers.
fn make_one_hold(
    lists: &mut Vec<Blocks>,
    alloc: Global,
    which: usize,
    count: usize,
) -> Result<(), NoMemory>
    requires within { which < vec_len lists.old }
    requires few { count ≤ 2 ^ 33 }
    ensures made { OnOk result (count ≤ holds (list_at lists.new.items which)) }
    ensures len { vec_len lists.new ≡ vec_len lists.old }
    ensures keeps { KeepsNumbers lists.old.items lists.new.items }
{
    lists[which].make_hold(alloc, count)
}

/// Makes so many lists hold so many numbers, whichever are put and taken out. Where there is no memory, some may hold more than before.
pub fn make_hold(
    lists: &mut Vec<Blocks>,
    alloc: Global,
    keys: usize,
    count: usize,
) -> Result<(), NoMemory>
    requires { count ≤ 2 ^ 33 }
    ensures made { OnOk result ((which : ℕ) → which < keys → count ≤ holds (list_at lists.new.items which)) }
    ensures keeps { KeepsNumbers lists.old.items lists.new.items }
{
    add_lists(lists, alloc, keys)?;
    for which in 0..keys {
        make_one_hold(lists, alloc, which, count)?;
    }
    Ok(())
}

/// Takes all numbers out of one list.
fn clear_one(lists: &mut Vec<Blocks>, which: usize)
    requires { which < vec_len lists.old }
    ensures none { numbers_at lists.new.items which ≡ [] }
    ensures len { vec_len lists.new ≡ vec_len lists.old }
    ensures holds { (other : ℕ) → holds (list_at lists.new.items other) ≡ holds (list_at lists.old.items other) }
    ensures others { (other : ℕ) → other ≢ which → list_at lists.new.items other ≡ list_at lists.old.items other }
{
    lists[which].clear();
}

/// Takes all numbers out; the lists hold as many as before.
pub fn clear_lists(lists: &mut Vec<Blocks>)
    ensures none { (which : ℕ) → numbers_at lists.new.items which ≡ [] }
    ensures holds { (which : ℕ) → holds (list_at lists.new.items which) ≡ holds (list_at lists.old.items which) }
{
    for which in 0..lists.len() {
        clear_one(lists, which);
    }
}
